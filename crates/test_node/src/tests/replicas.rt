//! Replicas: the plain one and the matrix, which learn the same and answer the same.

mod answers;
mod known_spend;
mod learning;
mod mixed;
mod reports;
mod steps;

use super::expect;
use super::joined::{expect_copy, grown, order, same, two};
use actions::{Name, parse_actions};
use answers::{Answers, answers, clock_of, is_as_before, seen};
use learning::learn_on;
use op_set::OpSet;
use replica_state::{Matrix, Op, Replica};
use stamp_register::{Body, Key};
use std::alloc::{AllocError, Global};
use std::process::Abort;
use std::test::Fail;
use steps::{Keyed, Step, name, op_of};
