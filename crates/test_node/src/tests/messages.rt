//! Messages as bytes, and replicas with versions that exchange them.

mod altered;
mod bytes;
mod difference;
mod greatest;
mod in_print;
mod readings;
mod versions;

use super::expect;
use bytes::{Bytes, EMPTY, ONE_GRANT, ONE_NAME, TWO_POINTS, bytes_of, with_byte};
use delta_exchange::Versioned;
use in_print::{fault, message_text, read, reading};
use message_format::{MAX_NODES, Message, NameEntry, WireFault, decode, encode};
use std::alloc::{AllocError, Global};
use std::process::Abort;
use std::test::Fail;
