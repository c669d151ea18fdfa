//! A node for programs of C: each export is one call of a node that C holds by a handle. The header
//! `embedding/failreg.h` declares the exports, and says what C owes.
#![tactic(auto)]

mod answering;
mod calls;
mod cluster;
mod keeping;
mod pauses;
mod readers;
mod recording;
mod serving;
mod spreading;
mod version;
