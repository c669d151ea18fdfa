//! Examples from outside.
//!
//! A call that changes a value must change nothing if it is refused memory, and is then made again.
//! A test gives up if any other call is refused memory.

mod action_texts;
mod cells;
mod chances;
mod copies;
mod failing_streams;
mod fault_texts;
mod joined;
mod kept_drills;
mod keys;
mod lattices;
mod messages;
mod replicas;
mod settings;
mod transfers;
mod watched;

use lattice_laws::Held;
use std::alloc::{AllocError, Global};
use std::fmt::{Debug, Display};
use std::process::Abort;

/// Ends the test if what is found isn't what is wanted.
fn expect<T: PartialEq + Debug>(rt: &impl Abort, found: &T, wanted: &T) {
    assert_eq!(rt; found, wanted);
}

/// Ends the test if a value doesn't print as wanted.
fn expect_print<T: Display>(
    rt: &impl Abort,
    alloc: Global,
    value: &T,
    wanted: &str,
) -> Result<(), AllocError> {
    let printed = format!(in alloc; "{value}")?;
    expect(rt, &printed.as_str(), &wanted);
    Ok(())
}

/// What was read, or the printed error unless memory was refused.
fn outcome<E: Display + PartialEq + Drop>(
    alloc: Global,
    read: Result<String, E>,
    out_of_memory: E,
) -> Result<String, AllocError> {
    match read {
        Ok(text) => Ok(text),
        Err(fault) => if fault == out_of_memory {
            Err(AllocError)
        } else {
            format!(in alloc; "{fault}")
        },
    }
}

/// A piece this many times, and then the last one.
fn repeated(alloc: Global, piece: &str, times: usize, last: &str) -> Result<String, AllocError> {
    let mut text = String::new(alloc);
    for _ in 0..times {
        text.push_str(piece)?;
    }
    text.push_str(last)?;
    Ok(text)
}

/// The copy that a container makes of its key.
fn held_copy<K: Held>(alloc: Global, key: &K) -> Result<K, AllocError> {
    key.copied(alloc)
}
