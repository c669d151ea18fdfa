//! Where the workers of a script wait.

ghost use Rattle.std.specs.Prelude.{◌≡◌, ◌++◌, ◌<◌, ◌≤◌, length, IfOk, OnOk};
ghost use Rattle.thread_checks.specs.WaitLines.{place_value, wait_lines, wait_list};
ghost use Rattle.thread_checks.specs.Waits.{after_place, name_of, wait_at, waits_in, worker_in};

use crate::lines::{await_in, is_await, is_worker};
use actions::{Name, NameFault};
use decimals::{byte, number};
use std::alloc::{AllocError, Global};
use streams::{MOST_BYTES, cut, text_of};
use thread_plans::call_in_line;
use thread_workers::Await;

/// The most nodes of a cluster.
const MOST_NODES: usize = 32;

// Between two lines: the number of the next one, the worker that is being told of, which is counted at
// its node from 0, and how many calls of it were told.
#[derive(Drop)]
struct Place {
    line: u32,
    node: u8,
    worker: u16,
    index: u32,
    // How many workers each node has so far.
    workers: [u16; MOST_NODES],
}

// The node in a line `worker <node>`.
fn worker_in(line: &[u8]) -> Option<u8>
    ensures { result ≡ worker_in line.now }
{
    let (_word, node) = cut(text_of(line)?)?;
    byte(node)
}

// How often a line `pass <name> <times>` passes.
fn times_in(line: &[u8]) -> Option<u32> {
    let (_word, rest) = cut(text_of(line)?)?;
    let (_name, times) = cut(rest)?;
    let times = number(times, 65535)?;
    u32::try_from(times).ok()
}

// How many calls a line of a worker makes.
fn calls_in(line: &[u8]) -> u32 {
    if line.starts_with(b"pass ") {
        return times_in(line).unwrap_or(0);
    }
    u32::from(call_in_line(line).is_some())
}

// The point of a name; none, where the text is no name.
fn name_of(alloc: Global, text: &str) -> Result<Option<Name>, AllocError>
    ensures { IfOk result (λ name. name ≡ name_of text.now) }
{
    match Name::parse(alloc, text) {
        Ok(name) => Ok(Some(name)),
        Err(NameFault::BadName) => Ok(None),
        Err(NameFault::OutOfMemory) => Err(AllocError),
    }
}

impl Place {
    fn begin(&mut self, node: u8)
        ensures line { self.new.line ≡ self.old.line }
        ensures node { self.new.node ≡ node }
    {
        self.node = node;
        self.index = 0;
        if let Some(workers) = self.workers.get_mut(usize::from(node)) {
            self.worker = *workers;
            *workers = workers.saturating_add(1);
        }
    }

    fn pass(&mut self, line: &[u8])
        requires { self.old.line < 4294967295 }
        ensures { place_value self.new ≡ after_place (place_value self.old) line.now }
    {
        self.line += 1;
        if is_worker(line) {
            if let Some(node) = worker_in(line) {
                self.begin(node);
            }
        } else {
            self.index = self.index.saturating_add(calls_in(line));
        }
    }

    fn wait(&self, alloc: Global, line: &[u8]) -> Result<Option<Await>, AllocError>
        ensures { IfOk result (λ wait.
            wait_list wait ≡ wait_at (place_value self.now) line.now) }
    {
        if !is_await(line) {
            return Ok(None);
        }
        let Some((name, stamp)) = await_in(line) else {
            return Ok(None);
        };
        let name = name_of(alloc, name)?;
        Ok(Some(Await {
            line: self.line,
            node: self.node,
            worker: self.worker,
            index: self.index,
            name,
            stamp,
        }))
    }
}

fn push_wait(wait: Option<Await>, awaits: &mut Vec<Await>) -> Result<(), AllocError>
    ensures { OnOk result
        (wait_lines awaits.new.items ≡ wait_lines awaits.old.items ++ wait_list wait) }
{
    if let Some(wait) = wait {
        awaits.push(wait)?;
    }
    Ok(())
}

/// The waits of a script, by line.
pub fn awaits_in(alloc: Global, script: &[u8]) -> Result<Vec<Await>, AllocError>
    requires { length script.now ≤ MOST_BYTES }
    ensures { IfOk result (λ awaits. wait_lines awaits.items ≡ waits_in script.now) }
{
    let mut place = Place {
        line: 1,
        node: 0,
        worker: 0,
        index: 0,
        workers: [0; MOST_NODES],
    };
    let mut awaits = Vec::new(alloc);
    for line in script.split(|byte| *byte == b'\n') {
        push_wait(place.wait(alloc, line)?, &mut awaits)?;
        place.pass(line);
    }
    Ok(awaits)
}
