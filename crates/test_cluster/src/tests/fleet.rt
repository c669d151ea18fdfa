//! Nodes of a cluster by hand: what is called of each, and what it shows. None of it states anything.

use super::*;
use message_format::{Message, WireFault, decode};
use replica_state::Replica;
use std::fmt::Display;

/// What a node shows.
#[derive(Clone, Copy)]
pub enum Show {
    List,
    WordsNeeded(&'static str),
    Rights(&'static str, u8, u8),
    Spent(&'static str, u8),
    Hits(&'static str),
    /// Whether a pause is over that began under this stamp.
    PauseOver(&'static str, Stamp),
    Version,
    Known(u8),
    Acked(u8),
    Calls,
    Config,
    /// How many names its state has.
    Names,
}

/// What is called of a node, or looked at.
#[derive(Clone, Copy)]
pub enum Step {
    Set(&'static str, &'static str),
    Remove(&'static str),
    Load(&'static str),
    Pass(&'static str, &'static [u32]),
    Shift(&'static str, u8, u8, u64),
    Grant(&'static str, u8, u64),
    Emit(u8),
    /// Delivers these bytes.
    Bytes(&'static [u8]),
    /// Delivers a message that was made, by its number.
    Deliver(usize),
    /// Loads 256 points.
    Fill,
    /// Puts a new node in the place of this one.
    Forget,
    Show(Show),
    /// Whether a message that was made has these bytes.
    HasBytes(usize, &'static [u8]),
}

/// A step at a node, and what it comes to in print.
pub type Row = (u8, Step, &'static str);

/// The nodes of a cluster, and the messages that were made.
#[derive(Drop)]
pub struct Fleet {
    size: u8,
    nodes: Vec<NodeCore>,
    messages: Vec<Vec<u8>>,
}

/// A new node that accepts a hundred calls.
pub(super) fn new_node(alloc: Global, node: u8, nodes: u8) -> Result<NodeCore, NodeFault> {
    let config = Config {
        node,
        nodes,
        trace_cap: 100,
    };
    NodeCore::new(alloc, config)
}

fn new_fleet(alloc: Global, size: u8) -> Result<Fleet, Fail> {
    let (mut nodes, messages) = (Vec::new(alloc), Vec::new(alloc));
    for node in 0..size {
        nodes.push(new_node(alloc, node, size)?)?;
    }
    Ok(Fleet {
        size,
        nodes,
        messages,
    })
}

/// `p0=off` to `p255=off`, joined by `;`.
pub(super) fn many_points(alloc: Global) -> Result<String, AllocError> {
    let mut text = String::from_str(alloc, "p0=off")?;
    for point in 1..256 {
        write!(text, ";p{point}=off")?;
    }
    Ok(text)
}

/// What a call was answered, in print.
pub(super) fn said<T: Display + Drop>(
    alloc: Global,
    answer: Result<T, NodeFault>,
) -> Result<String, AllocError> {
    match answer {
        Ok(value) => format!(in alloc; "{value}"),
        Err(fault) => format!(in alloc; "{fault}"),
    }
}

fn set(alloc: Global, node: &mut NodeCore, name: &str, text: &str) -> Result<String, AllocError> {
    said(alloc, node.set(alloc, name, text))
}

fn remove(alloc: Global, node: &mut NodeCore, name: &str) -> Result<String, AllocError> {
    said(alloc, node.remove(alloc, name))
}

fn load(alloc: Global, node: &mut NodeCore, text: &str) -> Result<String, AllocError> {
    said(alloc, node.load(alloc, text))
}

fn shift(
    alloc: Global,
    node: &mut NodeCore,
    name: &str,
    term: u8,
    to: u8,
    amount: u64,
) -> Result<String, AllocError> {
    said(alloc, node.shift(alloc, name, term, to, amount))
}

fn grant(
    alloc: Global,
    node: &mut NodeCore,
    name: &str,
    term: u8,
    amount: u64,
) -> Result<String, AllocError> {
    said(alloc, node.grant(alloc, name, term, amount))
}

/// A delivery of these bytes.
pub(super) fn deliver(
    alloc: Global,
    node: &mut NodeCore,
    message: &[u8],
) -> Result<String, AllocError> {
    said(alloc, node.deliver(alloc, message))
}

// A pass. What it came to has no text but that of a value in print.
fn pass(
    alloc: Global,
    node: &mut NodeCore,
    name: &str,
    words: &[u32],
) -> Result<String, AllocError> {
    match node.pass_with(alloc, name, words) {
        Ok(reply) => in_print(alloc, &reply),
        Err(fault) => in_print(alloc, &fault),
    }
}

fn emitted(alloc: Global, node: &mut NodeCore, to: u8) -> Result<Vec<u8>, NodeFault> {
    node.emit(alloc, to)
}

// A message as it is read, without what its reader's contract says.
fn read(alloc: Global, nodes: u8, message: &[u8]) -> Result<Message, WireFault> {
    decode(alloc, nodes, message)
}

// How long a message is, and from which version up to which it tells what, and which it has heard of.
fn message_text(alloc: Global, nodes: u8, message: &[u8]) -> Result<String, AllocError> {
    let len = message.len();
    match read(alloc, nodes, message) {
        Ok(
            Message {
                base,
                upto,
                ack,
                ..
            },
        ) => format!(in alloc; "{len} bytes base={base} upto={upto} ack={ack}"),
        Err(fault) => format!(in alloc; "{fault}"),
    }
}

// A reader of a point, which has no contract here.
fn point_text(alloc: Global, node: &NodeCore, name: &str, show: Show) -> Result<String, Fail> {
    let point = Name::parse(alloc, name)?;
    let text = match show {
        Show::WordsNeeded(_) => in_print(alloc, &node.words_needed(&point)),
        Show::Rights(_, term, of) => in_print(alloc, &node.rights(&point, term, of)),
        Show::Spent(_, term) => in_print(alloc, &node.spent(&point, term)),
        Show::Hits(_) => in_print(alloc, &node.hits(&point)),
        Show::PauseOver(_, stamp) => in_print(alloc, &node.pause_over(&point, stamp)),
        _ => Ok(String::new(alloc)),
    };
    Ok(text?)
}

/// What a node shows, in print.
pub(super) fn shown(alloc: Global, node: &NodeCore, show: Show) -> Result<String, Fail> {
    let text = match show {
        Show::WordsNeeded(name)
        | Show::Rights(name, _, _)
        | Show::Spent(name, _)
        | Show::Hits(name)
        | Show::PauseOver(name, _) => return point_text(alloc, node, name, show),
        Show::List => node.list(alloc),
        Show::Version => in_print(alloc, &node.version()),
        Show::Known(from) => in_print(alloc, &node.known(from)),
        Show::Acked(to) => in_print(alloc, &node.acked(to)),
        Show::Calls => in_print(alloc, &node.trace().len()),
        Show::Config => in_print(alloc, &node.config()),
        Show::Names => in_print(alloc, &node.state().names()),
    };
    Ok(text?)
}

// A call that makes no message.
fn called(alloc: Global, node: &mut NodeCore, step: Step) -> Result<String, Fail> {
    let text = match step {
        Step::Set(name, text) => set(alloc, node, name, text),
        Step::Remove(name) => remove(alloc, node, name),
        Step::Load(text) => load(alloc, node, text),
        Step::Pass(name, words) => pass(alloc, node, name, words),
        Step::Shift(name, term, to, amount) => shift(alloc, node, name, term, to, amount),
        Step::Grant(name, term, amount) => grant(alloc, node, name, term, amount),
        Step::Bytes(message) => deliver(alloc, node, message),
        Step::Show(show) => return shown(alloc, node, show),
        Step::Fill => return filled(alloc, node),
        Step::Emit(_) | Step::Deliver(_) | Step::Forget | Step::HasBytes(_, _) => {
            Ok(String::new(alloc))
        }
    };
    Ok(text?)
}

fn filled(alloc: Global, node: &mut NodeCore) -> Result<String, Fail> {
    let points = many_points(alloc)?;
    Ok(load(alloc, node, &points)?)
}

impl Fleet {
    fn node(&mut self, number: u8) -> Result<&mut NodeCore, Fail> {
        Ok(self.nodes.get_mut(number as usize).ok_or("a node")?)
    }

    fn message(&self, number: usize) -> Result<&[u8], Fail> {
        Ok(self.messages.get(number).ok_or("a message")?)
    }

    // Makes a message, which is kept.
    fn emit(&mut self, alloc: Global, node: u8, to: u8) -> Result<String, Fail> {
        let size = self.size;
        match emitted(alloc, self.node(node)?, to) {
            Ok(message) => {
                let text = message_text(alloc, size, &message)?;
                self.messages.push(message)?;
                Ok(text)
            }
            Err(fault) => Ok(format!(in alloc; "{fault}")?),
        }
    }

    fn deliver(&mut self, alloc: Global, node: u8, message: usize) -> Result<String, Fail> {
        let bytes = Vec::from_slice(alloc, self.message(message)?)?;
        Ok(deliver(alloc, self.node(node)?, &bytes)?)
    }

    fn forget(&mut self, alloc: Global, node: u8) -> Result<String, Fail> {
        let size = self.size;
        *self.node(node)? = new_node(alloc, node, size)?;
        Ok(String::new(alloc))
    }

    fn has_bytes(&self, alloc: Global, message: usize, bytes: &[u8]) -> Result<String, Fail> {
        let has_them = self.message(message)? == bytes;
        Ok(in_print(alloc, &has_them)?)
    }

    /// Makes a step, and says what it comes to.
    fn step(&mut self, alloc: Global, node: u8, step: Step) -> Result<String, Fail> {
        match step {
            Step::Emit(to) => self.emit(alloc, node, to),
            Step::Deliver(message) => self.deliver(alloc, node, message),
            Step::Forget => self.forget(alloc, node),
            Step::HasBytes(message, bytes) => self.has_bytes(alloc, message, bytes),
            _ => called(alloc, self.node(node)?, step),
        }
    }
}

// Makes the steps, and ends the test at the first that comes to something else.
fn play(rt: &impl Abort, alloc: Global, fleet: &mut Fleet, rows: &[Row]) -> Result<(), Fail> {
    for (place, (node, step, wanted)) in rows.iter().enumerate() {
        let found = fleet.step(alloc, *node, *step)?;
        expect(rt, &(place, found.as_str()), &(place, *wanted));
    }
    Ok(())
}

/// Plays each story at a new cluster of so many nodes.
pub(super) fn expect_stories(
    rt: &impl Abort,
    alloc: Global,
    stories: &[(u8, &[Row])],
) -> Result<(), Fail> {
    for (size, rows) in stories {
        let mut fleet = new_fleet(alloc, *size)?;
        play(rt, alloc, &mut fleet, rows)?;
    }
    Ok(())
}
