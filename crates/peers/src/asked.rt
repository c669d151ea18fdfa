//! Who asked to be told.

ghost use Rattle.std.specs.Prelude.{◌≡◌, slice_set, true, false};
ghost use Rattle.peers.specs.Hello.{has_asked, nobody};

use message_format::MAX_NODES;

/// Whether a node asked to be told since it was looked for before. Only the table of those who asked makes one.
#[derive(Clone, Copy, Debug, PartialEq, Eq)]
pub struct AskState {
    node: u8,
    has_asked: bool,
}

impl AskState {
    /// Whether it asked.
    pub fn has_asked(self) -> bool
        ensures { result ≡ self.has_asked }
    {
        self.has_asked
    }
}

/// Of each number that a node can have, whether that node asked to be told, and wasn't looked for since.
#[derive(Drop)]
pub struct Asked {
    pub asked: [bool; MAX_NODES as usize],
}

impl Asked {
    /// Nobody asked.
    pub fn new() -> Asked
        ensures { result.asked ≡ nobody }
    {
        Asked {
            asked: [false; MAX_NODES as usize],
        }
    }

    /// Whether a node asked since it was looked for last.
    pub fn has_asked(&self, node: u8) -> bool
        ensures { result ≡ has_asked self.now.asked node }
    {
        self.asked.get(usize::from(node)).copied().unwrap_or(false)
    }

    /// Notes that a node asks.
    pub fn note(&mut self, node: u8)
        ensures { self.new.asked ≡ slice_set self.old.asked node true }
    {
        if node < MAX_NODES {
            self.asked[usize::from(node)] = true;
        }
    }

    /// Whether a node asked since it was looked for last, which isn't known any more then.
    pub fn take(&mut self, node: u8) -> AskState
        ensures asked { result
            ≡ record { node = node; has_asked = has_asked self.old.asked node } }
        ensures taken { self.new.asked ≡ slice_set self.old.asked node false }
    {
        let has_asked = self.has_asked(node);
        if node < MAX_NODES {
            self.asked[usize::from(node)] = false;
        }
        AskState { node, has_asked }
    }
}
