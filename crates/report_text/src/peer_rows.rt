//! What a node knows of its exchange of messages with the other nodes of its cluster.

ghost use Rattle.std.specs.Prelude.{◌≡◌};
ghost use Rattle.report_text.specs.Peers.{code_name, count_of, place_of};

/// How many codes there are with which a node rejects a message.
pub const CODES: usize = 8;

/// Why a node rejects a message.
#[derive(Clone, Copy, Debug, PartialEq, Eq)]
pub enum RejectCode {
    /// `N1`: the node accepts no more calls.
    TraceFull,
    /// `N16`: the bytes are no message.
    BadMessage,
    /// `N17`: the message is for another node.
    NotForMe,
    /// `N18`: the message knows more of the node than the node itself.
    OwnAhead,
    /// `N19`: the message knows a version of the node that doesn't exist yet.
    AckAhead,
    /// `N20`: with the message, a term would have run too often.
    Overspent,
    /// `N22`: out of memory.
    OutOfMemory,
    /// `N4`: the node would hold too many names.
    TooManyPoints,
}

impl RejectCode {
    /// The code as it is printed.
    pub fn name(self) -> &'static str
        ensures { result.now ≡ code_name self }
    {
        match self {
            RejectCode::TraceFull => "N1",
            RejectCode::BadMessage => "N16",
            RejectCode::NotForMe => "N17",
            RejectCode::OwnAhead => "N18",
            RejectCode::AckAhead => "N19",
            RejectCode::Overspent => "N20",
            RejectCode::OutOfMemory => "N22",
            RejectCode::TooManyPoints => "N4",
        }
    }

    /// Its place in `PeerRow::refused`.
    pub fn place(self) -> usize
        ensures { result ≡ place_of self }
    {
        match self {
            RejectCode::TraceFull => 0,
            RejectCode::BadMessage => 1,
            RejectCode::NotForMe => 2,
            RejectCode::OwnAhead => 3,
            RejectCode::AckAhead => 4,
            RejectCode::Overspent => 5,
            RejectCode::OutOfMemory => 6,
            RejectCode::TooManyPoints => 7,
        }
    }
}

/// Why nothing was sent to a node.
#[derive(Clone, Copy, Debug, PartialEq, Eq)]
pub enum SendFault {
    /// The node can't be reached.
    Unreached,
    /// It isn't known where the node is.
    NoPeer,
    /// The node's mailbox is full.
    Full,
    /// The transport failed, or the node didn't accept the message.
    Failed,
    /// Out of memory.
    OutOfMemory,
    /// No message was made, for example because the sender is at its call limit.
    NotMade,
}

/// What the last attempts to send to a node came to.
#[derive(Clone, Copy, Debug, PartialEq, Eq)]
pub struct Sending {
    /// Why the last one failed, if it did.
    pub fault: Option<SendFault>,
    /// How many failed in a row.
    pub failures: u64,
}

/// Another node of the cluster: what was received from it, which the status shows, and what sending to it came
/// to.
#[derive(Clone, Copy, Debug, PartialEq, Eq)]
pub struct PeerRow {
    /// Its number.
    pub node: u8,
    /// When its last accepted message came, in milliseconds since 1970.
    pub heard: Option<u64>,
    /// How many of its messages were rejected, each code at its place.
    pub refused: [u64; CODES],
    /// What sending to it came to.
    pub sending: Sending,
}

impl PeerRow {
    /// How many of its messages were rejected with this code.
    pub fn count(&self, code: RejectCode) -> u64
        ensures { result ≡ count_of self.now.refused code }
    {
        self.refused.get(code.place()).copied().unwrap_or(0)
    }
}
