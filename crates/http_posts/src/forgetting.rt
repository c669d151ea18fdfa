//! What a peer's answer says of the peer.

ghost use Rattle.std.specs.Prelude.{◌≡◌, ℕ, List, Some, take, length, bytes_eq};
ghost use Rattle.http_posts.specs.Forgetting.{forgetting_in, forgetting_text};

use std::fmt;

/// How a peer refuses a message where others know more of it than it does: it was started again under
/// its number, and has forgotten what it did. `Display` shows the fault's number and name.
#[derive(Clone, Copy, Debug, PartialEq, Eq)]
pub enum Forgetting {
    /// The message says more of the peer than it knows itself.
    OwnAhead,
    /// The message knows a version of the peer that there isn't yet.
    AckAhead,
}

impl fmt::Display for Forgetting {
    ghost output = { λ f. Some (forgetting_text f) };

    fn fmt<W: fmt::Write>(&self, f: &mut fmt::Formatter<W>) -> fmt::Result {
        f.write_str(match self {
            Forgetting::OwnAhead => "N18 OwnAhead",
            Forgetting::AckAhead => "N19 AckAhead",
        })
    }
}

// Whether bytes begin with these.
fn begins(bytes: &[u8], front: &[u8]) -> bool
    ensures { result ≡ bytes_eq (take (length front.now) bytes.now) front.now }
{
    let (start, _) = bytes.split_at(front.len().min(bytes.len()));
    start == front
}

/// What a reply with this status and a body that begins so says of the peer, if it does.
pub(crate) fn forgetting_in(status: u16, body: &[u8]) -> Option<Forgetting>
    ensures { result ≡ forgetting_in status body.now }
{
    if status != 400 {
        return None;
    }
    if begins(body, b"N18 ") {
        return Some(Forgetting::OwnAhead);
    }
    if begins(body, b"N19 ") {
        return Some(Forgetting::AckAhead);
    }
    None
}
