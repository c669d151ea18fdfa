//! Why messages are refused, by the fault that a reply carries.

ghost use Rattle.std.specs.Prelude.{◌≡◌, ℕ, List};
ghost use Rattle.peers.specs.Codes.{code_of, outcome_by, outcome_of, unaccepted};

use node_calls::NodeFault;
use report_text::RejectCode;

/// What a message came to.
#[derive(Clone, Copy)]
pub enum Outcome {
    /// It was accepted.
    Accepted,
    /// It was refused so.
    Refused(RejectCode),
    /// Its reply has no such fault, for example because memory for the reply was refused.
    Untold,
}

// The code of a fault, if a message may be refused so.
fn code_of(fault: NodeFault) -> Option<RejectCode>
    ensures { result ≡ code_of fault }
{
    match fault {
        NodeFault::TraceFull => Some(RejectCode::TraceFull),
        NodeFault::TooManyPoints => Some(RejectCode::TooManyPoints),
        NodeFault::BadMessage(_) => Some(RejectCode::BadMessage),
        NodeFault::NotForMe => Some(RejectCode::NotForMe),
        NodeFault::OwnAhead => Some(RejectCode::OwnAhead),
        NodeFault::AckAhead => Some(RejectCode::AckAhead),
        NodeFault::Overspent => Some(RejectCode::Overspent),
        NodeFault::OutOfMemory => Some(RejectCode::OutOfMemory),
        NodeFault::BadName
        | NodeFault::BadActions(_)
        | NodeFault::ClockFull
        | NodeFault::NotSet
        | NodeFault::NoSuchTerm
        | NodeFault::NotCounted
        | NodeFault::BadNode
        | NodeFault::ZeroAmount
        | NodeFault::TooFewRights { .. }
        | NodeFault::CellFull
        | NodeFault::BadWords { .. }
        | NodeFault::BadConfig => None,
    }
}

// What a message that wasn't accepted came to, by its fault, if one is known.
fn unaccepted(fault: Option<NodeFault>) -> Outcome
    ensures { result ≡ unaccepted fault }
{
    match fault.and_then(code_of) {
        Some(code) => Outcome::Refused(code),
        None => Outcome::Untold,
    }
}

/// What a message came to, by the status of the reply to it and the fault that the reply carries.
pub fn outcome_of(status: u16, fault: Option<NodeFault>) -> Outcome
    ensures { (body : List ℕ)
        → result ≡ outcome_of (record { status = status; body = body; fault = fault }) }
{
    if status == 200 {
        return Outcome::Accepted;
    }
    unaccepted(fault)
}

/// What a message came to, by what the node returned.
pub fn outcome_by(returned: Result<(), NodeFault>) -> Outcome
    ensures { result ≡ outcome_by returned }
{
    match returned {
        Ok(()) => Outcome::Accepted,
        Err(fault) => unaccepted(Some(fault)),
    }
}
