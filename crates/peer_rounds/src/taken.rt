//! What a round took in and what it sent, noted where it is known who was heard.

ghost use Rattle.std.specs.Prelude.{◌≡◌, ◌++◌, ◌∷◌, [], map};
ghost use Rattle.peer_rounds.specs.Taken.{accepted_in, attempted, attempts_in, fault_of, rejected_as};
ghost use Rattle.peer_rounds.specs.Taken.{taken_as, taken_in};

use gossip::{Attempt, AttemptFault, GossipReport, Log, Rejected, WireError, sender_of};
use http_peers::{NotedAttempt, NotedDelivery, Peers, SendFault};
use message_format::MAX_NODES;
use node_core::{Ask, Receipt};
use std::sync::Wait;
use std::time::Clock;

// Notes the message of an accepted call, if the call took one in.
fn note_receipt<R: Wait + Clock>(
    rt: &R,
    heard: &Peers,
    receipt: &Receipt,
    noted: &mut Log<NotedDelivery>,
)
    ensures { map taken_as noted.new.items
        ≡ map taken_as noted.old.items ++ accepted_in (receipt.now ∷ []) }
{
    if let Ask::Deliver { message } = &receipt.entry.ask {
        let delivery = heard.note_delivery(rt, sender_of(message), Ok(()));
        noted.add(&delivery);
    }
}

// Notes the messages that were accepted.
fn note_accepted<R: Wait + Clock>(
    rt: &R,
    heard: &Peers,
    receipts: &[Receipt],
    noted: &mut Log<NotedDelivery>,
)
    ensures { map taken_as noted.new.items
        ≡ map taken_as noted.old.items ++ accepted_in receipts.now }
{
    for receipt in receipts {
        note_receipt(rt, heard, receipt, noted);
    }
}

// Notes the messages that were rejected.
fn note_rejected<R: Wait + Clock>(
    rt: &R,
    heard: &Peers,
    rejected: &[Rejected],
    noted: &mut Log<NotedDelivery>,
)
    ensures { map taken_as noted.new.items
        ≡ map taken_as noted.old.items ++ map rejected_as rejected.now }
{
    for message in rejected {
        let delivery = heard.note_delivery(rt, message.sender, Err(message.fault));
        noted.add(&delivery);
    }
}

/// Notes each message that a round took in: of whom it is, and whether the node accepted it, or why it
/// rejected it. The answer shows which were noted, and takes no memory. Who does rounds over a wire of
/// their own calls it after each.
pub fn note_taken<R: Wait + Clock>(
    rt: &R,
    heard: &Peers,
    report: &GossipReport,
) -> Log<NotedDelivery>
    ensures { map taken_as result.items ≡ taken_in report.now }
{
    let mut noted = Log::new();
    note_accepted(rt, heard, &report.receipts, &mut noted);
    note_rejected(rt, heard, &report.rejected, &mut noted);
    noted
}

// Why nothing was sent to a node, as a status says it.
fn fault_of(why: AttemptFault) -> SendFault
    ensures { result ≡ fault_of why }
{
    match why {
        AttemptFault::Unreached => SendFault::Unreached,
        AttemptFault::NotMade(_) => SendFault::NotMade,
        AttemptFault::NotSent(WireError::Full) => SendFault::Full,
        AttemptFault::NotSent(WireError::NoPeer) => SendFault::NoPeer,
        AttemptFault::NotSent(WireError::Failed) => SendFault::Failed,
        AttemptFault::NotSent(WireError::OutOfMemory) => SendFault::OutOfMemory,
    }
}

// Notes what came of a message to a node, if one was due.
fn note_attempt<R: Wait>(
    rt: &R,
    heard: &Peers,
    node: u8,
    attempt: Attempt,
    noted: &mut Log<NotedAttempt>,
)
    ensures { noted.new.items ≡ noted.old.items ++ attempted node attempt }
{
    let fault = match attempt {
        Attempt::NotDue => return,
        Attempt::Sent => None,
        Attempt::Failed(why) => Some(fault_of(why)),
    };
    let attempt = heard.note_attempt(rt, node, fault);
    noted.add(&attempt);
}

/// Notes what came of each message that was due in a round: that it was sent, or why none was. The answer
/// shows which were noted, and takes no memory. Who does rounds over a wire of their own calls it after each.
pub fn note_attempts<R: Wait>(rt: &R, heard: &Peers, report: &GossipReport) -> Log<NotedAttempt>
    ensures { result.items ≡ attempts_in report.now.attempts }
{
    let mut noted = Log::new();
    for node in 0..MAX_NODES {
        note_attempt(rt, heard, node, report.attempt(node), &mut noted);
    }
    noted
}
