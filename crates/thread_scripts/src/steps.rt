//! Wires of nodes whose gossip may be in step.

ghost use Rattle.std.specs.Prelude.{◌≡◌, OnErr, OnOk, IfOk, option_map};
ghost use Rattle.gossip.specs.Mailboxes.{traffic_of};
ghost use Rattle.gossip.specs.Traffic.{sends, takes};

use gossip::{MailWire, Wire, WireError};
use std::alloc::Global;
use std::sync::Wait;
use thread_workers::Steps;

/// The most messages that a round takes in.
const MOST_TAKEN: u8 = 64;

/// A node's wire, which may be in step with those of the others.
#[derive(Drop)]
pub(crate) struct StepWire<'a> {
    pub mail: MailWire,
    steps: Option<&'a Steps>,
    node: u8,
    // In how many rounds the node has told, and how many messages it may still take in this one.
    rounds: u64,
    left: u8,
}

impl StepWire<'_> {
    pub(crate) fn over(mail: MailWire, steps: Option<&Steps>, node: u8) -> StepWire<'_>
        ensures { result.mail ≡ mail }
    {
        StepWire {
            mail,
            steps,
            node,
            rounds: 0,
            left: 0,
        }
    }

    // Before a message is taken: the first one of a round waits until all nodes have told.
    fn begin(&mut self)
        ensures { self.new.mail ≡ self.old.mail }
    {
        let Some(steps) = self.steps else {
            return;
        };
        if self.left == 0 {
            self.rounds = self.rounds.saturating_add(1);
            self.left = MOST_TAKEN;
            steps.wait_told(self.node, self.rounds);
        }
    }

    // After a look: where nothing was there, or the most was taken, the round is heard.
    fn end(&mut self, is_found: bool)
        ensures { self.new.mail ≡ self.old.mail }
    {
        let Some(steps) = self.steps else {
            return;
        };
        self.left = if is_found {
            self.left.saturating_sub(1)
        } else {
            0
        };
        if self.left == 0 {
            steps.hear(self.node, self.rounds);
        }
    }
}

impl Wire for StepWire<'_> {
    ghost use Rattle.gossip.specs.Mailboxes.{traffic_of};

    ghost traffic = { λ w. traffic_of w.mail };

    fn send<R: Wait>(
        &mut self,
        rt: &R,
        alloc: Global,
        to: u8,
        message: &[u8],
    ) -> Result<(), WireError>
        ensures ok { OnOk result
            (traffic_of self.new.mail ≡ sends to message.now (traffic_of self.old.mail)) }
        ensures err { OnErr result (traffic_of self.new.mail ≡ traffic_of self.old.mail) }
    {
        self.mail.send(rt, alloc, to, message)
    }

    fn take<R: Wait>(&mut self, rt: &R, alloc: Global) -> Result<Option<Vec<u8>>, WireError>
        ensures ok { IfOk result (λ found. traffic_of self.new.mail
            ≡ takes (option_map (λ m. m.items) found) (traffic_of self.old.mail)) }
        ensures err { OnErr result (traffic_of self.new.mail ≡ traffic_of self.old.mail) }
    {
        self.begin();
        let found = self.mail.take(rt, alloc)?;
        self.end(found.is_some());
        Ok(found)
    }
}
