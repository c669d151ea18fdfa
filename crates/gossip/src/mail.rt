//! Mailboxes in one process.

ghost use Rattle.std.specs.Prelude.{◌≡◌, ◌≤◌, ◌<◌, map, nat_lt, option_map, IfOk, OnErr, OnOk};
ghost use Rattle.std.specs.List.{range_with_len};
ghost use Rattle.gossip.specs.Mailboxes.{finds, new_place, posts, traffic_of};
ghost use Rattle.gossip.specs.Traffic.{sends, takes};

use crate::mailbox::{Look, Mailbox, Posted};
use crate::wire::{Reach, Wire, WireError};
use history::Log;
use std::alloc::{AllocError, Global};
use std::marker::Model;
use std::sync::{Arc, Wait};

/// The wire of one node among those of all: each node has a mailbox behind a lock, in which all put
/// messages. Contracts see the node's number, how many nodes there are, what was put into which
/// mailbox, and what was found in those that were looked into.
#[derive(Drop)]
pub struct MailWire {
    node: u8,
    mailboxes: Arc<Vec<Mailbox>>,
    sent: Log<Posted>,
    looks: Log<Look>,
}

impl Model for MailWire {
    ghost use Rattle.std.specs.Prelude.{◌≡◌, ◌<◌, map, vec_len};
    ghost use Rattle.std.specs.Arc.{arc_value};
    ghost use Rattle.std.specs.List.{range_with_len};
    ghost use Rattle.gossip.specs.Mailboxes.{Place, posted_value, look_value};

    ghost Value = { Place };

    ghost view = { λ w. record {
      node = w.node;
      nodes = vec_len (arc_value w.mailboxes);
      sent = map posted_value w.sent.items;
      looks = map look_value w.looks.items;
    } };

    // Each mailbox stands at the number of its node.
    ghost invariant = { λ w. (w.node < vec_len (arc_value w.mailboxes))
        × (map (λ m. m.node) (arc_value w.mailboxes).items
        ≡ range_with_len 0 (vec_len (arc_value w.mailboxes))) };
}

// A mailbox for each node.
fn mailboxes_of(alloc: Global, nodes: u8) -> Result<Vec<Mailbox>, AllocError>
    ensures { IfOk result (λ all. map (λ m. m.node) all.items ≡ range_with_len 0 nodes) }
{
    let mut mailboxes = Vec::with_capacity(alloc, usize::from(nodes))?;
    for node in 0..nodes {
        mailboxes.push_reserved(Mailbox::new(alloc, node)?);
    }
    Ok(mailboxes)
}

impl MailWire {
    /// The wires of the nodes from 0 on, so many, with empty mailboxes.
    pub fn all(alloc: Global, nodes: u8) -> Result<Vec<MailWire>, AllocError>
        ensures { IfOk result (λ wires.
            wires.items ≡ map (new_place nodes) (range_with_len 0 nodes)) }
    {
        let mailboxes = Arc::new(alloc, mailboxes_of(alloc, nodes)?)?;
        let mut wires = Vec::with_capacity(alloc, usize::from(nodes))?;
        for node in 0..nodes {
            let mailboxes = Arc::try_clone(&mailboxes)?;
            wires.push_reserved(MailWire {
                node,
                mailboxes,
                sent: Log::new(),
                looks: Log::new(),
            });
        }
        Ok(wires)
    }
}

impl Wire for MailWire {
    ghost use Rattle.gossip.specs.Mailboxes.{traffic_of};

    ghost traffic = { λ w. traffic_of w };

    // The copy is made before the lock is taken.
    fn send<R: Wait>(
        &mut self,
        rt: &R,
        alloc: Global,
        to: u8,
        message: &[u8],
    ) -> Result<(), WireError>
        ensures no_peer { self.old.nodes ≤ to → result ≡ Err WireError.NoPeer }
        ensures peer { to < self.old.nodes → result ≡ Err WireError.NoPeer → ⊥ }
        ensures posts { OnOk result (self.new ≡ posts to message.now self.old) }
        ensures stays { OnErr result (self.new ≡ self.old) }
        ensures ok { OnOk result
            (traffic_of self.new ≡ sends to message.now (traffic_of self.old)) }
        ensures err { OnErr result (traffic_of self.new ≡ traffic_of self.old) }
    {
        let Some(mailbox) = self.mailboxes.get(usize::from(to)) else {
            return Err(WireError::NoPeer);
        };
        let message = Vec::from_slice(alloc, message)?;
        let posted = mailbox.put(rt, message)?;
        self.sent.add(&posted);
        Ok(())
    }

    fn take<R: Wait>(&mut self, rt: &R, _alloc: Global) -> Result<Option<Vec<u8>>, WireError>
        ensures no_error { OnErr result ⊥ }
        ensures finds { IfOk result (λ found.
            self.new ≡ finds (option_map (λ m. m.items) found) self.old) }
        ensures ok { IfOk result (λ found. traffic_of self.new
            ≡ takes (option_map (λ m. m.items) found) (traffic_of self.old)) }
        ensures err { OnErr result (traffic_of self.new ≡ traffic_of self.old) }
    {
        let look = self.mailboxes[usize::from(self.node)].look(rt);
        self.looks.add(&look);
        Ok(look.into_found())
    }
}

impl Reach for MailWire {
    ghost use Rattle.std.specs.Prelude.{nat_lt};

    ghost reached = { λ w to. nat_lt to w.nodes };

    fn reaches<R: Wait>(&mut self, _rt: &R, _alloc: Global, to: u8) -> bool
        ensures value { result ≡ nat_lt to self.new.nodes }
        ensures stays { self.new ≡ self.old }
        ensures same { traffic_of self.new ≡ traffic_of self.old }
    {
        usize::from(to) < self.mailboxes.len()
    }
}
