//! What was heard of the other nodes of a cluster.

ghost use Rattle.std.specs.Prelude.{◌≡◌, IfOk};
ghost use Rattle.report_text.specs.Peers.{count_of};
ghost use Rattle.peers.specs.Heard.{attempted, awaited, counted, first_unheard, fresh_row};
ghost use Rattle.peers.specs.Heard.{fresh_rows, is_peer, is_unheard, noted, peer_row, peer_rows};
ghost use Rattle.peers.specs.Heard.{row_at, row_attempted, row_noted, waits_for};

use crate::code::Outcome;
use message_format::MAX_NODES;
use report_text::{CODES, PeerRow, RejectCode, SendFault, Sending};
use std::alloc::{AllocError, Global};

/// A node, and how many its cluster has, of which the first 32 count.
#[derive(Clone, Copy, Debug, PartialEq, Eq)]
pub struct Cluster {
    pub own: u8,
    pub nodes: u8,
}

/// Whether calls wait for other nodes.
#[derive(Clone, Copy, Debug, PartialEq, Eq)]
pub enum Hearing {
    /// Calls are made at once, whenever others are heard.
    Whenever,
    /// Each other node is heard first: no call is made before that.
    First,
}

/// What was heard of one node, and what sending to it came to.
#[derive(Clone, Copy)]
pub struct Row {
    /// When a message of it was accepted last, in milliseconds since 1970.
    pub heard: Option<u64>,
    /// How many of its messages were refused, by the place of the code.
    pub refused: [u64; CODES],
    pub sending: Sending,
}

/// What a message came to, once its sender's row has it. Only the rows make one.
#[derive(Drop)]
pub struct Noted {
    sender: Option<u8>,
    outcome: Outcome,
}

/// What an attempt to send to a node came to, once the node's row has it. Only the rows make one.
#[derive(Drop)]
pub struct NotedAttempt {
    node: u8,
    fault: Option<SendFault>,
}

/// The node that calls wait for, if they wait, as the rows had it when they were looked at. Only the rows make
/// one.
#[derive(Clone, Copy, Debug, PartialEq, Eq)]
pub struct Awaited {
    node: Option<u8>,
}

impl Awaited {
    /// The node.
    pub fn node(self) -> Option<u8>
        ensures { result ≡ self.node }
    {
        self.node
    }
}

/// What was heard of each node: a row for each number that a node can have.
#[derive(Drop)]
pub struct Heard {
    pub rows: [Row; MAX_NODES as usize],
}

impl Cluster {
    /// Whether this is the number of another node of the cluster.
    pub fn is_peer(self, node: u8) -> bool
        ensures { result ≡ is_peer self node }
    {
        node < self.nodes && node < MAX_NODES && node != self.own
    }
}

impl Row {
    // Of a node of which nothing was heard.
    fn fresh() -> Row
        ensures { result ≡ fresh_row }
    {
        Row {
            heard: None,
            refused: [0; CODES],
            sending: Sending {
                fault: None,
                failures: 0,
            },
        }
    }

    // How many messages were refused so.
    fn count(&self, code: RejectCode) -> u64
        ensures { result ≡ count_of self.now.refused code }
    {
        self.refused.get(code.place()).copied().unwrap_or(0)
    }

    // With what a message came to.
    fn noted(self, outcome: Outcome, now: u64) -> Row
        ensures { result ≡ row_noted self outcome now }
    {
        match outcome {
            Outcome::Accepted => Row {
                heard: Some(now),
                refused: self.refused,
                sending: self.sending,
            },
            Outcome::Refused(code) => Row {
                heard: self.heard,
                refused: self.counted(code),
                sending: self.sending,
            },
            Outcome::Untold => self,
        }
    }

    // What was refused, with one more.
    fn counted(&self, code: RejectCode) -> [u64; CODES]
        ensures { result ≡ counted self.now.refused code }
    {
        let mut refused = self.refused;
        refused[code.place()] = self.count(code).saturating_add(1);
        refused
    }
}

impl Row {
    // With what an attempt to send to the node came to: why it failed, if it did.
    fn attempted(self, fault: Option<SendFault>) -> Row
        ensures { result ≡ row_attempted self fault }
    {
        let failures = match fault {
            Some(_) => self.sending.failures.saturating_add(1),
            None => 0,
        };
        Row {
            sending: Sending { fault, failures },
            ..self
        }
    }
}

impl Heard {
    /// Of nodes of which nothing was heard.
    pub fn new() -> Heard
        ensures { result.rows ≡ fresh_rows }
    {
        Heard {
            rows: [Row::fresh(); MAX_NODES as usize],
        }
    }

    /// What was heard of a node.
    pub fn row(&self, node: u8) -> Row
        ensures { result ≡ row_at self.now.rows node }
    {
        self.rows
            .get(usize::from(node))
            .copied()
            .unwrap_or(Row::fresh())
    }

    /// Notes what a message came to in the row of its sender, if that is another node of the cluster.
    pub fn note(
        &mut self,
        cluster: Cluster,
        sender: Option<u8>,
        outcome: Outcome,
        now: u64,
    ) -> Noted
        ensures rows { self.new.rows ≡ noted cluster self.old.rows sender outcome now }
        ensures noted { result ≡ record { sender = sender; outcome = outcome } }
    {
        if let Some(node) = sender
            && cluster.is_peer(node)
        {
            self.rows[usize::from(node)] = self.row(node).noted(outcome, now);
        }
        Noted { sender, outcome }
    }

    /// Notes what an attempt to send to a node came to, if that is another node of the cluster.
    pub fn note_attempt(
        &mut self,
        cluster: Cluster,
        node: u8,
        fault: Option<SendFault>,
    ) -> NotedAttempt
        ensures rows { self.new.rows ≡ attempted cluster self.old.rows node fault }
        ensures noted { result ≡ record { node = node; fault = fault } }
    {
        if cluster.is_peer(node) {
            self.rows[usize::from(node)] = self.row(node).attempted(fault);
        }
        NotedAttempt { node, fault }
    }

    // A node with what was heard of it, and what sending to it came to.
    fn peer_row(&self, node: u8) -> PeerRow
        ensures { result ≡ peer_row self.now.rows node }
    {
        let Row {
            heard,
            refused,
            sending,
        } = self.row(node);
        PeerRow {
            node,
            heard,
            refused,
            sending,
        }
    }

    /// The other nodes of the cluster, in order, each with what was heard of it and what sending to it came to.
    ///
    /// Errors: out of memory.
    pub fn peer_rows(&self, alloc: Global, cluster: Cluster) -> Result<Vec<PeerRow>, AllocError>
        ensures { IfOk result (λ rows. rows.items ≡ peer_rows cluster self.now.rows) }
    {
        let mut rows = Vec::new(alloc);
        for node in 0..cluster.nodes {
            if cluster.is_peer(node) {
                rows.push(self.peer_row(node))?;
            }
        }
        Ok(rows)
    }

    // Whether this is another node of which no message was accepted.
    fn is_unheard(&self, cluster: Cluster, node: u8) -> bool
        ensures { result ≡ is_unheard cluster self.now.rows node }
    {
        cluster.is_peer(node) && self.row(node).heard.is_none()
    }

    // The first of these.
    fn first_unheard(&self, cluster: Cluster) -> Option<u8>
        ensures { result ≡ first_unheard cluster self.now.rows }
    {
        (0..cluster.nodes).find(|node| self.is_unheard(cluster, *node))
    }

    /// Whether calls wait for a node.
    pub fn waits_for(&self, hearing: Hearing, cluster: Cluster, node: u8) -> bool
        ensures { result ≡ waits_for hearing cluster self.now.rows node }
    {
        match hearing {
            Hearing::Whenever => false,
            Hearing::First => self.is_unheard(cluster, node),
        }
    }

    /// The node that calls wait for, if they wait.
    pub fn awaited(&self, hearing: Hearing, cluster: Cluster) -> Awaited
        ensures { result.node ≡ awaited hearing cluster self.now.rows }
    {
        let node = match hearing {
            Hearing::Whenever => None,
            Hearing::First => self.first_unheard(cluster),
        };
        Awaited { node }
    }
}
