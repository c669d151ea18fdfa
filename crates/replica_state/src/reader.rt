//! What a replica has of one point, read without another look-up of its name.
#![tactic(auto, unfolding(crate::specs::Points::empty_held))]

ghost use Rattle.std.specs.Prelude.{◌≡◌, ◌↔◌, ◌≤◌, ◌<ℤ◌, length, map, pos, IsTrue};
ghost use Rattle.std.specs.List.{All, range_with_len};
ghost use Rattle.replica_state.specs.Points.{Held, rights_of_key};
ghost use Rattle.operations.specs.Counts.{given_key};
ghost use Rattle.replica_state.specs.Stored.{stored_held, reader_held};
ghost use Rattle.operations.specs.declared.counted.Counted.TheVariants.{Hits, Execs, Shifts};

use operations::Counted;
use stamp_register::Key;
use std::alloc::AllocError;

/// What a replica stores of a point.
pub trait Stored {
    ghost held: { Self → Held };

    /// The key of the point: its last setting or removal.
    fn key(&self) -> Option<&Key>
        ensures { given_key result ≡ (held self.now).key };

    /// The number of what is counted so, 0 where it isn't there.
    fn number(&self, counted: Counted) -> u64
        ensures { result ≡ (held self.now).number counted };

    /// The rights of a node to execute a term, 0 where it isn't counted.
    fn rights(&self, term: u8, node: u8) -> i128
        ensures { result
            ≡ rights_of_key (held self.now).key (held self.now).number term node };

    /// The rights of the first nodes to execute a term, of as many as there are places.
    fn rights_of_all(&self, term: u8, into: &mut [i128])
        requires { length into.old ≤ 256 }
        ensures { into.new ≡ map (rights_of_key (held self.now).key (held self.now).number term)
            (range_with_len 0 (length into.old)) }
    {
        for node in 0..into.len() {
            into[node] = self.rights(term, node as u8);
        }
    }

    /// Whether each of these nodes has a right to execute a term.
    fn have_rights(&self, term: u8, nodes: &[u8]) -> bool
        ensures { IsTrue result ↔ All (λ node.
            pos 0 <ℤ rights_of_key (held self.now).key (held self.now).number term node) nodes.now }
    {
        nodes.iter().all(|node| self.rights(term, *node) > 0)
    }

    /// The executions of a term at the first nodes, of as many as there are places.
    fn execs_of_all(&self, term: u8, into: &mut [u64])
        requires { length into.old ≤ 256 }
        ensures { into.new ≡ map (λ node. (held self.now).number (Execs term node))
            (range_with_len 0 (length into.old)) }
    {
        for node in 0..into.len() {
            into[node] = self.number(Counted::Execs {
                term,
                node: node as u8,
            });
        }
    }

    /// The hits of the first nodes, of as many as there are places.
    fn hits_of_all(&self, into: &mut [u64])
        requires { length into.old ≤ 256 }
        ensures { into.new ≡ map (λ node. (held self.now).number (Hits node))
            (range_with_len 0 (length into.old)) }
    {
        for node in 0..into.len() {
            into[node] = self.number(Counted::Hits { node: node as u8 });
        }
    }
}

/// What a replica has of a point that was looked up once. What isn't there reads 0.
pub struct PointReader<'a, S> {
    pub(crate) stored: Option<&'a S>,
}

impl<'a, S> Clone for PointReader<'a, S> {
    fn clone(&self) -> Result<PointReader<'a, S>, AllocError> {
        Ok(*self)
    }
}

impl<'a, S> Copy for PointReader<'a, S> {}

impl<'a, S: Stored> PointReader<'a, S> {
    /// The reader of what is stored of a name, if anything is.
    pub fn new(stored: Option<&'a S>) -> PointReader<'a, S>
        ensures { reader_held S.held result ≡ stored_held S.held stored.entry }
    {
        PointReader { stored }
    }

    /// The number of what is counted so.
    pub fn number(self, counted: Counted) -> u64
        ensures { result ≡ (reader_held S.held self.entry).number counted }
    {
        match self.stored {
            Some(stored) => stored.number(counted),
            None => 0,
        }
    }

    /// The key of the point: its last setting or removal.
    pub fn key(self) -> Option<&'a Key>
        ensures { given_key result ≡ (reader_held S.held self.entry).key }
    {
        match self.stored {
            Some(stored) => stored.key(),
            None => None,
        }
    }

    /// The hits of the point at a node.
    pub fn hits(self, node: u8) -> u64
        ensures { result ≡ (reader_held S.held self.entry).number (Hits node) }
    {
        self.number(Counted::Hits { node })
    }

    /// The executions of a term at a node, under the point's key.
    pub fn exec(self, term: u8, node: u8) -> u64
        ensures { result ≡ (reader_held S.held self.entry).number (Execs term node) }
    {
        self.number(Counted::Execs { term, node })
    }

    /// The total of rights that one node moved to another, or granted itself where both are one,
    /// under the point's key.
    pub fn moved(self, term: u8, from: u8, to: u8) -> u64
        ensures { result ≡ (reader_held S.held self.entry).number (Shifts term from to) }
    {
        self.number(Counted::Shifts { term, from, to })
    }

    /// The total of rights that a node granted itself beyond the count of a term, under the point's
    /// key.
    pub fn granted(self, term: u8, node: u8) -> u64
        ensures { result ≡ (reader_held S.held self.entry).number (Shifts term node node) }
    {
        self.moved(term, node, node)
    }
}
