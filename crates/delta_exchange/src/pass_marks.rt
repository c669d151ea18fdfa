//! The marks that passes at one node gave, which are read and written without a search.

ghost use Rattle.std.specs.Prelude.{◌≡◌, ◌&&◌, if◌then◌else◌, slice_get};
ghost use Rattle.std.specs.Option.{unwrap_or};
ghost use Rattle.operations.specs.Counts.{same_counted, is_hits};
ghost use Rattle.operations.specs.declared.counted.Counted.{Counted};
ghost use Rattle.delta_exchange.specs.PassMarks.{is_node, pass_mark, has_place};

use actions::MAX_TERMS;
use replica_state::Counted;

/// The versions that last changed what passes at one node count of a name. 0 says nothing.
#[derive(Debug, Drop)]
pub(crate) struct PassMarks {
    node: Option<u8>,
    hits: u64,
    execs: [u64; MAX_TERMS as usize],
}

impl PassMarks {
    /// No marks, of this node or of none.
    pub(crate) fn new(node: Option<u8>) -> PassMarks
        ensures { (c : Counted) → pass_mark result c ≡ 0 }
    {
        PassMarks {
            node,
            hits: 0,
            execs: [0; MAX_TERMS as usize],
        }
    }

    /// Keeps marks of this node from now on, if it keeps those of none.
    #[inline(always)]
    pub(crate) fn begin(&mut self, node: u8)
        ensures { (c : Counted) → pass_mark self.new c ≡ pass_mark self.old c }
    {
        if self.node.is_none() {
            *self = PassMarks::new(Some(node));
        }
    }

    /// The mark of what is counted, 0 where it has none here.
    #[inline(always)]
    pub(crate) fn mark_of(&self, counted: Counted) -> u64
        ensures { result ≡ pass_mark self.now counted }
    {
        match counted {
            Counted::Hits { node } if self.is_of(node) => self.hits,
            Counted::Execs { term, node } if self.is_of(node) => self.exec(term),
            _ => 0,
        }
    }

    /// Marks what is counted, where there is a place for its mark.
    #[inline(always)]
    pub(crate) fn mark(&mut self, counted: Counted, version: u64)
        ensures { (c : Counted) → pass_mark self.new c
            ≡ (if has_place self.old counted && same_counted counted c then version
            else pass_mark self.old c) }
    {
        match counted {
            Counted::Hits { node } if self.is_of(node) => self.hits = version,
            Counted::Execs { term, node } if self.is_of(node) && term < MAX_TERMS => {
                self.execs[usize::from(term)] = version;
            }
            _ => {}
        }
    }

    /// Takes the marks away of what is counted under a key. Hits keep theirs.
    pub(crate) fn renew(&mut self)
        ensures { (c : Counted) → pass_mark self.new c
            ≡ (if is_hits c then pass_mark self.old c else 0) }
    {
        self.execs = [0; MAX_TERMS as usize];
    }

    #[inline(always)]
    fn is_of(&self, node: u8) -> bool
        ensures { result ≡ is_node self.now.node node }
    {
        self.node == Some(node)
    }

    #[inline(always)]
    fn exec(&self, term: u8) -> u64
        ensures { result ≡ unwrap_or (slice_get self.now.execs term) 0 }
    {
        self.execs.get(usize::from(term)).copied().unwrap_or(0)
    }
}
