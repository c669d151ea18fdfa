//! What a node remembers of a point from round to round.

ghost use Rattle.std.specs.Prelude.{◌≡◌, ◌≤◌, ℕ, List, length, slice_index, take};
ghost use Rattle.std.specs.List.{All};
ghost use Rattle.std.specs.Ordering.{nat_cmp};
ghost use Rattle.std.specs.Cmp.Lexicographic.{slice_cmp};
ghost use Rattle.std.specs.declared.cmp.Ordering.TheVariants.{Less};
ghost use Rattle.sharing.specs.Memory.{recall, seen, still_before};
ghost use Rattle.sharing.specs.Remembered.{recalled_all, recalled_at};

use actions::Name;
use std::cmp::Ordering;

/// A node that hasn't passed a point for so many rounds gives its last right away too.
pub(crate) const PATIENCE: u8 = 10;

/// What is remembered of a point: the hits of each node as of the last round, and for how many
/// rounds on end the node's own hits had then stayed the same, counted up to `PATIENCE`.
#[derive(Debug, Drop)]
pub(crate) struct Remembered {
    pub(crate) name: Name,
    pub(crate) hits: Vec<u64>,
    pub(crate) still: u8,
}

/// What is remembered of a name, if anything is.
pub(crate) fn recall<'a>(memory: &'a [Remembered], name: &Name) -> Option<&'a Remembered>
    ensures { recalled_at result ≡ recall (recalled_all memory.entry.now) name.entry.now }
{
    memory.iter().find(|remembered| remembered.name == *name)
}

/// The place of the first that isn't below a name.
fn place_of(memory: &[Remembered], name: &Name) -> usize
    ensures below { All (λ remembered. slice_cmp nat_cmp remembered.name name.now ≡ Less)
        (take result memory.now) }
    ensures within { result ≤ length memory.now }
{
    let mut place = 0;
    for remembered in memory {
        match remembered.name.cmp(name) {
            Ordering::Less => place += 1,
            Ordering::Equal | Ordering::Greater => return place,
        }
    }
    place
}

/// What is remembered from a name on: what stands before the first that isn't below it is left out.
/// Of this name, and of those above it, all is there that is remembered.
pub(crate) fn from_name<'a>(memory: &'a [Remembered], name: &Name) -> &'a [Remembered]
    ensures here { recall (recalled_all result.now) name.now
        ≡ recall (recalled_all memory.now) name.now }
    ensures above { (other : List ℕ) → slice_cmp nat_cmp name.now other ≡ Less
        → recall (recalled_all result.now) other ≡ recall (recalled_all memory.now) other }
{
    &memory[place_of(memory, name)..]
}

/// The number of a node, 0 where there is none.
pub(crate) fn number_at(numbers: &[u64], node: u8) -> u64
    ensures { result ≡ slice_index numbers.now node }
{
    numbers.get(usize::from(node)).copied().unwrap_or(0)
}

/// The hits of the nodes as of the last round, none at first.
pub(crate) fn hits_seen<'a>(remembered: Option<&'a Remembered>) -> &'a [u64]
    ensures { (node : ℕ) → slice_index result.now node
        ≡ seen (recalled_at remembered.entry) node }
{
    match remembered {
        Some(remembered) => &remembered.hits,
        None => &[],
    }
}

/// The hits of a node as of the last round, 0 at first.
pub(crate) fn seen(remembered: Option<&Remembered>, node: u8) -> u64
    ensures { result ≡ seen (recalled_at remembered.entry) node }
{
    number_at(hits_seen(remembered), node)
}

/// For how many rounds the node itself hadn't passed then.
pub(crate) fn still_before(remembered: Option<&Remembered>) -> u8
    ensures { result ≡ still_before (recalled_at remembered.entry) }
{
    match remembered {
        Some(remembered) => remembered.still,
        None => PATIENCE,
    }
}
