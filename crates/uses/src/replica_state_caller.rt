//! A caller of `replica_state`.

ghost use Rattle.std.specs.Prelude.{◌≡◌, ◌+◌, ◌<◌, ◌^◌, Some, true, false, IfOk, OnOk};
ghost use Rattle.replica_state.specs.Knowledge.{is_upto};
ghost use Rattle.replica_state.specs.States.{total_hits, with_key, with_pass};
ghost use Rattle.stamp_register.specs.Keys.{key_value};

use actions::Name;
use replica_state::Replica;
use stamp_register::Key;
use std::alloc::{AllocError, Global};

/// Gives a point a key above the one that it has, and reads its hits, which are those under all its
/// keys.
#[tactic(auto, unfolding(replica_state::specs::States::with_key))]
pub fn hits_under<R: Replica>(
    alloc: Global,
    replica: &mut R,
    name: &Name,
    key: Key,
) -> Result<u128, AllocError>
    requires above { is_upto (Some (key_value key)) ((R.state replica.old).key name.now) ≡ false }
    ensures hits { IfOk result (λ hits. hits ≡ total_hits (R.state replica.old) name.now) }
    ensures key { OnOk result (R.state replica.new
        ≡ with_key name.now (key_value key) (R.state replica.old)) }
{
    replica.set_key(alloc, name.copied(alloc)?, key)?;
    Ok(replica.total_hits(name))
}

/// Counts a pass of a point at a node that spends a right to a term, if the point has a key that
/// counts the term, and answers whether it has.
pub fn spend<R: Replica>(
    alloc: Global,
    replica: &mut R,
    name: &Name,
    node: u8,
    term: u8,
) -> Result<bool, AllocError>
    requires hits { (R.state replica.old).hits name.now node + 1 < 2 ^ 64 }
    requires execs { (R.state replica.old).execs name.now term node + 1 < 2 ^ 64 }
    ensures { IfOk result (λ counted. counted ≡ true
        → R.state replica.new ≡ with_pass name.now node (Some term) (R.state replica.old)) }
{
    let has_key = replica.key(name).is_some();
    if !has_key || !replica.is_counted(name, term) {
        return Ok(false);
    }
    replica.count_pass(alloc, name, node, Some(term))?;
    Ok(true)
}
