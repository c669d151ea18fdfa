//! What a message tells, learned by a replica.

ghost use Rattle.std.specs.Prelude.{◌≡◌, ℕ, Some, IfOk, OnOk};
ghost use Rattle.stamp_register.specs.Keys.{key_value};
ghost use Rattle.replica_state.specs.Folds.{fold};
ghost use Rattle.message_format.specs.Messages.{entry_value, message_value, operations_of};
ghost use Rattle.message_format.specs.Messages.{operations_in, hits_in, execs_in, shifts_in};
ghost use Rattle.message_format.specs.Messages.{grants_in};
ghost use Rattle.message_format.specs.Spelling.{IsEntry, IsMessage};
ghost use Rattle.delta_exchange.specs.Told.{HasKeyOf, HasLearned};

use message_format::{Message, NameEntry};
use replica_state::{Counted, Replica};
use std::alloc::{AllocError, Global};

// What is counted of an entry's name is learned under the key that the replica has of it by then.
fn learn_hits<R: Replica>(
    replica: &mut R,
    alloc: Global,
    entry: &NameEntry,
) -> Result<(), AllocError>
    requires entry { (nodes : ℕ) × IsEntry nodes (entry_value entry.now) }
    requires keyed { HasKeyOf (R.state replica.old) entry.now.name (Some (key_value entry.now.key)) }
    ensures { OnOk result (HasLearned (R.state replica.old) (R.state replica.new)
        (hits_in entry.now.name entry.now.hits.items)) }
{
    for (node, number) in &entry.hits {
        let hits = Counted::Hits { node: *node };
        replica.learn_count(alloc, &entry.name, hits.times(*number))?;
    }
    Ok(())
}

fn learn_execs<R: Replica>(
    replica: &mut R,
    alloc: Global,
    entry: &NameEntry,
) -> Result<(), AllocError>
    requires entry { (nodes : ℕ) × IsEntry nodes (entry_value entry.now) }
    requires keyed { HasKeyOf (R.state replica.old) entry.now.name (Some (key_value entry.now.key)) }
    ensures { OnOk result (HasLearned (R.state replica.old) (R.state replica.new)
        (execs_in entry.now.name (key_value entry.now.key) entry.now.execs.items)) }
{
    for (term, node, number) in &entry.execs {
        let execs = Counted::Execs {
            term: *term,
            node: *node,
        };
        replica.learn_count(alloc, &entry.name, execs.times(*number))?;
    }
    Ok(())
}

fn learn_shifts<R: Replica>(
    replica: &mut R,
    alloc: Global,
    entry: &NameEntry,
) -> Result<(), AllocError>
    requires entry { (nodes : ℕ) × IsEntry nodes (entry_value entry.now) }
    requires keyed { HasKeyOf (R.state replica.old) entry.now.name (Some (key_value entry.now.key)) }
    ensures { OnOk result (HasLearned (R.state replica.old) (R.state replica.new)
        (shifts_in entry.now.name (key_value entry.now.key) entry.now.shifts.items)) }
{
    for (term, from, to, total) in &entry.shifts {
        let shifts = Counted::Shifts {
            term: *term,
            from: *from,
            to: *to,
        };
        replica.learn_count(alloc, &entry.name, shifts.times(*total))?;
    }
    Ok(())
}

fn learn_grants<R: Replica>(
    replica: &mut R,
    alloc: Global,
    entry: &NameEntry,
) -> Result<(), AllocError>
    requires entry { (nodes : ℕ) × IsEntry nodes (entry_value entry.now) }
    requires keyed { HasKeyOf (R.state replica.old) entry.now.name (Some (key_value entry.now.key)) }
    ensures { OnOk result (HasLearned (R.state replica.old) (R.state replica.new)
        (grants_in entry.now.name (key_value entry.now.key) entry.now.grants.items)) }
{
    for (term, node, total) in &entry.grants {
        let grants = Counted::Shifts {
            term: *term,
            from: *node,
            to: *node,
        };
        replica.learn_count(alloc, &entry.name, grants.times(*total))?;
    }
    Ok(())
}

/// A replica that knows just what an entry tells, so that each look-up of its name compares it once.
fn replica_of_entry<R: Replica>(alloc: Global, entry: &NameEntry) -> Result<R, AllocError>
    requires { (nodes : ℕ) × IsEntry nodes (entry_value entry.now) }
    ensures { IfOk result
        (λ replica. R.state replica ≡ fold (operations_of (entry_value entry.now))) }
{
    let mut replica = R::empty(alloc);
    replica.learn(alloc, &entry.name, &entry.key, None)?;
    learn_hits(&mut replica, alloc, entry)?;
    learn_execs(&mut replica, alloc, entry)?;
    learn_shifts(&mut replica, alloc, entry)?;
    learn_grants(&mut replica, alloc, entry)?;
    Ok(replica)
}

/// A replica that knows just what a message tells. The message's nodes are those of some cluster,
/// as after `decode`. Only out of memory is an error.
pub fn replica_of<R: Replica>(alloc: Global, message: &Message) -> Result<R, AllocError>
    requires { (nodes : ℕ) × IsMessage nodes (message_value message.now) }
    ensures { IfOk result
        (λ replica. R.state replica ≡ fold (operations_in (message_value message.now))) }
{
    let mut replica = R::empty(alloc);
    for entry in &message.entries {
        let told = replica_of_entry(alloc, entry)?;
        replica.merge(alloc, told)?;
    }
    Ok(replica)
}
