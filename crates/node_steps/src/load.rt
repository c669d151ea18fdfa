//! Reading a setting text, and the operations that set its points.

ghost use Rattle.std.specs.Prelude.{◌≡◌, ◌⊎◌, ◌+◌, ◌<◌, ◌^◌, ◌≤◌, ℕ, List, [], length, map};
ghost use Rattle.std.specs.Prelude.{IfOk, IfErr, IsErrOf, OnOk, IsTrue, Ok};
ghost use Rattle.std.specs.Prelude.{Some, None};
ghost use Rattle.actions.specs.Value.{TermValue};
ghost use Rattle.actions.specs.Names.{is_name};
ghost use Rattle.actions.specs.Canonical.{canonical};
ghost use Rattle.actions.specs.SettingReading.{setting_reading};
ghost use Rattle.stamp_register.specs.Keys.{body_value};
ghost use Rattle.operations.specs.Operations.{IsIn, operation};
ghost use Rattle.replica_state.specs.Unions.{with_names};
ghost use Rattle.message_format.specs.Spelling.{IsBody};
ghost use Rattle.node_steps.specs.Refusals.{bad_setting};
ghost use Rattle.node_steps.specs.Replicas.{state_in};
ghost use Rattle.node_steps.specs.Settings.{operations_issued, settings_of};

use crate::replica::State;
use actions::{Actions, Name, SettingFault, parse_setting};
use node_calls::{NodeFault, TextFault};
use replica_state::{Op, Replica};
use stamp_register::{Body, Key};
use std::alloc::{AllocError, Global};

/// The points that a setting text sets, or the refusal.
pub fn read_points(alloc: Global, text: &str) -> Result<Vec<(Name, Actions)>, NodeFault>
    ensures ok { IfOk result (λ points. setting_reading text.now ≡ Ok points.items) }
    ensures few { IfOk result (λ points. length points.items < 2 ^ 16) }
    ensures named { IfOk result (λ points. (s : List ℕ × List TermValue)
        → IsIn s points.items → IsTrue (is_name s.0)) }
    ensures refused { IfErr result (λ f. (f ≡ NodeFault.OutOfMemory)
        ⊎ (bad_setting (setting_reading text.now) ≡ Some f)) }
    ensures short { OnOk result (length text.now ≤ 65536) }
    ensures memory { IsErrOf result NodeFault.OutOfMemory → length text.now ≤ 65536 }
{
    match parse_setting(alloc, text) {
        Ok(points) => Ok(points),
        Err(SettingFault::BadName { .. }) => Err(NodeFault::BadName),
        Err(SettingFault::OutOfMemory) => Err(NodeFault::OutOfMemory),
        Err(fault) => Err(NodeFault::BadActions(TextFault::Setting(fault))),
    }
}

/// The body of a key that sets actions: one that a message can tell.
pub fn set_to(actions: Actions) -> Body
    ensures value { body_value result ≡ Some (canonical actions) }
    ensures tellable { IsBody (body_value result) }
{
    // The answer is of no use: the call says that the text is canonical.
    let _ = actions.text();
    Body::Set(actions)
}

/// A state that knows just the names of points, to count them by. Each is removed there, so that
/// no text is copied.
pub fn state_of_names(alloc: Global, points: &[(Name, Actions)]) -> Result<State, AllocError>
    ensures { IfOk result (λ named. (state_in named).names
        ≡ with_names (map (λ point. point.0) points.now) []) }
{
    let removed = Key {
        clock: 0,
        node: 0,
        body: Body::Removed,
    };
    let mut named = State::empty(alloc);
    for (name, _) in points {
        named.learn(alloc, name, &removed, None)?;
    }
    Ok(named)
}

/// The operations that set points, one after the other, under keys of consecutive clocks after
/// this one.
pub fn settings_issued(
    alloc: Global,
    me: u8,
    clock: u64,
    points: Vec<(Name, Actions)>,
) -> Result<Vec<Op>, AllocError>
    requires { clock + length points.items < 2 ^ 64 }
    ensures value { IfOk result (λ ops. map operation ops.items
        ≡ operations_issued me clock (settings_of points.items)) }
    ensures bodies { OnOk result ((s : List ℕ × List TermValue)
        → IsIn s points.items → IsBody (Some (canonical s.1))) }
{
    let mut ops = Vec::with_capacity(alloc, points.len())?;
    let mut last = clock;
    for (name, actions) in points {
        last += 1;
        let key = Key {
            clock: last,
            node: me,
            body: set_to(actions),
        };
        ops.push_reserved(Op::Set { name, key });
    }
    Ok(ops)
}
