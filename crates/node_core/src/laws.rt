//! What holds of every node. Nothing here changes one.

ghost use Rattle.std.specs.Prelude.{◌≡◌, ◌≤◌, length, Ok};
ghost use Rattle.actions.specs.SettingReading.{setting_reading};
ghost use Rattle.node_calls.specs.Asks.{Load, Message, message_read};
ghost use Rattle.node_steps.specs.Settings.{settings};
ghost use Rattle.node_steps.specs.Texts.{list_text, points_listed, settings_listed};
ghost use Rattle.node_core.specs.Traces.{state_known};

use crate::node::NodeCore;

/// No two byte strings are read as one message. So a trace, which keeps what the bytes of a message
/// were read as, keeps the bytes.
pub fn message_fixes_bytes(nodes: u8, a: &[u8], b: &[u8])
    ensures { (m : Message) → message_read nodes a.now ≡ Ok m → message_read nodes b.now ≡ Ok m
        → a.now ≡ b.now }
{}

/// What a node lists is, within 65536 bytes, a setting text of the points that are set, and a load
/// of it asks to set each of them to the text that it has.
pub fn listed_again(node: &NodeCore)
    ensures read { length (list_text (state_known node.now)) ≤ 65536
        → setting_reading (list_text (state_known node.now)) ≡ Ok (points_listed (state_known node.now)) }
    ensures load { length (list_text (state_known node.now)) ≤ 65536
        → settings (Load (list_text (state_known node.now))) ≡ settings_listed (state_known node.now) }
{
    node.is_lawful();
}
