//! What the definitions promise of all messages and bytes. Nothing here runs.

ghost use Rattle.std.specs.Prelude.{◌≡◌, ◌≤◌, ℕ, List, length, Ok};
ghost use Rattle.std.specs.List.{AllByRecursion};
ghost use Rattle.operations.specs.Operations.{IsWellFormed};
ghost use Rattle.message_format.specs.Messages.{MessageValue, MovesToOthers, TellSame, operations_in};
ghost use Rattle.message_format.specs.Spelling.{IsMessage, SpellsMessage, message_bytes, max_message};
ghost use Rattle.message_format.specs.Reading.{message_at};

/// Bytes are of at most one message, whatever the number of nodes.
pub fn bytes_spell_one_message()
    ensures { (nodes others : ℕ) (bytes : List ℕ) (m n : MessageValue)
        → SpellsMessage nodes bytes m → SpellsMessage others bytes n → m ≡ n }
{}

/// Messages with the same fields before their entries that tell the same operations are one, where
/// no shift goes from a node to itself, as in each message that is read. So no two byte strings are
/// read as such messages.
pub fn told_operations_fix_bytes(nodes: u8, a: &[u8], b: &[u8])
    ensures message { (m n : MessageValue) → MovesToOthers m → MovesToOthers n
        → TellSame m n → m ≡ n }
    ensures bytes { (m n : MessageValue) → message_at nodes a.now ≡ Ok m
        → message_at nodes b.now ≡ Ok n → TellSame m n → a.now ≡ b.now }
{}

/// A message whose bytes keep to the limit is read from them again.
pub fn decoded_again()
    ensures { (nodes : ℕ) (m : MessageValue) → IsMessage nodes m
        → length (message_bytes m) ≤ max_message → message_at nodes (message_bytes m) ≡ Ok m }
{}

/// What a message tells is well formed: each number is from 1 on, and what is executed, shifted
/// or granted is counted.
pub fn told_operations_are_well_formed()
    ensures { (nodes : ℕ) (m : MessageValue) → IsMessage nodes m
        → AllByRecursion IsWellFormed (operations_in m) }
{}
