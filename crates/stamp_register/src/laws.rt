//! What holds of all keys.

ghost use Rattle.std.specs.Prelude.{◌≡◌, ◌↔◌, true};
ghost use Rattle.stamp_register.specs.Keys.{KeyValue, same_key};

/// Keys that stand at one place of the order are one key: same clock, same node, same body.
pub fn same_place_same_key()
    ensures { (a b : KeyValue) → (same_key a b ≡ true) ↔ (a ≡ b) }
{}
