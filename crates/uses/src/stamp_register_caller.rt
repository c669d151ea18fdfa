//! A caller of `stamp_register`.

ghost use Rattle.std.specs.Prelude.{◌≡◌, ◌↔◌, ◌-◌, ◌^◌, IfSome, IsNone};
ghost use Rattle.stamp_register.specs.Keys.{IsLower, key_value};

use stamp_register::{Body, Key};

/// The key by which a node removes what another key set. There is none after the last clock.
pub fn removal_of(setting: &Key, node: u8) -> Option<Key>
    ensures last { IsNone result ↔ (setting.now.clock ≡ 2 ^ 64 - 1) }
    ensures above { IfSome result (λ key. IsLower (key_value setting.now) (key_value key)) }
{
    Key::next(setting.clock, node, Body::Removed)
}
