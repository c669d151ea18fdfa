//! The terms that a key has.

ghost use Rattle.std.specs.Prelude.{◌≡◌, ◌≤◌, ℕ, None};
ghost use Rattle.stamp_register.specs.Keys.{key_value};
ghost use Rattle.operations.specs.Operations.{count_of};

use stamp_register::Key;

/// How many terms a key has.
pub(crate) fn terms_of(key: &Key) -> usize
    ensures few { result ≤ 16 }
    ensures no_more { (term : ℕ) → result ≤ term → count_of (key_value key.now) term ≡ None }
{
    match key.actions() {
        Some(actions) => actions.len(),
        None => 0,
    }
}
