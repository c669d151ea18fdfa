//! The counts of the terms that a key has.

ghost use Rattle.std.specs.Prelude.{◌≡◌};
ghost use Rattle.stamp_register.specs.Keys.{key_value};
ghost use Rattle.operations.specs.Operations.{count_of};

use stamp_register::Key;

/// The count of a term, if the key has it and it is counted.
pub fn count_of(key: &Key, term: u8) -> Option<u64>
    ensures { result ≡ count_of (key_value key.now) term }
{
    match key.actions() {
        Some(actions) => match actions.term(term) {
            Some(term) => term.count,
            None => None,
        },
        None => None,
    }
}
