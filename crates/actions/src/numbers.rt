//! Decimal numbers without signs.

ghost use Rattle.std.specs.Prelude.{◌≡◌};
ghost use Rattle.actions.specs.Numbers.{are_digits, number_at};

pub(crate) fn is_all_digits(text: &str) -> bool
    ensures { result ≡ are_digits text.now }
{
    text.bytes().all(|b| b.is_ascii_digit())
}

/// The number that digits stand for, if there are some and it fits.
pub(crate) fn parse_number(text: &str) -> Option<u64>
    ensures { result ≡ number_at text.now }
{
    // `parse` would take a `+`.
    if !is_all_digits(text) {
        return None;
    }
    text.parse().ok()
}
