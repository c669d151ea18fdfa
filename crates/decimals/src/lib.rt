//! Numbers in decimal digits: a text is one or more of them, with no sign and nothing round them.
#![tactic(auto)]

ghost use Rattle.std.specs.Prelude.{◌≡◌, ◌≤◌, IfSome};
ghost use Rattle.std.specs.List.{list_all};
ghost use Rattle.std.specs.Char.{is_ascii_digit};
ghost use Rattle.decimals.specs.Decimals.{number_of, byte_of, word_of, amount_of};

fn is_digits(text: &str) -> bool
    ensures { result ≡ list_all is_ascii_digit text.now }
{
    text.bytes().all(|byte| byte.is_ascii_digit())
}

/// One or more digits, with a value up to `most`.
pub fn number(text: &str, most: u64) -> Option<u64>
    ensures value { result ≡ number_of most text.now }
    ensures fits { IfSome result (λ value. value ≤ most) }
{
    // `parse` would take a sign.
    if text.is_empty() || !is_digits(text) {
        return None;
    }
    let Ok(value) = text.parse::<u64>() else {
        return None;
    };
    (value <= most).then_some(value)
}

/// A number of 8 bits: that of a node or a term.
pub fn byte(text: &str) -> Option<u8>
    ensures { result ≡ byte_of text.now }
{
    let value = number(text, 255)?;
    Some(value as u8)
}

/// A number of 32 bits: a trace's limit, or a random draw.
pub fn word(text: &str) -> Option<u32>
    ensures { result ≡ word_of text.now }
{
    let value = number(text, 4_294_967_295)?;
    Some(value as u32)
}

/// A number of 64 bits: an amount of rights.
pub fn amount(text: &str) -> Option<u64>
    ensures { result ≡ amount_of text.now }
{
    number(text, u64::MAX)
}
