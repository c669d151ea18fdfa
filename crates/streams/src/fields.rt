//! The fields of a line.

ghost use Rattle.std.specs.Prelude.{◌≡◌, option_map};
ghost use Rattle.std.specs.List.{position};
ghost use Rattle.streams.specs.Fields.{is_space, cut_of, field_of, field_cut_of, byte_cut_of};
ghost use Rattle.streams.specs.Fields.{first_word};

use decimals::byte;

// Out of line, so that the searches of a line share one short loop.
#[inline(never)]
fn first_space(text: &str) -> Option<usize>
    ensures { result ≡ position is_space text.now }
{
    text.bytes().position(|byte| byte == b' ')
}

/// What stands before the first space, and what after it.
pub fn cut(text: &str) -> Option<(&str, &str)>
    ensures { option_map (λ parts. (parts.0.now, parts.1.now)) result ≡ cut_of text.now }
{
    let space = first_space(text)?;
    Some((&text[..space], &text[space + 1..]))
}

/// What stands before the first space, or all.
pub fn first_word(text: &str) -> &str
    ensures { result.now ≡ first_word text.now }
{
    match cut(text) {
        Some((word, _)) => word,
        None => text,
    }
}

/// A field: not empty, and with no space.
pub fn field(text: &str) -> Option<&str>
    ensures { option_map (λ field. field.now) result ≡ field_of text.now }
{
    if text.is_empty() || first_space(text).is_some() {
        None
    } else {
        Some(text)
    }
}

/// A field before the first space, and what stands after it.
pub fn cut_field(text: &str) -> Option<(&str, &str)>
    ensures { option_map (λ parts. (parts.0.now, parts.1.now)) result ≡ field_cut_of text.now }
{
    let (front, rest) = cut(text)?;
    let front = field(front)?;
    Some((front, rest))
}

/// The number of a node or a term before the first space, and what stands after it.
#[inline(always)]
pub fn cut_byte(text: &str) -> Option<(u8, &str)>
    ensures { option_map (λ parts. (parts.0, parts.1.now)) result ≡ byte_cut_of text.now }
{
    let (front, rest) = cut(text)?;
    let number = byte(front)?;
    Some((number, rest))
}
