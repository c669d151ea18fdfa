//! Texts of somebody else, as a terminal can show them.

ghost use Rattle.std.specs.Prelude.{◌≡◌, ◌<◌, ◌++◌, ◌∷◌, [], codes, length, nat_lt, string_bytes, take};
ghost use Rattle.std.specs.Prelude.{if◌then◌else◌, IfOk, OnOk};
ghost use Rattle.std.specs.List.{flat_map};
ghost use Rattle.command_line.specs.Quoted.{escaped_byte, hexadecimal, is_plain, quoted};

use std::alloc::{AllocError, Global};

/// The most bytes that are shown.
const MOST_SHOWN: usize = 40;

fn is_plain(byte: u8) -> bool
    ensures { result ≡ is_plain byte }
{
    (32 <= byte && byte <= 126) && !(byte == b'"' || byte == b'\\')
}

fn hexadecimal(digit: u8) -> u8
    requires { digit < 16 }
    ensures value { result ≡ hexadecimal digit }
    ensures ascii { result < 128 }
{
    if digit < 10 { 48 + digit } else { 87 + digit }
}

fn push_ascii(shown: &mut String, byte: u8) -> Result<(), AllocError>
    requires { byte < 128 }
    ensures { OnOk result (string_bytes shown.new ≡ string_bytes shown.old ++ byte ∷ []) }
{
    shown.push(char::from(byte))
}

fn push_escaped(shown: &mut String, byte: u8) -> Result<(), AllocError>
    ensures { OnOk result (string_bytes shown.new
        ≡ string_bytes shown.old ++ escaped_byte byte) }
{
    if is_plain(byte) {
        return push_ascii(shown, byte);
    }
    shown.push_str("\\x")?;
    push_ascii(shown, hexadecimal(byte / 16))?;
    push_ascii(shown, hexadecimal(byte % 16))
}

fn push_all(shown: &mut String, bytes: &[u8]) -> Result<(), AllocError>
    ensures { OnOk result (string_bytes shown.new
        ≡ string_bytes shown.old ++ flat_map escaped_byte bytes.now) }
{
    for byte in bytes {
        push_escaped(shown, *byte)?;
    }
    Ok(())
}

fn first_bytes(text: &[u8]) -> &[u8]
    ensures { result.now ≡ take 40 text.now }
{
    if text.len() > MOST_SHOWN {
        &text[..MOST_SHOWN]
    } else {
        text
    }
}

fn closing(text: &[u8]) -> &'static str
    ensures { result.now ≡ (if nat_lt 40 (length text.now) then codes "\"..." else codes "\"") }
{
    if text.len() > MOST_SHOWN {
        "\"..."
    } else {
        "\""
    }
}

/// A text between double quotes: its first 40 bytes, and dots where there are more. A byte that a
/// terminal might take for something else is shown by its number.
pub fn quoted(alloc: Global, text: &str) -> Result<String, AllocError>
    ensures { IfOk result (λ shown. string_bytes shown ≡ quoted text.now) }
{
    let mut shown = String::new(alloc);
    shown.push_str("\"")?;
    push_all(&mut shown, first_bytes(text.as_bytes()))?;
    shown.push_str(closing(text.as_bytes()))?;
    Ok(shown)
}
