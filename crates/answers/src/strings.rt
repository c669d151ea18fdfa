//! Bytes in a string of JSON.

ghost use Rattle.std.specs.Prelude.{◌≡◌, ◌<◌, ◌++◌, ◌∷◌, [], OnOk};
ghost use Rattle.answers.specs.Strings.{hexadecimal, is_plain, string_byte, string_of};

use std::alloc::AllocError;

fn is_plain(known: bool, byte: u8) -> bool
    ensures { result ≡ is_plain known byte }
{
    (32 <= byte && (byte < 127 || (known && 128 <= byte))) && !(byte == b'"' || byte == b'\\')
}

fn hexadecimal(digit: u8) -> u8
    requires { digit < 16 }
    ensures { result ≡ hexadecimal digit }
{
    if digit < 10 { 48 + digit } else { 87 + digit }
}

fn push_byte(known: bool, byte: u8, out: &mut Vec<u8>) -> Result<(), AllocError>
    ensures { OnOk result (out.new.items ≡ out.old.items ++ string_byte known byte) }
{
    if is_plain(known, byte) {
        out.push(byte)?;
        return Ok(());
    }
    out.extend_from_slice(b"\\u00")?;
    out.push(hexadecimal(byte / 16))?;
    out.push(hexadecimal(byte % 16))?;
    Ok(())
}

/// Bytes as they stand between the quotes, of a text that is UTF-8 throughout or not.
pub(crate) fn push_string(known: bool, bytes: &[u8], out: &mut Vec<u8>) -> Result<(), AllocError>
    ensures { OnOk result (out.new.items ≡ out.old.items ++ string_of known bytes.now) }
{
    for byte in bytes {
        push_byte(known, *byte, out)?;
    }
    Ok(())
}
