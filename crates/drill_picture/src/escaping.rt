//! Texts of somebody else, as an SVG holds them.

ghost use Rattle.std.specs.Prelude.{◌≡◌, ◌<◌, ◌++◌, ◌∷◌, [], OnOk, string_bytes};
ghost use Rattle.drill_picture.specs.Escaped.{escaped, escaped_byte};
ghost use Rattle.drill_picture.specs.Marks.{Adds};

use std::alloc::AllocError;

fn push_ascii(out: &mut String, byte: u8) -> Result<(), AllocError>
    requires { byte < 128 }
    ensures { OnOk result (string_bytes out.new ≡ string_bytes out.old ++ byte ∷ []) }
{
    out.push(char::from(byte))
}

fn push_byte(out: &mut String, byte: u8) -> Result<(), AllocError>
    ensures { Adds result out.old out.new (escaped_byte byte) }
{
    if byte == b'&' {
        return out.push_str("&amp;");
    }
    if byte == b'<' {
        return out.push_str("&lt;");
    }
    if byte == b'>' {
        return out.push_str("&gt;");
    }
    if byte == b'"' {
        return out.push_str("&quot;");
    }
    if byte == b'\'' {
        return out.push_str("&apos;");
    }
    if 32 <= byte && byte <= 126 {
        return push_ascii(out, byte);
    }
    out.push_str("?")
}

fn push_all(out: &mut String, bytes: &[u8]) -> Result<(), AllocError>
    ensures { Adds result out.old out.new (escaped bytes.now) }
{
    for byte in bytes {
        push_byte(out, *byte)?;
    }
    Ok(())
}

/// Appends a text of somebody else: what has a meaning in an SVG is spelled out, and a byte that
/// can't be seen as it is is shown as `?`.
pub(crate) fn push_escaped(out: &mut String, text: &str) -> Result<(), AllocError>
    ensures { Adds result out.old out.new (escaped text.now) }
{
    push_all(out, text.as_bytes())
}
