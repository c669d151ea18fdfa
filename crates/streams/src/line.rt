//! What the bytes of a line are.

ghost use Rattle.std.specs.Prelude.{◌≡◌, option_map};
ghost use Rattle.streams.specs.Lines.{is_skipped, text_in};

/// Whether a line is empty or a comment, whatever its bytes.
pub fn is_skipped(line: &[u8]) -> bool
    ensures { result ≡ is_skipped line.now }
{
    line.is_empty() || line[0] == b'#'
}

/// The text of a line, where its bytes are UTF-8.
pub fn text_of(line: &[u8]) -> Option<&str>
    ensures { option_map (λ text. text.now) result ≡ text_in line.now }
{
    str::from_utf8(line).ok()
}
