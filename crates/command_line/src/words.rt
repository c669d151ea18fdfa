//! A text that a command line gives as words.

ghost use Rattle.std.specs.Prelude.{◌≡◌, ◌++◌, ◌∷◌, map, option_map, string_bytes, IfOk, OnOk};
ghost use Rattle.std.specs.List.{flat_map};
ghost use Rattle.command_line.specs.Words.{joined, text_of};

use std::alloc::{AllocError, Global};

fn push_words(text: &mut String, words: &[&str]) -> Result<(), AllocError>
    ensures { OnOk result (string_bytes text.new
        ≡ string_bytes text.old ++ flat_map (λ word. 32 ∷ word.now) words.now) }
{
    for word in words {
        text.push_str(" ")?;
        text.push_str(word)?;
    }
    Ok(())
}

// The words, with a space between each two.
fn joined(alloc: Global, words: &[&str]) -> Result<String, AllocError>
    ensures { IfOk result (λ text. string_bytes text ≡ joined (map (λ w. w.now) words.now)) }
{
    let mut text = String::new(alloc);
    let Some((first, rest)) = words.split_first() else {
        return Ok(text);
    };
    text.push_str(first)?;
    push_words(&mut text, rest)?;
    Ok(text)
}

/// The text that words are, with a space between each two, or none where there is no word.
pub(crate) fn text_of(alloc: Global, words: &[&str]) -> Result<Option<String>, AllocError>
    ensures { IfOk result (λ text.
        option_map string_bytes text ≡ text_of (map (λ w. w.now) words.now)) }
{
    if words.is_empty() {
        return Ok(None);
    }
    Ok(Some(joined(alloc, words)?))
}
