//! The entries of codes.

ghost use Rattle.std.specs.Prelude.{◌≡◌, option_map, string_bytes, IfOk};
ghost use Rattle.refusal_texts.specs.Explanations.{code_of, codes_text, entry_in, explained_text};
ghost use Rattle.refusal_texts.specs.Explanations.{title_of, titles_text};

use crate::table::TABLE;
use std::alloc::{AllocError, Global};

fn title_of(entry: &str) -> &str
    ensures { result.now ≡ title_of entry.now }
{
    match entry.split_once('\n') {
        Some((title, _)) => title,
        None => entry,
    }
}

fn code_of(entry: &str) -> &str
    ensures { result.now ≡ code_of entry.now }
{
    let title = title_of(entry);
    match title.split_once(' ') {
        Some((code, _)) => code,
        None => title,
    }
}

fn entry_in<'a>(table: &'a str, code: &str) -> Option<&'a str>
    ensures { option_map (λ entry. entry.now) result ≡ entry_in table.now code.now }
{
    table.split('|').find(|entry| code_of(entry) == code)
}

/// The entry of a code: its title, and below it what is refused, why, and what to do, with a newline
/// at the end of each line.
pub fn explanation_of(code: &str) -> Option<&'static str>
    ensures { option_map (λ entry. entry.now) result ≡ entry_in TABLE.now code.now }
{
    entry_in(TABLE, code)
}

/// The entry of each word of a text that is a code, in the order of the words. Where none is one, the
/// text is empty.
pub fn explain(alloc: Global, text: &str) -> Result<String, AllocError>
    ensures { IfOk result (λ shown. string_bytes shown ≡ explained_text TABLE.now text.now) }
{
    let mut shown = String::new(alloc);
    for word in text.split(' ') {
        shown.push_str(explanation_of(word).unwrap_or(""))?;
    }
    Ok(shown)
}

/// The title of each entry, a line each: its code and its name.
pub fn all_titles(alloc: Global) -> Result<String, AllocError>
    ensures { IfOk result (λ shown. string_bytes shown ≡ titles_text TABLE.now) }
{
    titles_in(alloc, TABLE)
}

fn titles_in(alloc: Global, table: &str) -> Result<String, AllocError>
    ensures { IfOk result (λ shown. string_bytes shown ≡ titles_text table.now) }
{
    let mut shown = String::new(alloc);
    for entry in table.split('|') {
        shown.push_str(title_of(entry))?;
        shown.push_str("\n")?;
    }
    Ok(shown)
}

/// The code of each entry, behind a space each.
pub fn all_codes(alloc: Global) -> Result<String, AllocError>
    ensures { IfOk result (λ shown. string_bytes shown ≡ codes_text TABLE.now) }
{
    codes_in(alloc, TABLE)
}

fn codes_in(alloc: Global, table: &str) -> Result<String, AllocError>
    ensures { IfOk result (λ shown. string_bytes shown ≡ codes_text table.now) }
{
    let mut shown = String::new(alloc);
    for entry in table.split('|') {
        shown.push_str(" ")?;
        shown.push_str(code_of(entry))?;
    }
    Ok(shown)
}
