//! A call that a line of a script asks for.

ghost use Rattle.std.specs.Prelude.{◌≡◌, option_map};
ghost use Rattle.node_calls.specs.Told.{ask_ref_told};
ghost use Rattle.call_lines.specs.Calls.{call_after, grant_in, load_in, remove_in, set_in, shift_in};

use decimals::amount;
use node_calls::AskRef;
use streams::{cut_byte, cut_field, field};

// `<name> <rest>`, whose rest may be empty and have spaces.
fn set_call(rest: &str) -> Option<AskRef<'_>>
    ensures { option_map ask_ref_told result ≡ set_in rest.now }
{
    let (name, text) = cut_field(rest)?;
    Some(AskRef::Set { name, text })
}

// `<name>`.
fn remove_call(rest: &str) -> Option<AskRef<'_>>
    ensures { option_map ask_ref_told result ≡ remove_in rest.now }
{
    let name = field(rest)?;
    Some(AskRef::Remove { name })
}

// `<rest>`, which may be empty and have spaces.
fn load_call(text: &str) -> AskRef<'_>
    ensures { ask_ref_told result ≡ load_in text.now }
{
    AskRef::Load { text }
}

// `<name> <term> <to> <amount>`.
fn shift_call(rest: &str) -> Option<AskRef<'_>>
    ensures { option_map ask_ref_told result ≡ shift_in rest.now }
{
    let (name, rest) = cut_field(rest)?;
    let (term, rest) = cut_byte(rest)?;
    let (to, rest) = cut_byte(rest)?;
    let amount = amount(rest)?;
    Some(AskRef::Shift {
        name,
        term,
        to,
        amount,
    })
}

// `<name> <term> <amount>`.
fn grant_call(rest: &str) -> Option<AskRef<'_>>
    ensures { option_map ask_ref_told result ≡ grant_in rest.now }
{
    let (name, rest) = cut_field(rest)?;
    let (term, rest) = cut_byte(rest)?;
    let amount = amount(rest)?;
    Some(AskRef::Grant { name, term, amount })
}

/// The call of a line, by its first word and what follows this: `set <name> <text>`,
/// `remove <name>`, `load <text>`, `shift <name> <term> <to> <amount>` or
/// `grant <name> <term> <amount>`. It is none where the line has another form.
pub fn call_after<'a>(word: &str, rest: &'a str) -> Option<AskRef<'a>>
    ensures { option_map ask_ref_told result ≡ call_after word.now rest.now }
{
    match word {
        "set" => set_call(rest),
        "remove" => remove_call(rest),
        "load" => Some(load_call(rest)),
        "shift" => shift_call(rest),
        "grant" => grant_call(rest),
        _ => None,
    }
}
