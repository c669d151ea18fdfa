//! Reading an action text: one function for each step, in the order in which they refuse.

ghost use Rattle.std.specs.Prelude.{◌≡◌, ◌≤◌, ◌<◌, length, map, option_map, position, IfOk, IfSome};
ghost use Rattle.actions.specs.Value.{task_value, term_value};
ghost use Rattle.actions.specs.Reading.{Gives, is_bad_byte, argument_at, chance_at, count_at};
ghost use Rattle.actions.specs.Reading.{time_at, task_at, term_at, terms_at, reading, pieces};
ghost use Rattle.actions.specs.Reading.{trimmed_text};

use crate::fault::ActionFault;
use crate::numbers::parse_number;
use crate::percent::{ALL_PARTS, parse_percent};
use crate::task::{Task, Term, copied_text};
use std::alloc::{AllocError, Global};

/// The most bytes of a text.
const MAX_TEXT: usize = 1024;

/// The most terms of a text.
pub const MAX_TERMS: u8 = 16;

/// The terms of a text.
#[tactic(auto, unfolding(crate::specs::Reading::reading))]
pub(crate) fn read_terms(alloc: Global, text: &str) -> Result<Vec<Term>, ActionFault>
    ensures exact { Gives (λ v. map term_value v.items) result (reading text.now) }
    ensures long { MAX_TEXT < length text.now → result ≡ Err ActionFault.TooLong }
    ensures bad_byte { length text.now ≤ MAX_TEXT
        → IfSome (position is_bad_byte text.now) (λ i. result ≡ Err (ActionFault.BadByte i)) }
{
    if text.len() > MAX_TEXT {
        return Err(ActionFault::TooLong);
    }
    if let Some(offset) = first_bad_byte(text) {
        return Err(ActionFault::BadByte { offset });
    }
    let pieces = split_pieces(alloc, text)?;
    if pieces.len() > usize::from(MAX_TERMS) {
        return Err(ActionFault::TooManyTerms);
    }
    parse_terms(alloc, &pieces)
}

/// The place of the first control byte or semicolon.
fn first_bad_byte(text: &str) -> Option<usize>
    ensures { result ≡ position is_bad_byte text.now }
{
    text.bytes()
        .position(|b| b < 0x20 || b == 0x7f || b == b';')
}

fn split_pieces<'a>(alloc: Global, text: &'a str) -> Result<Vec<&'a str>, AllocError>
    ensures { IfOk result (λ v. map (λ x. x.now) v.items ≡ pieces text.now) }
{
    text.split("->").collect(alloc)
}

fn parse_terms(alloc: Global, pieces: &[&str]) -> Result<Vec<Term>, ActionFault>
    requires { length pieces.now ≤ MAX_TERMS }
    ensures { Gives (λ v. map term_value v.items) result
        (terms_at 0 (map (λ x. x.now) pieces.now)) }
{
    let mut terms = Vec::new(alloc);
    for (index, piece) in pieces.iter().enumerate() {
        terms.push(parse_term(alloc, index as u8, trim_spaces(piece))?)?;
    }
    Ok(terms)
}

/// The text without the spaces at its ends.
pub(crate) fn trim_spaces(text: &str) -> &str
    ensures { result.now ≡ trimmed_text text.now }
{
    // `trim` would take other white space too.
    text.trim_start_matches(' ').trim_end_matches(' ')
}

/// Term number `term`, whose text has no spaces at its ends.
#[tactic(auto, unfolding(crate::specs::Reading::term_at))]
fn parse_term(alloc: Global, term: u8, text: &str) -> Result<Term, ActionFault>
    ensures { Gives term_value result (term_at term text.now) }
{
    let (head, argument) = split_argument(term, text)?;
    let (ppm, head) = split_chance(term, head)?;
    let (count, word) = split_count(term, head)?;
    let task = parse_task(alloc, term, word, argument)?;
    Ok(Term { ppm, count, task })
}

/// The head of a term, which is what stands before its argument, and the argument.
#[tactic(auto, unfolding(crate::specs::Reading::argument_at))]
fn split_argument(term: u8, text: &str) -> Result<(&str, Option<&str>), ActionFault>
    ensures { Gives (λ x. (x.0.now, option_map (λ a. a.now) x.1)) result
        (argument_at term text.now) }
{
    let Some((head, rest)) = text.split_once('(') else {
        return Ok((text, None));
    };
    let Some(argument) = rest.strip_suffix(')') else {
        return Err(ActionFault::Unclosed { term });
    };
    Ok((head, Some(argument)))
}

/// The chance in parts per million, and the rest of the head.
#[tactic(auto, unfolding(crate::specs::Reading::chance_at))]
fn split_chance(term: u8, head: &str) -> Result<(u32, &str), ActionFault>
    ensures { Gives (λ x. (x.0, x.1.now)) result (chance_at term head.now) }
{
    let Some((percent, rest)) = head.split_once('%') else {
        return Ok((ALL_PARTS, head));
    };
    let ppm = parse_percent(percent).ok_or(ActionFault::BadPercent { term })?;
    Ok((ppm, rest))
}

/// The count, and the task's word.
#[tactic(auto, unfolding(crate::specs::Reading::count_at))]
fn split_count(term: u8, head: &str) -> Result<(Option<u64>, &str), ActionFault>
    ensures { Gives (λ x. (x.0, x.1.now)) result (count_at term head.now) }
{
    let Some((count, word)) = head.split_once('*') else {
        return Ok((None, head));
    };
    let count = parse_number(count).ok_or(ActionFault::BadCount { term })?;
    Ok((Some(count), word))
}

#[tactic(auto, unfolding(crate::specs::Reading::task_at))]
fn parse_task(
    alloc: Global,
    term: u8,
    word: &str,
    argument: Option<&str>,
) -> Result<Task, ActionFault>
    ensures { Gives task_value result
        (task_at term word.now (option_map (λ a. a.now) argument.entry)) }
{
    match word {
        "" => Err(ActionFault::NoTask { term }),
        "off" => Ok(Task::Off),
        "return" => Ok(Task::Return(copied_text(alloc, argument)?)),
        "sleep" => Ok(Task::Sleep(parse_time(term, argument)?)),
        "panic" => Ok(Task::Panic(copied_text(alloc, argument)?)),
        "print" => Ok(Task::Print(copied_text(alloc, argument)?)),
        "pause" => Ok(Task::Pause),
        "yield" => Ok(Task::Yield),
        "delay" => Ok(Task::Delay(parse_time(term, argument)?)),
        _ => Err(ActionFault::UnknownTask { term }),
    }
}

#[tactic(auto, unfolding(crate::specs::Reading::time_at))]
fn parse_time(term: u8, argument: Option<&str>) -> Result<u64, ActionFault>
    ensures { Gives (λ n. n) result (time_at term (option_map (λ a. a.now) argument.entry)) }
{
    let time = argument.ok_or(ActionFault::NeedsTime { term })?;
    parse_number(time).ok_or(ActionFault::BadTime { term })
}
