//! The lines that only a script that is checked has.

ghost use Rattle.std.specs.Prelude.{◌≡◌, is_some, option_map};
ghost use Rattle.std.specs.List.{position};
ghost use Rattle.thread_checks.specs.Lines.{await_in, awaited_in, dot_cut_of, first_in, rounds_if};
ghost use Rattle.thread_checks.specs.Lines.{is_await, is_dot, is_expect, is_own, is_spread, is_start_call};
ghost use Rattle.thread_checks.specs.Lines.{is_worker, named_in, rounds_in, share_in, stamp_in, stamped_in};

use decimals::{amount, byte, word};
use stamp_register::Stamp;
use streams::{cut, cut_field, field, text_of};

/// Whether a line expects an answer, or what is printed.
pub(crate) fn is_expect(line: &[u8]) -> bool
    ensures { result ≡ is_expect line.now }
{
    line == b"expect".as_slice() || line.starts_with(b"expect ")
}

/// Whether a line waits, or is meant to.
pub(crate) fn is_await(line: &[u8]) -> bool
    ensures { result ≡ is_await line.now }
{
    line == b"await".as_slice() || line.starts_with(b"await ")
}

fn first_dot(text: &str) -> Option<usize>
    ensures { result ≡ position is_dot text.now }
{
    text.bytes().position(|byte| byte == b'.')
}

fn cut_dot(text: &str) -> Option<(&str, &str)>
    ensures { option_map (λ parts. (parts.0.now, parts.1.now)) result ≡ dot_cut_of text.now }
{
    let dot = first_dot(text)?;
    Some((&text[..dot], &text[dot + 1..]))
}

fn stamp_in(text: &str) -> Option<Stamp>
    ensures { result ≡ stamp_in text.now }
{
    let (clock, node) = cut_dot(text)?;
    let clock = amount(clock)?;
    let node = byte(node)?;
    Some(Stamp { clock, node })
}

fn named_in(rest: &str) -> Option<(&str, Option<Stamp>)>
    ensures { option_map (λ a. (a.0.now, a.1)) result ≡ named_in rest.now }
{
    let name = field(rest)?;
    Some((name, None))
}

fn stamped_in(rest: &str) -> Option<(&str, Option<Stamp>)>
    ensures { option_map (λ a. (a.0.now, a.1)) result ≡ stamped_in rest.now }
{
    let (name, stamp) = cut_field(rest)?;
    let stamp = stamp_in(stamp)?;
    Some((name, Some(stamp)))
}

fn awaited_in(rest: &str) -> Option<(&str, Option<Stamp>)>
    ensures { option_map (λ a. (a.0.now, a.1)) result ≡ awaited_in rest.now }
{
    if cut(rest).is_some() {
        stamped_in(rest)
    } else {
        named_in(rest)
    }
}

/// The point that a line waits for, and the stamp, if it has one.
pub(crate) fn await_in(line: &[u8]) -> Option<(&str, Option<Stamp>)>
    ensures { option_map (λ a. (a.0.now, a.1)) result ≡ await_in line.now }
{
    let (_word, rest) = cut(text_of(line)?)?;
    awaited_in(rest)
}

fn rounds_if(meant: &str, first: &str, rounds: &str, last: &str) -> Option<u32>
    ensures { result ≡ rounds_if meant.now first.now rounds.now last.now }
{
    if first == "gossip" && last == meant {
        word(rounds)
    } else {
        None
    }
}

/// The rounds of a line `gossip <rounds> <meant>`.
pub(crate) fn rounds_in(meant: &str, line: &[u8]) -> Option<u32>
    ensures { result ≡ rounds_in meant.now line.now }
{
    let (first, rest) = cut(text_of(line)?)?;
    let (rounds, last) = cut(rest)?;
    rounds_if(meant, first, rounds, last)
}

/// The rounds of gossip that a line says come before the workers.
pub(crate) fn first_in(line: &[u8]) -> Option<u32>
    ensures { result ≡ first_in line.now }
{
    rounds_in("first", line)
}

/// The rounds of gossip in each of which, as a line says, the nodes share their rights.
pub(crate) fn share_in(line: &[u8]) -> Option<u32>
    ensures { result ≡ share_in line.now }
{
    rounds_in("share", line)
}

/// Whether only a script that is checked has such a line.
pub(crate) fn is_own(line: &[u8]) -> bool
    ensures { result ≡ is_own line.now }
{
    is_expect(line) || is_await(line) || first_in(line).is_some()
}

pub(crate) fn is_worker(line: &[u8]) -> bool
    ensures { result ≡ is_worker line.now }
{
    line.starts_with(b"worker ")
}

pub(crate) fn is_spread(line: &[u8]) -> bool
    ensures { result ≡ is_spread line.now }
{
    line.starts_with(b"start spread ")
}

/// Whether a line is a `start` line that spreads nothing.
pub(crate) fn is_start_call(line: &[u8]) -> bool
    ensures { result ≡ is_start_call line.now }
{
    line.starts_with(b"start ") && !is_spread(line)
}
