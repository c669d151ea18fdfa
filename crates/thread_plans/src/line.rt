//! What a line of a script of threads says.

ghost use Rattle.std.specs.Prelude.{◌≡◌, option_map};
ghost use Rattle.node_calls.specs.Told.{ask_ref_told};
ghost use Rattle.thread_plans.specs.Lines.{gossip_in, line_after, line_in, line_value, nodes_in};
ghost use Rattle.thread_plans.specs.Lines.{once, pass_in, seed_in, spread_in, start_call_in};
ghost use Rattle.thread_plans.specs.Lines.{start_in, times_of, worker_in};

use call_lines::call_after;
use decimals::{byte, number, word};
use hex::FromHex;
use node_calls::AskRef;
use streams::{cut, cut_byte, cut_field, field, text_of};

/// What a node does before the workers start.
#[derive(Clone, Copy)]
pub enum Start<'a> {
    /// Makes a call.
    Call(AskRef<'a>),
    /// Gives each other node an equal share of its rights to a point.
    Spread { name: &'a str },
}

/// What a line of a script of threads says.
#[derive(Clone, Copy)]
pub enum Line<'a> {
    /// There are so many nodes, each of which accepts so many calls.
    Nodes { count: u8, trace_cap: u32 },
    /// The seed of the random draws that passes are given.
    Seed([u8; 32]),
    /// A node does this before the workers start.
    Start { node: u8, start: Start<'a> },
    /// Beside the workers, the nodes do so many rounds of gossip.
    Gossip { rounds: u32 },
    /// A block of calls of one worker at a node begins.
    Worker { node: u8 },
    /// The worker makes a call, so many times.
    Calls { call: AskRef<'a>, times: u16 },
}

fn nodes_line(rest: &str) -> Option<Line<'_>>
    ensures { option_map line_value result ≡ nodes_in rest.now }
{
    let (count, trace_cap) = cut_byte(rest)?;
    let trace_cap = word(trace_cap)?;
    Some(Line::Nodes { count, trace_cap })
}

fn seed_line(rest: &str) -> Option<Line<'_>>
    ensures { option_map line_value result ≡ seed_in rest.now }
{
    let Ok(seed) = <[u8; 32] as FromHex>::from_hex(rest) else {
        return None;
    };
    Some(Line::Seed(seed))
}

fn start_call_line<'a>(word: &str, rest: &'a str) -> Option<Line<'a>>
    ensures { option_map line_value result ≡ start_call_in word.now rest.now }
{
    let (node, rest) = cut_byte(rest)?;
    let call = call_after(word, rest)?;
    let start = Start::Call(call);
    Some(Line::Start { node, start })
}

fn spread_line(rest: &str) -> Option<Line<'_>>
    ensures { option_map line_value result ≡ spread_in rest.now }
{
    let (node, name) = cut_byte(rest)?;
    let name = field(name)?;
    let start = Start::Spread { name };
    Some(Line::Start { node, start })
}

fn start_line(rest: &str) -> Option<Line<'_>>
    ensures { option_map line_value result ≡ start_in rest.now }
{
    let (word, rest) = cut(rest)?;
    if word == "spread" {
        spread_line(rest)
    } else {
        start_call_line(word, rest)
    }
}

fn gossip_line(rest: &str) -> Option<Line<'_>>
    ensures { option_map line_value result ≡ gossip_in rest.now }
{
    let rounds = word(rest)?;
    Some(Line::Gossip { rounds })
}

fn worker_line(rest: &str) -> Option<Line<'_>>
    ensures { option_map line_value result ≡ worker_in rest.now }
{
    let node = byte(rest)?;
    Some(Line::Worker { node })
}

fn once(call: AskRef<'_>) -> Line<'_>
    ensures { line_value result ≡ once (ask_ref_told call.entry) }
{
    Line::Calls { call, times: 1 }
}

fn times(text: &str) -> Option<u16>
    ensures { result ≡ times_of text.now }
{
    let value = number(text, 65535)?;
    Some(value as u16)
}

fn pass_line(rest: &str) -> Option<Line<'_>>
    ensures { option_map line_value result ≡ pass_in rest.now }
{
    let (name, count) = cut_field(rest)?;
    let times = times(count)?;
    let call = AskRef::Pass { name };
    Some(Line::Calls { call, times })
}

// By the line's first word, what follows it.
fn line_after<'a>(word: &str, rest: &'a str) -> Option<Line<'a>>
    ensures { option_map line_value result ≡ line_after word.now rest.now }
{
    match word {
        "nodes" => nodes_line(rest),
        "seed" => seed_line(rest),
        "start" => start_line(rest),
        "gossip" => gossip_line(rest),
        "worker" => worker_line(rest),
        "pass" => pass_line(rest),
        _ => call_after(word, rest).map(once),
    }
}

/// What a line says, where it is text and has one of the forms.
pub(crate) fn read_line(line: &[u8]) -> Option<Line<'_>>
    ensures { option_map line_value result ≡ line_in line.now }
{
    let (word, rest) = cut(text_of(line)?)?;
    line_after(word, rest)
}
