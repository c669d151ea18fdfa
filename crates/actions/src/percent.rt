//! Percentages, read and written, in parts per million.

ghost use Rattle.std.specs.Prelude.{◌≡◌, ◌<◌, ◌≤◌, ◌^◌, length, IfSome};
ghost use Rattle.actions.specs.Numbers.{short_number_at, decimals_at, percent_at};

use crate::numbers::is_all_digits;
use std::fmt;

/// All of a million parts: 100%.
pub(crate) const ALL_PARTS: u32 = 1_000_000;

/// The parts of one per cent.
const PARTS_PER_CENT: u32 = 10_000;

/// The number that one to `most` digits stand for.
fn parse_short_number(text: &str, most: usize) -> Option<u32>
    requires { most < 5 }
    ensures number { result ≡ short_number_at most text.now }
    ensures short { IfSome result (λ n. (n < 10 ^ most) × (length text.now ≤ most)) }
{
    if text.len() > most {
        return None;
    }
    if !is_all_digits(text) {
        return None;
    }
    text.parse().ok()
}

/// The ten-thousandths that one to four decimals stand for.
#[tactic(auto, unfolding(crate::specs::Numbers::decimals_at))]
fn parse_decimals(text: &str) -> Option<u32>
    ensures number { result ≡ decimals_at text.now }
    ensures small { IfSome result (λ n. n < 10000) }
{
    let number = parse_short_number(text, 4)?;
    Some(number * 10u32.pow(4 - text.len() as u32))
}

/// The parts per million that a percentage without its `%` stands for.
#[tactic(auto, unfolding(crate::specs::Numbers::percent_at))]
pub(crate) fn parse_percent(text: &str) -> Option<u32>
    ensures { result ≡ percent_at text.now }
{
    let ppm = match text.split_once('.') {
        None => parse_short_number(text, 3)? * PARTS_PER_CENT,
        Some((whole, decimals)) => {
            parse_short_number(whole, 3)? * PARTS_PER_CENT + parse_decimals(decimals)?
        }
    };
    (ppm <= ALL_PARTS).then_some(ppm)
}

/// Parts per million, shown as a percentage without its `%`.
#[derive(Clone, Copy)]
pub(crate) struct Percent(pub(crate) u32);

impl fmt::Display for Percent {
    ghost use Rattle.std.specs.Prelude.{Some};
    ghost use Rattle.actions.specs.Grammar.{percent_text};
    ghost use Rattle.actions.specs.Canonical.{percent_of};

    ghost output = { λ p. Some (percent_text (percent_of p.0)) };

    fn fmt<W: fmt::Write>(&self, f: &mut fmt::Formatter<W>) -> fmt::Result {
        let whole = self.0 / PARTS_PER_CENT;
        let part = self.0 % PARTS_PER_CENT;
        let first = part / 1000;
        let second = part / 100 % 10;
        let third = part / 10 % 10;
        let fourth = part % 10;
        if part == 0 {
            write!(f, "{whole}")
        } else if fourth != 0 {
            write!(f, "{whole}.{first}{second}{third}{fourth}")
        } else if third != 0 {
            write!(f, "{whole}.{first}{second}{third}")
        } else if second != 0 {
            write!(f, "{whole}.{first}{second}")
        } else {
            write!(f, "{whole}.{first}")
        }
    }
}
