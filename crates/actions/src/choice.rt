//! Which term of an action text is triggered.

ghost use Rattle.std.specs.Prelude.{◌≡◌, ◌≤◌, ◌<◌, true, false, length, map, slice_index, slice_index_or};
ghost use Rattle.actions.specs.Value.{term_value};
ghost use Rattle.actions.specs.Choice.{takes_word, passes, can_trigger, words_needed, choice};

use crate::actions::Actions;
use crate::percent::ALL_PARTS;
use crate::task::Term;

/// How many values a random draw of 32 bits has.
const ALL_WORDS: u64 = 1 << 32;

/// The number of the term that is triggered: the first whose chance passes and which is uncounted
/// or may run, as `may` says of each term by its number.
///
/// `words` are random draws, as many as `words_needed`: one for each term whose chance is below
/// 100%, in the order of the terms, whether or not that term is reached. A term of `ppm` parts per
/// million passes by the draw `w` where `w / 2^32` is below `ppm / 1_000_000`. One of 100% takes no
/// random draw and passes.
pub fn decide(actions: &Actions, words: &[u32], may: [bool; 16]) -> Option<u8>
    requires { length words.now ≡ words_needed actions.now }
    ensures { result ≡ choice actions.now words.now (λ k. slice_index_or may k false) }
{
    first_triggered(actions.terms(), words, &may)
}

fn first_triggered(terms: &[Term], words: &[u32], may: &[bool]) -> Option<u8>
    requires words { length words.now ≡ words_needed (map term_value terms.now) }
    requires terms { length terms.now ≤ length may.now }
    requires few { length may.now ≤ 256 }
    ensures { result
        ≡ choice (map term_value terms.now) words.now (λ k. slice_index_or may.now k false) }
{
    let mut next = 0;
    for (index, term) in terms.iter().enumerate() {
        if is_triggered(term, words, next, may[index]) {
            return Some(index as u8);
        }
        if term.takes_word() {
            next += 1;
        }
    }
    None
}

/// Whether a term triggers, where it may run or not. One that takes a random draw has that at
/// `next`.
fn is_triggered(term: &Term, words: &[u32], next: usize, may: bool) -> bool
    requires { takes_word (term_value term.now) ≡ true → next < length words.now }
    ensures { result ≡ can_trigger (term_value term.now) (slice_index words.now next) may }
{
    chance_passes(term, words, next) && (term.count.is_none() || may)
}

fn chance_passes(term: &Term, words: &[u32], next: usize) -> bool
    requires { takes_word (term_value term.now) ≡ true → next < length words.now }
    ensures { result ≡ passes (term_value term.now) (slice_index words.now next) }
{
    !term.takes_word()
        || u64::from(words[next]) * u64::from(ALL_PARTS) < u64::from(term.ppm) * ALL_WORDS
}
