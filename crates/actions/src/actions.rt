//! Action texts that were read.

ghost use Rattle.std.specs.Prelude.{◌≡◌, ◌≤◌, ◌<◌, List, length, map, slice_get, option_map};
ghost use Rattle.std.specs.Prelude.{position, string_bytes, IfOk, IfSome, Ok};
ghost use Rattle.actions.specs.Value.{TermValue, term_value};
ghost use Rattle.actions.specs.Grammar.{SpellsActions};
ghost use Rattle.actions.specs.Spelled.{terms_of};
ghost use Rattle.actions.specs.Canonical.{canonical};
ghost use Rattle.actions.specs.Reading.{Gives, is_bad_byte, reading};
ghost use Rattle.actions.specs.Choice.{words_needed};

use crate::fault::ActionFault;
use crate::reading::read_terms;
use crate::task::Term;
use held_keys::Held;
use std::alloc::{AllocError, Global};
use std::cmp::Ordering;
use std::fmt::Write;
use std::marker::Model;
use std::sync::Arc;

/// What an action text says: 1 to 16 terms, and their canonical text.
///
/// Two are equal where their canonical texts are, and ordered as those are, byte by byte. Their
/// terms are then the same too. They never change, so copies share them.
#[derive(Debug)]
pub struct Actions {
    spelled: Arc<Spelled>,
}

impl Drop for Actions {
    fn drop(self) {
        let Actions { spelled: _ } = self;
    }
}

// The terms, and their canonical text.
#[derive(Debug, Drop)]
struct Spelled {
    terms: Vec<Term>,
    text: String,
}

impl Model for Actions {
    ghost use Rattle.std.specs.Prelude.{List};
    ghost use Rattle.actions.specs.Value.{TermValue};

    ghost Value = { List TermValue };

    ghost use Rattle.std.specs.Arc.{arc_value};
    ghost use Rattle.actions.specs.Spelled.{IsSpelled, terms_of};

    ghost view = { λ a. terms_of (arc_value a.spelled) };

    ghost invariant = { λ a. IsSpelled (arc_value a.spelled) };
}

/// Reads an action text, or answers the first refusal, in the order that `ActionFault` gives.
///
/// An action text is 1 to 16 terms joined by `->`, in at most 1024 bytes, with no control byte and
/// no `;`. A term is `[p%][cnt*]task[(arg)]`, with spaces allowed at both its ends. `p` is 1 to 3
/// digits, perhaps with a point and 1 to 4 more, and at most 100: how likely the term is to pass.
/// `cnt`, 1 or more digits of a value that fits 64 bits, is how often it may run. The argument
/// goes from the first `(` to the `)` at the term's end, spaces kept. It is a text for `return`,
/// `panic` and `print`, which may lack one, and a number of milliseconds for `sleep` and `delay`,
/// which may not. What `off`, `pause` and `yield` have there is dropped.
pub fn parse_actions(alloc: Global, text: &str) -> Result<Actions, ActionFault>
    // What is read is spelled so.
    ensures found { IfOk result (λ a. SpellsActions text.now a) }
    // What is spelled so is read, unless memory runs out.
    ensures only { (terms : List TermValue) → SpellsActions text.now terms
        → Gives (λ a. a) result (Ok terms) }

    // Each refusal is the first one.
    ensures exact { Gives (λ a. a) result (reading text.now) }

    // A text that is too long, and else one with a bad byte, is never refused as out of memory.
    ensures long { 1024 < length text.now → result ≡ Err ActionFault.TooLong }
    ensures bad_byte { length text.now ≤ 1024
        → IfSome (position is_bad_byte text.now) (λ i. result ≡ Err (ActionFault.BadByte i)) }

    // The canonical text is another spelling, and no longer.
    ensures canonical_text { IfOk result (λ a. SpellsActions (canonical a) a) }
    ensures no_longer { IfOk result (λ a. length (canonical a) ≤ length text.now) }
{
    let terms = read_terms(alloc, text)?;
    let text = canonical_text(alloc, &terms)?;
    let actions = Actions::new(alloc, terms, text)?;
    Ok(actions)
}

fn canonical_text(alloc: Global, terms: &[Term]) -> Result<String, AllocError>
    ensures { IfOk result (λ s. string_bytes s ≡ canonical (map term_value terms.now)) }
{
    let mut text = String::new(alloc);
    for (index, term) in terms.iter().enumerate() {
        if index > 0 {
            text.push_str("->")?;
        }
        write!(text, "{term}")?;
    }
    Ok(text)
}

impl Actions {
    // Terms with their canonical text, in memory of their own.
    fn new(alloc: Global, terms: Vec<Term>, text: String) -> Result<Actions, AllocError>
        requires spelled { SpellsActions (string_bytes text) (map term_value terms.items) }
        requires canonical { string_bytes text ≡ canonical (map term_value terms.items) }
        ensures { IfOk result (λ a. a ≡ map term_value terms.items) }
    {
        let spelled = Arc::new(alloc, Spelled { terms, text })?;
        Ok(Actions { spelled })
    }

    // What copies of it share.
    fn spelled(&self) -> &Spelled
        ensures terms { terms_of result.now ≡ self.now }
        ensures spelled { SpellsActions (string_bytes result.now.text) self.now }
        ensures canonical { string_bytes result.now.text ≡ canonical self.now }
    {
        &self.spelled
    }

    /// How many terms there are, 1 to 16.
    pub fn len(&self) -> usize
        ensures value { result ≡ length self.now }
        ensures some { 0 < result }
        ensures few { result ≤ 16 }
    {
        self.spelled().terms.len()
    }

    /// The term of a number, counted from 0.
    pub fn term(&self, index: u8) -> Option<&Term>
        ensures { option_map (λ t. term_value t.now) result ≡ slice_get self.now index }
    {
        self.spelled().terms.get(usize::from(index))
    }

    pub(crate) fn terms(&self) -> &[Term]
        ensures value { map term_value result.now ≡ self.now }
        ensures few { length result.now ≤ 16 }
    {
        &self.spelled().terms
    }

    /// The canonical text, than which no spelling of the same terms is shorter: no spaces but those
    /// of arguments, no percentage of 100, no needless zeros, and no argument that is dropped.
    pub fn text(&self) -> &str
        ensures value { result.now ≡ canonical self.now }
        ensures spelled { SpellsActions (canonical self.now) self.now }
        // It is read as this value again.
        ensures reads { reading (canonical self.now) ≡ Ok self.now }
    {
        &self.spelled().text
    }

    /// How many random draws `decide` takes: one for each term whose chance is below 100%, so at
    /// most 16.
    pub fn words_needed(&self) -> u8
        ensures value { result ≡ words_needed self.now }
        ensures few { result ≤ 16 }
    {
        self.spelled()
            .terms
            .iter()
            .filter(|term| term.takes_word())
            .count() as u8
    }

    /// An equal value, which shares its terms and its text with this one, and takes no memory for them.
    pub fn copied(&self, _alloc: Global) -> Result<Actions, AllocError>
        ensures { IfOk result (λ a. a ≡ self.now) }
    {
        let spelled = Arc::try_clone(&self.spelled)?;
        Ok(Actions { spelled })
    }
}

impl PartialEq for Actions {
    ghost use Rattle.std.specs.Prelude.{bytes_eq};
    ghost use Rattle.std.proofs.Common.{rules};
    ghost use Rattle.std.specs.Cmp.Rules.{comparing};
    ghost use Rattle.std.specs.Ordering.{on};
    ghost use Rattle.actions.specs.Canonical.{canonical};

    ghost eq = { on canonical bytes_eq };

    ghost laws = { Prim.search (comparing, rules) };

    fn eq(&self, other: &Actions) -> bool {
        self.spelled().text == other.spelled().text
    }
}

impl Eq for Actions {
    ghost use Rattle.std.proofs.Common.{rules};
    ghost use Rattle.std.specs.Cmp.Rules.{comparing};

    ghost laws = { Prim.search (comparing, rules) };
}

impl Ord for Actions {
    ghost use Rattle.std.proofs.Common.{rules};
    ghost use Rattle.std.specs.Cmp.Rules.{comparing};
    ghost use Rattle.std.specs.Cmp.Lexicographic.{slice_cmp};
    ghost use Rattle.std.specs.Ordering.{on, nat_cmp};
    ghost use Rattle.actions.specs.Canonical.{canonical};

    ghost cmp = { on canonical (slice_cmp nat_cmp) };

    ghost total = { Prim.search (comparing, rules) };

    ghost matches_partial_cmp = { Prim.search (comparing, rules) };

    ghost matches_eq = { Prim.search (comparing, rules) };

    fn cmp(&self, other: &Actions) -> Ordering {
        self.spelled().text.cmp(&other.spelled().text)
    }
}

impl PartialOrd for Actions {
    ghost use Rattle.std.proofs.Common.{rules};
    ghost use Rattle.std.specs.Cmp.{partial_order_from_own_ties};
    ghost use Rattle.std.specs.Cmp.Rules.{comparing};
    ghost use Rattle.std.specs.Cmp.Lexicographic.{slice_cmp};
    ghost use Rattle.std.specs.Ordering.{on, nat_cmp, as_partial_cmp};
    ghost use Rattle.actions.specs.Canonical.{canonical};

    ghost partial_cmp = { as_partial_cmp (on canonical (slice_cmp nat_cmp)) };

    ghost laws = { partial_order_from_own_ties (Prim.search (comparing, rules))
        (Prim.search (comparing, rules)) };

    fn partial_cmp(&self, other: &Actions) -> Option<Ordering> {
        Some(self.cmp(other))
    }
}

impl Held for Actions {
    fn copied(&self, alloc: Global) -> Result<Actions, AllocError> {
        Actions::copied(self, alloc)
    }
}
