//! Which term of an action text a pass triggers.

use super::expect;
use actions::{decide, parse_actions};
use std::alloc::Global;
use std::test::Fail;

/// The greatest random draw, which passes no chance below 100%.
const HIGHEST: u32 = 4_294_967_295;

/// The terms to which the node has a right.
#[derive(Clone, Copy)]
enum Rights {
    All,
    None,
    Only(usize),
}

fn marks(rights: Rights) -> [bool; 16] {
    match rights {
        Rights::All => [true; 16],
        Rights::None => [false; 16],
        Rights::Only(term) => {
            let mut marks = [false; 16];
            if let Some(mark) = marks.get_mut(term) {
                *mark = true;
            }
            marks
        }
    }
}

fn choice(alloc: Global, text: &str, words: &[u32], rights: Rights) -> Result<Option<u8>, Fail> {
    let actions = parse_actions(alloc, text)?;
    if words.len() != usize::from(actions.words_needed()) {
        return Err(Fail::new("another number of words is needed"));
    }
    Ok(decide(&actions, words, marks(rights)))
}

/// A text, its random draws, the rights of the node, and the term that is triggered.
type Row = (&'static str, &'static [u32], Rights, Option<u8>);

const THREE_TERMS: &str = "50%off->1*yield->50%panic";

/// A chance passes if the draw times 1,000,000 is below the chance in parts per million times 2^32.
const AT_ITS_EDGE: &[Row] = &[
    ("20%off", &[858_993_459], Rights::All, Some(0)),
    ("20%off", &[858_993_460], Rights::All, None),
    ("0.0001%off", &[4294], Rights::All, Some(0)),
    ("0.0001%off", &[4295], Rights::All, None),
    ("99.9999%off", &[HIGHEST], Rights::All, None),
];

/// A chance of 0 never passes, one of 100% takes no draw, and a counted term needs a right.
const NONE_AND_ALL: &[Row] = &[
    ("0%panic", &[0], Rights::All, None),
    ("100%panic", &[], Rights::All, Some(0)),
    ("0*off->yield", &[], Rights::None, Some(1)),
    ("3*off", &[], Rights::None, None),
    ("off", &[], Rights::Only(0), Some(0)),
    ("3*off->2*off->off", &[], Rights::Only(1), Some(1)),
];

/// Each term below 100% has its own draw, whether or not it is reached.
const A_DRAW_A_TERM: &[Row] = &[
    (THREE_TERMS, &[0, HIGHEST], Rights::All, Some(0)),
    (THREE_TERMS, &[HIGHEST, 0], Rights::All, Some(1)),
    (THREE_TERMS, &[HIGHEST, 0], Rights::None, Some(2)),
    (THREE_TERMS, &[HIGHEST, HIGHEST], Rights::None, None),
];

const CHANCES: &[&[Row]] = &[AT_ITS_EDGE, NONE_AND_ALL, A_DRAW_A_TERM];

#[test]
fn chances(rt: HostRuntime) -> Result<(), Fail> {
    for rows in CHANCES {
        for (text, words, rights, wanted) in *rows {
            let chosen = choice(rt.alloc(), text, words, *rights)?;
            expect(&rt, &(*text, *words, chosen), &(*text, *words, *wanted));
        }
    }
    Ok(())
}
