//! Action texts: the canonical text and the terms of each text that is read, and the error of each
//! that is rejected.

use super::joined::two;
use super::{expect, expect_print, outcome, repeated};
use actions::{ActionFault, Actions, Term, parse_actions};
use std::alloc::{AllocError, Global};
use std::cmp::Ordering;
use std::process::Abort;
use std::test::Fail;

fn canonical_text(alloc: Global, text: &str) -> Result<String, ActionFault> {
    let actions = parse_actions(alloc, text)?;
    Ok(String::from_str(alloc, actions.text())?)
}

/// The canonical text of a text, or the error for which the text is rejected.
fn reading(alloc: Global, text: &str) -> Result<String, AllocError> {
    outcome(alloc, canonical_text(alloc, text), ActionFault::OutOfMemory)
}

fn expect_readings(rt: &impl Abort, alloc: Global, rows: &[Row]) -> Result<(), AllocError> {
    for (text, wanted) in rows {
        let found = reading(alloc, text)?;
        expect(rt, &(*text, found.as_str()), &(*text, *wanted));
    }
    Ok(())
}

/// A text, and its canonical text or its error.
type Row = (&'static str, &'static str);

const CANONICAL: &[Row] = &[
    (
        " 020.50%3*print(a(b)c) -> panic",
        "20.5%3*print(a(b)c)->panic",
    ),
    ("20.5%3*print(a(b)c)->panic", "20.5%3*print(a(b)c)->panic"),
    ("100.0000%off", "off"),
    ("off(x)", "off"),
    ("off", "off"),
    ("pause(x)", "pause"),
    ("pause", "pause"),
    ("yield()", "yield"),
    ("yield", "yield"),
    ("return", "return"),
    ("return()", "return()"),
    (
        "0.0001%007*sleep(010)->0%yield",
        "0.0001%7*sleep(10)->0%yield",
    ),
    ("0.0001%7*sleep(10)->0%yield", "0.0001%7*sleep(10)->0%yield"),
    (
        "20.05%delay(0)->print( a - > )",
        "20.05%delay(0)->print( a - > )",
    ),
    ("18446744073709551615*off", "18446744073709551615*off"),
    ("print(50%)", "print(50%)"),
    ("panic(2*3)", "panic(2*3)"),
];

#[test]
fn canonical_action_texts(rt: HostRuntime) -> Result<(), Fail> {
    expect_readings(&rt, rt.alloc(), CANONICAL)?;
    Ok(())
}

const REJECTED: &[Row] = &[
    ("", "A6 NoTask term=0"),
    ("off->", "A6 NoTask term=1"),
    ("101%off", "A4 BadPercent term=0"),
    ("100.0001%off", "A4 BadPercent term=0"),
    ("20% 3*off", "A5 BadCount term=0"),
    ("print(a", "A3 Unclosed term=0"),
    ("fly", "A7 UnknownTask term=0"),
    ("sleep", "A8 NeedsTime term=0"),
    ("delay(x)", "A9 BadTime term=0"),
    ("off;", "A10 BadByte offset=3"),
];

/// Which error decides if several apply, and each edge of a number.
const ALSO_REJECTED: &[Row] = &[
    ("off->(a", "A3 Unclosed term=1"),
    ("101%x*fly(", "A3 Unclosed term=0"),
    ("101%x*fly", "A4 BadPercent term=0"),
    ("x*fly", "A5 BadCount term=0"),
    ("fly->101%off", "A7 UnknownTask term=0"),
    ("print(a) b", "A3 Unclosed term=0"),
    (".5%off", "A4 BadPercent term=0"),
    ("5.%off", "A4 BadPercent term=0"),
    ("0020%off", "A4 BadPercent term=0"),
    ("1.00000%off", "A4 BadPercent term=0"),
    ("+2%off", "A4 BadPercent term=0"),
    ("2 %off", "A4 BadPercent term=0"),
    ("*off", "A5 BadCount term=0"),
    ("18446744073709551616*off", "A5 BadCount term=0"),
    ("+3*off", "A5 BadCount term=0"),
    ("5%(x)", "A6 NoTask term=0"),
    ("off)", "A7 UnknownTask term=0"),
    ("Off", "A7 UnknownTask term=0"),
    ("off -> 3*delay", "A8 NeedsTime term=1"),
    ("sleep()", "A9 BadTime term=0"),
    ("sleep( 1)", "A9 BadTime term=0"),
    ("sleep(18446744073709551616)", "A9 BadTime term=0"),
    ("101%off\n->;", "A10 BadByte offset=7"),
    ("print(\x7f)", "A10 BadByte offset=6"),
];

#[test]
fn refused_action_texts(rt: HostRuntime) -> Result<(), Fail> {
    expect_readings(&rt, rt.alloc(), REJECTED)?;
    expect_readings(&rt, rt.alloc(), ALSO_REJECTED)?;
    Ok(())
}

const SIXTEEN_TERMS: &str = "\
    off->off->off->off->off->off->off->off->off->off->off->off->off->off->off->off";

/// A piece, how often it is repeated, the end of the text, the text's length, and the reading. The
/// length is checked first, and the number of terms before any term.
const LONG: &[(&str, usize, &str, usize, &str)] = &[
    ("off->", 15, "off", 78, SIXTEEN_TERMS),
    ("off->", 16, "off", 83, "A2 TooManyTerms"),
    ("off->", 15, "fly", 78, "A7 UnknownTask term=15"),
    ("fly->", 16, "off", 83, "A2 TooManyTerms"),
    (" ", 1021, "off", 1024, "off"),
    (" ", 1022, "off", 1025, "A1 TooLong"),
    (";", 1024, ";", 1025, "A1 TooLong"),
];

#[test]
fn long_action_texts(rt: HostRuntime) -> Result<(), Fail> {
    for (piece, times, last, len, wanted) in LONG {
        let text = repeated(rt.alloc(), piece, *times, last)?;
        let found = reading(rt.alloc(), text.as_str())?;
        expect(&rt, &(text.len(), found.as_str()), &(*len, *wanted));
    }
    Ok(())
}

#[test]
fn action_text_without_memory(rt: HostRuntime) -> Result<(), Fail> {
    let fault = ActionFault::OutOfMemory;
    expect_print(&rt, rt.alloc(), &fault, "A11 OutOfMemory")?;
    Ok(())
}

/// A term's chance and count, its text, its task's text, and its task.
fn term_text(alloc: Global, term: &Term) -> Result<String, AllocError> {
    let Term { ppm, count, task } = term;
    format!(in alloc; "{ppm} {count:?} {term} {task} {task:?};")
}

/// How many random draws a pass needs, how many terms there are, and each term.
fn terms_text(alloc: Global, actions: &Actions) -> Result<String, AllocError> {
    let (words, len) = (actions.words_needed(), actions.len());
    let mut text = format!(in alloc; "{words} {len}: ")?;
    for index in 0..=len as u8 {
        if let Some(term) = actions.term(index) {
            text.push_str(term_text(alloc, term)?.as_str())?;
        }
    }
    Ok(text)
}

fn terms_of(alloc: Global, text: &str) -> Result<String, ActionFault> {
    let actions = parse_actions(alloc, text)?;
    Ok(terms_text(alloc, &actions)?)
}

/// A text, and its terms.
const TERMS: &[Row] = &[
    (
        " 020.50%3*print(a(b)c) -> panic",
        "1 2: 205000 Some(3) 20.5%3*print(a(b)c) print(a(b)c) Print(Some(\"a(b)c\"));\
         1000000 None panic panic Panic(None);",
    ),
    (
        "panic(a)",
        "0 1: 1000000 None panic(a) panic(a) Panic(Some(\"a\"));",
    ),
    ("20.5%off", "1 1: 205000 None 20.5%off off Off;"),
    ("0.0001%off", "1 1: 1 None 0.0001%off off Off;"),
    ("100%off", "0 1: 1000000 None off off Off;"),
    ("0%off", "1 1: 0 None 0%off off Off;"),
    ("7%off", "1 1: 70000 None 7%off off Off;"),
    ("99.9999%off", "1 1: 999999 None 99.9999%off off Off;"),
    (
        "0%off->100%off->2*off->99.9999%off",
        "2 4: 0 None 0%off off Off;1000000 None off off Off;\
         1000000 Some(2) 2*off off Off;999999 None 99.9999%off off Off;",
    ),
    ("return", "0 1: 1000000 None return return Return(None);"),
    (
        "return()",
        "0 1: 1000000 None return() return() Return(Some(\"\"));",
    ),
    (
        "return(early, \u{e9})",
        "0 1: 1000000 None return(early, \u{e9}) return(early, \u{e9}) \
         Return(Some(\"early, \u{e9}\"));",
    ),
    ("sleep(0)", "0 1: 1000000 None sleep(0) sleep(0) Sleep(0);"),
    ("print", "0 1: 1000000 None print print Print(None);"),
    (
        "print(still alive!)",
        "0 1: 1000000 None print(still alive!) print(still alive!) \
         Print(Some(\"still alive!\"));",
    ),
    ("pause", "0 1: 1000000 None pause pause Pause;"),
    ("yield", "0 1: 1000000 None yield yield Yield;"),
    (
        "delay(18446744073709551615)",
        "0 1: 1000000 None delay(18446744073709551615) delay(18446744073709551615) \
         Delay(18446744073709551615);",
    ),
];

#[test]
fn terms_of_action_texts(rt: HostRuntime) -> Result<(), Fail> {
    for (text, wanted) in TERMS {
        let found = outcome(
            rt.alloc(),
            terms_of(rt.alloc(), text),
            ActionFault::OutOfMemory,
        )?;
        expect(&rt, &(*text, found.as_str()), &(*text, *wanted));
    }
    Ok(())
}

/// How two actions compare, and whether they are equal.
fn order_of((one, other): (Actions, Actions)) -> (Ordering, Option<Ordering>, bool) {
    (one.cmp(&other), one.partial_cmp(&other), one == other)
}

/// Two texts, and how their actions compare: by the bytes of the canonical texts.
const ORDERS: &[(&str, &str, Ordering)] = &[
    ("100.0000%off", "off(x)", Ordering::Equal),
    ("return", "return()", Ordering::Less),
    ("2*off", "off", Ordering::Less),
    ("10*off", "2*off", Ordering::Less),
    ("off->off", "off", Ordering::Greater),
    ("print(b)", "print(a)->off", Ordering::Greater),
    ("print(a)", "print(b)", Ordering::Less),
];

#[test]
fn orders_of_actions(rt: HostRuntime) -> Result<(), Fail> {
    for (one, other, wanted) in ORDERS {
        let both = two(
            parse_actions(rt.alloc(), one),
            parse_actions(rt.alloc(), other),
        )?;
        let found = (*one, order_of(both));
        let is_equal = *wanted == Ordering::Equal;
        expect(&rt, &found, &(*one, (*wanted, Some(*wanted), is_equal)));
    }
    Ok(())
}
