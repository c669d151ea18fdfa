//! Names of points and setting texts: what each text is read as, or the error for which it is
//! rejected.

use super::joined::two;
use super::{expect, expect_print, outcome, repeated};
use actions::{Actions, Name, NameFault, SettingFault, parse_setting};
use std::alloc::{AllocError, Global};
use std::cmp::Ordering;
use std::process::Abort;
use std::test::Fail;

fn name_text(alloc: Global, text: &str) -> Result<String, NameFault> {
    let name = Name::parse(alloc, text)?;
    Ok(String::from_str(alloc, name.text())?)
}

/// The name that a text is read as, or the error for which the text is rejected.
fn name_reading(alloc: Global, text: &str) -> Result<String, AllocError> {
    outcome(alloc, name_text(alloc, text), NameFault::OutOfMemory)
}

/// A text, and its reading or its error.
type Row = (&'static str, &'static str);

const NAMES: &[Row] = &[
    ("", "BadName"),
    ("a::b", "a::b"),
    ("a", "a"),
    ("Z9_-.:", "Z9_-.:"),
    ("raft.store-3:before_save", "raft.store-3:before_save"),
    (" ", "BadName"),
    ("a ", "BadName"),
    ("bad!", "BadName"),
    ("a/b", "BadName"),
    ("a=off", "BadName"),
    ("a;b", "BadName"),
    ("\u{e9}", "BadName"),
    ("a\n", "BadName"),
];

#[test]
fn names(rt: HostRuntime) -> Result<(), Fail> {
    for (text, wanted) in NAMES {
        let found = name_reading(rt.alloc(), text)?;
        expect(&rt, &(*text, found.as_str()), &(*text, *wanted));
    }
    Ok(())
}

const NAME_OF_128: &str = "\
    aaaaaaaaaaaaaaaaaaaaaaaaaaaaaaaaaaaaaaaaaaaaaaaaaaaaaaaaaaaaaaaa\
    aaaaaaaaaaaaaaaaaaaaaaaaaaaaaaaaaaaaaaaaaaaaaaaaaaaaaaaaaaaaaaaa";

/// How many letters a name has, and its reading.
const LONG_NAMES: &[(usize, &str)] = &[(128, NAME_OF_128), (129, "BadName")];

#[test]
fn long_names(rt: HostRuntime) -> Result<(), Fail> {
    for (len, wanted) in LONG_NAMES {
        let text = repeated(rt.alloc(), "a", *len, "")?;
        let found = name_reading(rt.alloc(), text.as_str())?;
        expect(&rt, &(text.len(), found.as_str()), &(*len, *wanted));
    }
    Ok(())
}

fn entry_text(alloc: Global, name: &Name, actions: &Actions) -> Result<String, AllocError> {
    let (name, text) = (name.text(), actions.text());
    format!(in alloc; "{name}={text};")
}

/// Each entry with its canonical text, in their order.
fn entries_text(alloc: Global, text: &str) -> Result<String, SettingFault> {
    let mut entries = String::new(alloc);
    for (name, actions) in &parse_setting(alloc, text)? {
        entries.push_str(entry_text(alloc, name, actions)?.as_str())?;
    }
    Ok(entries)
}

const SETTINGS: &[Row] = &[
    (";a=off; ;b=2*return()", "a=off;b=2*return();"),
    ("a=off;b=bad", "S4 BadActions entry=1 A7 UnknownTask term=0"),
    ("", ""),
    ("a", "S2 NoEquals entry=0"),
    ("a =off", "S3 BadName entry=0"),
    ("a=off;a=panic;;", "a=off;a=panic;"),
    ("  b::c= off ;a=return(x=y)  ", "b::c=off;a=return(x=y);"),
    (
        "a=off->100%yield;b=print( x )",
        "a=off->yield;b=print( x );",
    ),
    (";", ""),
    ("  ", ""),
    (" ; ;;  ", ""),
    ("a=off;;bad!;c=fly", "S2 NoEquals entry=1"),
    ("=off", "S3 BadName entry=0"),
    ("\ta=off", "S3 BadName entry=0"),
    ("a/b=fly", "S3 BadName entry=0"),
    (" ;a=off; ; =off", "S3 BadName entry=1"),
    ("a=", "S4 BadActions entry=0 A6 NoTask term=0"),
    (
        "a=off->b=off",
        "S4 BadActions entry=0 A7 UnknownTask term=1",
    ),
    (" a= off\n", "S4 BadActions entry=0 A10 BadByte offset=4"),
    ("a=101%off;b", "S4 BadActions entry=0 A4 BadPercent term=0"),
];

#[test]
fn setting_texts(rt: HostRuntime) -> Result<(), Fail> {
    for (text, wanted) in SETTINGS {
        let read = entries_text(rt.alloc(), text);
        let found = outcome(rt.alloc(), read, SettingFault::OutOfMemory)?;
        expect(&rt, &(*text, found.as_str()), &(*text, *wanted));
    }
    Ok(())
}

/// How many entries a text has, or the error for which it is rejected.
fn number_of_entries(alloc: Global, text: &str) -> Result<String, SettingFault> {
    let entries = parse_setting(alloc, text)?.len();
    Ok(format!(in alloc; "{entries}")?)
}

/// A piece, how often it is repeated, the end of the text, the text's length, and the number of
/// entries. Entries are counted past 255.
const LONG_SETTINGS: &[(&str, usize, &str, usize, &str)] = &[
    (" ", 65_531, "a=off", 65_536, "1"),
    (" ", 65_532, "a=off", 65_537, "S1 TooLong"),
    ("a;", 32_768, ";", 65_537, "S1 TooLong"),
    ("a=off;", 10_922, "    ", 65_536, "10922"),
    ("a=off;", 300, "b", 1801, "S2 NoEquals entry=300"),
    (";", 65_535, "a", 65_536, "S2 NoEquals entry=0"),
];

/// Checks the length of a text, and how many entries it has.
fn expect_entries(
    rt: &impl Abort,
    alloc: Global,
    text: &str,
    len: usize,
    wanted: &str,
) -> Result<(), AllocError> {
    let read = number_of_entries(alloc, text);
    let found = outcome(alloc, read, SettingFault::OutOfMemory)?;
    expect(rt, &(text.len(), found.as_str()), &(len, wanted));
    Ok(())
}

#[test]
fn long_setting_texts(rt: HostRuntime) -> Result<(), Fail> {
    for (piece, times, last, len, wanted) in LONG_SETTINGS {
        let text = repeated(rt.alloc(), piece, *times, last)?;
        expect_entries(&rt, rt.alloc(), text.as_str(), *len, wanted)?;
    }
    Ok(())
}

#[test]
fn texts_without_memory(rt: HostRuntime) -> Result<(), Fail> {
    expect_print(&rt, rt.alloc(), &NameFault::OutOfMemory, "OutOfMemory")?;
    expect_print(
        &rt,
        rt.alloc(),
        &SettingFault::OutOfMemory,
        "S5 OutOfMemory",
    )?;
    Ok(())
}

/// How two names compare, and whether they are equal.
fn order_of((one, other): (Name, Name)) -> (Ordering, Option<Ordering>, bool) {
    (one.cmp(&other), one.partial_cmp(&other), one == other)
}

/// Two names, and how they compare: by their bytes.
const ORDERS: &[(&str, &str, Ordering)] = &[
    ("Z", "a", Ordering::Less),
    ("a", "a.b", Ordering::Less),
    ("a", "a", Ordering::Equal),
    ("b", "a.b", Ordering::Greater),
    ("raft.store-1", "raft.store-2", Ordering::Less),
    ("abcdefghi", "abcdefgh", Ordering::Greater),
    ("abcdefghi", "abcdefghi", Ordering::Equal),
];

#[test]
fn orders_of_names(rt: HostRuntime) -> Result<(), Fail> {
    for (one, other, wanted) in ORDERS {
        let both = two(Name::parse(rt.alloc(), one), Name::parse(rt.alloc(), other))?;
        let found = (*one, order_of(both));
        let is_equal = *wanted == Ordering::Equal;
        expect(&rt, &found, &(*one, (*wanted, Some(*wanted), is_equal)));
    }
    Ok(())
}
