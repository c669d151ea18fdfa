//! Setting texts, which set many points.

ghost use Rattle.std.specs.Prelude.{◌≡◌, ◌<◌, ◌^◌, ◌↔◌, ℕ, List, false, length, map, not};
ghost use Rattle.std.specs.Prelude.{if◌then◌else◌, IfOk, IsErrOf, Ok, Err};
ghost use Rattle.actions.specs.Value.{TermValue};
ghost use Rattle.actions.specs.Names.{is_name};
ghost use Rattle.actions.specs.Reading.{reading};
ghost use Rattle.actions.specs.SettingGrammar.{SpellsSetting};
ghost use Rattle.actions.specs.SettingReading.{Gives, entries, terms_read, entry_at, entries_at, setting_reading};
ghost use Rattle.actions.specs.declared.fault.SettingFault.TheVariants.{BadName};

use crate::actions::{Actions, parse_actions};
use crate::fault::{ActionFault, SettingFault};
use crate::name::{Name, NameFault};
use crate::reading::trim_spaces;
use std::alloc::{AllocError, Global};

/// The most bytes of a setting text.
const MAX_SETTING: usize = 65536;

/// Reads a setting text, or answers the first refusal, in the order that `SettingFault` gives.
///
/// A setting text is entries joined by `;`, in at most 65536 bytes, as in fail-rs's FAILPOINTS. An
/// entry is `name=actions`, with spaces allowed at both its ends, and the first `=` ends its name;
/// one of only spaces is skipped. A name may come more than once.
#[tactic(auto, unfolding(crate::specs::SettingReading::setting_reading))]
pub fn parse_setting(alloc: Global, text: &str) -> Result<Vec<(Name, Actions)>, SettingFault>
    // What is read is spelled so.
    ensures found { IfOk result (λ points. SpellsSetting text.now points.items) }
    // What is spelled so is read, unless memory runs out.
    ensures only { (points : List (List ℕ × List TermValue)) → SpellsSetting text.now points
        → Gives (λ v. v.items) result (Ok points) }
    // Each refusal is the first one.
    ensures exact { Gives (λ v. v.items) result (setting_reading text.now) }
    ensures few { IfOk result (λ points. length points.items < 2 ^ 16) }
    // A text that is too long is never refused as out of memory.
    ensures long { 65536 < length text.now → result ≡ Err SettingFault.TooLong }
{
    if text.len() > MAX_SETTING {
        return Err(SettingFault::TooLong);
    }
    let entries = split_entries(alloc, text)?;
    parse_entries(alloc, &entries)
}

/// The entries that aren't only spaces, without the spaces at their ends.
fn split_entries<'a>(alloc: Global, text: &'a str) -> Result<Vec<&'a str>, AllocError>
    ensures { IfOk result (λ v. map (λ x. x.now) v.items ≡ entries text.now) }
{
    text.split(';')
        .map(trim_spaces)
        .filter(|entry| !entry.is_empty())
        .collect(alloc)
}

fn parse_entries(alloc: Global, entries: &[&str]) -> Result<Vec<(Name, Actions)>, SettingFault>
    requires { length entries.now < 2 ^ 16 }
    ensures { Gives (λ v. v.items) result (entries_at 0 (map (λ x. x.now) entries.now)) }
{
    let mut points = Vec::new(alloc);
    for (index, entry) in entries.iter().enumerate() {
        points.push(parse_entry(alloc, index as u16, entry)?)?;
    }
    Ok(points)
}

/// Entry number `entry`, whose text has no spaces at its ends.
#[tactic(auto, unfolding(crate::specs::SettingReading::entry_at))]
fn parse_entry(alloc: Global, entry: u16, text: &str) -> Result<(Name, Actions), SettingFault>
    ensures { Gives (λ x. x) result (entry_at entry text.now) }
{
    let Some((name, actions)) = text.split_once('=') else {
        return Err(SettingFault::NoEquals { entry });
    };
    let name = parse_entry_name(alloc, entry, name)?;
    let actions = parse_entry_actions(alloc, entry, actions)?;
    Ok((name, actions))
}

fn parse_entry_name(alloc: Global, entry: u16, text: &str) -> Result<Name, SettingFault>
    ensures exact { Gives (λ n. n) result
        (if not (is_name text.now) then Err (BadName entry) else Ok text.now) }
    ensures bad { IsErrOf result (SettingFault.BadName entry) ↔ (is_name text.now ≡ false) }
{
    match Name::parse(alloc, text) {
        Ok(name) => Ok(name),
        Err(NameFault::BadName) => Err(SettingFault::BadName { entry }),
        Err(NameFault::OutOfMemory) => Err(SettingFault::OutOfMemory),
    }
}

fn parse_entry_actions(alloc: Global, entry: u16, text: &str) -> Result<Actions, SettingFault>
    ensures { Gives (λ a. a) result (terms_read entry (reading text.now)) }
{
    match parse_actions(alloc, text) {
        Ok(actions) => Ok(actions),
        Err(ActionFault::OutOfMemory) => Err(SettingFault::OutOfMemory),
        Err(fault) => Err(SettingFault::BadActions { entry, fault }),
    }
}
