//! What a message says of one name.

ghost use Rattle.std.specs.Prelude.{◌≡◌, ◌&&◌, nat_lt, nat_le, option_map};
ghost use Rattle.actions.specs.Limits.{max_name};
ghost use Rattle.actions.specs.Names.{is_name};
ghost use Rattle.actions.specs.Canonical.{canonical};
ghost use Rattle.stamp_register.specs.Keys.{key_value, body_value};
ghost use Rattle.message_format.specs.Messages.{entry_value};
ghost use Rattle.message_format.specs.Reading.{Gives, wants, is_above, is_canonical_text, name_at};
ghost use Rattle.message_format.specs.Reading.{text_at, body_at, key_at, counted_at, entry_at};

use crate::cells::{read_execs, read_grants, read_hits, read_shifts};
use crate::fault::WireFault;
use crate::message::NameEntry;
use crate::wire::{
    Form, REMOVED, SET, Whole, read_byte, read_bytes, read_node, read_u16, read_u64,
};
use actions::{ActionFault, Actions, Name, NameFault, parse_actions};
use stamp_register::{Body, Key};
use std::alloc::Global;
use std::str;

/// The most bytes of a name.
const MAX_NAME: u8 = 128;

/// The most bytes of an action text.
const MAX_TEXT: u16 = 1024;

/// The executions, the moved rights and the granted rights of an entry.
type Counted = (
    Vec<(u8, u8, u64)>,
    Vec<(u8, u8, u8, u64)>,
    Vec<(u8, u8, u64)>,
);

/// The name that these bytes are, which begin at the offset.
fn parse_name(alloc: Global, offset: usize, bytes: &[u8]) -> Result<Name, WireFault>
    ensures { Gives (λ n. n) result
        (wants (is_name bytes.now) (WireFault.BadName offset) bytes.now) }
{
    let Ok(text) = str::from_utf8(bytes) else {
        return Err(WireFault::BadName { offset });
    };
    match Name::parse(alloc, text) {
        Ok(name) => Ok(name),
        Err(NameFault::BadName) => Err(WireFault::BadName { offset }),
        Err(NameFault::OutOfMemory) => Err(WireFault::OutOfMemory),
    }
}

/// Whether a name is above the last one, if there is one.
fn is_above(last: Option<&Name>, name: &Name) -> bool
    ensures { result ≡ is_above (option_map (λ n. n.now) last.entry) name.now }
{
    last.is_none_or(|last| last < name)
}

/// Whether a name may have so many bytes.
fn is_name_len(len: u8) -> bool
    ensures { result ≡ (nat_lt 0 len && nat_le len max_name) }
{
    len != 0 && len <= MAX_NAME
}

/// A name, which is above the last one.
#[tactic(auto, unfolding(crate::specs::Reading::name_at))]
fn read_name<'a>(
    alloc: Global,
    whole: Whole,
    last: Option<&Name>,
    rest: &'a [u8],
) -> Result<(Name, &'a [u8]), WireFault>
    ensures { Gives (λ x. (x.0, x.1.now)) result
        (name_at whole.len (option_map (λ n. n.now) last.entry) rest.now) }
{
    let (len, text) = read_byte(whole, rest)?;
    if !is_name_len(len) {
        return Err(WireFault::BadName {
            offset: whole.offset(rest),
        });
    }
    let (name, after) = read_bytes(whole, usize::from(len), text)?;
    let name = parse_name(alloc, whole.offset(text), name)?;
    if !is_above(last, &name) {
        return Err(WireFault::NameOrder {
            offset: whole.offset(text),
        });
    }
    Ok((name, after))
}

/// The actions whose canonical text these bytes are, which begin at the offset.
#[tactic(auto, unfolding(crate::specs::Reading::is_canonical_text))]
fn parse_canonical(alloc: Global, offset: usize, bytes: &[u8]) -> Result<Actions, WireFault>
    ensures { Gives (λ a. canonical a) result
        (wants (is_canonical_text bytes.now) (WireFault.NotCanonical offset) bytes.now) }
{
    let Ok(text) = str::from_utf8(bytes) else {
        return Err(WireFault::NotCanonical { offset });
    };
    let actions = match parse_actions(alloc, text) {
        Ok(actions) => actions,
        Err(ActionFault::OutOfMemory) => return Err(WireFault::OutOfMemory),
        Err(_) => return Err(WireFault::NotCanonical { offset }),
    };
    if actions.text() != text {
        return Err(WireFault::NotCanonical { offset });
    }
    Ok(actions)
}

/// Actions by their canonical text, behind its length.
#[tactic(auto, unfolding(crate::specs::Reading::text_at))]
fn read_actions(alloc: Global, whole: Whole, rest: &[u8]) -> Result<(Actions, &[u8]), WireFault>
    ensures { Gives (λ x. (canonical x.0, x.1.now)) result (text_at whole.len rest.now) }
{
    let (len, text) = read_u16(whole, rest)?;
    if len > MAX_TEXT {
        return Err(WireFault::NotCanonical {
            offset: whole.offset(rest),
        });
    }
    let (bytes, after) = read_bytes(whole, usize::from(len), text)?;
    let actions = parse_canonical(alloc, whole.offset(text), bytes)?;
    Ok((actions, after))
}

#[tactic(auto, unfolding(crate::specs::Reading::body_at))]
fn read_body(alloc: Global, whole: Whole, rest: &[u8]) -> Result<(Body, &[u8]), WireFault>
    ensures { Gives (λ x. (body_value x.0, x.1.now)) result (body_at whole.len rest.now) }
{
    let (tag, after) = read_byte(whole, rest)?;
    match tag {
        REMOVED => Ok((Body::Removed, after)),
        SET => {
            let (actions, after) = read_actions(alloc, whole, after)?;
            Ok((Body::Set(actions), after))
        }
        _ => Err(WireFault::BadBody {
            offset: whole.offset(rest),
        }),
    }
}

#[tactic(auto, unfolding(crate::specs::Reading::key_at))]
fn read_key(alloc: Global, whole: Whole, rest: &[u8]) -> Result<(Key, &[u8]), WireFault>
    ensures { Gives (λ x. (key_value x.0, x.1.now)) result (key_at whole.len whole.nodes rest.now) }
{
    let (clock, rest) = read_u64(whole, rest)?;
    let (node, rest) = read_node(whole, rest)?;
    let (body, rest) = read_body(alloc, whole, rest)?;
    Ok((Key { clock, node, body }, rest))
}

/// What was counted under a key: the executions, the moved rights and the granted rights.
#[tactic(auto, unfolding(crate::specs::Reading::counted_at))]
fn read_counted<'a>(
    alloc: Global,
    whole: Whole,
    form: Form,
    key: &Key,
    rest: &'a [u8],
) -> Result<(Counted, &'a [u8]), WireFault>
    ensures { Gives (λ x. ((x.0.0.items, x.0.1.items, x.0.2.items), x.1.now)) result
        (counted_at whole.len whole.nodes (key_value key.now) form rest.now) }
{
    let (execs, rest) = read_execs(alloc, whole, key, rest)?;
    let (shifts, rest) = read_shifts(alloc, whole, key, rest)?;
    let (grants, rest) = read_grants(alloc, whole, key, form, rest)?;
    Ok(((execs, shifts, grants), rest))
}

/// The entry after the last one.
pub(crate) fn read_entry<'a>(
    alloc: Global,
    whole: Whole,
    form: Form,
    last: Option<&NameEntry>,
    rest: &'a [u8],
) -> Result<(NameEntry, &'a [u8]), WireFault>
    ensures { Gives (λ x. (entry_value x.0, x.1.now)) result
        (entry_at whole.len whole.nodes form
        (option_map (λ e. entry_value e.now) last.entry) rest.now) }
{
    let (name, rest) = read_name(alloc, whole, last.map(|entry| &entry.name), rest)?;
    let (key, rest) = read_key(alloc, whole, rest)?;
    let (hits, rest) = read_hits(alloc, whole, rest)?;
    let ((execs, shifts, grants), rest) = read_counted(alloc, whole, form, &key, rest)?;
    let entry = NameEntry {
        name,
        key,
        hits,
        execs,
        shifts,
        grants,
    };
    Ok((entry, rest))
}
