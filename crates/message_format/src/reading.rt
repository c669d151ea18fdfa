//! Reading a message.

ghost use Rattle.std.specs.Prelude.{◌≡◌, map, IfOk, IfErr, Ok};
ghost use Rattle.message_format.specs.Messages.{MessageValue, entry_value, message_value};
ghost use Rattle.message_format.specs.Spelling.{SpellsMessage};
ghost use Rattle.message_format.specs.Reading.{Gives, GivesAlways, entries_at, is_form_of};
ghost use Rattle.message_format.specs.Reading.{magic_at, versions_at, header_at, header_of};
ghost use Rattle.message_format.specs.Reading.{fields_at, message_at};

use crate::entry::read_entry;
use crate::fault::WireFault;
use crate::message::{MAX_MESSAGE, Message, NameEntry, have_grants};
use crate::wire::{Form, Whole, read_bytes, read_node, read_other_node, read_u16, read_u64};
use std::alloc::Global;

/// The form that the first four bytes say.
#[tactic(auto, unfolding(crate::specs::Reading::magic_at))]
fn read_magic(whole: Whole, rest: &[u8]) -> Result<(Form, &[u8]), WireFault>
    ensures { GivesAlways (λ x. (x.0, x.1.now)) result (magic_at whole.len rest.now) }
{
    let (first, after) = read_bytes(whole, 4, rest)?;
    if first == Form::Plain.magic() {
        return Ok((Form::Plain, after));
    }
    if first == Form::WithGrants.magic() {
        return Ok((Form::WithGrants, after));
    }
    Err(WireFault::Magic {
        offset: whole.offset(rest),
    })
}

/// Whether a message of this form may tell these entries: one with grants tells some.
fn is_form_of(form: Form, entries: &[NameEntry]) -> bool
    ensures { result ≡ is_form_of form (map entry_value entries.now) }
{
    match form {
        Form::Plain => true,
        Form::WithGrants => have_grants(entries),
    }
}

/// The sender's version that is known, its version, and the receiver's version that it has.
#[tactic(auto, unfolding(crate::specs::Reading::versions_at))]
fn read_versions(whole: Whole, rest: &[u8]) -> Result<((u64, u64, u64), &[u8]), WireFault>
    ensures { GivesAlways (λ x. (x.0, x.1.now)) result (versions_at whole.len rest.now) }
{
    let (base, rest) = read_u64(whole, rest)?;
    let (upto, rest) = read_u64(whole, rest)?;
    let (ack, rest) = read_u64(whole, rest)?;
    Ok(((base, upto, ack), rest))
}

/// The entries behind their number.
#[tactic(auto, unfolding(crate::specs::Reading::entries_at))]
fn read_entries(
    alloc: Global,
    whole: Whole,
    form: Form,
    bytes: &[u8],
) -> Result<(Vec<NameEntry>, &[u8]), WireFault>
    ensures { Gives (λ x. (map entry_value x.0.items, x.1.now)) result
        (entries_at whole.len whole.nodes form bytes.now) }
{
    let (count, mut rest) = read_u16(whole, bytes)?;
    let mut entries: Vec<NameEntry> = Vec::new(alloc);
    for _ in 0..count {
        let (entry, after) = read_entry(alloc, whole, form, entries.last(), rest)?;
        entries.push(entry)?;
        rest = after;
    }
    Ok((entries, rest))
}

#[tactic(auto, unfolding(crate::specs::Reading::fields_at, crate::specs::Reading::header_at))]
fn read_fields(alloc: Global, whole: Whole, bytes: &[u8]) -> Result<Message, WireFault>
    ensures exact { Gives message_value result (fields_at whole.len whole.nodes bytes.now) }
    ensures header { IfErr (header_at whole.len whole.nodes bytes.now) (λ fault. result ≡ Err fault) }
{
    let (form, rest) = read_magic(whole, bytes)?;
    let (from, rest) = read_node(whole, rest)?;
    let (to, rest) = read_other_node(whole, from, rest)?;
    let ((base, upto, ack), rest) = read_versions(whole, rest)?;
    let (entries, rest) = read_entries(alloc, whole, form, rest)?;
    if !rest.is_empty() {
        return Err(WireFault::Long {
            offset: whole.offset(rest),
        });
    }
    if !is_form_of(form, &entries) {
        return Err(WireFault::NoGrant {
            offset: whole.offset(bytes),
        });
    }
    Ok(Message {
        from,
        to,
        base,
        upto,
        ack,
        entries,
    })
}

#[tactic(auto, unfolding(crate::specs::Reading::message_at, crate::specs::Reading::header_of))]
fn read_message(alloc: Global, nodes: u8, bytes: &[u8]) -> Result<Message, WireFault>
    ensures exact { Gives message_value result (message_at nodes bytes.now) }
    ensures header { IfErr (header_of nodes bytes.now) (λ fault. result ≡ Err fault) }
{
    if bytes.len() > MAX_MESSAGE {
        return Err(WireFault::TooBig {
            offset: MAX_MESSAGE,
        });
    }
    let whole = Whole {
        nodes,
        len: bytes.len(),
    };
    read_fields(alloc, whole, bytes)
}

/// The message that the bytes are, in a cluster of so many nodes, numbered from 0.
///
/// Otherwise the answer is the first fault from left to right. `OutOfMemory` may stand in place of
/// one from the entries on, and of a message. It goes over the bytes once.
pub fn decode(alloc: Global, nodes: u8, bytes: &[u8]) -> Result<Message, WireFault>
    // What is read is spelled so.
    ensures found { IfOk result (λ m. SpellsMessage nodes bytes.now (message_value m)) }
    // What is spelled so is read, unless memory runs out.
    ensures only { (m : MessageValue) → SpellsMessage nodes bytes.now m → Gives message_value result (Ok m) }

    // Which fault it is.
    ensures exact { Gives message_value result (message_at nodes bytes.now) }
    // No memory is needed to see that there are too many bytes, or a fault before the entries.
    ensures header { IfErr (header_of nodes bytes.now) (λ fault. result ≡ Err fault) }
{
    read_message(alloc, nodes, bytes)
}
