//! Writing a message.

ghost use Rattle.std.specs.Prelude.{◌≡◌, ℕ, ◌<◌, ◌^◌, ◌++◌, length, map, IfOk, OnOk};
ghost use Rattle.std.specs.Int.{w64, to_be_bytes};
ghost use Rattle.stamp_register.specs.Keys.{key_value};
ghost use Rattle.message_format.specs.Messages.{entry_value, message_value};
ghost use Rattle.message_format.specs.Spelling.{name_bytes, key_bytes, hits_bytes, execs_bytes};
ghost use Rattle.message_format.specs.Spelling.{shifts_bytes, grants_bytes, form_of, entry_bytes};
ghost use Rattle.message_format.specs.Spelling.{entries_bytes, message_bytes, IsEntry, AreEntries};
ghost use Rattle.message_format.specs.Spelling.{HasSpelling};

use crate::message::{Message, NameEntry, have_grants};
use crate::wire::{Form, REMOVED, SET};
use actions::Name;
use stamp_register::{Body, Key};
use std::alloc::{AllocError, Global};

fn put_name(out: &mut Vec<u8>, name: &Name) -> Result<(), AllocError>
    requires { length name.now < 2 ^ 8 }
    ensures { OnOk result (out.new.items ≡ out.old.items ++ name_bytes name.now) }
{
    let text = name.text();
    out.push(text.len() as u8)?;
    out.extend_from_slice(text.as_bytes())?;
    Ok(())
}

fn put_key(out: &mut Vec<u8>, key: &Key) -> Result<(), AllocError>
    ensures { OnOk result (out.new.items ≡ out.old.items ++ key_bytes (key_value key.now)) }
{
    out.extend_from_slice(&key.clock.to_be_bytes())?;
    out.push(key.node)?;
    match &key.body {
        Body::Removed => out.push(REMOVED)?,
        Body::Set(actions) => {
            let text = actions.text();
            out.push(SET)?;
            out.extend_from_slice(&(text.len() as u16).to_be_bytes())?;
            out.extend_from_slice(text.as_bytes())?;
        }
    }
    Ok(())
}

/// The numbers of a cell, its value last.
fn put_cell(out: &mut Vec<u8>, numbers: &[u8], value: u64) -> Result<(), AllocError>
    ensures { OnOk result (out.new.items ≡ out.old.items ++ (numbers.now ++ to_be_bytes w64 value)) }
{
    out.extend_from_slice(numbers)?;
    out.extend_from_slice(&value.to_be_bytes())?;
    Ok(())
}

fn put_hits(out: &mut Vec<u8>, hits: &[(u8, u64)]) -> Result<(), AllocError>
    requires { length hits.now < 2 ^ 8 }
    ensures { OnOk result (out.new.items ≡ out.old.items ++ hits_bytes hits.now) }
{
    out.push(hits.len() as u8)?;
    for (node, value) in hits {
        put_cell(out, &[*node], *value)?;
    }
    Ok(())
}

fn put_execs(out: &mut Vec<u8>, execs: &[(u8, u8, u64)]) -> Result<(), AllocError>
    requires { length execs.now < 2 ^ 16 }
    ensures { OnOk result (out.new.items ≡ out.old.items ++ execs_bytes execs.now) }
{
    out.extend_from_slice(&(execs.len() as u16).to_be_bytes())?;
    for (term, node, value) in execs {
        put_cell(out, &[*term, *node], *value)?;
    }
    Ok(())
}

fn put_shifts(out: &mut Vec<u8>, shifts: &[(u8, u8, u8, u64)]) -> Result<(), AllocError>
    requires { length shifts.now < 2 ^ 16 }
    ensures { OnOk result (out.new.items ≡ out.old.items ++ shifts_bytes shifts.now) }
{
    out.extend_from_slice(&(shifts.len() as u16).to_be_bytes())?;
    for (term, from, to, value) in shifts {
        put_cell(out, &[*term, *from, *to], *value)?;
    }
    Ok(())
}

fn put_grants(out: &mut Vec<u8>, form: Form, grants: &[(u8, u8, u64)]) -> Result<(), AllocError>
    requires { length grants.now < 2 ^ 16 }
    ensures { OnOk result (out.new.items ≡ out.old.items ++ grants_bytes form grants.now) }
{
    match form {
        Form::Plain => Ok(()),
        Form::WithGrants => put_execs(out, grants),
    }
}

/// The form of a message of these entries.
fn form_of(entries: &[NameEntry]) -> Form
    ensures { result ≡ form_of (map entry_value entries.now) }
{
    if have_grants(entries) {
        Form::WithGrants
    } else {
        Form::Plain
    }
}

fn put_entry(out: &mut Vec<u8>, form: Form, entry: &NameEntry) -> Result<(), AllocError>
    requires { (nodes : ℕ) × IsEntry nodes (entry_value entry.now) }
    ensures { OnOk result (out.new.items
        ≡ out.old.items ++ entry_bytes form (entry_value entry.now)) }
{
    put_name(out, &entry.name)?;
    put_key(out, &entry.key)?;
    put_hits(out, &entry.hits)?;
    put_execs(out, &entry.execs)?;
    put_shifts(out, &entry.shifts)?;
    put_grants(out, form, &entry.grants)
}

fn put_entries(out: &mut Vec<u8>, form: Form, entries: &[NameEntry]) -> Result<(), AllocError>
    requires { (nodes : ℕ) × AreEntries nodes (map entry_value entries.now) }
    ensures { OnOk result (out.new.items
        ≡ out.old.items ++ entries_bytes form (map entry_value entries.now)) }
{
    out.extend_from_slice(&(entries.len() as u16).to_be_bytes())?;
    for entry in entries {
        put_entry(out, form, entry)?;
    }
    Ok(())
}

/// The bytes of a message, at most 67108864, from which `decode` gives it again.
///
/// Its nodes are those of some cluster, of at most 256, its texts canonical, and its names and
/// cells in order. Only out of memory is an error.
pub fn encode(alloc: Global, message: &Message) -> Result<Vec<u8>, AllocError>
    requires { HasSpelling (message_value message.now) }
    ensures { IfOk result (λ b. b.items ≡ message_bytes (message_value message.now)) }
{
    let mut out = Vec::new(alloc);
    let form = form_of(&message.entries);
    out.extend_from_slice(form.magic())?;
    out.extend_from_slice(&[message.from, message.to])?;
    out.extend_from_slice(&message.base.to_be_bytes())?;
    out.extend_from_slice(&message.upto.to_be_bytes())?;
    out.extend_from_slice(&message.ack.to_be_bytes())?;
    put_entries(&mut out, form, &message.entries)?;
    Ok(out)
}
