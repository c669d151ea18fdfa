//! Messages in print.

use super::*;

/// The message that bytes are read as. The test ends if it isn't written as the same bytes.
pub(super) fn read(
    rt: &impl Abort,
    alloc: Global,
    nodes: u8,
    bytes: &[u8],
) -> Result<Message, WireFault> {
    let message = decode(alloc, nodes, bytes)?;
    let again = encode(alloc, &message)?;
    expect(rt, &(again.as_slice() == bytes), &true);
    Ok(message)
}

/// The error for which bytes are rejected, if they are.
pub(super) fn fault(
    alloc: Global,
    nodes: u8,
    bytes: &[u8],
) -> Result<Option<WireFault>, AllocError> {
    match decode(alloc, nodes, bytes) {
        Ok(_) => Ok(None),
        Err(WireFault::OutOfMemory) => Err(AllocError),
        Err(fault) => Ok(Some(fault)),
    }
}

fn push_hits(text: &mut String, entry: &NameEntry, alloc: Global) -> Result<(), AllocError> {
    for (node, hits) in &entry.hits {
        text.push_str(format!(in alloc; " hits {node}={hits}")?.as_str())?;
    }
    Ok(())
}

fn push_execs(text: &mut String, entry: &NameEntry, alloc: Global) -> Result<(), AllocError> {
    for (term, node, execs) in &entry.execs {
        text.push_str(format!(in alloc; " execs {term} {node}={execs}")?.as_str())?;
    }
    Ok(())
}

fn push_shifts(text: &mut String, entry: &NameEntry, alloc: Global) -> Result<(), AllocError> {
    for (term, from, to, total) in &entry.shifts {
        text.push_str(format!(in alloc; " shifts {term} {from}>{to}={total}")?.as_str())?;
    }
    Ok(())
}

fn push_grants(text: &mut String, entry: &NameEntry, alloc: Global) -> Result<(), AllocError> {
    for (term, node, total) in &entry.grants {
        text.push_str(format!(in alloc; " grants {term} {node}={total}")?.as_str())?;
    }
    Ok(())
}

/// A name, its stamp, and its actions.
fn key_text(alloc: Global, entry: &NameEntry) -> Result<String, AllocError> {
    let (name, stamp) = (entry.name.text(), entry.key.stamp());
    let actions = match entry.key.actions() {
        Some(actions) => actions.text(),
        None => "removed",
    };
    format!(in alloc; " {name} {stamp} {actions}")
}

fn entry_text(alloc: Global, entry: &NameEntry) -> Result<String, AllocError> {
    let mut text = key_text(alloc, entry)?;
    push_hits(&mut text, entry, alloc)?;
    push_execs(&mut text, entry, alloc)?;
    push_shifts(&mut text, entry, alloc)?;
    push_grants(&mut text, entry, alloc)?;
    Ok(text)
}

/// From, to, base, upto and ack; and for each name its stamp, its actions and its cells.
pub(super) fn message_text(alloc: Global, message: &Message) -> Result<String, AllocError> {
    let Message {
        from,
        to,
        base,
        upto,
        ack,
        entries,
    } = message;
    let mut text = format!(in alloc; "{from}>{to} {base} {upto} {ack};")?;
    for entry in entries {
        text.push_str(entry_text(alloc, entry)?.as_str())?;
        text.push(';')?;
    }
    Ok(text)
}

/// The message that bytes are read as, or the error for which they are rejected, in print.
pub(super) fn reading(
    rt: &impl Abort,
    alloc: Global,
    nodes: u8,
    bytes: &[u8],
) -> Result<String, AllocError> {
    match read(rt, alloc, nodes, bytes) {
        Ok(message) => message_text(alloc, &message),
        Err(WireFault::OutOfMemory) => Err(AllocError),
        Err(fault) => format!(in alloc; "{fault}"),
    }
}
