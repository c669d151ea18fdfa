//! Mailboxes.

use super::*;

// Messages of one byte each, from one number up to another, which are sent or taken.
#[derive(Clone, Copy)]
enum Mail {
    // To a node; each is answered so.
    Send(u8, (u8, u8), Result<(), WireError>),
    // They wait, in this order, and no others.
    Take((u8, u8)),
}

// What two nodes send and take. A mailbox holds 64 messages, and more once it was emptied; nobody else
// has one; and what is sent to oneself comes to oneself.
const MAIL: &[(usize, Mail)] = &[
    (0, Mail::Send(1, (0, 64), Ok(()))),
    (0, Mail::Send(1, (64, 65), Err(WireError::Full))),
    (1, Mail::Take((0, 64))),
    (0, Mail::Send(1, (65, 129), Ok(()))),
    (1, Mail::Take((65, 129))),
    (0, Mail::Send(2, (0, 1), Err(WireError::NoPeer))),
    (0, Mail::Send(0, (7, 8), Ok(()))),
    (1, Mail::Take((0, 0))),
    (0, Mail::Take((7, 8))),
];

fn sent<R: Wait>(
    rt: &R,
    alloc: Global,
    wire: &mut MailWire,
    to: u8,
    byte: u8,
) -> Result<(), WireError> {
    wire.send(rt, alloc, to, &[byte])
}

// The byte of the message that is taken. A message of none or more stands for none.
fn taken<R: Wait>(rt: &R, alloc: Global, wire: &mut MailWire) -> Option<u8> {
    match wire.take(rt, alloc) {
        Ok(Some(message)) if message.len() == 1 => message.first().copied(),
        _ => None,
    }
}

fn are_sent<R: Wait>(
    rt: &R,
    alloc: Global,
    wire: &mut MailWire,
    to: u8,
    (from, until): (u8, u8),
    answer: Result<(), WireError>,
) -> bool {
    for byte in from..until {
        if sent(rt, alloc, wire, to, byte) != answer {
            return false;
        }
    }
    true
}

fn are_taken<R: Wait>(rt: &R, alloc: Global, wire: &mut MailWire, (from, until): (u8, u8)) -> bool {
    for byte in from..until {
        if taken(rt, alloc, wire) != Some(byte) {
            return false;
        }
    }
    taken(rt, alloc, wire).is_none()
}

fn holds<R: Wait>(rt: &R, alloc: Global, wire: &mut MailWire, mail: Mail) -> bool {
    match mail {
        Mail::Send(to, bytes, answer) => are_sent(rt, alloc, wire, to, bytes, answer),
        Mail::Take(bytes) => are_taken(rt, alloc, wire, bytes),
    }
}

#[test]
fn mail_between_two_nodes(rt: HostRuntime) -> Result<(), Fail> {
    let mut wires = MailWire::all(rt.alloc(), 2)?;
    for (step, (node, mail)) in MAIL.iter().enumerate() {
        let wire = wires.get_mut(*node).ok_or("a wire")?;
        let found = (step, holds(&rt, rt.alloc(), wire, *mail));
        expect(&rt, &found, &(step, true));
    }
    Ok(())
}
