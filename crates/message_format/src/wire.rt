//! The marks of the format, and fields of one to eight bytes, which are read from the front of what
//! is left of a message.
//!
//! Each reader answers the field's value and what is left after it.

ghost use Rattle.std.specs.Prelude.{◌≡◌};
ghost use Rattle.std.specs.Int.{w16, w64};
ghost use Rattle.message_format.specs.Spelling.{magic};
ghost use Rattle.message_format.specs.Reading.{GivesAlways, offset, bytes_at, byte_at, number_at};
ghost use Rattle.message_format.specs.Reading.{node_at, other_node_at};

use crate::fault::WireFault;

/// Whether grants are told: then each name of the message ends with its own.
#[derive(Clone, Copy)]
pub(crate) enum Form {
    Plain,
    WithGrants,
}

impl Form {
    /// With what a message of this form begins.
    pub fn magic(self) -> &'static [u8]
        ensures { result.now ≡ magic self }
    {
        match self {
            Form::Plain => b"FPG1",
            Form::WithGrants => b"FPG2",
        }
    }
}

/// The tag of a key that removes its point.
pub(crate) const REMOVED: u8 = 0;

/// The tag of a key that sets actions, whose text follows.
pub(crate) const SET: u8 = 1;

/// What is known of the whole message while it is read.
#[derive(Clone, Copy)]
pub(crate) struct Whole {
    /// How many nodes there are.
    pub nodes: u8,
    /// How many bytes the message has.
    pub len: usize,
}

impl Whole {
    /// How many bytes stand before those that are left.
    pub fn offset(self, rest: &[u8]) -> usize
        ensures { result ≡ offset self.len rest.now }
    {
        self.len.saturating_sub(rest.len())
    }
}

/// So many bytes.
#[tactic(auto, unfolding(crate::specs::Reading::bytes_at))]
pub(crate) fn read_bytes(whole: Whole, len: usize, rest: &[u8]) -> Result<(&[u8], &[u8]), WireFault>
    ensures { GivesAlways (λ x. (x.0.now, x.1.now)) result (bytes_at whole.len len rest.now) }
{
    if rest.len() < len {
        return Err(WireFault::Short {
            offset: whole.offset(rest),
        });
    }
    Ok(rest.split_at(len))
}

#[tactic(auto, unfolding(crate::specs::Reading::byte_at))]
pub(crate) fn read_byte(whole: Whole, rest: &[u8]) -> Result<(u8, &[u8]), WireFault>
    ensures { GivesAlways (λ x. (x.0, x.1.now)) result (byte_at whole.len rest.now) }
{
    match rest {
        [] => Err(WireFault::Short {
            offset: whole.offset(rest),
        }),
        [byte, after @ ..] => Ok((*byte, after)),
    }
}

#[tactic(auto, unfolding(crate::specs::Reading::number_at))]
pub(crate) fn read_u16(whole: Whole, rest: &[u8]) -> Result<(u16, &[u8]), WireFault>
    ensures { GivesAlways (λ x. (x.0, x.1.now)) result (number_at whole.len w16 rest.now) }
{
    let Some((number, after)) = rest.split_first_chunk() else {
        return Err(WireFault::Short {
            offset: whole.offset(rest),
        });
    };
    Ok((u16::from_be_bytes(*number), after))
}

#[tactic(auto, unfolding(crate::specs::Reading::number_at))]
pub(crate) fn read_u64(whole: Whole, rest: &[u8]) -> Result<(u64, &[u8]), WireFault>
    ensures { GivesAlways (λ x. (x.0, x.1.now)) result (number_at whole.len w64 rest.now) }
{
    let Some((number, after)) = rest.split_first_chunk() else {
        return Err(WireFault::Short {
            offset: whole.offset(rest),
        });
    };
    Ok((u64::from_be_bytes(*number), after))
}

/// A node's number.
#[tactic(auto, unfolding(crate::specs::Reading::node_at))]
pub(crate) fn read_node(whole: Whole, rest: &[u8]) -> Result<(u8, &[u8]), WireFault>
    ensures { GivesAlways (λ x. (x.0, x.1.now)) result (node_at whole.len whole.nodes rest.now) }
{
    let (node, after) = read_byte(whole, rest)?;
    if node >= whole.nodes {
        return Err(WireFault::BadNode {
            offset: whole.offset(rest),
        });
    }
    Ok((node, after))
}

/// The number of a node other than this one.
#[tactic(auto, unfolding(crate::specs::Reading::other_node_at))]
pub(crate) fn read_other_node(whole: Whole, from: u8, rest: &[u8]) -> Result<(u8, &[u8]), WireFault>
    ensures { GivesAlways (λ x. (x.0, x.1.now)) result
        (other_node_at whole.len whole.nodes from rest.now) }
{
    let (to, after) = read_node(whole, rest)?;
    if to == from {
        return Err(WireFault::BadNode {
            offset: whole.offset(rest),
        });
    }
    Ok((to, after))
}
