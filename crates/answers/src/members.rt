//! Members of an object.

ghost use Rattle.std.specs.Prelude.{◌≡◌, ◌++◌, [], OnOk, codes, decimal, true};
ghost use Rattle.stamp_register.specs.Keys.{stamp_text};
ghost use Rattle.answers.specs.Objects.{closing, member, object, opening, plain_member};
ghost use Rattle.answers.specs.Strings.{string_of};

use crate::strings::push_string;
use itoa::Buffer;
use stamp_register::Stamp;
use std::alloc::AllocError;

/// The beginning of an object, whose first string stays open.
#[tactic(auto, unfolding(crate::specs::Objects::opening))]
pub(crate) fn begin(kind: &str, out: &mut Vec<u8>) -> Result<(), AllocError>
    ensures { OnOk result (out.new.items ≡ out.old.items ++ opening kind.now) }
{
    out.extend_from_slice(b"{\"answer\":\"")?;
    out.extend_from_slice(kind.as_bytes())
}

/// The end of an object whose last string is open.
#[tactic(auto, unfolding(crate::specs::Objects::closing))]
pub(crate) fn end(out: &mut Vec<u8>) -> Result<(), AllocError>
    ensures { OnOk result (out.new.items ≡ out.old.items ++ closing) }
{
    out.extend_from_slice(b"\"}\n")
}

/// An object without members.
pub(crate) fn push_alone(kind: &str, out: &mut Vec<u8>) -> Result<(), AllocError>
    ensures { OnOk result (out.new.items ≡ out.old.items ++ object kind.now []) }
{
    begin(kind, out)?;
    end(out)
}

/// The name of a member, whose string stays open.
fn push_name(name: &str, out: &mut Vec<u8>) -> Result<(), AllocError>
    ensures { OnOk result (out.new.items
        ≡ out.old.items ++ (codes "\",\"" ++ (name.now ++ codes "\":\""))) }
{
    out.extend_from_slice(b"\",\"")?;
    out.extend_from_slice(name.as_bytes())?;
    out.extend_from_slice(b"\":\"")
}

/// A member whose value has no byte that a string can't have.
#[tactic(auto, unfolding(crate::specs::Objects::plain_member))]
pub(crate) fn push_plain(name: &str, value: &str, out: &mut Vec<u8>) -> Result<(), AllocError>
    ensures { OnOk result (out.new.items ≡ out.old.items ++ plain_member name.now value.now) }
{
    push_name(name, out)?;
    out.extend_from_slice(value.as_bytes())
}

/// A member whose value is any text.
#[tactic(auto, unfolding(crate::specs::Objects::plain_member))]
pub(crate) fn push_text(name: &str, value: &str, out: &mut Vec<u8>) -> Result<(), AllocError>
    ensures { OnOk result (out.new.items ≡ out.old.items ++ member name.now value.now) }
{
    push_name(name, out)?;
    push_string(true, value.as_bytes(), out)
}

pub(crate) fn push_number(name: &str, number: u128, out: &mut Vec<u8>) -> Result<(), AllocError>
    ensures { OnOk result (out.new.items
        ≡ out.old.items ++ plain_member name.now (decimal number)) }
{
    push_plain(name, Buffer::new().format(number), out)
}

#[tactic(auto, unfolding(crate::specs::Objects::plain_member))]
pub(crate) fn push_stamp(stamp: Stamp, out: &mut Vec<u8>) -> Result<(), AllocError>
    ensures { OnOk result (out.new.items
        ≡ out.old.items ++ plain_member (codes "stamp") (stamp_text stamp)) }
{
    push_name("stamp", out)?;
    out.extend_from_slice(Buffer::new().format(stamp.clock).as_bytes())?;
    out.extend_from_slice(b".")?;
    out.extend_from_slice(Buffer::new().format(stamp.node).as_bytes())
}
