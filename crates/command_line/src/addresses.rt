//! Addresses with a port, as a command line names them.

ghost use Rattle.std.specs.Prelude.{◌≡◌, ◌↔◌, IsTrue};
ghost use Rattle.command_line.specs.Addresses.{IsHere, IsPortHere, SaysAddress, address_fault};
ghost use Rattle.command_line.specs.Addresses.{address_fault_text, has_byte};

use std::error::Error;
use std::fmt;
use std::net::{Ipv4Addr, SocketAddr};

/// Why a text is no address with a port. `Display` says it in words.
#[derive(Clone, Copy, Debug, PartialEq, Eq)]
pub enum AddressFault {
    /// It is none, as a name, which isn't looked up.
    NoAddress,
    /// It isn't one, and has a `%`, behind which an address has the number of a scope.
    BadScope,
}

impl AddressFault {
    pub(crate) fn text<'a>(self) -> &'a str
        ensures { result.now ≡ address_fault_text self }
    {
        match self {
            AddressFault::NoAddress =>
                "expected an IP address and port, such as 10.0.0.2:7071 or [fd00::2]:7071; host names aren't resolved",
            AddressFault::BadScope =>
                "expected a scope number, such as [fe80::2%3]:7071; `ip link` shows those of this machine",
        }
    }
}

impl fmt::Display for AddressFault {
    ghost use Rattle.std.specs.Prelude.{Some};
    ghost use Rattle.command_line.specs.Addresses.{address_fault_text};

    ghost output = { λ e. Some (address_fault_text e) };

    fn fmt<W: fmt::Write>(&self, f: &mut fmt::Formatter<W>) -> fmt::Result {
        f.write_str(self.text())
    }
}

impl Error for AddressFault {}

/// Whether a text has this byte.
pub(crate) fn has_byte(text: &str, byte: u8) -> bool
    ensures { result ≡ has_byte byte text.now }
{
    text.bytes().any(|other| other == byte)
}

// Why a text that is no address is none.
fn fault_of(text: &str) -> AddressFault
    ensures { result ≡ address_fault text.now }
{
    if has_byte(text, b'%') {
        AddressFault::BadScope
    } else {
        AddressFault::NoAddress
    }
}

/// The address with a port that a text spells, as `10.0.0.2:7071` or `[fe80::2%3]:7071`, in which 3 is
/// the number of a scope.
pub fn read_address(text: &str) -> Result<SocketAddr, AddressFault>
    ensures { SaysAddress text.now result }
{
    match text.parse::<SocketAddr>() {
        Ok(address) => Ok(address),
        Err(_) => Err(fault_of(text)),
    }
}

/// Whether an address is this machine's own, and no other machine reaches it.
pub fn is_here(address: SocketAddr) -> bool
    ensures { IsTrue result ↔ IsHere address }
{
    address.ip().is_loopback()
}

/// A port of 127.0.0.1.
pub fn port_here(port: u16) -> SocketAddr
    ensures { IsPortHere port result }
{
    SocketAddr::from((Ipv4Addr::LOCALHOST, port))
}
