//! The file of the key that clients and peers have to have.

ghost use Rattle.std.specs.Prelude.{◌≡◌, ◌≤◌, ◌↔◌, IfErr, IfOk, IfSome, IsOk, IsSome, OnOk, bit_and, length};
ghost use Rattle.node_service.specs.KeyFiles.{AsksForWhatItSends, HasKeyOf, IsFaultOf, IsKeyedBy, IsReadFault};

use crate::fault::ServiceFault;
use http_serve::Access;
use http_wire::Key;
use node_core::NodeFault;
use std::alloc::{AllocGlobal, Global};
use std::fs::{File, Files, OpenOptions};
use std::io::Read;
use std::os::unix::fs::PermissionsExt;
use std::{fmt, io};

/// The most bytes of a key: the head of a request has room for them in hex, and for the rest. `Access`
/// knows the fewest.
pub const MOST_KEY: usize = 1024;

/// Why a file has no key. `Display` shows the fault's number and name.
#[derive(Debug, Drop)]
pub enum KeyFault {
    /// It can't be opened or read.
    CantRead(io::Error),
    /// Others than its owner may use it: its mode.
    OpenToOthers(u32),
    /// It has so few bytes.
    TooShort(usize),
    /// It has more than the most.
    TooLong,
}

impl fmt::Display for KeyFault {
    ghost use Rattle.std.specs.Prelude.{Some, codes};

    ghost output = { λ _. Some (codes "V7 BadKey") };

    fn fmt<W: fmt::Write>(&self, f: &mut fmt::Formatter<W>) -> fmt::Result {
        f.write_str("V7 BadKey")
    }
}

impl From<io::Error> for KeyFault {
    ghost use Rattle.std.specs.Prelude.{◌≡◌};
    ghost use Rattle.node_service.specs.declared.key_file.KeyFault.TheVariants.{CantRead};

    ghost from_gives = { λ error fault. fault ≡ CantRead error };

    fn from(error: io::Error) -> KeyFault {
        KeyFault::CantRead(error)
    }
}

// Checks that a file's mode lets nobody but its owner use it.
fn check_mode(mode: u32) -> Result<(), KeyFault>
    ensures ok { IsOk result ↔ (bit_and mode 0o077 ≡ 0) }
    ensures err { IfErr result (λ fault. fault ≡ KeyFault.OpenToOthers mode) }
{
    if mode & 0o077 != 0 {
        return Err(KeyFault::OpenToOthers(mode));
    }
    Ok(())
}

// The file of a key, open for reading.
fn open_private<R: Files<File = File>>(rt: &R, path: &str) -> Result<File, KeyFault> {
    let mut options = OpenOptions::new();
    options.read(true);
    let file = options.open(rt, path)?;
    check_mode(file.metadata()?.permissions().mode() & 0o7777)?;
    Ok(file)
}

// Reads a key: all bytes that a reader has.
fn read_key<I: Read + Drop>(alloc: Global, input: I) -> Result<Vec<u8>, KeyFault>
    ensures whole { IfOk result (λ key. IfSome (I.remaining input) (λ all. all ≡ key.items)) }
    ensures most { IfOk result (λ key. length key.items ≤ 1024) }
    ensures err { IfErr result (λ fault.
        IfSome (I.remaining input) (λ all. IsReadFault all fault)) }
{
    let mut bytes = Vec::new(alloc);
    // One byte more than a key may have shows that there are too many.
    input.take(MOST_KEY as u64 + 1).read_to_end(&mut bytes)?;
    if bytes.len() > MOST_KEY {
        return Err(KeyFault::TooLong);
    }
    Ok(bytes)
}

/// Who may ask a node, and the key that it sends its peers, if there is one.
#[derive(Drop)]
pub(crate) struct Keyed {
    pub(crate) access: Access,
    pub(crate) key: Option<Key>,
}

/// What a node is served with: the key in this file, or none if no file is named.
pub(crate) fn keyed_by<R>(rt: &R, path: Option<&str>) -> Result<Keyed, ServiceFault>
where
    R: AllocGlobal + Files<File = File>,
    ensures alike { IfOk result AsksForWhatItSends }
    ensures named { IfOk result (λ keyed. IsSome keyed.key ↔ IsSome path.entry) }
    ensures key { IfOk result (λ keyed. IsSome path.entry → HasKeyOf None keyed) }
{
    match path {
        Some(path) => keyed_from(rt.alloc(), open_private(rt, path)?),
        None => Ok(Keyed {
            access: Access::of_this_machine(),
            key: None,
        }),
    }
}

// What a node is served with whose key is all bytes that a reader has.
fn keyed_from<I: Read + Drop>(alloc: Global, input: I) -> Result<Keyed, ServiceFault>
    ensures ok { IfOk result (HasKeyOf (I.remaining input)) }
    ensures err { IfErr result (λ fault.
        IfSome (I.remaining input) (λ all. IsFaultOf all fault)) }
{
    with_key(alloc, &read_key(alloc, input)?)
}

// What a node is served with that has this key.
fn with_key(alloc: Global, bytes: &[u8]) -> Result<Keyed, ServiceFault>
    ensures ok { IfOk result (IsKeyedBy bytes.now) }
    ensures least { OnOk result (32 ≤ length bytes.now) }
    ensures err { IfErr result (IsFaultOf bytes.now) }
{
    let access = match Access::by_key(alloc, bytes) {
        Ok(access) => access,
        Err(http_serve::KeyFault::TooShort) => {
            return Err(ServiceFault::Key(KeyFault::TooShort(bytes.len())));
        }
        Err(http_serve::KeyFault::OutOfMemory) => {
            return Err(ServiceFault::Node(NodeFault::OutOfMemory));
        }
    };
    let key = Key::new(alloc, bytes).map_err(NodeFault::from)?;
    Ok(Keyed {
        access,
        key: Some(key),
    })
}
