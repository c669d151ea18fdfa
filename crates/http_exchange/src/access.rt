//! Who may ask a service.

ghost use Rattle.std.specs.Prelude.{◌≡◌, ◌↔◌, ◌<◌, length, bytes_eq, option_map, IfOk, IsErrOf, IfSome};
ghost use Rattle.std.specs.Prelude.{Some, None, string_bytes};
ghost use Rattle.std.specs.Arc.{arc_value};
ghost use Rattle.http_routes.specs.Asked.{asked_value};
ghost use Rattle.http_exchange.specs.Keys.{are_credentials, has_key, key_in, key_need};

use crate::key::Key;
use crate::letters::is_like;
use http::header::{AUTHORIZATION, HeaderMap};
use http_routes::{Asked, Request};
use std::alloc::{AllocError, Global};
use std::sync::Arc;

/// The fewest bytes that a key has.
const SHORTEST_KEY: usize = 32;

/// The scheme of an `Authorization` that has the key, and the space after it.
const SCHEME: &[u8] = b"Bearer ";

/// Why bytes are no key.
#[derive(Clone, Copy, Debug, PartialEq, Eq)]
pub enum KeyFault {
    /// There are fewer than 32.
    TooShort,
    /// Memory was refused.
    OutOfMemory,
}

impl From<AllocError> for KeyFault {
    ghost use Rattle.std.specs.Prelude.{◌≡◌};
    ghost use Rattle.http_exchange.specs.declared.access.KeyFault.TheVariants.{OutOfMemory};

    ghost from_gives = { λ _ e. e ≡ OutOfMemory };

    fn from(_e: AllocError) -> KeyFault {
        KeyFault::OutOfMemory
    }
}

/// Whether a request needs the key of a service that has one.
#[derive(Clone, Copy)]
pub enum KeyNeed {
    Needed,
    Waived,
}

/// Who may ask a service: whoever is on this machine, or whoever has its key. Nothing shows the key.
#[derive(Drop)]
pub struct Access {
    key: Option<Arc<Key>>,
}

impl Access {
    /// Of a service that whoever is on this machine may ask, but no page of a browser.
    pub fn of_this_machine() -> Access
        ensures { key_in result ≡ None }
    {
        Access { key: None }
    }

    /// Of a service that may be asked by whoever has this key, from wherever. It has at least 32
    /// bytes.
    pub fn by_key(alloc: Global, key: &[u8]) -> Result<Access, KeyFault>
        ensures ok { IfOk result (λ access. key_in access ≡ Some key.now) }
        ensures too_short { IsErrOf result KeyFault.TooShort ↔ (length key.now < 32) }
    {
        if key.len() < SHORTEST_KEY {
            return Err(KeyFault::TooShort);
        }
        let key = shared_key(alloc, key)?;
        Ok(Access { key: Some(key) })
    }

    /// The same for one more connection or request. `None` where it can't be shared any more.
    pub fn again(&self) -> Option<Access>
        ensures { IfSome result (λ access. key_in access ≡ key_in self.now) }
    {
        let key = match &self.key {
            Some(key) => Some(Arc::try_clone(key).ok()?),
            None => None,
        };
        Some(Access { key })
    }

    /// The key, if there is one.
    pub fn key(&self) -> Option<&Key>
        ensures { option_map (λ key. key.now.bytes.items) result ≡ key_in self.now }
    {
        let key: &Key = self.key.as_ref()?;
        Some(key)
    }
}

fn shared_key(alloc: Global, key: &[u8]) -> Result<Arc<Key>, AllocError>
    ensures { IfOk result (λ shared. (arc_value shared).bytes.items ≡ key.now) }
{
    let key = Key::new(alloc, key)?;
    Ok(Arc::new(alloc, key)?)
}

/// Whether a request needs the key of a service that has one. Anybody may see the operator's page.
pub fn key_need(asked: &Asked<'_>) -> KeyNeed
    ensures { result ≡ key_need (asked_value asked.now) }
{
    match asked {
        Asked::Known {
            request: Request::Page,
            ..
        } => KeyNeed::Waived,
        _ => KeyNeed::Needed,
    }
}

// Whether the value of an `Authorization` has this key.
fn are_credentials(value: &[u8], key: &Key) -> bool
    ensures { result ≡ are_credentials key.now.bytes.items value.now }
{
    let (scheme, digits) = value.split_at(SCHEME.len().min(value.len()));
    is_like(scheme, SCHEME) && is_same(digits, key.digits())
}

/// Whether a head with these fields has this key, once.
pub fn has_key(fields: &HeaderMap, key: &Key) -> bool
    ensures { result ≡ has_key key.now.bytes.items fields.now }
{
    let mut said = fields.get_all(AUTHORIZATION).iter();
    match (said.next(), said.next()) {
        (Some(value), None) => are_credentials(value.as_bytes(), key),
        _ => false,
    }
}

/// Whether these are the same bytes. It looks at each of them: how long that takes says how many there
/// are, and not where they differ.
pub fn is_same(sent: &[u8], wanted: &[u8]) -> bool
    ensures { result ≡ bytes_eq sent.now wanted.now }
{
    if sent.len() != wanted.len() {
        return false;
    }
    let mut differs = 0;
    for (a, b) in sent.iter().zip(wanted) {
        differs |= *a ^ *b;
    }
    differs == 0
}
