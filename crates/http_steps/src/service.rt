//! A service, as each of its connections sees it.

ghost use Rattle.std.specs.Prelude.{◌≡◌, IfErr, IfOk};
ghost use Rattle.http_exchange.specs.Keys.{key_in};
ghost use Rattle.http_steps.specs.Heads.{IsAcceptedBy, IsRejectedBy};

use crate::rejection::Rejection;
use http::request::Parts;
use http_exchange::{Accepted, Access, authority_of, judge, key_need};
use http_routes::{RouteSet, Routes};
use std::alloc::Global;
use std::hash::RandomState;
use std::io;
use std::random::RandomSource;

/// A service: which routes it offers, to whom, and at which port. All its connections share it.
#[derive(Drop)]
pub struct Service {
    alloc: Global,
    routes: Routes,
    set: RouteSet,
    access: Access,
    port: u16,
    // Clients choose the names of fields, so their maps take secret keys.
    keys: RandomState,
}

impl Service {
    /// A service that offers these routes at this port to who has the access.
    ///
    /// Errors: memory or random bytes are refused.
    pub fn new<R: RandomSource>(
        rt: &R,
        alloc: Global,
        set: RouteSet,
        access: Access,
        port: u16,
    ) -> io::Result<Service>
        ensures set { IfOk result (λ service. service.set ≡ set) }
        ensures access { IfOk result (λ service. key_in service.access ≡ key_in access) }
        ensures port { IfOk result (λ service. service.port ≡ port) }
    {
        let routes = Routes::new(alloc)?;
        let keys = RandomState::new(rt)?;
        Ok(Service {
            alloc,
            routes,
            set,
            access,
            port,
            keys,
        })
    }

    /// The keys of its maps of fields.
    pub(crate) fn keys(&self) -> RandomState {
        self.keys
    }

    /// Lets in a head of these parts, or says why it is rejected: then nothing is asked.
    pub(crate) fn accept(&self, parts: &Parts) -> Result<Accepted, Rejection>
        ensures ok { IfOk result (IsAcceptedBy self.now parts.now) }
        ensures err { IfErr result (IsRejectedBy self.now parts.now) }
    {
        let asked = self
            .routes
            .asked(self.set, parts.method.as_str(), parts.uri.path());
        let authority = authority_of(&parts.uri);
        let need = key_need(&asked);
        match judge(&parts.headers, authority, &self.access, need, self.port) {
            Err(refusal) => Err(Rejection::Refused(refusal)),
            Ok(admitted) => match Accepted::new(self.alloc, asked, &self.access, admitted) {
                Some(accepted) => Ok(accepted),
                None => Err(Rejection::NoMemory),
            },
        }
    }
}
