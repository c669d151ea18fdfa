//! Paths, chosen among the routes by `matchit`.

ghost use Rattle.std.specs.Prelude.{◌≡◌, [], IfOk, OnOk, option_map};
ghost use Rattle.matchit.specs.Params.{AllText};
ghost use Rattle.matchit.specs.Route.{parse_route};
ghost use Rattle.http_routes.specs.Rows.{route_rows, with_route, IsFree};
ghost use Rattle.http_routes.specs.Parts.{grant_of, point_of, shift_of, spread_of, taken_by, with_parts};
ghost use Rattle.http_routes.specs.Paths.{target_of};
ghost use Rattle.http_routes.specs.Targets.{target_value};

use crate::targets::{RouteId, Target};
use matchit::{InsertError, Params, Router};
use std::alloc::{AllocError, Global};

/// The routes, to be made once and lent to each request.
pub struct Routes {
    router: Router<RouteId>,
    ghost whole: { router ≡ route_rows },
}

impl Drop for Routes {
    fn drop(self) {
        let Routes { router: _ } = self;
    }
}

impl Routes {
    /// The routes. The only error is out of memory: each can be read, and none stands in the way of
    /// another.
    pub fn new(alloc: Global) -> Result<Routes, AllocError> {
        let router = filled(alloc)?;
        Ok(Routes { router })
    }

    /// Where a path leads, if there is a route for it.
    pub fn target<'p>(&self, path: &'p str) -> Option<Target<'p>>
        ensures { option_map target_value result ≡ target_of path.now }
    {
        match self.router.at(path) {
            Ok(found) => with_parts(*found.value, &found.params),
            Err(_) => None,
        }
    }
}

// The target of a route, with the parts that its names took from the path.
fn with_parts<'p>(route: RouteId, params: &Params<'_, 'p>) -> Option<Target<'p>>
    ensures { AllText (taken_by params.now)
        → option_map target_value result ≡ with_parts route (taken_by params.now) }
{
    match route {
        RouteId::Page => Some(Target::Page),
        RouteId::Points => Some(Target::Points),
        RouteId::Point => point_of(params),
        RouteId::Load => Some(Target::Load),
        RouteId::Spread => spread_of(params),
        RouteId::Shift => shift_of(params),
        RouteId::Grant => grant_of(params),
        RouteId::Gossip => Some(Target::Gossip),
        RouteId::Hello => Some(Target::Hello),
        RouteId::Report => Some(Target::Report),
        RouteId::Status => Some(Target::Status),
        RouteId::Stop => Some(Target::Stop),
    }
}

fn point_of<'p>(params: &Params<'_, 'p>) -> Option<Target<'p>>
    ensures { AllText (taken_by params.now)
        → option_map target_value result ≡ point_of (taken_by params.now) }
{
    let name = params.get("name")?;
    Some(Target::Point { name })
}

fn spread_of<'p>(params: &Params<'_, 'p>) -> Option<Target<'p>>
    ensures { AllText (taken_by params.now)
        → option_map target_value result ≡ spread_of (taken_by params.now) }
{
    let name = params.get("name")?;
    Some(Target::Spread { name })
}

fn shift_of<'p>(params: &Params<'_, 'p>) -> Option<Target<'p>>
    ensures { AllText (taken_by params.now)
        → option_map target_value result ≡ shift_of (taken_by params.now) }
{
    let parts = (
        params.get("name"),
        params.get("term"),
        params.get("to"),
        params.get("amount"),
    );
    let (Some(name), Some(term), Some(to), Some(amount)) = parts else {
        return None;
    };
    Some(Target::Shift {
        name,
        term,
        to,
        amount,
    })
}

fn grant_of<'p>(params: &Params<'_, 'p>) -> Option<Target<'p>>
    ensures { AllText (taken_by params.now)
        → option_map target_value result ≡ grant_of (taken_by params.now) }
{
    let parts = (params.get("name"), params.get("term"), params.get("amount"));
    let (Some(name), Some(term), Some(amount)) = parts else {
        return None;
    };
    Some(Target::Grant { name, term, amount })
}

// Adds a route that can be read and that stands in the way of none. The only error is out of
// memory.
fn add(router: &mut Router<RouteId>, route: &str, id: RouteId) -> Result<(), AllocError>
    requires { IsFree (parse_route route.now) router.old }
    ensures { OnOk result (router.new ≡ with_route (parse_route route.now) id router.old) }
{
    match router.insert(route, id) {
        Ok(()) => Ok(()),
        Err(InsertError::OutOfMemory) => Err(AllocError),
        Err(_) => unreachable!(),
    }
}

fn filled(alloc: Global) -> Result<Router<RouteId>, AllocError>
    ensures { IfOk result (λ router. router ≡ route_rows) }
{
    let mut router = Router::new(alloc);
    add_all(&mut router)?;
    Ok(router)
}

// Adds all routes to a router that has none. The only error is out of memory.
fn add_all(router: &mut Router<RouteId>) -> Result<(), AllocError>
    requires { router.old ≡ [] }
    ensures { OnOk result (router.new ≡ route_rows) }
{
    add(router, "/", RouteId::Page)?;
    add(router, "/fail", RouteId::Points)?;
    add(router, "/fail/", RouteId::Points)?;
    add(router, "/fail/{name}", RouteId::Point)?;
    add(router, "/gossip", RouteId::Gossip)?;
    add(router, "/grant/{name}/{term}/{amount}", RouteId::Grant)?;
    add(router, "/hello", RouteId::Hello)?;
    add(router, "/load", RouteId::Load)?;
    add(router, "/report", RouteId::Report)?;
    add(router, "/shift/{name}/{term}/{to}/{amount}", RouteId::Shift)?;
    add(router, "/spread/{name}", RouteId::Spread)?;
    add(router, "/status", RouteId::Status)?;
    add(router, "/stop", RouteId::Stop)
}
