//! The table of paths, and which of them a target is.
ghost use Rattle.std.specs.Prelude.{◌≡◌, IfOk, OnOk, Some, []};
ghost use Rattle.std.specs.Option.{option_map, option_and_then};
ghost use Rattle.std.specs.Str.{IsUtf8};
ghost use Rattle.matchit.specs.Seek.{first};
ghost use Rattle.http_routes.specs.declared.resource.Resource.TheVariants as resources;
ghost use Rattle.http_routes.specs.Routes.{resource_at, resource_of, table_rows, with_route};

use crate::path::{deviation_number, project_segment};
use crate::resource::Resource;
use crate::route::Route;
use matchit::{InsertError, Router};
use misra_base::Name;
use std::alloc::{AllocError, Global};
use std::str;

fn add(router: &mut Router<Route>, route: Route) -> Result<(), InsertError>
    ensures { OnOk result (router.new ≡ with_route route router.old) }
{
    router.insert(route.template(), route)
}

fn make_router(alloc: Global) -> Result<Router<Route>, InsertError>
    ensures { IfOk result (λ router. router ≡ table_rows) }
{
    let mut router = Router::new(alloc);
    add(&mut router, Route::Projects)?;
    add(&mut router, Route::Revisions)?;
    add(&mut router, Route::Findings)?;
    add(&mut router, Route::Summary)?;
    add(&mut router, Route::Claim)?;
    add(&mut router, Route::Deviations)?;
    add(&mut router, Route::Approve)?;
    add(&mut router, Route::Reject)?;
    add(&mut router, Route::Withdraw)?;
    add(&mut router, Route::Plan)?;
    add(&mut router, Route::Permits)?;
    Ok(router)
}

/// The resource of a path that the router gives this route. None where the number of a deviation is
/// none.
fn resource(alloc: Global, route: Route, path: &[u8]) -> Result<Option<Resource>, AllocError>
    ensures { IfOk result (λ found. found ≡ resource_at route path.now) }
{
    let project = Name::from_bytes(alloc, project_segment(path))?;
    Ok(match route {
        Route::Projects => Some(Resource::Projects),
        Route::Revisions => Some(Resource::Revisions(project)),
        Route::Findings => Some(Resource::Findings(project)),
        Route::Summary => Some(Resource::Summary(project)),
        Route::Claim => Some(Resource::Claim(project)),
        Route::Deviations => Some(Resource::Deviations(project)),
        Route::Approve => approval(project, deviation_number(path)),
        Route::Reject => rejection(project, deviation_number(path)),
        Route::Withdraw => withdrawal(project, deviation_number(path)),
        Route::Plan => Some(Resource::Plan(project)),
        Route::Permits => Some(Resource::Permits),
    })
}

fn approval(project: Name, deviation: Option<u32>) -> Option<Resource>
    ensures { result ≡ option_map (resources.Approve project) deviation }
{
    match deviation {
        Some(number) => Some(Resource::Approve(project, number)),
        None => None,
    }
}

fn rejection(project: Name, deviation: Option<u32>) -> Option<Resource>
    ensures { result ≡ option_map (resources.Reject project) deviation }
{
    match deviation {
        Some(number) => Some(Resource::Reject(project, number)),
        None => None,
    }
}

fn withdrawal(project: Name, deviation: Option<u32>) -> Option<Resource>
    ensures { result ≡ option_map (resources.Withdraw project) deviation }
{
    match deviation {
        Some(number) => Some(Resource::Withdraw(project, number)),
        None => None,
    }
}

/// The paths of the desk, in a router.
#[derive(Drop)]
pub struct Routes {
    router: Router<Route>,
    ghost whole: { router ≡ table_rows },
}

impl Routes {
    /// All the paths.
    pub fn new(alloc: Global) -> Result<Routes, AllocError> {
        match make_router(alloc) {
            Ok(router) => Ok(Routes { router }),
            Err(_) => Err(AllocError),
        }
    }

    /// The resource that a target names: its path is one of the table, and where it has the number
    /// of a deviation this is a decimal number below 2^32.
    #[tactic(auto, using(crate::proofs::Inserting::routed, crate::proofs::Inserting::unrouted))]
    pub fn find(&self, alloc: Global, target: &[u8]) -> Result<Option<Resource>, AllocError>
        requires { IsUtf8 target.now }
        ensures { IfOk result (λ found. found ≡ resource_of target.now) }
    {
        let Ok(path) = str::from_utf8(target) else {
            return Ok(None);
        };
        match self.router.at(path) {
            Ok(found) => resource(alloc, *found.value, target),
            Err(_) => Ok(None),
        }
    }
}
