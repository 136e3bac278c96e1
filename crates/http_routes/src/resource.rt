ghost use Rattle.std.specs.Prelude.{◌≡◌};
ghost use Rattle.http_routes.specs.Routes.{method_of, route_of};

use crate::route::Route;
use http_responses::Method;
use misra_base::Name;

/// What a target names: a path of the desk, with the project and the deviation in it.
#[derive(Debug, Drop)]
pub enum Resource {
    Projects,
    Revisions(Name),
    Findings(Name),
    Summary(Name),
    Claim(Name),
    Deviations(Name),
    Approve(Name, u32),
    Reject(Name, u32),
    Withdraw(Name, u32),
    Plan(Name),
    Permits,
}

impl Resource {
    /// The path without its parameters.
    pub fn route(&self) -> Route
        ensures { result ≡ route_of self.now }
    {
        match self {
            Resource::Projects => Route::Projects,
            Resource::Revisions(_) => Route::Revisions,
            Resource::Findings(_) => Route::Findings,
            Resource::Summary(_) => Route::Summary,
            Resource::Claim(_) => Route::Claim,
            Resource::Deviations(_) => Route::Deviations,
            Resource::Approve(_, _) => Route::Approve,
            Resource::Reject(_, _) => Route::Reject,
            Resource::Withdraw(_, _) => Route::Withdraw,
            Resource::Plan(_) => Route::Plan,
            Resource::Permits => Route::Permits,
        }
    }

    /// The one method that it allows.
    pub fn method(&self) -> Method
        ensures { result ≡ method_of (route_of self.now) }
    {
        self.route().method()
    }
}
