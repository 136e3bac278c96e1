ghost use Rattle.std.specs.Prelude.{◌≡◌};
ghost use Rattle.http_routes.specs.Routes.{method_of, template_of};

use http_responses::Method;

/// The paths of the desk. `{project}` stands for the name of a project, and `{deviation}` for the
/// number of a deviation.
#[derive(Clone, Copy, Debug, PartialEq, Eq)]
pub enum Route {
    Projects,
    Revisions,
    Findings,
    Summary,
    Claim,
    Deviations,
    Approve,
    Reject,
    Withdraw,
    Plan,
    Permits,
}

impl Route {
    /// The path as the router takes it.
    pub fn template(self) -> &'static str
        ensures { result.now ≡ template_of self }
    {
        match self {
            Route::Projects => "/projects",
            Route::Revisions => "/projects/{project}/revisions",
            Route::Findings => "/projects/{project}/findings",
            Route::Summary => "/projects/{project}/summary",
            Route::Claim => "/projects/{project}/claim",
            Route::Deviations => "/projects/{project}/deviations",
            Route::Approve => "/projects/{project}/deviations/{deviation}/approve",
            Route::Reject => "/projects/{project}/deviations/{deviation}/reject",
            Route::Withdraw => "/projects/{project}/deviations/{deviation}/withdraw",
            Route::Plan => "/projects/{project}/plan",
            Route::Permits => "/permits",
        }
    }

    /// The one method that the path allows.
    pub fn method(self) -> Method
        ensures { result ≡ method_of self }
    {
        match self {
            Route::Findings | Route::Summary | Route::Claim => Method::Get,
            Route::Projects
            | Route::Revisions
            | Route::Deviations
            | Route::Approve
            | Route::Reject
            | Route::Withdraw
            | Route::Plan
            | Route::Permits => Method::Post,
        }
    }
}
