use crate::{Resource, Route, Routes};
use std::test::Fail;

/// Targets, and which path each is, if one.
const TARGETS: [(&str, Option<Route>); 18] = [
    ("/projects", Some(Route::Projects)),
    ("/projects/p/revisions", Some(Route::Revisions)),
    ("/projects/p/findings", Some(Route::Findings)),
    ("/projects/p/summary", Some(Route::Summary)),
    ("/projects/a%20b/claim", Some(Route::Claim)),
    ("/projects/p/deviations", Some(Route::Deviations)),
    ("/projects/p/deviations/01/approve", Some(Route::Approve)),
    (
        "/projects/p/deviations/4294967295/reject",
        Some(Route::Reject),
    ),
    ("/projects/p/deviations/0/withdraw", Some(Route::Withdraw)),
    ("/projects/p/plan", Some(Route::Plan)),
    ("/permits", Some(Route::Permits)),
    ("/nowhere", None),
    ("/projects/", None),
    ("/projects//claim", None),
    ("/projects/p/summary?all", None),
    ("/projects/p/deviations/4294967296/approve", None),
    ("/projects/p/deviations/+1/approve", None),
    ("http://a/permits", None),
];

#[test]
fn targets_are_the_paths_of_the_table(rt: HostRuntime) -> Result<(), Fail> {
    let routes = Routes::new(rt.alloc())?;
    for (target, route) in TARGETS {
        let found = routes.find(rt.alloc(), target.as_bytes())?;
        assert!(rt; found.map(|resource| resource.route()) == route);
    }
    Ok(())
}

#[test]
fn a_path_has_a_project_and_a_deviation(rt: HostRuntime) -> Result<(), Fail> {
    let routes = Routes::new(rt.alloc())?;
    let target = b"/projects/p/deviations/007/approve";
    let found = routes.find(rt.alloc(), target)?;
    assert!(rt;
        matches!(&found, Some(Resource::Approve(project, 7)) if project.bytes() == b"p".as_slice())
    );
    Ok(())
}
