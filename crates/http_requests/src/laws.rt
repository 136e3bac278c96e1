//! What holds of each connection's bytes.
ghost use Rattle.std.specs.Prelude.{◌≡◌, ℕ, List};
ghost use Rattle.request_session.specs.Requests.{AreRequests, whole};
ghost use Rattle.http_requests.specs.Requests.{IsFirst, Request};

/// Some bytes are one list of requests.
pub fn requests_are_one()
    ensures { (limit : ℕ) (bytes : List ℕ) (requests others : List Request)
        → AreRequests IsFirst whole limit bytes requests → AreRequests IsFirst whole limit bytes others → requests ≡ others }
{}
