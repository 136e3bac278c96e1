//! The states in which paths come to points.
ghost use Rattle.std.specs.Prelude.{◌<◌, ◌≡◌, ◌↔◌, ◌^◌, ℕ, true, IfOk};
ghost use Rattle.flow_facts.specs.Points.{count_of};
ghost use Rattle.flow_facts.specs.Paths.{IsAskableAt, Comes, may_at};

use crate::points::Points;
use flow_reach::{Reach, Track};
use std::alloc::{AllocError, Global};

/// The states in which some path of the point's thread comes to each point, before the point's action. A path begins
/// where the thread is entered, in a state in which the track starts, and goes on by the moves between points, each
/// condition taken freely, where the track steps from state to state.
pub fn reach<T: Track>(alloc: Global, points: &Points, track: &T) -> Result<Reach, AllocError>
    requires states { T.states track.now < 2 ^ 29 }
    requires askable { IsAskableAt points.now (T.can_start track.now) (T.can_step track.now) (T.states track.now) }
    ensures { IfOk result (λ reach. (point state : ℕ) → point < count_of points.now → state < T.states track.now
        → (may_at reach point state ≡ true) ↔ Comes points.now (T.transitions track.now) point state) }
{
    flow_reach::reach(alloc, &points.numbered, &points.threads, track)
}
