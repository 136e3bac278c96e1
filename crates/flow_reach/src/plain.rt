//! The points to which paths come.
ghost use Rattle.std.specs.Prelude.{◌≡◌, ℕ, ◌<◌, ◌≤◌, ◌↔◌, IfOk, true, length};
ghost use Rattle.flow_points.specs.PointLists.{points_of};
ghost use Rattle.flow_points.specs.Threads.{creations_of};
ghost use Rattle.flow_reach.specs.Paths.{plain, IsReached};
ghost use Rattle.flow_reach.specs.Searches.{IsMarked};
ghost use Rattle.flow_reach.specs.OneState.{below_one};

use crate::{Reach, Track, reach};
use flow_points::NumberedPoints;
use flow_points::threads::Threads;
use std::alloc::{AllocError, Global};

/// Follows nothing.
#[derive(Clone, Copy)]
pub struct Plain;

impl Track for Plain {
    ghost transitions = { λ t. plain };

    ghost states = { λ t. 1 };

    ghost can_start = { λ t thread state. Unit {0} };

    ghost can_step = { λ t point next state after. Unit {0} };

    fn size(&self) -> u32 {
        1
    }

    fn start(&self, _thread: u16, state: u32) -> bool {
        state == 0
    }

    fn step(&self, _point: u32, _next: u32, _state: u32, after: u32) -> bool {
        after == 0
    }

    ghost start_within = { λ t thread state e. below_one state e };

    ghost step_within = { λ t point next state after l e. below_one after e };
}

/// The points to which some path of their thread comes.
pub fn reached(
    alloc: Global,
    points: &NumberedPoints,
    threads: &Threads,
) -> Result<Reach, AllocError>
    requires creations { threads.now.creations.items ≡ creations_of points.now.graph }
    requires few { length threads.now.creations.items ≤ 64 }
    ensures { IfOk result (λ s. (point : ℕ) → point < length (points_of points.now.graph) → IsMarked s point 0 ↔ IsReached points.now.graph point) }
{
    reach(alloc, points, threads, &Plain)
}
