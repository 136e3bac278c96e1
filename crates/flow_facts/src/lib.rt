//! The points of a program, the states in which paths come to them, and the facts that analyses tell of them.
#![tactic(auto)]

pub mod facts;
pub mod points;
pub mod points_to;
mod reaching;
mod readers;
pub mod states;

pub use facts::{Facts, Order};
pub use flow_reach::{Reach, Track};
pub use points::Points;
pub use points_to::{Access, ArgumentTargets, PointTargets, PointsTo};
pub use reaching::reach;
pub use states::{Held, LifeState, Lives, StateTable, ThreadState, ThreadStates};
