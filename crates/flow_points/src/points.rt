//! What is kept of the points of a program.
ghost use Rattle.std.specs.Prelude.{◌≤◌, length};
ghost use Rattle.flow_points.specs.Graphs.{IsGraph};
ghost use Rattle.flow_points.specs.PointLists.{points_of};
ghost use Rattle.flow_points.specs.Tables.{IsCounted};

use crate::graph::Graph;

/// All points of a program, in tables of the program's size.
///
/// The number of a point is the sum of two numbers for each call of its string, and of one for its action:
/// the points that stand before the call in its function, and one for the call itself.
#[derive(Drop)]
pub struct NumberedPoints {
    pub graph: Graph,
    /// For each action the points before it in its function, up to the cap.
    pub(crate) before: Vec<u32>,
    /// For each function its points with those of all that it calls, up to the cap.
    pub(crate) totals: Vec<u32>,
    ghost whole: { IsGraph graph },
    ghost counted: { IsCounted graph before.items totals.items },
    ghost within: { length (points_of graph) ≤ 4000000000 },
}
