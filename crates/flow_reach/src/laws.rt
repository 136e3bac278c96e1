//! Paths go by functions, so a search may keep one relation for each function in place of states for each point.
ghost use Rattle.flow_reach.specs.Paths.{Transitions};
ghost use Rattle.flow_reach.specs.Summaries.{LocalStep, IsLocal, PathsAreStacks};

use flow_points::NumberedPoints;
use flow_points::laws::{numbered, threads_begin};

/// For a track that goes by actions alone: a path comes to a point exactly where its frames lead there.
pub fn paths_are_stacks(points: &NumberedPoints)
    ensures { (track : Transitions) (local : LocalStep) → IsLocal points.now.graph track local → PathsAreStacks points.now.graph track local }
{
    numbered(points);
    threads_begin(points);
}
