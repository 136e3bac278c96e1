//! The numbers are those of the points.
ghost use Rattle.flow_points.specs.Strings.{NumbersArePoints, EachHasOneNumber};
ghost use Rattle.flow_points.specs.Threads.{EachThreadBegins};

use crate::points::NumberedPoints;

/// The numbers below the count are the points, one number for each.
pub fn numbered(points: &NumberedPoints)
    ensures all { NumbersArePoints points.now.graph }
    ensures one { EachHasOneNumber points.now.graph }
{}

/// A thread begins with the function that its creation names, and ends where that returns.
pub fn threads_begin(points: &NumberedPoints)
    ensures { EachThreadBegins points.now.graph }
{}
