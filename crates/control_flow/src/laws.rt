//! The moves between points are those of control.
ghost use Rattle.c_program.specs.WellFormed.{IsWellFormed};
ghost use Rattle.control_flow.specs.Edges.{EdgesAreMoves, SpotsHaveNodes};
ghost use Rattle.control_flow.specs.Made.{IsMade};

use crate::flow::Flow;
use c_program::program::Program;

/// Where control goes from a point, the graph says.
pub fn moves(program: &Program, flow: &Flow)
    requires well { IsWellFormed program.now }
    requires made { IsMade program.now flow.now }
    ensures { EdgesAreMoves program.now flow.now }
{}

/// Where an action stands in a function, it has a node.
pub fn nodes(program: &Program, flow: &Flow)
    requires well { IsWellFormed program.now }
    requires made { IsMade program.now flow.now }
    ensures { SpotsHaveNodes program.now flow.now }
{}
