//! Each action of a body stands once in each of its turns.
ghost use Rattle.std.specs.Prelude.{[]};
ghost use Rattle.c_program.specs.Paths.{spots_of};
ghost use Rattle.c_program.specs.Syntax.{body_at};
ghost use Rattle.c_program.specs.WellFormed.{IsWellFormed};
ghost use Rattle.program_spots.specs.Once.{StandsOnce};

use c_program::program::Program;

/// No action stands twice in the same turns.
pub fn once(program: &Program, function: u32)
    requires { IsWellFormed program.now }
    ensures { StandsOnce (spots_of [] (body_at program.now function)) }
{}
