//! What holds of each replay.
ghost use Rattle.run_replay.specs.Laws.{NamesWhatIsBroken, ReplaysAgree};

use c_program::Program;

/// A schedule has one replay, by its number of steps and its end.
pub fn agree(program: &Program)
    ensures { ReplaysAgree program.now }
{}

/// A guideline is named only where the run up to there breaks it, so one that no run breaks is never named.
pub fn named(program: &Program)
    ensures { NamesWhatIsBroken program.now }
{}
