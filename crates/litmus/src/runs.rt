//! A run to the return of `main`, a wait in two steps, calls that fail, and counted loops.
ghost use Rattle.std.specs.Prelude.{pos};
ghost use Rattle.c_program.specs.declared.expression.Expr.{Object};
ghost use Rattle.c_program.specs.declared.action.LibraryCall.TheVariants as lib;
ghost use Rattle.litmus.specs.Pieces.{m, c, t, k, w, null, plain_kind};
ghost use Rattle.litmus.specs.Runs.{ReturnsWith, counting, counting_schedule, counter, WaitsInTwoSteps, waiter, MayFail, RunsInFourTurns, four_turns, four_turns_schedule};

/// Two threads count under a mutex, and `main` returns behind them.
pub fn returns()
    ensures { ReturnsWith counting counting_schedule counter (pos 2) }
{}

/// A wait gives its mutex in its first step and takes it again in its second, unless another thread owns it.
pub fn waits()
    ensures { WaitsInTwoSteps waiter }
{}

/// `thrd_create`, `mtx_init`, `cnd_init` and `tss_create` may fail, and then make nothing.
pub fn fails()
    ensures creation { MayFail (lib.ThreadCreate (Object t) w null) }
    ensures mutex { MayFail (lib.MutexInit (Object m) plain_kind) }
    ensures condition { MayFail (lib.ConditionInit (Object c)) }
    ensures key { MayFail (lib.KeyCreate (Object k)) }
{}

/// Four threads are made in the four turns of a counted loop, each at a point of its own, and joined in those of another.
pub fn counts()
    ensures { RunsInFourTurns four_turns four_turns_schedule }
{}
