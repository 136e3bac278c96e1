//! Schedules.
ghost use Rattle.std.specs.Prelude.{◌≡◌, ◌≢◌, ◌≤◌, true, length, Ok, Err, MatchResult};
ghost use Rattle.schedules.specs.Lines.{lines};
ghost use Rattle.schedules.specs.Schedules.{is_too_long, schedule, schedule_in};

use crate::choice::Choice;
use crate::lines::{first_choice, line_count};
use std::alloc::{AllocError, AllocFailed, Global};

/// The most bytes of a schedule.
const MOST_BYTES: usize = 262_144;

/// The most lines of a schedule.
const MOST_LINES: usize = 10_000;

/// Why a text is no schedule.
#[derive(Clone, Copy, Debug, PartialEq, Eq)]
pub enum ScheduleStop {
    /// It has more than 262,144 bytes or more than 10,000 lines.
    TooLong,
    /// This line, from 1, is the first one outside the form.
    Form(u32),
    /// Want of memory.
    Memory,
}

impl From<AllocError> for ScheduleStop {
    ghost use Rattle.schedules.specs.declared.schedule.ScheduleStop.TheVariants.{Memory};

    ghost from_gives = { λ _ e. e ≡ Memory };

    fn from(_: AllocError) -> ScheduleStop {
        ScheduleStop::Memory
    }
}

impl<T: Drop> From<AllocFailed<T>> for ScheduleStop {
    ghost use Rattle.schedules.specs.declared.schedule.ScheduleStop.TheVariants.{Memory};

    ghost from_gives = { λ _ e. e ≡ Memory };

    fn from(_: AllocFailed<T>) -> ScheduleStop {
        ScheduleStop::Memory
    }
}

/// The choices that a text writes, a line for each: `THREAD PAIR` and up to three values, parted by one space and ended
/// by LF. `TooLong` comes exactly where a limit is passed, and else `Form` exactly where a line is outside the form.
pub fn schedule_from(alloc: Global, text: &[u8]) -> Result<Vec<Choice>, ScheduleStop>
    ensures read { MatchResult result (λ choices. schedule text.now ≡ Ok choices.items)
        (λ stop. stop ≢ ScheduleStop.Memory → schedule text.now ≡ Err stop) }
    ensures too_long { is_too_long text.now ≡ true → result ≡ Err ScheduleStop.TooLong }
{
    if text.len() > MOST_BYTES || line_count(text) > MOST_LINES {
        return Err(ScheduleStop::TooLong);
    }
    choices_in(alloc, text)
}

/// The choices of a text with no more lines than there may be.
#[tactic(auto, using(crate::proofs::Lining::read_all, crate::proofs::Lining::stops, crate::proofs::Lining::one_more, crate::proofs::Lining::choices_below))]
fn choices_in(alloc: Global, text: &[u8]) -> Result<Vec<Choice>, ScheduleStop>
    requires { length (lines text.now) ≤ 10000 }
    ensures { MatchResult result (λ choices. schedule_in (lines text.now) ≡ Ok choices.items)
        (λ stop. stop ≢ ScheduleStop.Memory → schedule_in (lines text.now) ≡ Err stop) }
{
    let mut choices = Vec::new(alloc);
    let mut rest = text;
    while !rest.is_empty() {
        match first_choice(rest) {
            Some((choice, behind)) => {
                choices.push(choice)?;
                rest = behind;
            }
            None => return Err(ScheduleStop::Form(choices.len() as u32 + 1)),
        }
    }
    Ok(choices)
}
