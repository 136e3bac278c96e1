//! The lines of a schedule.
ghost use Rattle.std.specs.Prelude.{◌≡◌, ◌∷◌, ◌<◌, length, suc, Some, None, MatchOption};
ghost use Rattle.schedules.specs.Lines.{lines, first_written};

use crate::choice::Choice;
use crate::cuts::cut;
use crate::fields::choice_of;

/// What stands behind the first line.
#[tactic(auto, using(crate::proofs::Lining::counted_ended, crate::proofs::Lining::unended_line))]
fn behind_line(text: &[u8]) -> &[u8]
    requires { 0 < length text.now }
    ensures shorter { length result.now < length text.now }
    ensures counted { length (lines text.now) ≡ suc (length (lines result.now)) }
{
    match cut(text, b'\n').1 {
        Some(behind) => behind,
        None => &[],
    }
}

/// How many lines a text has.
pub fn line_count(text: &[u8]) -> usize
    ensures { result ≡ length (lines text.now) }
{
    let mut count = 0;
    let mut rest = text;
    while !rest.is_empty() {
        rest = behind_line(rest);
        count += 1;
    }
    count
}

#[tactic(auto, using(crate::proofs::Lining::ended_line, crate::proofs::Lining::unended_line, crate::proofs::Lining::first_outside))]
/// The choice that the first line writes, and what stands behind its LF. None where it is outside the form.
pub fn first_choice(text: &[u8]) -> Option<(Choice, &[u8])>
    requires { 0 < length text.now }
    ensures { MatchOption result (first_written text.now ≡ Some None)
        (λ first. (lines text.now ≡ Some first.0 ∷ lines first.1.now) × (length first.1.now < length text.now)) }
{
    let (line, behind) = cut(text, b'\n');
    let behind = behind?;
    match choice_of(line) {
        Some(choice) => Some((choice, behind)),
        None => None,
    }
}
