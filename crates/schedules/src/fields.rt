//! The choice that a line writes.
ghost use Rattle.std.specs.Prelude.{◌≡◌, map, option_copied};
ghost use Rattle.schedules.specs.Lines.{choice_of_line, values_of, value as value_in};
ghost use Rattle.schedules.specs.Pieces.{pieces_behind};

use crate::choice::Choice;
use crate::cuts::cut;
use crate::numbers::{index, value};

/// The choice that a line writes, None where it is outside the form.
pub fn choice_of(line: &[u8]) -> Option<Choice>
    ensures { result ≡ choice_of_line line.now }
{
    let (thread, rest) = cut(line, b' ');
    let (pair, rest) = cut(rest?, b' ');
    let thread = index(thread)?;
    let pair = index(pair)?;
    let (values, count) = values_in(rest)?;
    Some(Choice {
        thread,
        pair,
        values,
        count,
    })
}

/// The values of the fields that are left, three at most, and how many they are.
#[tactic(auto, using(crate::proofs::Values::too_many, crate::proofs::Values::next_filled, crate::proofs::Values::none_filled, crate::proofs::Values::all_filled))]
fn values_in(fields: Option<&[u8]>) -> Option<([i128; 3], u8)>
    ensures { result ≡ values_of (map value_in (pieces_behind 32 (option_copied fields.entry))) }
{
    let mut rest = fields;
    let mut values = [0; 3];
    let mut count: usize = 0;
    while let Some(text) = rest {
        if count == 3 {
            return None;
        }
        let (field, behind) = cut(text, b' ');
        values[count] = value(field)?;
        count += 1;
        rest = behind;
    }
    Some((values, count as u8))
}
