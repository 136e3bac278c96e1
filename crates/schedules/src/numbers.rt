//! The numbers of a line.
ghost use Rattle.std.specs.Prelude.{◌≡◌};
ghost use Rattle.schedules.specs.Lines.{number_up_to, index as index_of, value as value_of};

/// The number that the digits write, if it is at most that many. None where they are no decimal number without a
/// leading zero.
#[tactic(auto, using(crate::proofs::Digits::none_read, crate::proofs::Digits::too_great, crate::proofs::Digits::empty_is_none, crate::proofs::Digits::zero_leads, crate::proofs::Digits::value_more, crate::proofs::Digits::all_digits, crate::proofs::Digits::is_read))]
fn number(digits: &[u8], most: u64) -> Option<u64>
    ensures { result ≡ number_up_to most digits.now }
{
    if digits.is_empty() || (digits.len() > 1 && digits[0] == b'0') {
        return None;
    }
    let mut number: u128 = 0;
    for digit in digits {
        if !digit.is_ascii_digit() {
            return None;
        }
        number = number * 10 + (*digit - b'0') as u128;
        if number > most as u128 {
            return None;
        }
    }
    Some(number as u64)
}

/// The number of a thread or of a move.
pub fn index(field: &[u8]) -> Option<u32>
    ensures { result ≡ index_of field.now }
{
    match number(field, u32::MAX as u64) {
        Some(number) => Some(number as u32),
        None => None,
    }
}

/// A value, which `-` may stand before.
pub fn value(field: &[u8]) -> Option<i128>
    ensures { result ≡ value_of field.now }
{
    match field {
        [b'-', digits @ ..] => match number(digits, 1 << 63) {
            Some(number) => Some(-(number as i128)),
            None => None,
        },
        digits => match number(digits, u64::MAX) {
            Some(number) => Some(number as i128),
            None => None,
        },
    }
}
