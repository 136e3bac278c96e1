//! Conversions (C11 6.3.1.2, 6.3.1.3).
ghost use Rattle.std.specs.Prelude.{◌≡◌, ◌≤◌, ◌<◌, ◌^◌};
ghost use Rattle.c_program.specs.Types.{rest as rest_of, number_of as number_at, converted as converted_to};
ghost use Rattle.c_program.specs.Values.{in_type as in_type_of};

use crate::widths::{bits, is_in, is_signed};
use c_program::types::Integer;

/// The rest of a number at 2 to the power of some bits.
pub fn rest(bits: u32, number: i128) -> u128
    requires { bits ≤ 64 }
    ensures exact { result ≡ rest_of bits number }
    ensures small { result < 2 ^ bits }
{
    let all: u128 = 1 << bits;
    if number >= 0 {
        number as u128 % all
    } else {
        all - 1 - (-(number + 1)) as u128 % all
    }
}

/// The number that a pattern of bits is at a type.
pub fn number_of(integer: Integer, pattern: u128) -> i128
    requires { pattern < 2 ^ 64 }
    ensures { result ≡ number_at integer pattern }
{
    let bits = bits(integer);
    let half: u128 = 1 << (bits - 1);
    if is_signed(integer) && pattern >= half {
        let all: i128 = 1 << bits;
        pattern as i128 - all
    } else {
        pattern as i128
    }
}

/// A number converted to a type: to `_Bool` 0 or 1, to an unsigned type modulo its size; to a signed type it wraps.
pub fn converted(integer: Integer, number: i128) -> i128
    ensures { result ≡ converted_to integer number }
{
    match integer {
        Integer::Bool => { if number == 0 { 0 } else { 1 } }
        _ => number_of(integer, rest(bits(integer), number)),
    }
}

/// What an operator gives at a type: a signed result has to be one of it, an unsigned one wraps (C11 6.5p5, 6.2.5p9).
pub fn in_type(integer: Integer, number: i128) -> Option<i128>
    ensures { result ≡ in_type_of integer number }
{
    if !is_signed(integer) {
        Some(converted(integer, number))
    } else if is_in(integer, number) {
        Some(number)
    } else {
        None
    }
}
