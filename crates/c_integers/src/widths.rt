//! The widths of the integer types (C11 6.2.5, 6.2.6.2).
ghost use Rattle.std.specs.Prelude.{◌≡◌, ◌≤◌, ◌<◌};
ghost use Rattle.c_program.specs.Types.{bits as bits_of, is_signed as has_sign, is_in as is_of};

use c_program::types::Integer;

/// The bits of a type, its sign among them.
pub fn bits(integer: Integer) -> u32
    ensures width { result ≡ bits_of integer }
    ensures some { 0 < result }
    ensures few { result ≤ 64 }
{
    match integer {
        Integer::Bool => 1,
        Integer::Char | Integer::SignedChar | Integer::UnsignedChar => 8,
        Integer::Short | Integer::UnsignedShort => 16,
        Integer::Int | Integer::UnsignedInt => 32,
        Integer::Long | Integer::UnsignedLong => 64,
        Integer::LongLong | Integer::UnsignedLongLong => 64,
    }
}

pub fn is_signed(integer: Integer) -> bool
    ensures { result ≡ has_sign integer }
{
    matches!(
        integer,
        Integer::Char
            | Integer::SignedChar
            | Integer::Short
            | Integer::Int
            | Integer::Long
            | Integer::LongLong
    )
}

/// Whether a number is one of the type.
pub fn is_in(integer: Integer, number: i128) -> bool
    ensures { result ≡ is_of integer number }
{
    if is_signed(integer) {
        let half: i128 = 1 << (bits(integer) - 1);
        -half <= number && number <= half - 1
    } else {
        let all: i128 = 1 << bits(integer);
        0 <= number && number <= all - 1
    }
}
