ghost use Rattle.lexical_laws.specs.Values.{LiteralIsItsDigits, FirstDigitCountsMost};

/// The value of an integer literal is that of its digits in its base: 16 behind `0x`, 8 where the first
/// digit is `0`, and else 10; the first digit counts most (C11 6.4.4.1).
pub fn literal_is_its_digits()
    ensures literal { LiteralIsItsDigits }
    ensures first_digit { FirstDigitCountsMost }
{}
