//! The values of digits.
ghost use Rattle.std.specs.Prelude.{◌≡◌, pos, min};
ghost use Rattle.fn_tree.specs.Lexemes.{integer_value, is_integer};
ghost use Rattle.fn_syntax.specs.Numbers.{greatest_word};

const GREATEST: u64 = 9_223_372_036_854_775_807;

/// The value of digits, or the greatest `u64` where it is greater.
pub(crate) fn value_of(digits: &[u8]) -> u64
    ensures { result ≡ min (integer_value digits.now) greatest_word }
{
    let mut value = 0u64;
    for digit in digits {
        let digit = u64::from(digit.saturating_sub(b'0'));
        value = value.saturating_mul(10).saturating_add(digit);
    }
    value
}

/// Whether a run of digits is an integer: `0`, or without a leading zero and not too great.
pub(crate) fn says_integer(digits: &[u8]) -> bool
    ensures { result ≡ is_integer digits.now }
{
    digits == b"0".as_slice() || (!digits.starts_with(b"0") && value_of(digits) <= GREATEST)
}
