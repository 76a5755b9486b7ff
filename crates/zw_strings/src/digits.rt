//! The number at the begin of a text.
ghost use Rattle.std.specs.Prelude.{◌≡◌, ℕ, pos, ◌<◌, ◌^◌};
ghost use Rattle.std.specs.Option.{SomeIff};
ghost use Rattle.zw_def_world.specs.StringRows.{digits_before, number_of};
ghost use Rattle.zw_calls.specs.Integer.{IsInRange};

/// The number that the digits at the begin write, where it has at most 64 bits.
fn digits_before(text: &[u8]) -> Option<u64>
    ensures { SomeIff result (digits_before text.now < 2 ^ 64) (digits_before text.now) }
{
    let mut number: u64 = 0;
    for byte in text {
        if !byte.is_ascii_digit() {
            return Some(number);
        }
        number = number.checked_mul(10)?.checked_add(u64::from(byte - b'0'))?;
    }
    Some(number)
}

/// The number at the begin of a text, where it is in range: digits with or without a minus sign before them, or 0 where
/// there are none.
pub(crate) fn number_of(text: &str) -> Option<i64>
    ensures { IsInRange result (number_of text.now) }
{
    match text.as_bytes() {
        [b'-', rest @ ..] => i64::try_from(-i128::from(digits_before(rest)?)).ok(),
        digits => i64::try_from(digits_before(digits)?).ok(),
    }
}
