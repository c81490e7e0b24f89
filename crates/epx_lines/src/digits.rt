//! Reads whole numbers of a line from their digits, without a JSON value. None is not a fault: the
//! caller then reads the whole line as a JSON value.
ghost use Rattle.std.specs.Prelude.{◌≡◌, ◌^◌, ◌<◌, ◌≤◌, pos, neg_ℤ, Some, IfSome};
ghost use Rattle.serde_json.specs.Data.{unsigned};
ghost use Rattle.serde_json.specs.Find.{of_integer};
ghost use Rattle.serde_json.specs.Read.{number_of};
ghost use Rattle.epx_lines.specs.between.Tokens.{AreDigitsOf};

/// A number below this can take one more digit without overflow.
const DIGIT_LIMIT: u64 = 1 << 60;

/// Reads one or more digits and nothing else.
fn read_digits(bytes: &[u8]) -> Option<u64>
    ensures { IfSome result (λ n. AreDigitsOf bytes.now n) }
{
    if bytes.is_empty() {
        return None;
    }
    let mut number = 0_u64;
    for byte in bytes {
        if number >= DIGIT_LIMIT || !byte.is_ascii_digit() {
            return None;
        }
        number = number * 10 + u64::from(*byte - b'0');
    }
    Some(number)
}

/// Reads a number without sign, fraction and exponent.
pub(crate) fn read_unsigned(text: &str) -> Option<u64>
    ensures { IfSome result (λ n. number_of text.now ≡ Some (unsigned n)) }
{
    Some(read_digits(text.as_bytes())?)
}

/// Negates a number below 2^63. None for 0, because `-0` is not a whole number.
fn negate(size: u64) -> Option<i64>
    ensures { IfSome result (λ z. (0 < size) × (size ≤ 2 ^ 63) × (z ≡ neg_ℤ (pos size))) }
{
    let size = i64::try_from(size).ok()?;
    if size == 0 { None } else { Some(-size) }
}

/// Reads a signed number without fraction and exponent.
pub(crate) fn read_signed(text: &str) -> Option<i64>
    ensures { IfSome result (λ z. number_of text.now ≡ Some (of_integer z)) }
{
    match text.as_bytes() {
        [b'-', digits @ ..] => negate(read_digits(digits)?),
        _ => i64::try_from(read_unsigned(text)?).ok(),
    }
}
