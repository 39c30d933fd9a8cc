//! The values of digits.

ghost use Rattle.std.specs.Prelude.{◌≡◌, ◌+◌, ◌*◌, ◌<◌, ◌∷◌, pos, neg_ℤ};
ghost use Rattle.std.specs.Char.{digit_value};
ghost use Rattle.std.specs.Str.Parse.{digits_value, digits_value_after};
ghost use Rattle.nir_lex.specs.Numbers.{word_of, limited};

fn digit_value(byte: u8) -> u8
    ensures { result ≡ digit_value byte }
{
    match byte {
        b'0'..=b'9' => byte - b'0',
        b'A'..=b'Z' => byte - b'A' + 10,
        b'a'..=b'z' => byte - b'a' + 10,
        _ => 36,
    }
}

/// What one more digit makes of a value, None where 64 bits do not hold it.
fn with_digit(radix: u8, value: u64, digit: u8) -> Option<u64>
    ensures { result ≡ word_of (value * radix + digit_value digit) }
{
    let shifted = value.checked_mul(u64::from(radix))?;
    shifted.checked_add(u64::from(digit_value(digit)))
}

/// What these digits make of a value that stands before them, None where 64 bits do not hold it.
#[tactic(auto, using(crate::proofs::Values::none_stays))]
fn with_digits(radix: u8, start: u64, digits: &[u8]) -> Option<u64>
    requires { 0 < radix }
    ensures { result ≡ word_of (digits_value_after radix start digits.now) }
{
    let mut value = start;
    for digit in digits {
        match with_digit(radix, value, *digit) {
            Some(next) => value = next,
            None => return None,
        }
    }
    Some(value)
}

/// The number that the digits write behind this first one, None where it is too wide.
pub fn positive(radix: u8, first: u8, digits: &[u8]) -> Option<i128>
    requires { 0 < radix }
    ensures { result ≡ limited (pos (digits_value radix (first ∷ digits.now))) }
{
    match with_digits(radix, u64::from(digit_value(first)), digits) {
        Some(size) => Some(i128::from(size)),
        None => None,
    }
}

/// The number that decimal digits write behind a minus, None where it is too wide.
pub fn negative(digits: &[u8]) -> Option<i128>
    ensures { result ≡ limited (neg_ℤ (pos (digits_value 10 digits.now))) }
{
    match with_digits(10, 0, digits) {
        Some(size) => {
            if size > 1 << 63 {
                return None;
            }
            Some(-i128::from(size))
        }
        None => None,
    }
}
