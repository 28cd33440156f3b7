//! The numbers that the spellings of the language stand for (RFC 4506, section 6.2), and which of them an
//! enum, a size or a program may have.
#![tactic(auto)]

ghost use Rattle.std.specs.Prelude.{◌≡◌, ◌<◌, ◌≤◌, ◌^◌, SomeIff, IsTrue};
ghost use Rattle.x_numbers.specs.Numbers.{digit_value, value_in, magnitude, in_range, value};
ghost use Rattle.x_numbers.specs.Numbers.{is_enum_number, is_word_number, next_number};

/// The value of a digit.
fn digit_value(byte: u8) -> u64
    ensures { result ≡ digit_value byte }
{
    let value = match byte {
        ..58 => byte.saturating_sub(48),
        58..97 => byte.saturating_sub(55),
        97.. => byte - 87,
    };
    u64::from(value)
}

/// The number that the digits stand for, where it fits 64 bits.
fn value_in(base: u64, digits: &[u8]) -> Option<u64>
    requires { 0 < base }
    ensures { SomeIff result (value_in base digits.now < 2 ^ 64) (value_in base digits.now) }
{
    let mut value = 0u64;
    for byte in digits {
        let Some(high) = value.checked_mul(base) else {
            return None;
        };
        let Some(next) = high.checked_add(digit_value(*byte)) else {
            return None;
        };
        value = next;
    }
    Some(value)
}

/// The number without its sign, where it fits 64 bits.
#[tactic(auto, unfolding(crate::specs::Numbers::magnitude))]
fn magnitude(text: &[u8]) -> Option<u64>
    ensures { SomeIff result (magnitude text.now < 2 ^ 64) (magnitude text.now) }
{
    match text {
        [b'0', b'x' | b'X', digits @ ..] => value_in(16, digits),
        [b'0', digits @ ..] => value_in(8, digits),
        [b'-', digits @ ..] => value_in(10, digits),
        digits => value_in(10, digits),
    }
}

/// The number that the text stands for, if a constant may have it: from -2^63 to 2^64-1.
#[tactic(auto, unfolding(crate::specs::Numbers::in_range, crate::specs::Numbers::value))]
pub fn number_value(text: &[u8]) -> Option<i128>
    ensures { SomeIff result (IsTrue (in_range text.now)) (value text.now) }
{
    let magnitude = magnitude(text)?;
    if text.first() != Some(&b'-') {
        return Some(i128::from(magnitude));
    }
    if magnitude > 1 << 63 {
        return None;
    }
    Some(-i128::from(magnitude))
}

/// Whether an enumerator may have the number: from -2^31 to 2^31-1 (RFC 4506, section 4.3).
pub fn is_enum_number(number: i128) -> bool
    ensures { result ≡ is_enum_number number }
{
    -(1 << 31) <= number && number < 1 << 31
}

/// Whether the number is a size, or that of a program, a version or a procedure: from 0 to 2^32-1.
pub fn is_word_number(number: i128) -> bool
    ensures { result ≡ is_word_number number }
{
    0 <= number && number < 1 << 32
}

/// The number of an enumerator without a value, by that of the one before.
pub fn next_number(before: Option<i128>) -> Option<i128>
    ensures { result ≡ next_number before }
{
    match before {
        Some(number) => {
            if is_enum_number(number) {
                Some(number + 1)
            } else {
                None
            }
        }
        None => None,
    }
}
