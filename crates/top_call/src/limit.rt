//! Numbers as words.
ghost use Rattle.std.specs.Prelude.{◌≡◌, ◌^◌, ◌-◌, ◌<◌, ◌≤◌, min, IfSome};
ghost use Rattle.std.specs.Char.{digit_value};
ghost use Rattle.std.specs.Str.Parse.{digits_value};
ghost use Rattle.top_call.specs.Row.{number_below};

use itoa::Buffer;

/// What a digit counts; a letter counts from 10 on, and any other byte 36.
fn digit_value(byte: u8) -> u32
    ensures { result ≡ digit_value byte }
{
    char::from(byte).to_digit(36).unwrap_or(36)
}

/// The number that digits write, or the greatest one where it doesn't fit.
fn number(digits: &[u8]) -> u64
    ensures { result ≡ min (digits_value 10 digits.now) (2 ^ 64 - 1) }
{
    let mut number: u64 = 0;
    for digit in digits {
        number = number
            .saturating_mul(10)
            .saturating_add(u64::from(digit_value(*digit)));
    }
    number
}

/// The number that a word gives: from 1 on and below a bound, in decimal, without sign or leading zeros.
fn number_below(bound: u64, word: &str) -> Option<u64>
    requires { bound ≤ 2 ^ 62 }
    ensures number { result ≡ number_below bound word.now }
    ensures below { IfSome result (λ n. n < bound) }
    ensures above { IfSome result (λ n. 1 ≤ n) }
{
    let number = number(word.as_bytes());
    if number == 0 || number >= bound {
        return None;
    }
    let mut digits = Buffer::new();
    if digits.format(number) == word {
        Some(number)
    } else {
        None
    }
}

/// The number of steps that a word gives: from 1 to 2^62 - 1.
pub(crate) fn limit_of(word: &str) -> Option<u64>
    ensures number { result ≡ number_below (2 ^ 62) word.now }
    ensures limits { IfSome result (λ n. n < 2 ^ 62) }
{
    number_below(1 << 62, word)
}

/// The number of diamonds that a word gives: from 1 to 10000.
pub(crate) fn size_of(word: &str) -> Option<u32>
    ensures number { result ≡ number_below 10001 word.now }
    ensures limits { IfSome result (λ n. (1 ≤ n) × (n ≤ 10000)) }
{
    let size = number_below(10_001, word)?;
    Some(size as u32)
}
