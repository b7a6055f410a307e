//! The prefix that a name begins with.
ghost use Rattle.std.specs.Prelude.{◌≡◌, ◌^◌, ◌-◌, ◌<◌, ◌↔◌, ◌==◌, ◌++◌, ◌∷◌, [], ℕ, Some, true, decimal, codes, min, position};
ghost use Rattle.std.specs.Char.{digit_value};
ghost use Rattle.std.specs.Str.Parse.{digits_value};
ghost use Rattle.ir_types.specs.Names.{prefix};
ghost use Rattle.fresh_prefix.specs.Prefixes.{BeginsWith, HasPrefix, number_text};

use ir_types::name::Name;
use itoa::Buffer;

/// What a digit counts; a letter counts from 10 on, and any other byte 36.
fn digit_value(byte: u8) -> u32
    ensures { result ≡ digit_value byte }
{
    char::from(byte).to_digit(36).unwrap_or(36)
}

/// The number that digits write, or the greatest one where it doesn't fit.
fn number(digits: &[u8]) -> u64
    ensures { result ≡ min (digits_value 10 digits.now) (2 ^ 64 - 1) }
{
    let mut number: u64 = 0;
    for digit in digits {
        number = number
            .saturating_mul(10)
            .saturating_add(u64::from(digit_value(*digit)));
    }
    number
}

/// Whether the bytes write the number, in decimal and without leading zeros.
fn writes(bytes: &[u8], number: u64) -> bool
    ensures { (result ≡ true) ↔ (bytes.now ≡ decimal number) }
{
    let mut digits = Buffer::new();
    digits.format(number).as_bytes() == bytes
}

/// The number of a prefix by what it has between `pre` and the dot: nothing for 0, and otherwise the number.
fn number_between(word: &[u8]) -> Option<u32>
    ensures { (j : ℕ) → j < 2 ^ 32 → (result ≡ Some j) ↔ (word.now ≡ number_text j) }
{
    if word.is_empty() {
        return Some(0);
    }
    let number = number(word);
    if number == 0 || number >= 1 << 32 {
        return None;
    }
    if writes(word, number) {
        Some(number as u32)
    } else {
        None
    }
}

/// The index of the first dot.
fn dot_at(bytes: &[u8]) -> Option<usize>
    ensures { result ≡ position (λ byte. byte == 46) bytes.now }
{
    bytes.iter().position(|byte| *byte == b'.')
}

/// The number of a prefix by what follows `pre`.
fn number_behind(bytes: &[u8]) -> Option<u32>
    ensures { (j : ℕ) → j < 2 ^ 32 → (result ≡ Some j) ↔ BeginsWith bytes.now (number_text j ++ 46 ∷ []) }
{
    match dot_at(bytes) {
        Some(dot) => number_between(&bytes[..dot]),
        None => None,
    }
}

fn is_pre(bytes: &[u8]) -> bool
    ensures { (result ≡ true) ↔ (bytes.now ≡ codes "pre") }
{
    bytes == b"pre".as_slice()
}

/// The number of the prefix that the bytes begin with, if it is below 2^32.
fn number_of(bytes: &[u8]) -> Option<u32>
    ensures { (j : ℕ) → j < 2 ^ 32 → (result ≡ Some j) ↔ BeginsWith bytes.now (prefix j) }
{
    if bytes.len() < 3 {
        return None;
    }
    let (front, rest) = bytes.split_at(3);
    if is_pre(front) {
        number_behind(rest)
    } else {
        None
    }
}

/// The number of the prefix that a name begins with as it is spelled, if it is below 2^32.
pub fn prefix_of(name: &Name<'_>) -> Option<u32>
    ensures { (j : ℕ) → j < 2 ^ 32 → (result ≡ Some j) ↔ HasPrefix j name.now }
{
    match name {
        Name::Text(spelling) => number_of(spelling.bytes()),
        Name::Number(_) => None,
        Name::Made(prefix, _) => Some(*prefix),
    }
}
