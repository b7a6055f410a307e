//! Numbers at the front of a text.
ghost use Rattle.std.specs.Prelude.{◌≡◌, ◌≢◌, ◌≤◌, ◌-◌, ◌^◌, ◌++◌, ℕ, List, ◌==◌, None, Some, MatchOption, length, min};
ghost use Rattle.std.specs.List.{prefix_len};
ghost use Rattle.std.specs.Char.{digit_value};
ghost use Rattle.std.specs.Str.Parse.{digits_value};
ghost use Rattle.ir_types.specs.Bytes.{heads, is_digit};
ghost use Rattle.profile.specs.Forms.{is_numeral, number_of, front_digits, front_number};

use ir_types::bytes::is_digit;

/// What follows a word at the front, if it stands there.
pub(crate) fn after<'a>(bytes: &'a [u8], word: &[u8]) -> Option<&'a [u8]>
    ensures { MatchOption result ((rest : List ℕ) → bytes.now ≢ word.now ++ rest) (λ rest. bytes.now ≡ word.now ++ rest.now) }
{
    bytes.strip_prefix(word)
}

fn digits_len(bytes: &[u8]) -> usize
    ensures len { result ≡ prefix_len is_digit bytes.now }
    ensures within { result ≤ length bytes.now }
{
    bytes.iter().take_while(|b| is_digit(**b)).count()
}

fn begins_with_zero(digits: &[u8]) -> bool
    ensures { result ≡ heads (λ b. b == 48) digits.now }
{
    match digits {
        [first, ..] => *first == b'0',
        [] => false,
    }
}

fn is_numeral(digits: &[u8]) -> bool
    ensures { result ≡ is_numeral digits.now }
{
    !digits.is_empty() && (digits.len() == 1 || !begins_with_zero(digits))
}

fn digit_value(byte: u8) -> u32
    ensures { result ≡ digit_value byte }
{
    char::from(byte).to_digit(36).unwrap_or(36)
}

/// The number that digits write, or the greatest one where it doesn't fit.
fn value_of(digits: &[u8]) -> u128
    ensures { result ≡ min (digits_value 10 digits.now) (2 ^ 128 - 1) }
{
    let mut value: u128 = 0;
    for digit in digits {
        value = value
            .saturating_mul(10)
            .saturating_add(u128::from(digit_value(*digit)));
    }
    value
}

/// The number that digits write, if they have no leading zero and it is at most 2^64 - 1.
#[tactic(auto, unfolding(crate::specs::Forms::number_of))]
fn number_of(digits: &[u8]) -> Option<u64>
    ensures { result ≡ number_of digits.now }
{
    if !is_numeral(digits) {
        return None;
    }
    u64::try_from(value_of(digits)).ok()
}

/// The number at the front, and what follows its digits.
#[tactic(auto, unfolding(crate::specs::Forms::front_digits))]
fn front_digits<'a>(bytes: &'a [u8]) -> Option<(u64, &'a [u8])>
    ensures { MatchOption result (front_digits bytes.now ≡ None) (λ x. front_digits bytes.now ≡ Some (x.0, x.1.now)) }
{
    let (digits, rest) = bytes.split_at(digits_len(bytes));
    match number_of(digits) {
        Some(number) => Some((number, rest)),
        None => None,
    }
}

/// The number behind a space at the front, and what follows its digits.
pub(crate) fn front_number<'a>(bytes: &'a [u8]) -> Option<(u64, &'a [u8])>
    ensures { MatchOption result (front_number bytes.now ≡ None) (λ x. front_number bytes.now ≡ Some (x.0, x.1.now)) }
{
    match after(bytes, b" ") {
        Some(rest) => front_digits(rest),
        None => None,
    }
}
