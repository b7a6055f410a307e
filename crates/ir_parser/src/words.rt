//! What the texts of tokens name and count.

ghost use Rattle.std.specs.Prelude.{◌≡◌, ◌^◌, ◌-◌, drop, min, pos};
ghost use Rattle.std.specs.Char.{digit_value};
ghost use Rattle.std.specs.List.{list_all};
ghost use Rattle.std.specs.Str.Parse.{digits_value};
ghost use Rattle.ir_types.specs.Bytes.{is_digit};
ghost use Rattle.ir_types.specs.Names.{no_number};
ghost use Rattle.ir_parser.specs.Words.{unquoted, name_of, local_name, global_name, label_name, negated, literal_of, literal};

use ir_types::bytes::is_digit;
use ir_types::name::{Name, Spelling};
use ir_types::tree::RawValue;

/// What stands between quotes, where the bytes begin with one, else the bytes.
fn unquoted<'a>(bytes: &'a [u8]) -> &'a [u8]
    ensures { result.now ≡ unquoted bytes.now }
{
    match bytes {
        [b'"', rest @ ..] => &rest[..rest.len().saturating_sub(1)],
        _ => bytes,
    }
}

/// What a digit counts; a letter counts from 10 on, and any other byte 36.
fn digit_value(byte: u8) -> u32
    ensures { result ≡ digit_value byte }
{
    char::from(byte).to_digit(36).unwrap_or(36)
}

/// The number that digits write, or the greatest one where it doesn't fit.
fn number(digits: &[u8]) -> u128
    ensures { result ≡ min (digits_value 10 digits.now) (2 ^ 128 - 1) }
{
    let mut number: u128 = 0;
    for digit in digits {
        number = number
            .saturating_mul(10)
            .saturating_add(u128::from(digit_value(*digit)));
    }
    number
}

/// The number of a name; those too great for one have the greatest value, which names nothing.
fn number_of_name(digits: &[u8]) -> u32
    ensures { result ≡ min (digits_value 10 digits.now) no_number }
{
    u32::try_from(number(digits)).unwrap_or(u32::MAX)
}

/// Whether each byte is a digit.
pub fn are_digits(bytes: &[u8]) -> bool
    ensures { result ≡ list_all is_digit bytes.now }
{
    bytes.iter().all(|b| is_digit(*b))
}

fn name_of<'a>(bytes: &'a [u8]) -> Name<'a>
    ensures { result ≡ name_of bytes.now }
{
    if are_digits(bytes) {
        Name::Number(number_of_name(bytes))
    } else {
        Name::Text(Spelling::new(unquoted(bytes)))
    }
}

fn behind_sigil<'a>(text: &'a [u8]) -> &'a [u8]
    ensures { result.now ≡ drop 1 text.now }
{
    match text {
        [_, name @ ..] => name,
        [] => text,
    }
}

/// Whether only digits stand behind the sign.
pub fn is_numbered(text: &[u8]) -> bool
    ensures { result ≡ list_all is_digit (drop 1 text.now) }
{
    are_digits(behind_sigil(text))
}

/// The name of a local.
pub fn local_name<'a>(text: &'a [u8]) -> Name<'a>
    ensures { result ≡ local_name text.now }
{
    name_of(behind_sigil(text))
}

/// The name of a global.
pub fn global_name<'a>(text: &'a [u8]) -> Spelling<'a>
    ensures { result ≡ global_name text.now }
{
    Spelling::new(unquoted(behind_sigil(text)))
}

/// The name of a label.
pub fn label_name<'a>(text: &'a [u8]) -> Name<'a>
    ensures { result ≡ label_name text.now }
{
    name_of(&text[..text.len().saturating_sub(1)])
}

fn positive<'a>(number: u128) -> RawValue<'a>
    ensures { result ≡ literal_of (pos number) }
{
    match i128::try_from(number) {
        Ok(number) => RawValue::Number(number),
        Err(_) => RawValue::Wide,
    }
}

/// The least number of 128 bits is one further from 0 than the greatest.
fn negative<'a>(number: u128) -> RawValue<'a>
    ensures { result ≡ literal_of (negated number) }
{
    if number == 0 {
        return RawValue::Number(0);
    }
    match i128::try_from(number - 1) {
        Ok(before) => RawValue::Number(-1 - before),
        Err(_) => RawValue::Wide,
    }
}

/// The value of a literal.
pub fn literal<'a>(text: &[u8]) -> RawValue<'a>
    ensures { result ≡ literal text.now }
{
    match text {
        [b'-', digits @ ..] => negative(number(digits)),
        digits => positive(number(digits)),
    }
}
