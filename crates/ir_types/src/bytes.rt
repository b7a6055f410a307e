//! The classes of bytes that names and tokens are made of.

ghost use Rattle.std.specs.Prelude.{◌≡◌};
ghost use Rattle.std.specs.List.{list_all};
ghost use Rattle.ir_types.specs.Bytes.{heads, is_blank, is_digit, is_name_byte, is_quotable, is_plain_name};

/// Space, tab, carriage return or line feed.
pub fn is_blank(b: u8) -> bool
    ensures { result ≡ is_blank b }
{
    matches!(b, b' ' | b'\t' | b'\r' | b'\n')
}

/// A decimal digit.
pub fn is_digit(b: u8) -> bool
    ensures { result ≡ is_digit b }
{
    b >= b'0' && b <= b'9'
}

/// A letter, a digit or one of `-`, `$`, `.` and `_`.
pub fn is_name_byte(b: u8) -> bool
    ensures { result ≡ is_name_byte b }
{
    b.is_ascii_alphabetic() || is_digit(b) || matches!(b, b'-' | b'$' | b'.' | b'_')
}

/// A byte that may stand between quotes: from 0x20 to 0x7E, but neither `"` nor `\`.
pub fn is_quotable(b: u8) -> bool
    ensures { result ≡ is_quotable b }
{
    b >= b' ' && b <= b'~' && b != b'"' && b != b'\\'
}

fn begins_with_digit(bytes: &[u8]) -> bool
    ensures { result ≡ heads is_digit bytes.now }
{
    match bytes {
        [first, ..] => is_digit(*first),
        [] => false,
    }
}

fn are_name_bytes(bytes: &[u8]) -> bool
    ensures { result ≡ list_all is_name_byte bytes.now }
{
    bytes.iter().all(|b| is_name_byte(*b))
}

/// A run of name bytes that doesn't begin with a digit, which needs no quotes.
pub fn is_plain_name(bytes: &[u8]) -> bool
    ensures { result ≡ is_plain_name bytes.now }
{
    !bytes.is_empty() && !begins_with_digit(bytes) && are_name_bytes(bytes)
}
