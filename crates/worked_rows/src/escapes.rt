//! Escapes of the tables: `\n`, `\r` and `\t`, `\\`, a byte as `\xNN`, and a backslash at the end of a line, which
//! takes the line's end away.

use crate::problem::Problem;
use std::alloc::Global;

/// Adds what an escape stands for, which begins behind its backslash, and gives the text behind it.
fn add_escape<'t>(bytes: &mut Vec<u8>, text: &'t str) -> Result<&'t str, Problem> {
    if let Some(rest) = text.strip_prefix("\n") {
        return Ok(rest);
    }
    for (mark, byte) in [("n", b'\n'), ("r", b'\r'), ("t", b'\t'), ("\\", b'\\')] {
        if let Some(rest) = text.strip_prefix(mark) {
            bytes.push(byte)?;
            return Ok(rest);
        }
    }
    add_number(bytes, text)
}

/// Adds the byte of two hexadecimal digits behind an `x`, and gives the text behind it.
fn add_number<'t>(bytes: &mut Vec<u8>, text: &'t str) -> Result<&'t str, Problem> {
    let digits = text.strip_prefix("x").ok_or(Problem::Form)?;
    let (number, rest) = digits.split_at_checked(2).ok_or(Problem::Form)?;
    let Ok(byte) = u8::from_str_radix(number, 16) else {
        return Err(Problem::Form);
    };
    bytes.push(byte)?;
    Ok(rest)
}

/// The bytes that a text with escapes stands for.
pub fn unescaped(alloc: Global, text: &str) -> Result<Vec<u8>, Problem> {
    let mut bytes = Vec::new(alloc);
    let mut left = text;
    for _ in 0..text.len() {
        let Some((front, escape)) = left.split_once("\\") else {
            break;
        };
        bytes.extend_from_slice(front.as_bytes())?;
        left = add_escape(&mut bytes, escape)?;
    }
    bytes.extend_from_slice(left.as_bytes())?;
    Ok(bytes)
}

/// The bytes of lines that stand without their last line feed.
pub fn bytes_of_lines(alloc: Global, lines: &str) -> Result<Vec<u8>, Problem> {
    let mut text = String::from_str(alloc, lines)?;
    text.push_str("\n")?;
    unescaped(alloc, &text)
}
