//! The lines of a profile's text, by their forms alone.
ghost use Rattle.std.specs.Prelude.{◌≡◌, ◌≤◌, ◌^◌, ◌++◌, ℕ, List, None, IfOk, IfErr, MatchOption, codes, length};
ghost use Rattle.ir_types.specs.Program.{Program};
ghost use Rattle.profile.specs.Forms.{front_number, Run, AddsBehind, NoneBehind, AddsLine};
ghost use Rattle.profile.specs.Reading.{BeginsWithLine, HasLines, Refuses};

use crate::numbers::{after, front_number};
use crate::reading::ProfileError;
use ir_types::items::Items;
use mc_num::NoMemory;
use std::alloc::Global;

/// What a line says.
#[derive(Debug, Drop)]
pub enum Line {
    /// The number of a function, and how often it was entered.
    Function(u64, u64),
    /// The number of a block, and how often each of its slots was taken.
    Block(u64, Items<u64>),
}

/// Adds the numbers at the front to `counts`, as far as they go, and gives what follows.
fn read_run<'a>(bytes: &'a [u8], counts: &mut Items<u64>) -> Result<&'a [u8], NoMemory>
    ensures { IfOk result (λ rest. (ns : List ℕ) × (counts.new ≡ counts.old ++ ns) × Run bytes.now ns rest.now × (front_number rest.now ≡ None)) }
{
    let mut rest = bytes;
    while let Some((number, later)) = front_number(rest) {
        counts.push(number)?;
        rest = later;
    }
    Ok(rest)
}

/// Adds the function line of which the word is read, and gives what follows; `None` where none stands there.
fn read_function<'a>(bytes: &'a [u8], lines: &mut Items<Line>) -> Result<Option<&'a [u8]>, NoMemory>
    ensures { IfOk result (λ r. MatchOption r (NoneBehind (codes "func") bytes.now) (λ rest. AddsBehind (codes "func") bytes.now lines.old lines.new rest.now)) }
{
    let Some((number, rest)) = front_number(bytes) else {
        return Ok(None);
    };
    let Some((entry, rest)) = front_number(rest) else {
        return Ok(None);
    };
    let Some(rest) = after(rest, b"\n") else {
        return Ok(None);
    };
    lines.push(Line::Function(number, entry))?;
    Ok(Some(rest))
}

/// Adds the block line of which the word is read, and gives what follows; `None` where none stands there.
fn read_block<'a>(
    alloc: Global,
    bytes: &'a [u8],
    lines: &mut Items<Line>,
) -> Result<Option<&'a [u8]>, NoMemory>
    ensures { IfOk result (λ r. MatchOption r (NoneBehind (codes "block") bytes.now) (λ rest. AddsBehind (codes "block") bytes.now lines.old lines.new rest.now)) }
{
    let Some((number, rest)) = front_number(bytes) else {
        return Ok(None);
    };
    let mut counts = Items::new(alloc);
    let rest = read_run(rest, &mut counts)?;
    let Some(rest) = after(rest, b"\n") else {
        return Ok(None);
    };
    lines.push(Line::Block(number, counts))?;
    Ok(Some(rest))
}

/// Adds the line at the front, and gives what follows; `None` where no line of a form stands there.
fn read_line<'a>(
    alloc: Global,
    bytes: &'a [u8],
    lines: &mut Items<Line>,
) -> Result<Option<&'a [u8]>, NoMemory>
    ensures { IfOk result (λ r. MatchOption r (¬ (BeginsWithLine bytes.now)) (λ rest. AddsLine bytes.now lines.old lines.new rest.now)) }
{
    if let Some(rest) = after(bytes, b"func") {
        return read_function(rest, lines);
    }
    if let Some(rest) = after(bytes, b"block") {
        return read_block(alloc, rest, lines);
    }
    Ok(None)
}

/// The lines behind the first one, or the first line that is of no form.
pub(crate) fn read_lines(alloc: Global, bytes: &[u8]) -> Result<Items<Line>, ProfileError>
    requires { length bytes.now ≤ 2 ^ 26 }
    ensures ok { IfOk result (HasLines bytes.now) }
    ensures err { IfErr result (λ e. (m : Program) → Refuses m bytes.now e) }
{
    let Some(behind) = after(bytes, b"mcpre-profile 1\n") else {
        return Err(ProfileError::Form(1));
    };
    let mut rest = behind;
    let mut lines = Items::new(alloc);
    while !rest.is_empty() {
        let line = lines.len() as u32 + 2;
        match read_line(alloc, rest, &mut lines)? {
            Some(later) => rest = later,
            None => return Err(ProfileError::Form(line)),
        }
    }
    Ok(lines)
}
