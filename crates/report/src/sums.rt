//! The lines of a summary.
ghost use Rattle.std.specs.Prelude.{◌≡◌, ◌++◌, OnOk};
ghost use Rattle.report.specs.Report.{blocks_of, computations_line, lines_of, number_line, places_line};

use crate::lines::put_change;
use growing_text::Text;
use ir_types::syntax::Function;
use mc_num::NoMemory;
use tallies::Totals;

/// How many blocks the functions have.
pub(crate) fn blocks_of(functions: &[Function<'_>]) -> u128
    ensures { result ≡ blocks_of functions.now }
{
    let mut blocks = 0;
    for function in functions {
        blocks += function.blocks.len() as u128;
    }
    blocks
}

/// A line of a word and a number.
fn put_number_line(text: &mut Text, word: &[u8], number: u128) -> Result<(), NoMemory>
    ensures { OnOk result (text.new.written ≡ text.old.written ++ number_line word.now number) }
{
    text.put(word)?;
    text.put(b" ")?;
    text.put_number(number)?;
    text.put(b"\n")
}

fn put_computations(text: &mut Text, totals: Totals) -> Result<(), NoMemory>
    ensures { OnOk result (text.new.written ≡ text.old.written ++ computations_line totals) }
{
    text.put(b"computations ")?;
    put_change(text, totals.old, totals.new)?;
    text.put(b"\n")
}

fn put_places_line(text: &mut Text, totals: Totals) -> Result<(), NoMemory>
    ensures { OnOk result (text.new.written ≡ text.old.written ++ places_line totals) }
{
    text.put(b"inserted ")?;
    text.put_number(totals.inserted)?;
    text.put(b" kept ")?;
    text.put_number(totals.kept)?;
    text.put(b" deleted ")?;
    text.put_number(totals.deleted)?;
    text.put(b"\n")
}

/// The lines of a module that was made for this number, with its number of blocks and its sums.
pub(crate) fn put_lines(
    text: &mut Text,
    number: u32,
    blocks: u128,
    totals: Totals,
) -> Result<(), NoMemory>
    ensures { OnOk result (text.new.written ≡ text.old.written ++ lines_of number blocks totals) }
{
    put_number_line(text, b"self", u128::from(number))?;
    put_number_line(text, b"blocks", blocks)?;
    put_number_line(text, b"expressions", totals.expressions)?;
    put_computations(text, totals)?;
    put_places_line(text, totals)
}
