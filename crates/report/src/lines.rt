//! The lines of a report.
ghost use Rattle.std.specs.Prelude.{◌≡◌, ◌++◌, OnOk, filter, length};
ghost use Rattle.profile.specs.Counts.{is_defined};
ghost use Rattle.report.specs.Report.{change_text, function_lines, functions_lines, lazy_text, places_text, tally_line, tally_lines, total_line};

use expression_text::{put_expression, put_global};
use growing_text::Text;
use ir_types::items::Items;
use ir_types::module::Module;
use ir_types::syntax::Function;
use mc_num::NoMemory;
use tallies::{Tally, Totals};

/// How often something is computed before and after.
pub(crate) fn put_change(text: &mut Text, old: u128, new: u128) -> Result<(), NoMemory>
    ensures { OnOk result (text.new.written ≡ text.old.written ++ change_text old new) }
{
    text.put_number(old)?;
    text.put(b" -> ")?;
    text.put_number(new)
}

/// How many edges, kept and deleted occurrences there are.
fn put_places(text: &mut Text, tally: &Tally) -> Result<(), NoMemory>
    ensures { OnOk result (text.new.written ≡ text.old.written ++ places_text tally.now) }
{
    text.put(b", inserted ")?;
    text.put_number(tally.inserted as u128)?;
    text.put(b", kept ")?;
    text.put_number(tally.kept as u128)?;
    text.put(b", deleted ")?;
    text.put_number(tally.deleted as u128)
}

fn put_lazy(text: &mut Text, lazy: bool) -> Result<(), NoMemory>
    ensures { OnOk result (text.new.written ≡ text.old.written ++ lazy_text lazy) }
{
    if lazy { text.put(b", lazy") } else { Ok(()) }
}

/// The line of the expression of this number.
fn put_tally(
    text: &mut Text,
    program: &Module<'_>,
    function: &Function<'_>,
    number: usize,
    tally: &Tally,
) -> Result<(), NoMemory>
    ensures { OnOk result (text.new.written ≡ text.old.written ++ tally_line program.now function.now number tally.now) }
{
    text.put_number(number as u128)?;
    text.put(b" ")?;
    put_expression(text, program, function, &tally.expr)?;
    text.put(b": ")?;
    put_change(text, tally.old, tally.new)?;
    put_places(text, tally)?;
    put_lazy(text, tally.lazy)?;
    text.put(b"\n")
}

fn put_tallies(
    text: &mut Text,
    program: &Module<'_>,
    function: &Function<'_>,
    tallies: &[Tally],
) -> Result<(), NoMemory>
    ensures { OnOk result (text.new.written ≡ text.old.written ++ tally_lines program.now function.now 0 tallies.now) }
{
    for (number, tally) in tallies.iter().enumerate() {
        put_tally(text, program, function, number, tally)?;
    }
    Ok(())
}

/// The line of a function, and those of its expressions.
fn put_function(
    text: &mut Text,
    program: &Module<'_>,
    function: &Function<'_>,
    tallies: &[Tally],
) -> Result<(), NoMemory>
    ensures { OnOk result (text.new.written ≡ text.old.written ++ function_lines program.now function.now tallies.now) }
{
    text.put(b"function ")?;
    put_global(text, &function.name)?;
    text.put(b"\n")?;
    put_tallies(text, program, function, tallies)
}

/// The lines of the functions that have blocks.
pub(crate) fn put_functions(
    text: &mut Text,
    program: &Module<'_>,
    functions: &[Function<'_>],
    tallies: &[Items<Tally>],
) -> Result<(), NoMemory>
    requires { length tallies.now ≡ length (filter is_defined functions.now) }
    ensures { OnOk result (text.new.written ≡ text.old.written ++ functions_lines program.now (filter is_defined functions.now) tallies.now) }
{
    let mut place = 0;
    for function in functions {
        if !function.blocks.as_slice().is_empty() {
            put_function(text, program, function, tallies[place].as_slice())?;
            place += 1;
        }
    }
    Ok(())
}

/// The last line of a report.
pub(crate) fn put_total(text: &mut Text, totals: Totals) -> Result<(), NoMemory>
    ensures { OnOk result (text.new.written ≡ text.old.written ++ total_line totals) }
{
    text.put(b"total ")?;
    put_change(text, totals.old, totals.new)?;
    text.put(b"\n")
}
