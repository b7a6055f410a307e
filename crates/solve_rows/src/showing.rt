//! A line for each expression of a case.
ghost use Rattle.std.specs.Prelude.{◌<◌, ◌^◌, All, length};
ghost use Rattle.ir_types.specs.Limits.{IsWithinLimits};
ghost use Rattle.ir_types.specs.WellFormed.{IsFunctionIn};
ghost use Rattle.profile.specs.Counts.{AreCounts, IsAccepted, total};
ghost use Rattle.solve_rows.specs.Asking.{IsAsked};

use crate::cases::Case;
use crate::comparing::{Tally, compare};
use crate::judging::Judged;
use crate::problem::Problem;
use crate::question::Question;
use crate::solving::solved;
use expressions::table;
use ir_reader::read;
use ir_types::module::Module;
use ir_types::syntax::Function;
use point_graph::points;
use profile::{FnCounts, read_profile};
use std::io;

/// The most bytes of a text that is read.
const MOST_BYTES: usize = 1 << 26;

/// Shows the title of a case, and a line for each expression that can't trap.
pub fn show_case(rt: &HostRuntime, case: &Case<'_>) -> Result<(), Problem> {
    println!(rt; "{}", case.title)?;
    let source = case.source.as_bytes();
    let profile = case.profile.as_bytes();
    if source.len() > MOST_BYTES || profile.len() > MOST_BYTES {
        return Err(Problem::TooLong);
    }
    let module = read(rt.alloc(), source).map_err(Problem::Module)?;
    let profile = read_profile(rt.alloc(), profile, &module).map_err(Problem::Profile)?;
    show_functions(rt, &module, profile.functions.as_slice(), case.wanted)
}

fn show_functions<'x, 'a>(
    rt: &HostRuntime,
    module: &'x Module<'a>,
    counts: &'x [FnCounts],
    wanted: &str,
) -> Result<(), Problem>
    requires limits { All IsWithinLimits «module».now.functions }
    requires accepted { IsAccepted «module».now counts.now }
{
    let mut rest = counts;
    for function in module.functions() {
        if function.blocks.len() != 0 {
            let Some((own, later)) = rest.split_first() else {
                return Ok(());
            };
            show_function(rt, module, function, own, wanted)?;
            rest = later;
        }
    }
    Ok(())
}

fn show_function<'x, 'a>(
    rt: &HostRuntime,
    module: &'x Module<'a>,
    function: &'x Function<'a>,
    counts: &'x FnCounts,
    wanted: &str,
) -> Result<(), Problem>
    requires defined { 0 < length function.now.blocks }
    requires rules { IsFunctionIn «module».now function.now }
    requires limits { IsWithinLimits function.now }
    requires counts { AreCounts function.now counts.now }
    requires total { total counts.now < 2 ^ 62 }
{
    let points = points(rt.alloc(), function)?;
    let table = table(rt.alloc(), module, function, &points)?;
    for e in 0..table.len() {
        if !table.traps(e) {
            let question = Question {
                function,
                points: &points,
                table: &table,
                counts,
                e,
            };
            show_expression(rt, &question, wanted)?;
        }
    }
    Ok(())
}

fn show_expression(
    rt: &HostRuntime,
    question: &Question<'_, '_>,
    wanted: &str,
) -> Result<(), Problem>
    requires { IsAsked question.now }
{
    let alloc = rt.alloc();
    let solved = solved(alloc, question)?;
    let judged = Judged::of(alloc, question, &solved)?.ok_or(Problem::NotAPlacement)?;
    let tally = compare(alloc, question, &solved, &judged)?;
    let e = question.e;
    let inserted = solved.inserted.as_slice();
    let kept = solved.kept.as_slice();
    let row = format!(in alloc; "expression {e}: inserted {inserted:?}, kept {kept:?}").or(Err(
        Problem::NoMemory,
    ))?;
    let mark = if row.as_str() == wanted {
        ", as wanted"
    } else {
        ""
    };
    println!(rt; "{row}{mark}, cost {}", judged.cost)?;
    Ok(show_tally(rt, tally)?)
}

fn show_tally(rt: &HostRuntime, tally: Option<Tally>) -> io::Result<()> {
    let Some(tally) = tally else {
        return println!(rt; "  too many placements to look at");
    };
    let Tally {
        all,
        correct,
        cheaper,
        as_cheap,
        shorter,
        ..
    } = tally;
    let verdict = if tally.is_best() { "best" } else { "not best" };
    println!(rt;
        "  {verdict}: of {all} placements {correct} are correct, {cheaper} cheaper, {as_cheap} as cheap, and {shorter} of those live less"
    )
}
