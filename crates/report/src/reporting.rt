//! The report and the summary of placements.
ghost use Rattle.std.specs.Prelude.{All, IfOk};
ghost use Rattle.ir_types.specs.Limits.{IsWithinLimits};
ghost use Rattle.profile.specs.Counts.{IsAccepted};
ghost use Rattle.tallies.specs.Tallies.{AreFitting};
ghost use Rattle.report.specs.Report.{IsReport, IsSummary};

use crate::lines::{put_functions, put_total};
use crate::sums::{blocks_of, put_lines};
use growing_text::Text;
use ir_types::items::Items;
use ir_types::module::Module;
use mc_num::NoMemory;
use placement::Placement;
use profile::Profile;
use std::alloc::Global;
use tallies::tallies;

/// The report of placements by the counts of a profile: for each function that has blocks its name and a line for each
/// of its expressions, as `2 mul i32 %a, %b: 990 -> 1, inserted 1, kept 0, deleted 1`, with `, lazy` where it can trap;
/// and a last line with the sums, as `total 3991 -> 3002`. Each line ends with a line feed.
///
/// `NoMemory` where an allocation was refused.
pub fn report(
    alloc: Global,
    program: &Module<'_>,
    profile: &Profile,
    placements: &[Items<Placement>],
) -> Result<Vec<u8>, NoMemory>
    requires limits { All IsWithinLimits program.now.functions }
    requires counts { IsAccepted program.now profile.now.functions }
    requires placements { AreFitting program.now placements.now }
    ensures { IfOk result (λ text. IsReport program.now profile.now.functions placements.now text.items) }
{
    let tallied = tallies(alloc, program, profile, placements)?;
    let mut text = Text::new(alloc);
    put_functions(
        &mut text,
        program,
        program.functions(),
        tallied.functions.as_slice(),
    )?;
    put_total(&mut text, tallied.totals)?;
    Ok(text.into_bytes())
}

/// The summary of placements in a module that was made for the number `n`, by the counts of a profile: five lines with
/// `n`, how many blocks and expressions there are, and the sums over the lines of the report. Each line ends with a
/// line feed.
///
/// `NoMemory` where an allocation was refused.
pub fn summary(
    alloc: Global,
    n: u32,
    program: &Module<'_>,
    profile: &Profile,
    placements: &[Items<Placement>],
) -> Result<Vec<u8>, NoMemory>
    requires limits { All IsWithinLimits program.now.functions }
    requires counts { IsAccepted program.now profile.now.functions }
    requires placements { AreFitting program.now placements.now }
    ensures { IfOk result (λ text. IsSummary n program.now profile.now.functions placements.now text.items) }
{
    let tallied = tallies(alloc, program, profile, placements)?;
    let mut text = Text::new(alloc);
    put_lines(&mut text, n, blocks_of(program.functions()), tallied.totals)?;
    Ok(text.into_bytes())
}
