//! The command `report`: reads a module and its profile, and puts what each expression costs before and after.
ghost use Rattle.std.specs.Prelude.{◌≡◌, ◌≤◌, length, All, IsTrue, IfErr, IfOk, Some};
ghost use Rattle.mc_host.specs.Host.{HostState, OnlyReads};
ghost use Rattle.ir_types.specs.Limits.{IsWithinLimits};
ghost use Rattle.profile.specs.Counts.{IsAccepted};
ghost use Rattle.call_lines.specs.Lines.{Answers};
ghost use Rattle.top_call.specs.Print.{text_limit};
ghost use Rattle.top_call.specs.Report.{ReportEnds};
ghost use Rattle.top_call.specs.Stops.{IsReportOver};

use crate::accepted::accept;
use crate::command::ReportNames;
use crate::print::read_short;
use crate::putting::put_text;
use call_lines::{Done, Problem, Stop, finish};
use ir_types::module::Module;
use mc_host::{Host, Sink};
use mc_num::NoMemory;
use one_optimised::choices_fit;
use optimise::choose;
use profile::Profile;
use report::report;
use std::alloc::Global;

/// The report over what the counts choose.
fn report_of(alloc: Global, program: &Module<'_>, counts: &Profile) -> Result<Vec<u8>, NoMemory>
    requires limits { All IsWithinLimits program.now.functions }
    requires counts { IsAccepted program.now counts.now.functions }
    ensures { IfOk result (λ text. IsReportOver program.now counts.now.functions text.items) }
{
    choices_fit();
    let placements = choose(alloc, program, counts)?;
    report(alloc, program, counts, &placements)
}

/// Puts the report of what `source` reads as, by the profile that is named; `source` are the bytes of the module's file.
fn report_source<'a, H: Host, O: Sink>(
    alloc: Global,
    host: &mut H,
    out: &mut O,
    names: ReportNames<'a>,
    source: &'a [u8],
) -> Result<Done, Stop<'a>>
    requires short { length source.now ≤ text_limit }
    requires profile { IsTrue ((H.state host.old).may_read names.profile.now) }
    // However the host stood before the file was read.
    ensures ends { (before : HostState) → OnlyReads before (H.state host.old) → (IsTrue before.tells → before.file names.entry.input.now ≡ Some source.now) →
        ReportEnds names.entry.input.now names.entry.profile.now before (H.state host.new) (O.state out.old) (O.state out.new) result }
    ensures rest { OnlyReads (H.state host.old) (H.state host.new) }
{
    let accepted = accept(alloc, host, names.input, names.profile, source)?;
    match report_of(alloc, &accepted.program, &accepted.counts) {
        Ok(text) => put_text(out, &text),
        Err(NoMemory) => Err(Stop::OutOfMemory),
    }
}

/// Puts the report of a module by its profile, puts the line of its ending on `err`, and gives its status. What stops it
/// is told by each ending of `ReportEnds`.
pub(crate) fn report_files<H: Host, O: Sink, E: Sink>(
    alloc: Global,
    host: &mut H,
    out: &mut O,
    err: &mut E,
    names: ReportNames<'_>,
) -> u8
    requires input { IsTrue ((H.state host.old).may_read names.input.now) }
    requires profile { IsTrue ((H.state host.old).may_read names.profile.now) }
    ensures ends { Answers (E.state err.old) (E.state err.new) result
        (ReportEnds names.entry.input.now names.entry.profile.now (H.state host.old) (H.state host.new) (O.state out.old) (O.state out.new)) }
    ensures rest { OnlyReads (H.state host.old) (H.state host.new) }
{
    match read_short(alloc, host, names.input, Problem::TooLong) {
        Ok(source) => {
            let ending = report_source(alloc, host, out, names, &source);
            finish(err, ending)
        }
        Err(stop) => finish(err, Err(stop)),
    }
}
