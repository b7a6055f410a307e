//! The command `self`: makes a module and its profile, optimises it in memory, and puts what that saves.
ghost use Rattle.std.specs.Prelude.{◌≡◌, ◌≤◌, All, IfErr, IfOk};
ghost use Rattle.ir_types.specs.Limits.{IsWithinLimits};
ghost use Rattle.profile.specs.Counts.{IsAccepted};
ghost use Rattle.workload.specs.Workload.{workload_program, workload_counts};
ghost use Rattle.ir_printer.specs.Text.{text_of};
ghost use Rattle.profile.specs.Text.{prof_text};
ghost use Rattle.call_lines.specs.Lines.{Answers};
ghost use Rattle.top_call.specs.Report.{AreFitChoices, IsSummarised, ItselfEnds};
ghost use Rattle.top_call.specs.Stops.{StopsOptimising, StopsSummarising};
ghost use Rattle.std.specs.Prelude.{codes};

use crate::accepted::keeps_rules;
use crate::opt::optimised;
use crate::print::printed;
use crate::putting::put_text;
use call_lines::{Done, Problem, Stop, finish};
use generate::{make, workloads_are_accepted};
use ir_check::within_limits;
use ir_reader::{one_answer, read};
use ir_types::items::Items;
use ir_types::module::Module;
use mc_host::Sink;
use mc_num::NoMemory;
use one_optimised::choices_fit;
use optimise::{named_placements, optimised_are_choices};
use placement::Placement;
use profile::{Profile, read_profile};
use report::summary;
use std::alloc::Global;

/// The module of so many diamonds, read from its text.
fn module_of(alloc: Global, n: u32, text: &[u8]) -> Result<Module<'_>, NoMemory>
    requires least { 1 ≤ n }
    requires most { n ≤ 10000 }
    requires text { text.now ≡ text_of (workload_program n) }
    ensures program { IfOk result (λ program. program ≡ workload_program n) }
    ensures limits { IfOk result (λ program. All IsWithinLimits program.functions) }
{
    workloads_are_accepted();
    one_answer();
    // Only memory can be wanting, since the text reads.
    match read(alloc, text) {
        Ok(program) => Ok(program),
        Err(_) => Err(NoMemory),
    }
}

/// The counts of so many diamonds, read from the text of their profile.
fn counts_of(alloc: Global, n: u32, program: &Module<'_>, text: &[u8]) -> Result<Profile, NoMemory>
    requires least { 1 ≤ n }
    requires most { n ≤ 10000 }
    requires program { program.now ≡ workload_program n }
    requires text { text.now ≡ prof_text (workload_program n) (workload_counts n) }
    ensures counts { IfOk result (λ profile. profile.functions ≡ workload_counts n) }
    ensures accepted { IfOk result (λ profile. IsAccepted program.now profile.functions) }
{
    keeps_rules(program);
    workloads_are_accepted();
    profile::one_answer();
    // Only memory can be wanting, since the text is the profile of these counts.
    match read_profile(alloc, text, program) {
        Ok(counts) => Ok(counts),
        Err(_) => Err(NoMemory),
    }
}

/// The placements that the counts choose, where the optimised module isn't too large.
fn fit_choices<'a>(
    alloc: Global,
    program: &Module<'_>,
    counts: &Profile,
) -> Result<Vec<Items<Placement>>, Stop<'a>>
    requires limits { All IsWithinLimits program.now.functions }
    requires counts { IsAccepted program.now counts.now.functions }
    ensures chosen { IfOk result (λ placements. AreFitChoices program.now counts.now.functions placements.items) }
    ensures stops { IfErr result (StopsOptimising (codes "self") program.now counts.now.functions) }
{
    let optimised = optimised(alloc, "self", program, counts)?;
    if !within_limits(&optimised.module) {
        return Err(Stop::Refused {
            file: "self",
            problem: Problem::Grown,
        });
    }
    let _text = printed(alloc, "self", &optimised.module)?;
    optimised_are_choices();
    match named_placements(alloc, &optimised.certificate) {
        Ok(placements) => Ok(placements),
        Err(NoMemory) => Err(Stop::OutOfMemory),
    }
}

/// The summary of so many diamonds.
fn summary_text<'a>(alloc: Global, n: u32) -> Result<Vec<u8>, Stop<'a>>
    requires least { 1 ≤ n }
    requires most { n ≤ 10000 }
    ensures text { IfOk result (λ text. IsSummarised n text.items) }
    ensures stops { IfErr result (StopsSummarising n) }
{
    let Ok(made) = make(alloc, n) else {
        return Err(Stop::OutOfMemory);
    };
    let Ok(program) = module_of(alloc, n, &made.module) else {
        return Err(Stop::OutOfMemory);
    };
    let Ok(counts) = counts_of(alloc, n, &program, &made.profile) else {
        return Err(Stop::OutOfMemory);
    };
    let placements = fit_choices(alloc, &program, &counts)?;
    choices_fit();
    match summary(alloc, n, &program, &counts, &placements) {
        Ok(text) => Ok(text),
        Err(NoMemory) => Err(Stop::OutOfMemory),
    }
}

/// Puts the summary of so many diamonds, puts the line of its ending on `err`, and gives its status. What stops it is
/// told by each ending of `ItselfEnds`.
pub(crate) fn sum_up<O: Sink, E: Sink>(alloc: Global, out: &mut O, err: &mut E, n: u32) -> u8
    requires least { 1 ≤ n }
    requires most { n ≤ 10000 }
    ensures { Answers (E.state err.old) (E.state err.new) result (ItselfEnds n (O.state out.old) (O.state out.new)) }
{
    match summary_text(alloc, n) {
        Ok(text) => {
            let ending = put_text(out, &text);
            finish(err, ending)
        }
        Err(stop) => finish(err, Err(stop)),
    }
}
