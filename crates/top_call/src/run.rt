//! The command `run`: runs `main` of a file over the standard input and output, and writes its profile.
ghost use Rattle.std.specs.Prelude.{◌≡◌, ◌≤◌, ◌<◌, ◌^◌, length, IsTrue, IfOk, IfErr, IfSome, OnOk, OnErr, Ok, Some};
ghost use Rattle.std.specs.Option.{option_map};
ghost use Rattle.mc_host.specs.Host.{HostState, OnlyReads, IsBeforeOrPart};
ghost use Rattle.profile.specs.Counts.{IsAccepted};
ghost use Rattle.profile.specs.Text.{prof_text};
ghost use Rattle.interp.specs.Run.{Ran};
ghost use Rattle.interp.specs.declared.ends.RunEnd.TheVariants as runs;
ghost use Rattle.call_lines.specs.Lines.{Answers};
ghost use Rattle.top_call.specs.Print.{text_limit};
ghost use Rattle.top_call.specs.World.{world};
ghost use Rattle.top_call.specs.Run.{main_width, typed_value, RunEnds, OnlyProfiles};
ghost use Rattle.top_call.specs.Stops.{StopsRunning, StopsProfiling};

use crate::command::Asked;
use crate::print::{parsed, read_short, write_text};
use call_lines::{Done, Problem, Stop, finish};
use interp::{RunEnd, main_of};
use ir_types::module::Module;
use mc_host::{Host, Sink, Source};
use mc_num::{NoMemory, Width};
use profile::{Profile, print_profile};
use std::alloc::Global;

/// The width of what `main` returns, if it returns a value.
fn main_width(program: &Module<'_>) -> Option<Width>
    ensures { result ≡ main_width program.now }
{
    let main = main_of(program)?;
    program.functions().get(main as usize)?.ret
}

/// A value that `main` returned, with its width.
fn typed(program: &Module<'_>, value: Option<u64>) -> Option<(Width, u64)>
    ensures { result ≡ typed_value program.now value }
{
    let value = value?;
    Some((main_width(program)?, value))
}

/// Runs `main` of the module of a file, and gives its value and its profile where it returns.
fn returned<'a, I: Source, O: Sink>(
    alloc: Global,
    file: &'a str,
    program: &Module<'_>,
    limit: u64,
    input: &mut I,
    out: &mut O,
) -> Result<(Option<u64>, Profile), Stop<'a>>
    requires { limit < 2 ^ 62 }
    ensures ran { IfOk result (λ r. Ran program.now limit (I.state input.old) (I.state input.new) (O.state out.old) (O.state out.new) (Ok (runs.Returned r.0 r.1))) }
    ensures stops { (host : HostState) → (host' : HostState) → IfErr result (StopsRunning file.now limit program.now (world host (I.state input.old) (O.state out.old)) (world host' (I.state input.new) (O.state out.new))) }
{
    match interp::run(alloc, program, limit, input, out) {
        Ok(RunEnd::Returned(value, profile)) => Ok((value, profile)),
        Ok(RunEnd::Trapped(trap)) => Err(Stop::Trapped(trap)),
        Ok(RunEnd::StepLimit) => Err(Stop::StepLimit(limit)),
        Ok(RunEnd::ReadFault) => Err(Stop::ReadFault {
            name: "standard input",
        }),
        Ok(RunEnd::WriteFault) => Err(Stop::WriteFault {
            name: "standard output",
        }),
        Ok(RunEnd::NoMain) => Err(Stop::Refused {
            file,
            problem: Problem::NoMain,
        }),
        Err(NoMemory) => Err(Stop::OutOfMemory),
    }
}

/// Writes the text of a profile, where one is asked for.
fn write_profile<'a, H: Host>(
    alloc: Global,
    host: &mut H,
    name: Option<&'a str>,
    program: &Module<'_>,
    profile: &Profile,
) -> Result<(), Stop<'a>>
    requires writes { IfSome name (λ name. IsTrue ((H.state host.old).may_write name.now)) }
    requires accepted { IsAccepted program.now profile.now.functions }
    ensures written { OnOk result (IfSome (option_map (λ name. name.now) name.entry) (λ name. IsTrue (H.state host.old).tells → (H.state host.new).file name ≡ Some (prof_text program.now profile.now.functions))) }
    ensures stops { IfErr result (StopsProfiling (option_map (λ name. name.now) name.entry) (prof_text program.now profile.now.functions) (H.state host.old) (H.state host.new)) }
    ensures rest { OnlyProfiles (option_map (λ name. name.now) name.entry) (H.state host.old) (H.state host.new) }
{
    let Some(name) = name else {
        return Ok(());
    };
    match print_profile(alloc, program, profile) {
        Ok(text) => write_text(alloc, host, name, &text),
        Err(NoMemory) => Err(Stop::OutOfMemory),
    }
}

/// Runs `main` of what `source` reads as, and writes its profile; `source` are the bytes of the file that is asked for.
fn run_source<'a, H: Host, I: Source, O: Sink>(
    alloc: Global,
    host: &mut H,
    input: &mut I,
    out: &mut O,
    asked: Asked<'a>,
    source: &'a [u8],
) -> Result<Done, Stop<'a>>
    requires short { length source.now ≤ text_limit }
    requires limited { asked.limit < 2 ^ 62 }
    requires profile { IfSome asked.profile (λ name. IsTrue ((H.state host.old).may_write name.now)) }
    // However the host stood before the file was read.
    ensures ends { (before : HostState) → OnlyReads before (H.state host.old) → (IsTrue before.tells → before.file asked.entry.input.now ≡ Some source.now) →
        RunEnds asked.entry.limit asked.entry.input.now (option_map (λ name. name.now) asked.entry.profile)
        (world before (I.state input.old) (O.state out.old)) (world (H.state host.new) (I.state input.new) (O.state out.new)) result }
    ensures rest { OnlyProfiles (option_map (λ name. name.now) asked.entry.profile) (H.state host.old) (H.state host.new) }
{
    let program = parsed(alloc, asked.input, source)?;
    let (value, profile) = returned(alloc, asked.input, &program, asked.limit, input, out)?;
    write_profile(alloc, host, asked.profile, &program, &profile)?;
    Ok(Done::Returned(typed(&program, value)))
}

/// Runs `main` of the file that is asked for, puts the line of its ending on `err`, and gives its status. What stops
/// it, and what it then leaves, is told by each ending of `RunEnds`.
pub(crate) fn run_file<H: Host, I: Source, O: Sink, E: Sink>(
    alloc: Global,
    host: &mut H,
    input: &mut I,
    out: &mut O,
    err: &mut E,
    asked: Asked<'_>,
) -> u8
    requires limited { asked.limit < 2 ^ 62 }
    requires file { IsTrue ((H.state host.old).may_read asked.input.now) }
    requires profile { IfSome asked.profile (λ name. IsTrue ((H.state host.old).may_write name.now)) }
    ensures ends { Answers (E.state err.old) (E.state err.new) result
        (RunEnds asked.entry.limit asked.entry.input.now (option_map (λ name. name.now) asked.entry.profile)
        (world (H.state host.old) (I.state input.old) (O.state out.old)) (world (H.state host.new) (I.state input.new) (O.state out.new))) }
    ensures rest { OnlyProfiles (option_map (λ name. name.now) asked.entry.profile) (H.state host.old) (H.state host.new) }
{
    match read_short(alloc, host, asked.input, Problem::TooLong) {
        Ok(source) => {
            let ending = run_source(alloc, host, input, out, asked, &source);
            finish(err, ending)
        }
        Err(stop) => finish(err, Err(stop)),
    }
}
