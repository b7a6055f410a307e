//! A module and its profile, accepted.
ghost use Rattle.std.specs.Prelude.{◌≡◌, ◌≤◌, length, All, IsTrue, IfOk, IfErr, Some};
ghost use Rattle.mc_host.specs.Host.{HostState, OnlyReads};
ghost use Rattle.ir_types.specs.Limits.{IsWithinLimits};
ghost use Rattle.ir_types.specs.WellFormed.{IsWellFormed};
ghost use Rattle.profile.specs.Counts.{IsAccepted};
ghost use Rattle.profile.specs.Reading as reading;
ghost use Rattle.top_call.specs.Accepted.{AreUnaccepted, HasCounts};
ghost use Rattle.top_call.specs.Print.{ReadsAs, text_limit};
ghost use Rattle.top_call.specs.Stops.{StopsCounting};

use crate::print::{parsed, read_short};
use call_lines::{Problem, Stop, problem_of};
use ir_types::module::Module;
use mc_host::Host;
use profile::{Profile, read_profile};
use std::alloc::Global;

/// A module keeps its rules. It does nothing.
pub(crate) fn keeps_rules(program: &Module<'_>)
    ensures { IsWellFormed program.now }
{
    let _functions = program.functions();
}

/// The counts that the bytes of a profile say.
fn counted<'a>(
    alloc: Global,
    file: &'a str,
    bytes: &[u8],
    program: &Module<'_>,
) -> Result<Profile, Stop<'a>>
    requires { length bytes.now ≤ text_limit }
    ensures read { IfOk result (λ profile. reading.Reads program.now bytes.now profile.functions) }
    ensures stops { IfErr result (StopsCounting file.now bytes.now program.now) }
{
    match read_profile(alloc, bytes, program) {
        Ok(profile) => Ok(profile),
        Err(error) => match problem_of(error) {
            Some(problem) => Err(Stop::Refused {
                file,
                problem: Problem::BadProfile(problem),
            }),
            None => Err(Stop::OutOfMemory),
        },
    }
}

/// A module with the counts of its profile.
#[derive(Drop)]
pub(crate) struct Accepted<'a> {
    pub(crate) program: Module<'a>,
    pub(crate) counts: Profile,
}

/// What `source` reads as, with the counts of the file `profile`; `source` are the bytes of the file `input`.
pub(crate) fn accept<'a, H: Host>(
    alloc: Global,
    host: &mut H,
    input: &'a str,
    profile: &'a str,
    source: &'a [u8],
) -> Result<Accepted<'a>, Stop<'a>>
    requires short { length source.now ≤ text_limit }
    requires profile { IsTrue ((H.state host.old).may_read profile.now) }
    // However the host stood before the module's file was read.
    ensures reads { IfOk result (λ accepted. (before : HostState) → OnlyReads before (H.state host.old) → (IsTrue before.tells → before.file input.now ≡ Some source.now) →
        IsTrue before.tells → ReadsAs before input.now accepted.program) }
    ensures says { IfOk result (λ accepted. (before : HostState) → OnlyReads before (H.state host.old) →
        IsTrue before.tells → HasCounts before profile.now accepted.program accepted.counts.functions) }
    ensures stops { IfErr result (λ stop. (before : HostState) → OnlyReads before (H.state host.old) → (IsTrue before.tells → before.file input.now ≡ Some source.now) →
        AreUnaccepted input.now profile.now before (H.state host.new) stop) }
    ensures rules { IfOk result (λ accepted. IsWellFormed accepted.program) }
    ensures limits { IfOk result (λ accepted. All IsWithinLimits accepted.program.functions) }
    ensures counts { IfOk result (λ accepted. IsAccepted accepted.program accepted.counts.functions) }
    ensures rest { OnlyReads (H.state host.old) (H.state host.new) }
{
    let program = parsed(alloc, input, source)?;
    keeps_rules(&program);
    let bytes = read_short(alloc, host, profile, Problem::LongProfile)?;
    let counts = counted(alloc, profile, &bytes, &program)?;
    Ok(Accepted { program, counts })
}
