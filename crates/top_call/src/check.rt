//! The command `check`: reads a module, its profile, a text and a certificate, and says whether they belong together.
ghost use Rattle.std.specs.Prelude.{◌≡◌, ◌≤◌, length, All, IsTrue, IfOk, IfErr, OnOk, Some};
ghost use Rattle.mc_host.specs.Host.{HostState, OnlyReads};
ghost use Rattle.ir_types.specs.Limits.{IsWithinLimits};
ghost use Rattle.certificate.specs.Holds.{Holds};
ghost use Rattle.certified.specs.Certified.{AreAllBest, IsYes};
ghost use Rattle.profile.specs.Counts.{IsAccepted};
ghost use Rattle.call_lines.specs.Lines.{Answers};
ghost use Rattle.top_call.specs.Check.{CheckEnds};
ghost use Rattle.top_call.specs.Command.{files_of};
ghost use Rattle.top_call.specs.Print.{text_limit};
ghost use Rattle.top_call.specs.Stops.{StopsCertifying, StopsChecking, StopsReadingWhole};

use crate::accepted::accept;
use crate::command::OptNames;
use crate::print::read_short;
use call_lines::{Done, Problem, Stop, finish};
use certificate::{CertError, Certificate, from_json};
use checker::{Verdict, check_all};
use ir_types::module::Module;
use mc_host::{Host, HostError, Sink};
use mc_num::NoMemory;
use profile::Profile;
use std::alloc::Global;

/// How many bytes a certificate has at most: as many as there can be.
const CERTIFICATE_LIMIT: u64 = (1 << 63) - 1;

/// Reads a file of any length.
fn read_whole<'a, H: Host>(alloc: Global, host: &mut H, name: &'a str) -> Result<Vec<u8>, Stop<'a>>
    requires { IsTrue ((H.state host.old).may_read name.now) }
    ensures read { IfOk result (λ bytes. IsTrue (H.state host.old).tells → (H.state host.old).file name.now ≡ Some bytes.items) }
    ensures stops { IfErr result (StopsReadingWhole name.now (H.state host.old) (H.state host.new)) }
    ensures rest { OnlyReads (H.state host.old) (H.state host.new) }
{
    match host.read(alloc, name, CERTIFICATE_LIMIT) {
        Ok(bytes) => Ok(bytes),
        Err(HostError::Failed) => Err(Stop::ReadFault { name }),
        Err(HostError::NoMemory) => Err(Stop::OutOfMemory),
    }
}

/// The certificate that the bytes of a file hold.
fn certified<'a>(alloc: Global, file: &'a str, bytes: &[u8]) -> Result<Certificate, Stop<'a>>
    ensures held { IfOk result (Holds bytes.now) }
    ensures stops { IfErr result (StopsCertifying file.now bytes.now) }
{
    match from_json(alloc, bytes) {
        Ok(certificate) => Ok(certificate),
        Err(CertError::Form(path)) => Err(Stop::Refused {
            file,
            problem: Problem::BadCertificate(path),
        }),
        Err(CertError::NoMemory) => Err(Stop::OutOfMemory),
    }
}

/// The checker's yes, or why there is none.
fn agreed<'a>(
    alloc: Global,
    program: &Module<'_>,
    counts: &Profile,
    text: &[u8],
    certificate: &Certificate,
) -> Result<(), Stop<'a>>
    requires limits { All IsWithinLimits program.now.functions }
    requires counts { IsAccepted program.now counts.now.functions }
    ensures yes { OnOk result (IsYes program.now counts.now.functions text.now certificate.now) }
    ensures best { OnOk result (AreAllBest program.now counts.now.functions certificate.now) }
    ensures stops { IfErr result (StopsChecking program.now counts.now.functions text.now certificate.now) }
{
    match check_all(alloc, program, counts, text, certificate) {
        Ok(Verdict::Yes) => Ok(()),
        Ok(Verdict::No(reason)) => Err(Stop::No(reason)),
        Err(NoMemory) => Err(Stop::OutOfMemory),
    }
}

/// Checks what belongs to the module that `source` reads as; `source` are the bytes of the module's file.
fn check_source<'a, H: Host>(
    alloc: Global,
    host: &mut H,
    names: OptNames<'a>,
    source: &'a [u8],
) -> Result<Done, Stop<'a>>
    requires short { length source.now ≤ text_limit }
    requires profile { IsTrue ((H.state host.old).may_read names.profile.now) }
    requires output { IsTrue ((H.state host.old).may_read names.output.now) }
    requires certificate { IsTrue ((H.state host.old).may_read names.certificate.now) }
    // However the host stood before the file was read.
    ensures ends { (before : HostState) → OnlyReads before (H.state host.old) → (IsTrue before.tells → before.file names.entry.input.now ≡ Some source.now) →
        CheckEnds (files_of names.entry) before (H.state host.new) result }
    ensures rest { OnlyReads (H.state host.old) (H.state host.new) }
{
    let accepted = accept(alloc, host, names.input, names.profile, source)?;
    let text = read_short(alloc, host, names.output, Problem::LongOutput)?;
    let json = read_whole(alloc, host, names.certificate)?;
    let certificate = certified(alloc, names.certificate, &json)?;
    agreed(
        alloc,
        &accepted.program,
        &accepted.counts,
        &text,
        &certificate,
    )?;
    Ok(Done::Checked)
}

/// Checks a module, its profile, a text and a certificate, puts the line of its ending on `err`, and gives its status.
/// What stops it is told by each ending of `CheckEnds`.
pub(crate) fn check_file<H: Host, E: Sink>(
    alloc: Global,
    host: &mut H,
    err: &mut E,
    names: OptNames<'_>,
) -> u8
    requires input { IsTrue ((H.state host.old).may_read names.input.now) }
    requires profile { IsTrue ((H.state host.old).may_read names.profile.now) }
    requires output { IsTrue ((H.state host.old).may_read names.output.now) }
    requires certificate { IsTrue ((H.state host.old).may_read names.certificate.now) }
    ensures ends { Answers (E.state err.old) (E.state err.new) result (CheckEnds (files_of names.entry) (H.state host.old) (H.state host.new)) }
    ensures rest { OnlyReads (H.state host.old) (H.state host.new) }
{
    match read_short(alloc, host, names.input, Problem::TooLong) {
        Ok(source) => {
            let ending = check_source(alloc, host, names, &source);
            finish(err, ending)
        }
        Err(stop) => finish(err, Err(stop)),
    }
}
