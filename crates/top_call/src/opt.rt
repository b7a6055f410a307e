//! The command `opt`: reads a module and its profile, and writes the optimised module and its certificate.
ghost use Rattle.std.specs.Prelude.{◌≡◌, ◌≢◌, ◌≤◌, length, All, IsTrue, IfOk, IfErr, OnOk, Some};
ghost use Rattle.mc_host.specs.Host.{HostState, OnlyReads};
ghost use Rattle.ir_types.specs.Limits.{IsWithinLimits};
ghost use Rattle.certificate.specs.Limits.{IsWithin};
ghost use Rattle.certificate.specs.Text.{json};
ghost use Rattle.optimise.specs.Optimised.{IsOptimisedBy};
ghost use Rattle.profile.specs.Counts.{IsAccepted};
ghost use Rattle.top_call.specs.Command.{files_of};
ghost use Rattle.call_lines.specs.Lines.{Answers};
ghost use Rattle.top_call.specs.Opt.{OptEnds, OnlyOptimises};
ghost use Rattle.call_lines.specs.declared.ending.Stop.TheVariants.{OutOfMemory};
ghost use Rattle.top_call.specs.Print.{text_limit};
ghost use Rattle.top_call.specs.Stops.{AreOptimisedTexts, StopsOptimising, StopsWritingBoth};

use crate::accepted::{accept, keeps_rules};
use crate::command::OptNames;
use crate::print::{printed, read_short, write_text};
use call_lines::{Done, Problem, Stop, finish};
use certificate::{Certificate, text_holds_its_certificate, to_json};
use certified::certified_are_best;
use ir_check::within_limits;
use ir_reader::reads_back;
use ir_types::module::Module;
use mc_host::{Host, Sink};
use mc_num::NoMemory;
use optimise::{OptimiseError, Optimised, optimise};
use plain_same::plain_same;
use profile::Profile;
use std::alloc::Global;

/// The texts that `opt` writes.
#[derive(Drop)]
struct Texts {
    /// The text of the optimised module.
    module: Vec<u8>,
    /// The text of its certificate.
    certificate: Vec<u8>,
}

/// The module optimised by the counts, whether it is too large or not, and its certificate.
pub(crate) fn optimised<'a, 'p>(
    alloc: Global,
    file: &'a str,
    program: &Module<'p>,
    counts: &Profile,
) -> Result<Optimised<'p>, Stop<'a>>
    requires limits { All IsWithinLimits program.now.functions }
    requires counts { IsAccepted program.now counts.now.functions }
    ensures optimised { IfOk result (λ made. IsOptimisedBy program.now counts.now.functions made.certificate made.module) }
    ensures within { IfOk result (λ made. IsWithin made.certificate) }
    ensures stops { IfErr result (StopsOptimising file.now program.now counts.now.functions) }
{
    match optimise(alloc, program, counts) {
        Ok(optimised) => Ok(optimised),
        Err(OptimiseError::TooMany) => Err(Stop::Refused {
            file,
            problem: Problem::Grown,
        }),
        Err(OptimiseError::NoMemory) => Err(Stop::OutOfMemory),
    }
}

/// The text of a certificate.
fn certificate_text<'a>(alloc: Global, certificate: &Certificate) -> Result<Vec<u8>, Stop<'a>>
    ensures text { IfOk result (λ text. text.items ≡ json certificate.now) }
    ensures stops { IfErr result (λ stop. stop ≡ OutOfMemory) }
{
    match to_json(alloc, certificate) {
        Ok(text) => Ok(text),
        Err(NoMemory) => Err(Stop::OutOfMemory),
    }
}

/// The text of the module optimised by the counts, and that of its certificate.
fn optimised_texts<'a>(
    alloc: Global,
    file: &'a str,
    program: &Module<'_>,
    counts: &Profile,
) -> Result<Texts, Stop<'a>>
    requires limits { All IsWithinLimits program.now.functions }
    requires counts { IsAccepted program.now counts.now.functions }
    ensures texts { IfOk result (λ texts. AreOptimisedTexts program.now counts.now.functions texts.module.items texts.certificate.items) }
    ensures stops { IfErr result (StopsOptimising file.now program.now counts.now.functions) }
{
    let optimised = optimised(alloc, file, program, counts)?;
    if !within_limits(&optimised.module) {
        return Err(Stop::Refused {
            file,
            problem: Problem::Grown,
        });
    }
    keeps_rules(&optimised.module);
    reads_back();
    plain_same();
    certified_are_best();
    text_holds_its_certificate();
    let module = printed(alloc, file, &optimised.module)?;
    let certificate = certificate_text(alloc, &optimised.certificate)?;
    Ok(Texts {
        module,
        certificate,
    })
}

/// Writes the text of the optimised module, and then its certificate.
fn write_both<'a, H: Host>(
    alloc: Global,
    host: &mut H,
    names: OptNames<'a>,
    texts: &Texts,
) -> Result<(), Stop<'a>>
    requires output { IsTrue ((H.state host.old).may_write names.output.now) }
    requires certificate { IsTrue ((H.state host.old).may_write names.certificate.now) }
    requires differ { names.output.now ≢ names.certificate.now }
    ensures output { OnOk result (IsTrue (H.state host.old).tells → (H.state host.new).file names.entry.output.now ≡ Some texts.now.module.items) }
    ensures certificate { OnOk result (IsTrue (H.state host.old).tells → (H.state host.new).file names.entry.certificate.now ≡ Some texts.now.certificate.items) }
    ensures stops { IfErr result (StopsWritingBoth (files_of names.entry) texts.now.module.items texts.now.certificate.items (H.state host.old) (H.state host.new)) }
    ensures rest { OnlyOptimises (files_of names.entry) (H.state host.old) (H.state host.new) }
{
    write_text(alloc, host, names.output, &texts.module)?;
    write_text(alloc, host, names.certificate, &texts.certificate)
}

/// Optimises what `source` reads as, by the profile that is named; `source` are the bytes of the module's file.
fn opt_source<'a, H: Host>(
    alloc: Global,
    host: &mut H,
    names: OptNames<'a>,
    source: &'a [u8],
) -> Result<Done, Stop<'a>>
    requires short { length source.now ≤ text_limit }
    requires profile { IsTrue ((H.state host.old).may_read names.profile.now) }
    requires output { IsTrue ((H.state host.old).may_write names.output.now) }
    requires certificate { IsTrue ((H.state host.old).may_write names.certificate.now) }
    requires differ { names.output.now ≢ names.certificate.now }
    // However the host stood before the file was read.
    ensures ends { (before : HostState) → OnlyReads before (H.state host.old) → (IsTrue before.tells → before.file names.entry.input.now ≡ Some source.now) →
        OptEnds (files_of names.entry) before (H.state host.new) result }
    ensures rest { OnlyOptimises (files_of names.entry) (H.state host.old) (H.state host.new) }
{
    let accepted = accept(alloc, host, names.input, names.profile, source)?;
    let texts = optimised_texts(alloc, names.input, &accepted.program, &accepted.counts)?;
    write_both(alloc, host, names, &texts)?;
    Ok(Done::Written)
}

/// Optimises the module of a file by its profile, puts the line of its ending on `err`, and gives its status. What stops
/// it, and what it then leaves, is told by each ending of `OptEnds`.
pub(crate) fn opt_file<H: Host, E: Sink>(
    alloc: Global,
    host: &mut H,
    err: &mut E,
    names: OptNames<'_>,
) -> u8
    requires input { IsTrue ((H.state host.old).may_read names.input.now) }
    requires profile { IsTrue ((H.state host.old).may_read names.profile.now) }
    requires output { IsTrue ((H.state host.old).may_write names.output.now) }
    requires certificate { IsTrue ((H.state host.old).may_write names.certificate.now) }
    requires differ { names.output.now ≢ names.certificate.now }
    ensures ends { Answers (E.state err.old) (E.state err.new) result (OptEnds (files_of names.entry) (H.state host.old) (H.state host.new)) }
    ensures rest { OnlyOptimises (files_of names.entry) (H.state host.old) (H.state host.new) }
{
    match read_short(alloc, host, names.input, Problem::TooLong) {
        Ok(source) => {
            let ending = opt_source(alloc, host, names, &source);
            finish(err, ending)
        }
        Err(stop) => finish(err, Err(stop)),
    }
}
