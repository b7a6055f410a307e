//! The command `print`: reads a file, and writes its text to another.
ghost use Rattle.std.specs.Prelude.{◌≡◌, ◌≤◌, length, All, IsTrue, IfOk, OnOk, OnErr, IfErr, Some};
ghost use Rattle.mc_host.specs.Host.{HostState, OnlyReads, OnlyWrites, IsBeforeOrPart};
ghost use Rattle.call_lines.specs.Lines.{Answers};
ghost use Rattle.top_call.specs.Print.{text_limit, PrintEnds, OnlyPrints};
ghost use Rattle.top_call.specs.Stops.{StopsReading, StopsParsing, StopsPrinting, StopsWriting};
ghost use Rattle.ir_types.specs.Limits.{IsWithinLimits};
ghost use Rattle.ir_printer.specs.Text.{text_of};
ghost use Rattle.ir_reader.specs.Reading.{Reads, ReadsBack};

use call_lines::{Done, Problem, Stop, excerpt_at, finish, place_of};
use ir_reader::{ReadError, read};
use ir_types::module::Module;
use mc_host::{Host, HostError, Sink};
use std::alloc::Global;

/// How many bytes a text has at most.
const TEXT_LIMIT: usize = 1 << 26;

/// Reads a file that has at most as many bytes as a text may have; `long` is its problem if it has more.
pub(crate) fn read_short<'a, H: Host>(
    alloc: Global,
    host: &mut H,
    name: &'a str,
    long: Problem<'a>,
) -> Result<Vec<u8>, Stop<'a>>
    requires { IsTrue ((H.state host.old).may_read name.now) }
    ensures read { IfOk result (λ bytes. IsTrue (H.state host.old).tells → (H.state host.old).file name.now ≡ Some bytes.items) }
    ensures short { IfOk result (λ bytes. length bytes.items ≤ text_limit) }
    ensures stops { IfErr result (StopsReading name.now long.entry (H.state host.old) (H.state host.new)) }
    ensures rest { OnlyReads (H.state host.old) (H.state host.new) }
{
    match host.read(alloc, name, TEXT_LIMIT as u64) {
        Ok(bytes) if bytes.len() > TEXT_LIMIT => Err(Stop::Refused {
            file: name,
            problem: long,
        }),
        Ok(bytes) => Ok(bytes),
        Err(HostError::Failed) => Err(Stop::ReadFault { name }),
        Err(HostError::NoMemory) => Err(Stop::OutOfMemory),
    }
}

/// The module that the bytes of a file spell.
pub(crate) fn parsed<'a>(
    alloc: Global,
    file: &'a str,
    source: &'a [u8],
) -> Result<Module<'a>, Stop<'a>>
    requires { length source.now ≤ text_limit }
    ensures read { IfOk result (Reads source.now) }
    ensures back { IfOk result ReadsBack }
    ensures limits { IfOk result (λ m. All IsWithinLimits m.functions) }
    ensures stops { IfErr result (StopsParsing file.now source.now) }
{
    match read(alloc, source) {
        Ok(module) => Ok(module),
        Err(ReadError::Refused(refusal)) => {
            let excerpt = excerpt_at(source, place_of(refusal));
            let problem = Problem::Text { refusal, excerpt };
            Err(Stop::Refused { file, problem })
        }
        Err(ReadError::NoMemory) => Err(Stop::OutOfMemory),
    }
}

/// The text of a module.
pub(crate) fn printed<'a>(
    alloc: Global,
    file: &'a str,
    program: &Module<'_>,
) -> Result<Vec<u8>, Stop<'a>>
    ensures text { IfOk result (λ text. text.items ≡ text_of program.now) }
    ensures short { IfOk result (λ text. length text.items ≤ text_limit) }
    ensures stops { IfErr result (StopsPrinting file.now program.now) }
{
    let Ok(text) = ir_printer::print(alloc, program) else {
        return Err(Stop::OutOfMemory);
    };
    if text.len() > TEXT_LIMIT {
        return Err(Stop::Refused {
            file,
            problem: Problem::Grown,
        });
    }
    Ok(text)
}

/// Writes a file.
pub(crate) fn write_text<'a, H: Host>(
    alloc: Global,
    host: &mut H,
    name: &'a str,
    text: &[u8],
) -> Result<(), Stop<'a>>
    requires { IsTrue ((H.state host.old).may_write name.now) }
    ensures written { OnOk result (IsTrue (H.state host.old).tells → (H.state host.new).file name.now ≡ Some text.now) }
    ensures stops { IfErr result (StopsWriting name.now (H.state host.old) (H.state host.new)) }
    ensures part { OnErr result (IsTrue (H.state host.old).tells → IsBeforeOrPart name.now text.now (H.state host.old) (H.state host.new)) }
    ensures rest { OnlyWrites name.now (H.state host.old) (H.state host.new) }
{
    match host.write(alloc, name, text) {
        Ok(()) => Ok(()),
        Err(HostError::Failed) => Err(Stop::WriteFault { name }),
        Err(HostError::NoMemory) => Err(Stop::OutOfMemory),
    }
}

/// Writes the text of what `source` reads as to the file `output`; `source` are the bytes of the file `input`.
fn print_source<'a, H: Host>(
    alloc: Global,
    host: &mut H,
    input: &'a str,
    output: &'a str,
    source: &'a [u8],
) -> Result<Done, Stop<'a>>
    requires short { length source.now ≤ text_limit }
    requires output { IsTrue ((H.state host.old).may_write output.now) }
    // However the host stood before IN was read.
    ensures ends { (before : HostState) → OnlyReads before (H.state host.old) → (IsTrue before.tells → before.file input.now ≡ Some source.now) →
        PrintEnds input.now output.now before (H.state host.new) result }
    ensures rest { OnlyWrites output.now (H.state host.old) (H.state host.new) }
{
    let module = parsed(alloc, input, source)?;
    let text = printed(alloc, input, &module)?;
    write_text(alloc, host, output, &text)?;
    Ok(Done::Written)
}

/// Writes the text of the file `input` to the file `output`, puts the line of its ending, and gives its status. What
/// stops it, and what it then leaves, is told by each ending of `PrintEnds`.
pub(crate) fn print_file<H: Host, E: Sink>(
    alloc: Global,
    host: &mut H,
    err: &mut E,
    input: &str,
    output: &str,
) -> u8
    requires input { IsTrue ((H.state host.old).may_read input.now) }
    requires output { IsTrue ((H.state host.old).may_write output.now) }
    ensures ends { Answers (E.state err.old) (E.state err.new) result (PrintEnds input.now output.now (H.state host.old) (H.state host.new)) }
    ensures rest { OnlyPrints output.now (H.state host.old) (H.state host.new) }
{
    match read_short(alloc, host, input, Problem::TooLong) {
        Ok(source) => {
            let ending = print_source(alloc, host, input, output, &source);
            finish(err, ending)
        }
        Err(stop) => finish(err, Err(stop)),
    }
}
