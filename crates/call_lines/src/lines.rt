//! The line of an ending, put in pieces.
ghost use Rattle.std.specs.Prelude.{◌≡◌, ◌++◌, codes, Ok, Err};
ghost use Rattle.std.specs.Fmt.{decimal};
ghost use Rattle.mc_host.specs.Streams.{Puts};
ghost use Rattle.call_lines.specs.Ending.{status_of, line_of, refusal_text, returned_text, trap_text};
ghost use Rattle.call_lines.specs.Lines.{Gains};
ghost use Rattle.call_lines.specs.Reasons.{path_text};
ghost use Rattle.call_lines.specs.Refused.{spaced, cause_text, place_text, refused_text};

use crate::ending::{Done, Problem, Stop, status_of};
use crate::path::put_path;
use crate::profile_lines::put_refused_profile;
use crate::reasons::put_no;
use crate::refused::{advice_text, hex_text, place_of, rule_text, space_before};
use certificate::CertPath;
use ir_printer::constant_to;
use ir_reader::Refusal;
use ir_types::span::Span;
use itoa::Buffer;
use mc_host::{Failed, Sink, put_all};
use mc_num::{Trap, Width};

/// Puts a code with its name, and the excerpt.
fn put_named<S: Sink>(sink: &mut S, name: &[u8], excerpt: &[u8]) -> Result<(), Failed>
    ensures { Puts (name.now ++ spaced excerpt.now) result (S.state sink.old) (S.state sink.new) }
{
    put_all(sink, &[name, space_before(excerpt), excerpt])
}

/// Puts what is wrong with a text.
fn put_cause<S: Sink>(sink: &mut S, refusal: Refusal, excerpt: &[u8]) -> Result<(), Failed>
    ensures { Puts (cause_text refusal excerpt.now) result (S.state sink.old) (S.state sink.new) }
{
    match refusal {
        Refusal::BadByte(_, byte) => {
            let digits = hex_text(byte);
            sink.put(b"E2 BadByte 0x")?;
            sink.put(&digits)
        }
        Refusal::Syntax(_) => put_named(sink, b"E3 Syntax", excerpt),
        Refusal::OutOfProfile(_) => put_named(sink, b"E4 OutOfProfile", excerpt),
        Refusal::Broken(problem) => put_all(
            sink,
            &[
                rule_text(problem.rule),
                space_before(excerpt),
                excerpt,
                advice_text(problem.rule),
            ],
        ),
    }
}

/// Puts the line of a place.
fn put_place<S: Sink>(sink: &mut S, span: Span) -> Result<(), Failed>
    ensures { Puts (place_text span) result (S.state sink.old) (S.state sink.new) }
{
    let mut digits = Buffer::new();
    put_all(sink, &[b":", digits.format(span.line).as_bytes(), b": "])
}

/// Puts what the line of a refused text says behind the file's name.
fn put_refused<S: Sink>(sink: &mut S, refusal: Refusal, excerpt: &[u8]) -> Result<(), Failed>
    ensures { Puts (refused_text refusal excerpt.now) result (S.state sink.old) (S.state sink.new) }
{
    put_place(sink, place_of(refusal))?;
    put_cause(sink, refusal, excerpt)?;
    sink.put(b"\n")
}

/// Puts what the line of a refused certificate says behind the file's name.
fn put_bad_certificate<S: Sink>(sink: &mut S, path: CertPath) -> Result<(), Failed>
    ensures { Puts (codes ": C1 Form " ++ (path_text path ++ codes "\n")) result (S.state sink.old) (S.state sink.new) }
{
    sink.put(b": C1 Form ")?;
    put_path(sink, path)?;
    sink.put(b"\n")
}

/// Puts what the line of a refusal says behind the file's name.
fn put_problem<S: Sink>(sink: &mut S, problem: Problem<'_>) -> Result<(), Failed>
    ensures { Puts (refusal_text problem.entry) result (S.state sink.old) (S.state sink.new) }
{
    match problem {
        Problem::TooLong => sink.put(b": E1 TooLong\n"),
        Problem::Text { refusal, excerpt } => put_refused(sink, refusal, excerpt),
        Problem::Grown => sink.put(b": E17 Grown\n"),
        Problem::NoMain => sink.put(b": E18 NoMain\n"),
        Problem::LongProfile => sink.put(b": P1 TooLong\n"),
        Problem::BadProfile(problem) => put_refused_profile(sink, problem),
        Problem::LongOutput => sink.put(b": E1 TooLong\n"),
        Problem::BadCertificate(path) => put_bad_certificate(sink, path),
    }
}

/// Puts the line of a refused file.
fn put_file_refused<S: Sink>(sink: &mut S, file: &str, problem: Problem<'_>) -> Result<(), Failed>
    ensures { Puts (codes "mcpre: " ++ (file.now ++ refusal_text problem.entry)) result (S.state sink.old) (S.state sink.new) }
{
    sink.put(b"mcpre: ")?;
    sink.put(file.as_bytes())?;
    put_problem(sink, problem)
}

/// Puts the line of a run that trapped.
fn put_trap<S: Sink>(sink: &mut S, trap: Trap) -> Result<(), Failed>
    ensures { Puts (codes "mcpre: trap " ++ (trap_text trap ++ codes "\n")) result (S.state sink.old) (S.state sink.new) }
{
    match trap {
        Trap::DivZero => put_all(sink, &[b"mcpre: trap ", b"DivZero", b"\n"]),
        Trap::DivOverflow => put_all(sink, &[b"mcpre: trap ", b"DivOverflow", b"\n"]),
        Trap::Unreachable => put_all(sink, &[b"mcpre: trap ", b"Unreachable", b"\n"]),
    }
}

/// Puts the line of a run that made as many steps as it may.
fn put_step_limit<S: Sink>(sink: &mut S, limit: u64) -> Result<(), Failed>
    ensures { Puts (codes "mcpre: step limit " ++ (decimal limit ++ codes "\n")) result (S.state sink.old) (S.state sink.new) }
{
    let mut digits = Buffer::new();
    put_all(
        sink,
        &[
            b"mcpre: step limit ",
            digits.format(limit).as_bytes(),
            b"\n",
        ],
    )
}

/// Puts a space and the value that `main` returned, or nothing where it gave none.
fn put_returned<S: Sink>(sink: &mut S, value: Option<(Width, u64)>) -> Result<(), Failed>
    ensures { Puts (returned_text value) result (S.state sink.old) (S.state sink.new) }
{
    match value {
        Some((width, value)) => {
            sink.put(b" ")?;
            constant_to(width, value, sink)
        }
        None => Ok(()),
    }
}

/// Puts the line of a call that stopped.
fn put_stop<S: Sink>(sink: &mut S, stop: Stop<'_>) -> Result<(), Failed>
    ensures { Puts (line_of (Err stop.entry)) result (S.state sink.old) (S.state sink.new) }
{
    match stop {
        Stop::Usage => put_all(sink, &[b"mcpre: usage\n"]),
        Stop::Refused { file, problem } => put_file_refused(sink, file, problem),
        Stop::ReadFault { name } => {
            put_all(sink, &[b"mcpre: read fault: ", name.as_bytes(), b"\n"])
        }
        Stop::WriteFault { name } => {
            put_all(sink, &[b"mcpre: write fault: ", name.as_bytes(), b"\n"])
        }
        Stop::No(reason) => put_no(sink, reason),
        Stop::OutOfMemory => put_all(sink, &[b"mcpre: out of memory\n"]),
        Stop::Trapped(trap) => put_trap(sink, trap),
        Stop::StepLimit(limit) => put_step_limit(sink, limit),
    }
}

/// Puts the line of a call that is done.
fn put_done<S: Sink>(sink: &mut S, done: Done) -> Result<(), Failed>
    ensures { Puts (line_of (Ok done)) result (S.state sink.old) (S.state sink.new) }
{
    match done {
        Done::Written | Done::Checked => Ok(()),
        Done::Returned(value) => {
            sink.put(b"mcpre: main returned")?;
            put_returned(sink, value)?;
            sink.put(b"\n")
        }
    }
}

/// Puts the line of an ending.
fn put_line<S: Sink>(sink: &mut S, ending: Result<Done, Stop<'_>>) -> Result<(), Failed>
    ensures { Puts (line_of ending.entry) result (S.state sink.old) (S.state sink.new) }
{
    match ending {
        Ok(done) => put_done(sink, done),
        Err(stop) => put_stop(sink, stop),
    }
}

/// Puts the line of an ending, and gives its status. A sink that fails changes no status.
pub fn finish<S: Sink>(sink: &mut S, ending: Result<Done, Stop<'_>>) -> u8
    ensures status { result ≡ status_of ending.entry }
    ensures line { Gains (line_of ending.entry) (S.state sink.old) (S.state sink.new) }
{
    let _ = put_line(sink, ending);
    status_of(&ending)
}
