//! Texts at the limits of a function, and at the limit of a text.

use crate::commands::{Printed, add, print, run};
use crate::problem::Problem;
use crate::tally::Tally;
use std::alloc::{AllocError, Global};

/// A function with many times the same at its beginning, which is within the limits with one rest and above them with
/// another.
#[derive(Clone, Copy)]
struct Limit {
    title: &'static str,
    front: &'static str,
    piece: &'static str,
    pieces: u32,
    within: &'static str,
    above: &'static str,
}

/// Instructions (allocas and terminators are none), blocks, slots (which `ret` has none of), and variables.
const LIMITS: [Limit; 4] = [
    Limit {
        title: "The most instructions of a function, and one more",
        front: "define void @f(){alloca i8 ",
        piece: "add i8 0,0 ",
        pieces: 262_143,
        within: "add i8 0,0 ret void}",
        above: "add i8 0,0 add i8 0,0 ret void}",
    },
    Limit {
        title: "The most blocks of a function, and one more",
        front: "define void @f(){",
        piece: "unreachable ",
        pieces: 65_535,
        within: "ret void}",
        above: "unreachable ret void}",
    },
    Limit {
        title: "The most slots of a function, and one more",
        front: "define void @f(){",
        piece: "br i1 0,label%1,label%1 ",
        pieces: 65_534,
        within: "switch i8 0,label%1[i8 0,label%1 i8 1,label%1]br label%1}",
        above: "switch i8 0,label%1[i8 0,label%1 i8 1,label%1]br i1 0,label%1,label%1}",
    },
    Limit {
        title: "The most variables of a function, and one more",
        front: "define void @f(){",
        piece: "alloca i1 ",
        pieces: 1_048_575,
        within: "alloca i1 add i8 0,0 ret void}",
        above: "alloca i1 alloca i1 ret void}",
    },
];

/// A front, so many times a piece, and a rest.
fn text_of(
    alloc: Global,
    front: &str,
    piece: &str,
    pieces: u32,
    rest: &str,
) -> Result<Vec<u8>, AllocError> {
    let mut text = Vec::from_slice(alloc, front.as_bytes())?;
    for _ in 0..pieces {
        text.extend_from_slice(piece.as_bytes())?;
    }
    text.extend_from_slice(rest.as_bytes())?;
    Ok(text)
}

/// So many functions, each a line, with numbers of seven digits from 0 on in their names.
fn functions(alloc: Global, count: u32) -> Result<Vec<u8>, AllocError> {
    let mut text = Vec::new(alloc);
    for number in 0..count {
        let line = format!(in alloc; "define void @f{number:07}(){{unreachable}}\n")?;
        text.extend_from_slice(line.as_bytes())?;
    }
    Ok(text)
}

impl Limit {
    fn run(&self, rt: &HostRuntime, tally: &mut Tally) -> Result<(), Problem> {
        let alloc = rt.alloc();
        let mut own = Tally::new();
        let text = text_of(alloc, self.front, self.piece, self.pieces, self.within)?;
        own.count(print(alloc, text)?.status == 0);
        let text = text_of(alloc, self.front, self.piece, self.pieces, self.above)?;
        own.count(print(alloc, text)?.is_refused("mcpre: a.ll:1: E15 Limit @f\n"));
        tally.close(rt, self.title, own)
    }
}

/// A comment of as many bytes as a text may have, and one more.
fn longest_text(alloc: Global) -> Result<Tally, Problem> {
    let mut tally = Tally::new();
    let printed = print(alloc, text_of(alloc, "", ";", 1 << 26, "")?)?;
    tally.count(printed.status == 0 && printed.line.is_empty() && printed.size == Some(0));
    let printed = print(alloc, text_of(alloc, "", ";", 1 << 26, ";")?)?;
    tally.count(printed.is_refused("mcpre: a.ll: E1 TooLong\n"));
    Ok(tally)
}

/// Texts that print to more bytes than they have.
fn growing_text(alloc: Global) -> Result<Tally, Problem> {
    let mut tally = Tally::new();
    let printed = print(alloc, functions(alloc, 1_458_888)?)?;
    tally.count(printed.status == 0 && printed.size == Some(67_108_847));
    let printed = print(alloc, functions(alloc, 1_500_000)?)?;
    tally.count(printed.is_refused("mcpre: a.ll: E17 Grown\n"));
    Ok(tally)
}

/// How a command refuses a profile of so many spaces.
fn blank_profile(alloc: Global, words: &[&str], spaces: u32) -> Result<Printed, Problem> {
    let mut files = Vec::new(alloc);
    let program = Vec::from_slice(alloc, b"define void @main() { ret void }")?;
    add(alloc, &mut files, "a.ll", program)?;
    let profile = text_of(alloc, "", " ", spaces, "")?;
    add(alloc, &mut files, "a.prof", profile)?;
    run(alloc, words, files)
}

/// A profile has at most as many bytes as a text.
fn longest_profile(alloc: Global, words: &[&str]) -> Result<Tally, Problem> {
    let mut tally = Tally::new();
    let printed = blank_profile(alloc, words, 1 << 26)?;
    tally.count(printed.is_refused("mcpre: a.prof:1: P2 Form\n"));
    let printed = blank_profile(alloc, words, (1 << 26) + 1)?;
    tally.count(printed.is_refused("mcpre: a.prof: P1 TooLong\n"));
    Ok(tally)
}

/// How `report` ends over a text of so many spaces.
fn blank_module(alloc: Global, spaces: u32) -> Result<Printed, Problem> {
    let mut files = Vec::new(alloc);
    let program = text_of(alloc, "", " ", spaces, "")?;
    add(alloc, &mut files, "a.ll", program)?;
    let profile = Vec::from_slice(alloc, b"mcpre-profile 1\n")?;
    add(alloc, &mut files, "a.prof", profile)?;
    run(alloc, &["report", "a.ll", "a.prof"], files)
}

/// A text that is reported has at most as many bytes as one that is printed.
fn longest_module(alloc: Global) -> Result<Tally, Problem> {
    let mut tally = Tally::new();
    let printed = blank_module(alloc, 1 << 26)?;
    tally.count(printed.status == 0 && printed.line.is_empty());
    let printed = blank_module(alloc, (1 << 26) + 1)?;
    tally.count(printed.is_refused("mcpre: a.ll: E1 TooLong\n"));
    Ok(tally)
}

/// How `check` ends over an OUT of so many spaces, and a CERT that is none.
fn blank_text(alloc: Global, spaces: u32) -> Result<Printed, Problem> {
    let mut files = Vec::new(alloc);
    add(alloc, &mut files, "a.ll", Vec::new(alloc))?;
    let profile = Vec::from_slice(alloc, b"mcpre-profile 1\n")?;
    add(alloc, &mut files, "a.prof", profile)?;
    let text = text_of(alloc, "", " ", spaces, "")?;
    add(alloc, &mut files, "b.ll", text)?;
    add(alloc, &mut files, "c.json", Vec::new(alloc))?;
    run(alloc, &["check", "a.ll", "a.prof", "b.ll", "c.json"], files)
}

/// The OUT of `check` has at most as many bytes as a text.
fn longest_out(alloc: Global) -> Result<Tally, Problem> {
    let mut tally = Tally::new();
    let printed = blank_text(alloc, 1 << 26)?;
    tally.count(printed.is_refused("mcpre: c.json: C1 Form /\n"));
    let printed = blank_text(alloc, (1 << 26) + 1)?;
    tally.count(printed.is_refused("mcpre: b.ll: E1 TooLong\n"));
    Ok(tally)
}

/// Runs the rows of what is at a limit.
pub fn run_limits(rt: &HostRuntime, tally: &mut Tally) -> Result<(), Problem> {
    let alloc = rt.alloc();
    for limit in &LIMITS {
        limit.run(rt, tally)?;
    }
    tally.close(
        rt,
        "The longest text, and one more byte",
        longest_text(alloc)?,
    )?;
    tally.close(
        rt,
        "The longest text that is printed, and more",
        growing_text(alloc)?,
    )?;
    let profile = longest_profile(alloc, &["opt", "a.ll", "a.prof", "o.ll", "c.json"])?;
    tally.close(rt, "The longest profile, and one more byte", profile)?;
    let profile = longest_profile(alloc, &["report", "a.ll", "a.prof"])?;
    tally.close(
        rt,
        "The longest profile of a report, and one more byte",
        profile,
    )?;
    tally.close(
        rt,
        "The longest text that is reported, and one more byte",
        longest_module(alloc)?,
    )?;
    tally.close(
        rt,
        "The longest text that is checked, and one more byte",
        longest_out(alloc)?,
    )
}
