//! A module of many diamonds and its profile, and a report over forms that never fail.

ghost use Rattle.std.specs.Prelude.{◌≤◌};

use crate::commands::{add, owned};
use crate::problem::Problem;
use crate::table::Texts;
use crate::tally::Tally;
use generate::make;
use mc_host::{FirmHost, FirmSink, FirmSource, MemHost};
use std::alloc::Global;
use top_call::mcpre;

/// How many bytes `out` has room for.
const ROOM: usize = 4096;

/// A host of a module of so many diamonds and its profile.
fn diamonds(alloc: Global, count: u32) -> Result<MemHost, Problem>
    requires least { 1 ≤ count }
    requires most { count ≤ 10000 }
{
    let made = make(alloc, count)?;
    let mut files = Vec::new(alloc);
    add(alloc, &mut files, "a.ll", made.module)?;
    add(alloc, &mut files, "a.prof", made.profile)?;
    Ok(MemHost::new(files, Vec::new(alloc)))
}

/// Two hundred diamonds are optimised, and what is written is checked.
fn optimised_diamonds(alloc: Global) -> Result<Tally, Problem> {
    let mut tally = Tally::new();
    let mut host = diamonds(alloc, 200)?;
    for command in ["opt", "check"] {
        let words = owned(alloc, &[command, "a.ll", "a.prof", "o.ll", "c.json"])?;
        let mut input = FirmSource::new(Vec::new(alloc));
        let mut out = FirmSink::new(alloc);
        let mut err = FirmSink::with_room(alloc, ROOM)?;
        let status = mcpre(alloc, &words, &mut host, &mut input, &mut out, &mut err);
        tally.count(status == 0 && err.written().is_empty());
    }
    Ok(tally)
}

/// The report of the text `sum` by the counts of one run, over forms that never fail.
fn firm_report(alloc: Global, texts: &Texts<'_>) -> Result<Tally, Problem> {
    let mut files = Vec::new(alloc);
    add(alloc, &mut files, "a.ll", texts.bytes(alloc, "sum")?)?;
    add(
        alloc,
        &mut files,
        "a.prof",
        texts.bytes(alloc, "sum of one run")?,
    )?;
    let wanted = texts.bytes(alloc, "report of one run")?;
    let words = owned(alloc, &["report", "a.ll", "a.prof"])?;
    let mut host = FirmHost::new(files);
    let mut input = FirmSource::new(Vec::new(alloc));
    let mut out = FirmSink::with_room(alloc, ROOM)?;
    let mut err = FirmSink::with_room(alloc, ROOM)?;
    let status = mcpre(alloc, &words, &mut host, &mut input, &mut out, &mut err);
    let mut tally = Tally::new();
    tally.count(status == 0 && out.written() == wanted.as_slice() && err.written().is_empty());
    Ok(tally)
}

/// Runs the rows of what is made.
pub fn run_made(rt: &HostRuntime, texts: &Texts<'_>, tally: &mut Tally) -> Result<(), Problem> {
    let diamonds = optimised_diamonds(rt.alloc())?;
    tally.close(
        rt,
        "Two hundred diamonds are optimised, and what is written is checked",
        diamonds,
    )?;
    let report = firm_report(rt.alloc(), texts)?;
    tally.close(
        rt,
        "A report over a host and streams that never fail",
        report,
    )
}
