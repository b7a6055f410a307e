//! Each prefix of a text that has each construct, with one blank behind each token and none within one; and of a module,
//! of its profile and of its optimised text.

use crate::commands::{Printed, add, print, run};
use crate::problem::Problem;
use crate::table::Texts;
use crate::tally::Tally;
use std::alloc::Global;

/// Prefixes of whole tokens that are accepted: of the globals and declarations as much as may end there, and the two
/// functions before the last.
const ACCEPTED: u64 = 11;

/// How many bytes of the text `sum` have prefixes that are accepted: none, and as many as its declaration has, with and
/// without the line feeds behind it.
const ACCEPTED_OF_SUM: [usize; 4] = [0, 22, 23, 24];

/// Prints each prefix of the texts `constructs` and `sum`, and runs a command over each prefix of the profile and of the
/// optimised text of `sum`.
pub fn run_prefixes(rt: &HostRuntime, texts: &Texts<'_>, tally: &mut Tally) -> Result<(), Problem> {
    let alloc = rt.alloc();
    let text = texts.find("constructs")?.lines.unwrap_or("");
    let tokens = prefixes_of_tokens(alloc, text)?;
    tally.close(rt, "Each prefix of tokens stops at its end", tokens)?;
    let bytes = prefixes_of_bytes(alloc, text)?;
    tally.close(rt, "Each prefix of bytes is printed or refused", bytes)?;
    let sums = prefixes_of_sum(alloc, &texts.bytes(alloc, "sum")?)?;
    tally.close(
        rt,
        "Each prefix of the sum is printed at six lengths alone",
        sums,
    )?;
    let profiles = prefixes_of_profile(alloc, texts)?;
    tally.close(
        rt,
        "Each prefix of a profile is refused at its last line",
        profiles,
    )?;
    let outs = prefixes_of_out(alloc, texts)?;
    tally.close(
        rt,
        "Each prefix of OUT is another text from its end on",
        outs,
    )
}

/// The prefixes that end before a blank. What isn't accepted is refused at the end.
fn prefixes_of_tokens(alloc: Global, text: &str) -> Result<Tally, Problem> {
    let mut tally = Tally::new();
    let mut accepted: u64 = 0;
    for (end, byte) in text.as_bytes().iter().enumerate() {
        if *byte == b' ' || *byte == b'\n' {
            let (front, _) = text.as_bytes().split_at(end);
            let printed = print(alloc, Vec::from_slice(alloc, front)?)?;
            if printed.status == 0 {
                accepted = accepted.saturating_add(1);
            }
            tally.count(printed.status == 0 || stops_at_its_end(alloc, front, &printed)?);
        }
    }
    tally.count(accepted == ACCEPTED);
    Ok(tally)
}

fn stops_at_its_end(alloc: Global, front: &[u8], printed: &Printed) -> Result<bool, Problem> {
    let line = front.split(|byte| *byte == b'\n').count();
    let wanted = format!(in alloc; "mcpre: a.ll:{line}: E3 Syntax\n")?;
    Ok(printed.status == 1 && printed.line == wanted)
}

/// All proper prefixes. A line comes exactly where nothing is written.
fn prefixes_of_bytes(alloc: Global, text: &str) -> Result<Tally, Problem> {
    let mut tally = Tally::new();
    for end in 0..text.len() {
        let (front, _) = text.as_bytes().split_at(end);
        let printed = print(alloc, Vec::from_slice(alloc, front)?)?;
        let is_written = printed.size.is_some();
        let is_fine = printed.status == if is_written { 0 } else { 1 };
        tally.count(is_fine && printed.line.is_empty() == is_written);
    }
    Ok(tally)
}

/// All prefixes of the text `sum`, of which the whole and the one without its last line feed are printed.
fn prefixes_of_sum(alloc: Global, text: &[u8]) -> Result<Tally, Problem> {
    let mut tally = Tally::new();
    for end in 0..text.len() {
        let (front, back) = text.split_at(end);
        let printed = print(alloc, Vec::from_slice(alloc, front)?)?;
        let is_accepted = ACCEPTED_OF_SUM.contains(&end) || back == b"\n".as_slice();
        tally.count(printed.status == if is_accepted { 0 } else { 1 });
    }
    tally.count(print(alloc, Vec::from_slice(alloc, text)?)?.status == 0);
    Ok(tally)
}

/// All proper prefixes of a profile, by `report`. Where a line is cut it is of no form; where one is missing the shape is
/// another.
fn prefixes_of_profile(alloc: Global, texts: &Texts<'_>) -> Result<Tally, Problem> {
    let mut tally = Tally::new();
    let text = texts.bytes(alloc, "sum of a hundred runs")?;
    for end in 0..text.len() {
        let (front, _) = text.split_at(end);
        let mut files = Vec::new(alloc);
        add(alloc, &mut files, "a.ll", texts.bytes(alloc, "sum")?)?;
        add(alloc, &mut files, "a.prof", Vec::from_slice(alloc, front)?)?;
        let ended = run(alloc, &["report", "a.ll", "a.prof"], files)?;
        let line = front.split(|byte| *byte == b'\n').count();
        let problem = if front.ends_with(b"\n") {
            "P3 Shape"
        } else {
            "P2 Form"
        };
        let wanted = format!(in alloc; "mcpre: a.prof:{line}: {problem}\n")?;
        tally.count(ended.status == 1 && ended.line == wanted);
    }
    Ok(tally)
}

/// All proper prefixes of an optimised text, by `check`.
fn prefixes_of_out(alloc: Global, texts: &Texts<'_>) -> Result<Tally, Problem> {
    let mut tally = Tally::new();
    let text = texts.bytes(alloc, "sum optimised")?;
    for end in 0..text.len() {
        let (front, _) = text.split_at(end);
        let mut files = Vec::new(alloc);
        add(alloc, &mut files, "a.ll", texts.bytes(alloc, "sum")?)?;
        add(
            alloc,
            &mut files,
            "a.prof",
            texts.bytes(alloc, "sum of a hundred runs")?,
        )?;
        add(alloc, &mut files, "o.ll", Vec::from_slice(alloc, front)?)?;
        add(
            alloc,
            &mut files,
            "c.json",
            texts.bytes(alloc, "sum certificate")?,
        )?;
        let ended = run(alloc, &["check", "a.ll", "a.prof", "o.ll", "c.json"], files)?;
        let wanted = format!(in alloc; "mcpre: no: N9 Text byte {end}\n")?;
        tally.count(ended.status == 6 && ended.line == wanted);
    }
    Ok(tally)
}
