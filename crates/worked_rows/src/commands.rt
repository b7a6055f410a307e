//! Commands over files in memory, of which the status, the line and the size of o.ll are wanted.

use crate::problem::Problem;
use mc_host::{FirmSink, FirmSource, MemHost, MemSink};
use std::alloc::Global;
use top_call::mcpre;

/// How a command over a text ends: the status, the line, and how many bytes o.ll holds, if it is there.
#[derive(Drop)]
pub struct Printed {
    pub status: u8,
    pub line: String,
    pub size: Option<usize>,
}

/// Adds a file of this name and these bytes.
pub fn add(
    alloc: Global,
    files: &mut Vec<(String, Vec<u8>)>,
    name: &str,
    bytes: Vec<u8>,
) -> Result<(), Problem> {
    files.push((String::from_str(alloc, name)?, bytes))?;
    Ok(())
}

/// These words, each owned.
pub fn owned(alloc: Global, words: &[&str]) -> Result<Vec<String>, Problem> {
    let mut owned = Vec::new(alloc);
    for word in words {
        owned.push(String::from_str(alloc, word)?)?;
    }
    Ok(owned)
}

/// Runs these words over these files.
pub fn run(
    alloc: Global,
    words: &[&str],
    files: Vec<(String, Vec<u8>)>,
) -> Result<Printed, Problem> {
    let words = owned(alloc, words)?;
    let mut host = MemHost::new(files, Vec::new(alloc));
    let mut input = FirmSource::new(Vec::new(alloc));
    let mut out = FirmSink::new(alloc);
    let mut err = MemSink::new(alloc, 200, Vec::new(alloc))?;
    let status = mcpre(alloc, &words, &mut host, &mut input, &mut out, &mut err);
    Ok(Printed {
        status,
        line: String::from_utf8_lossy(alloc, err.written())?,
        size: host.file("o.ll").map(|bytes| bytes.len()),
    })
}

/// Prints a text into o.ll.
pub fn print(alloc: Global, text: Vec<u8>) -> Result<Printed, Problem> {
    let mut files = Vec::new(alloc);
    add(alloc, &mut files, "a.ll", text)?;
    run(alloc, &["print", "a.ll", "o.ll"], files)
}

impl Printed {
    /// Whether it was refused with this line, and wrote nothing.
    pub fn is_refused(&self, line: &str) -> bool {
        self.status == 1 && self.line.as_str() == line && self.size.is_none()
    }
}
