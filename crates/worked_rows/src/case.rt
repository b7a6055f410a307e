//! One run of the top call over files and streams in memory, with what is wanted of it.

use crate::problem::Problem;
use mc_host::{FirmSink, FirmSource, MemHost, MemSink, MemSource, Source};
use std::alloc::{AllocError, Global};
use top_call::mcpre;

/// How many bytes `out` has room for.
const ROOM: usize = 4096;

/// A file, by its name.
#[derive(Drop)]
pub struct File {
    pub name: String,
    pub bytes: Vec<u8>,
}

/// What a run is given, and what is wanted of it.
#[derive(Drop)]
pub struct Case {
    pub words: Vec<String>,
    /// The files before the run.
    pub before: Vec<File>,
    pub input: Vec<u8>,
    /// The call that fails, as `host 0`, `input 1` or `out 1`, if one does.
    pub fails: String,
    /// How many bytes `err` has room for.
    pub room: usize,
    pub status: u8,
    /// What `err` holds in the end, and what `out` does.
    pub err: Vec<u8>,
    pub out: Vec<u8>,
    /// What is left of the input.
    pub left: Vec<u8>,
    /// The files that the run makes or changes.
    pub after: Vec<File>,
    /// The name of a file of which nothing is wanted, if there is one.
    pub any: String,
    /// Words that end with status 0 over the files that the run left, if there are any.
    pub then: Vec<String>,
}

/// How a run ended, with the files and streams that it left.
#[derive(Drop)]
struct Ended {
    status: u8,
    host: MemHost,
    input: MemSource,
    out: MemSink,
    err: MemSink,
}

/// What the first file of that name holds.
fn find<'f>(files: &'f [File], name: &str) -> Option<&'f [u8]> {
    for file in files {
        if file.name.as_str() == name {
            return Some(&file.bytes);
        }
    }
    None
}

/// What is left of an input of at most so many bytes.
fn left(alloc: Global, input: &mut MemSource, most: usize) -> Result<Vec<u8>, AllocError> {
    let mut left = Vec::new(alloc);
    for _ in 0..most {
        match input.next() {
            Ok(Some(byte)) => left.push(byte)?,
            _ => break,
        }
    }
    Ok(left)
}

/// What there is in place of what is wanted, where these differ.
fn difference(
    alloc: Global,
    name: &str,
    there: Option<&[u8]>,
    wanted: Option<&[u8]>,
) -> Result<Option<String>, Problem> {
    if there == wanted {
        return Ok(None);
    }
    match there {
        Some(bytes) => {
            let text = String::from_utf8_lossy(alloc, bytes)?;
            Ok(Some(format!(in alloc; "{name} holds {text}")?))
        }
        None => Ok(Some(format!(in alloc; "{name} isn't there")?)),
    }
}

impl Case {
    /// How many bytes a file has.
    pub fn size(&self, name: &str) -> usize {
        find(&self.before, name).map_or(0, |bytes| bytes.len())
    }

    /// Takes the last byte of a file away.
    pub fn shorten(&mut self, name: &str) {
        for file in self.before.iter_mut() {
            if file.name.as_str() == name {
                let _ = file.bytes.pop();
            }
        }
    }

    /// The numbers of the calls of this kind that fail.
    fn failing(&self, alloc: Global, kind: &str) -> Result<Vec<u64>, Problem> {
        let mut numbers = Vec::new(alloc);
        if let Some(number) = self.fails.strip_prefix(kind) {
            numbers.push(number.parse::<u64>().or(Err(Problem::Form))?)?;
        }
        Ok(numbers)
    }

    /// The host of the files before the run.
    fn host(&self, alloc: Global) -> Result<MemHost, Problem> {
        let mut files = Vec::new(alloc);
        for file in &self.before {
            let name = String::from_str(alloc, &file.name)?;
            files.push((name, Vec::from_slice(alloc, &file.bytes)?))?;
        }
        Ok(MemHost::new(files, self.failing(alloc, "host ")?))
    }

    fn end(&self, alloc: Global) -> Result<Ended, Problem> {
        let mut host = self.host(alloc)?;
        let bytes = Vec::from_slice(alloc, &self.input)?;
        let mut input = MemSource::new(bytes, self.failing(alloc, "input ")?);
        let mut out = MemSink::new(alloc, ROOM, self.failing(alloc, "out ")?)?;
        let mut err = MemSink::new(alloc, self.room, Vec::new(alloc))?;
        let status = mcpre(
            alloc,
            &self.words,
            &mut host,
            &mut input,
            &mut out,
            &mut err,
        );
        Ok(Ended {
            status,
            host,
            input,
            out,
            err,
        })
    }

    /// Runs, and gives the first way in which the end isn't as wanted, in words; nothing where it is as wanted.
    pub fn difference(&self, alloc: Global) -> Result<Option<String>, Problem> {
        let mut ended = self.end(alloc)?;
        let left = left(alloc, &mut ended.input, self.input.len())?;
        let streams = [
            ("err", ended.err.written(), self.err.as_slice()),
            ("out", ended.out.written(), self.out.as_slice()),
            (
                "the rest of the input",
                left.as_slice(),
                self.left.as_slice(),
            ),
        ];
        for (name, there, wanted) in streams {
            if let Some(told) = difference(alloc, name, Some(there), Some(wanted))? {
                return Ok(Some(told));
            }
        }
        if ended.status != self.status {
            return Ok(Some(format!(in alloc; "status {}", ended.status)?));
        }
        if let Some(told) = self.difference_of_files(alloc, &ended.host)? {
            return Ok(Some(told));
        }
        self.difference_then(alloc, &mut ended.host)
    }

    /// What the words that come then end with, where it isn't status 0.
    fn difference_then(
        &self,
        alloc: Global,
        host: &mut MemHost,
    ) -> Result<Option<String>, Problem> {
        if self.then.is_empty() {
            return Ok(None);
        }
        let mut input = FirmSource::new(Vec::new(alloc));
        let mut out = FirmSink::new(alloc);
        let mut err = MemSink::new(alloc, 200, Vec::new(alloc))?;
        match mcpre(alloc, &self.then, host, &mut input, &mut out, &mut err) {
            0 => Ok(None),
            status => Ok(Some(format!(in alloc; "then status {status}")?)),
        }
    }

    /// The first of the named files that isn't as wanted.
    fn difference_of_files(
        &self,
        alloc: Global,
        host: &MemHost,
    ) -> Result<Option<String>, Problem> {
        let names = self.before.iter().chain(&self.after).map(|file| &file.name);
        for name in names.chain(&self.words) {
            if *name != self.any {
                let wanted = find(&self.after, name).or(find(&self.before, name));
                if let Some(told) = difference(alloc, name, host.file(name), wanted)? {
                    return Ok(Some(told));
                }
            }
        }
        Ok(None)
    }
}
