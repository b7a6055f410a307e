//! Tables of rows.

use crate::escapes::bytes_of_lines;
use crate::problem::Problem;
use crate::row::Row;
use crate::tally::Tally;
use std::alloc::{AllocError, Global};

/// A part of a table: what its head line says, and the lines below it, if there are any, without the last line feed.
#[derive(Clone, Copy)]
pub struct Section<'t> {
    pub head: &'t str,
    pub lines: Option<&'t str>,
}

impl<'t> Section<'t> {
    /// The part with this text, whose first line is its head.
    pub fn of(text: &'t str) -> Section<'t> {
        match text.split_once("\n") {
            Some((head, lines)) => Section {
                head,
                lines: Some(lines),
            },
            None => Section {
                head: text,
                lines: None,
            },
        }
    }
}

/// Texts with names, which the rows may take.
#[derive(Drop)]
pub struct Texts<'t> {
    named: Vec<Section<'t>>,
}

impl<'t> Texts<'t> {
    /// No texts.
    pub fn new(alloc: Global) -> Texts<'t> {
        Texts {
            named: Vec::new(alloc),
        }
    }

    /// One more text, whose head is its name.
    fn add(&mut self, text: Section<'t>) -> Result<(), AllocError> {
        self.named.push(text)?;
        Ok(())
    }

    /// The text of a name.
    pub fn find(&self, name: &str) -> Result<Section<'t>, Problem> {
        for text in &self.named {
            if text.head == name {
                return Ok(*text);
            }
        }
        Err(Problem::Form)
    }

    /// The bytes of the text of a name.
    pub fn bytes(&self, alloc: Global, name: &str) -> Result<Vec<u8>, Problem> {
        match self.find(name)?.lines {
            Some(lines) => bytes_of_lines(alloc, lines),
            None => Ok(Vec::new(alloc)),
        }
    }
}

/// Runs the rows of a table, and takes up its texts. A row begins with a line `=== TITLE`, and a text with a line
/// `=== text NAME`; what stands before the first of these lines says what the table is about.
pub fn run_table<'t>(
    rt: &HostRuntime,
    table: &'t str,
    texts: &mut Texts<'t>,
    tally: &mut Tally,
) -> Result<(), Problem> {
    let table = table.strip_suffix("\n").unwrap_or(table);
    for part in table.split("\n=== ").skip(1) {
        match part.strip_prefix("text ") {
            Some(text) => texts.add(Section::of(text))?,
            None => Row::of(rt.alloc(), part, texts)?.run(rt, tally)?,
        }
    }
    Ok(())
}
