//! Rows of a table.

use crate::case::{Case, File};
use crate::escapes::{bytes_of_lines, unescaped};
use crate::problem::Problem;
use crate::table::{Section, Texts};
use crate::tally::Tally;
use std::alloc::Global;

/// The marks that stand for the columns of a row's own table.
const MARKS: [&str; 3] = ["$1", "$2", "$3"];

/// A row: its title; below it fields, each a line `NAME: VALUE`; and sections, each with a line `--- NAME`, or with a
/// line `--- NAME = TEXT`, which takes the text of that name.
#[derive(Drop)]
pub struct Row<'t> {
    title: &'t str,
    fields: &'t str,
    sections: Vec<Section<'t>>,
}

/// A row with what stands for its marks.
#[derive(Clone, Copy)]
struct Filled<'r> {
    alloc: Global,
    row: &'r Row<'r>,
    columns: &'r [&'r str],
}

impl<'t> Row<'t> {
    /// The row of this text.
    pub fn of(alloc: Global, text: &'t str, texts: &Texts<'t>) -> Result<Row<'t>, Problem> {
        let mut parts = text.split("\n--- ");
        let top = Section::of(parts.next().unwrap_or(""));
        let mut sections = Vec::new(alloc);
        for part in parts {
            let mut section = Section::of(part);
            if let Some((head, name)) = section.head.split_once(" = ") {
                section.head = head;
                section.lines = texts.find(name)?.lines;
            }
            sections.push(section)?;
        }
        Ok(Row {
            title: top.head,
            fields: top.lines.unwrap_or(""),
            sections,
        })
    }

    /// The value of a field; the empty text where the row hasn't this field.
    fn field(&self, name: &str) -> &'t str {
        for line in self.fields.split("\n") {
            if let Some((key, value)) = line.split_once(": ") {
                if key == name {
                    return value;
                }
            }
        }
        ""
    }

    /// The lines of the section of this name.
    fn section(&self, name: &str) -> Option<&'t str> {
        for section in &self.sections {
            if section.head == name {
                return section.lines;
            }
        }
        None
    }

    /// Runs the row: once; or for each line of its section `table`, whose columns stand for the marks `$1`, `$2` and
    /// `$3`; or, where it has a field `prefixes`, for each proper prefix of the file that this names.
    pub fn run(&self, rt: &HostRuntime, tally: &mut Tally) -> Result<(), Problem> {
        let mut own = Tally::new();
        match self.section("table") {
            Some(table) => self.run_lines(rt, table, &mut own)?,
            None => self.run_with(rt, &[], &mut own)?,
        }
        tally.close(rt, self.title, own)
    }

    fn run_lines(&self, rt: &HostRuntime, table: &str, tally: &mut Tally) -> Result<(), Problem> {
        for line in table.split("\n") {
            let columns: Vec<&str> = line.split(" => ").collect(rt.alloc())?;
            self.run_with(rt, &columns, tally)?;
        }
        Ok(())
    }

    fn run_with(
        &self,
        rt: &HostRuntime,
        columns: &[&str],
        tally: &mut Tally,
    ) -> Result<(), Problem> {
        let case = self.case(rt.alloc(), columns)?;
        match self.field("prefixes") {
            "" => self.run_case(rt, &case, tally),
            name => self.run_prefixes(rt, case, name, tally),
        }
    }

    fn run_prefixes(
        &self,
        rt: &HostRuntime,
        mut case: Case,
        name: &str,
        tally: &mut Tally,
    ) -> Result<(), Problem> {
        for _ in 0..case.size(name) {
            case.shorten(name);
            self.run_case(rt, &case, tally)?;
        }
        Ok(())
    }

    fn run_case(&self, rt: &HostRuntime, case: &Case, tally: &mut Tally) -> Result<(), Problem> {
        let difference = case.difference(rt.alloc())?;
        tally.count(difference.is_none());
        if let Some(difference) = difference {
            println!(rt; "{}: {}", self.title, difference)?;
        }
        Ok(())
    }

    fn case(&self, alloc: Global, columns: &[&str]) -> Result<Case, Problem> {
        let filled = Filled {
            alloc,
            row: self,
            columns,
        };
        Ok(Case {
            words: filled.words("words")?,
            before: filled.files("file ")?,
            input: filled.bytes(self.field("input"))?,
            fails: filled.text(self.field("fails"))?,
            room: filled.number("room", 200)? as usize,
            status: filled.number("status", 0)?,
            err: filled.line("err")?,
            out: filled.out()?,
            left: filled.bytes(self.field("left"))?,
            after: filled.files("after ")?,
            any: filled.text(self.field("any"))?,
            then: filled.words("then")?,
        })
    }
}

impl Filled<'_> {
    /// A text with its columns in the places of the marks.
    fn text(&self, text: &str) -> Result<String, Problem> {
        let mut filled = String::from_str(self.alloc, text)?;
        for (mark, column) in MARKS.iter().zip(self.columns) {
            filled = filled.replace(self.alloc, *mark, column)?;
        }
        Ok(filled)
    }

    /// The bytes that a text stands for.
    fn bytes(&self, text: &str) -> Result<Vec<u8>, Problem> {
        let text = self.text(text)?;
        unescaped(self.alloc, &text)
    }

    /// The bytes of lines without their last line feed.
    fn lines(&self, lines: &str) -> Result<Vec<u8>, Problem> {
        bytes_of_lines(self.alloc, &self.text(lines)?)
    }

    /// The line of a field, with its line feed; nothing where the row hasn't this field.
    fn line(&self, name: &str) -> Result<Vec<u8>, Problem> {
        match self.row.field(name) {
            "" => Ok(Vec::new(self.alloc)),
            line => self.lines(line),
        }
    }

    /// What `out` holds in the end: the lines of the section `out`, or the bytes of the field where the row hasn't this
    /// section.
    fn out(&self) -> Result<Vec<u8>, Problem> {
        match self.row.section("out") {
            Some(lines) => self.lines(lines),
            None => self.bytes(self.row.field("out")),
        }
    }

    /// The number of a field, or this one where the row hasn't this field.
    fn number(&self, name: &str, other: u8) -> Result<u8, Problem> {
        match self.row.field(name) {
            "" => Ok(other),
            digits => {
                let digits = self.text(digits)?;
                digits.parse::<u8>().or(Err(Problem::Form))
            }
        }
    }

    /// The words of a field, which have `, ` between them.
    fn words(&self, name: &str) -> Result<Vec<String>, Problem> {
        let mut words = Vec::new(self.alloc);
        let text = self.text(self.row.field(name))?;
        if !text.is_empty() {
            for word in text.split(", ") {
                words.push(String::from_str(self.alloc, word)?)?;
            }
        }
        Ok(words)
    }

    /// The files of the sections whose heads begin like this.
    fn files(&self, kind: &str) -> Result<Vec<File>, Problem> {
        let mut files = Vec::new(self.alloc);
        for section in &self.row.sections {
            if let Some(name) = section.head.strip_prefix(kind) {
                let bytes = match section.lines {
                    Some(lines) => self.lines(lines)?,
                    None => Vec::new(self.alloc),
                };
                let name = String::from_str(self.alloc, name)?;
                files.push(File { name, bytes })?;
            }
        }
        Ok(files)
    }
}
