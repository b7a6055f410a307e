//! The program: the top call over the files and streams of the system.
#![tactic(auto)]

use mc_host::{OsHost, OsSink, OsSource};
use std::env;
use std::io::ErrorKind;
use std::process::ExitCode;
use top_call::mcpre;

// Why the system gave no words.
#[derive(Clone, Copy, Debug, PartialEq, Eq)]
enum NoWords {
    OutOfMemory,
    NotTexts,
}

impl NoWords {
    // The status of a start that fails; the top call is then not made, and no line is put.
    fn status(self) -> u8 {
        match self {
            NoWords::OutOfMemory => 5,
            NoWords::NotTexts => 9,
        }
    }
}

// The words after the program's name.
fn words(rt: &HostRuntime) -> Result<Vec<String>, NoWords> {
    match env::args(rt) {
        Ok(words) => words
            .skip(1)
            .collect(rt.alloc())
            .or(Err(NoWords::OutOfMemory)),
        Err(error) if error.kind() == ErrorKind::OutOfMemory => Err(NoWords::OutOfMemory),
        Err(_) => Err(NoWords::NotTexts),
    }
}

fn main(rt: HostRuntime) -> ExitCode {
    let words = match words(&rt) {
        Ok(words) => words,
        Err(reason) => return ExitCode::from(reason.status()),
    };
    let mut host = OsHost::new(&rt);
    let mut input = OsSource::new(&rt);
    let mut out = OsSink::out(&rt);
    let mut err = OsSink::err(&rt);
    ExitCode::from(mcpre(
        rt.alloc(),
        &words,
        &mut host,
        &mut input,
        &mut out,
        &mut err,
    ))
}
