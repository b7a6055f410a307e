//! Worked rows of the top call, over files and streams in memory: a program that reads tables of rows, runs each row,
//! and prints whether it is as wanted.
#![tactic(auto)]

mod case;
mod commands;
mod escapes;
mod limits;
mod made;
mod prefixes;
mod problem;
mod row;
mod table;
mod tally;

use crate::limits::run_limits;
use crate::made::run_made;
use crate::prefixes::run_prefixes;
use crate::problem::Problem;
use crate::table::{Texts, run_table};
use crate::tally::Tally;
use std::process::ExitCode;
use std::{env, fs};

/// What the tables hold that the words of the program name.
fn tables(rt: &HostRuntime) -> Result<Vec<String>, Problem> {
    let mut tables = Vec::new(rt.alloc());
    for name in env::args(rt)?.skip(1) {
        tables.push(fs::read_to_string(rt, name.as_str())?)?;
    }
    Ok(tables)
}

/// Runs the rows of all tables, and those that are made by a rule, and prints a line for each.
fn run(rt: &HostRuntime) -> Result<(), Problem> {
    let tables = tables(rt)?;
    let mut texts = Texts::new(rt.alloc());
    let mut tally = Tally::new();
    for table in &tables {
        run_table(rt, table, &mut texts, &mut tally)?;
    }
    run_made(rt, &texts, &mut tally)?;
    run_prefixes(rt, &texts, &mut tally)?;
    run_limits(rt, &mut tally)?;
    println!(rt; "{} rows, {} as wanted", tally.rows, tally.fine)?;
    Ok(())
}

fn main(rt: HostRuntime) -> ExitCode {
    match run(&rt) {
        Ok(()) => ExitCode::SUCCESS,
        Err(problem) => ExitCode::from(problem.status()),
    }
}
