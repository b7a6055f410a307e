//! A maximum flow and its cut for a network of a kind and a size, so that their times can be measured.
#![tactic(auto)]

mod asked;
mod networks;
mod solving;

use crate::asked::{Asked, Work, read_words};
use crate::networks::network;
use crate::solving::{phases, solve};
use flow_net::Net;
use mc_num::NoMemory;
use std::alloc::AllocError;
use std::process::ExitCode;
use std::{env, io};

/// Why nothing was measured.
#[derive(Drop)]
enum Problem {
    Usage,
    NotValid,
    NoMemory,
    Output,
}

impl From<NoMemory> for Problem {
    fn from(_: NoMemory) -> Problem {
        Problem::NoMemory
    }
}

impl From<AllocError> for Problem {
    fn from(_: AllocError) -> Problem {
        Problem::NoMemory
    }
}

impl From<io::Error> for Problem {
    fn from(_: io::Error) -> Problem {
        Problem::Output
    }
}

impl Problem {
    /// The status that the program ends with.
    fn status(&self) -> u8 {
        match self {
            Problem::NotValid => 1,
            Problem::Usage => 2,
            Problem::Output => 4,
            Problem::NoMemory => 5,
        }
    }
}

/// What the words ask for.
fn words(rt: &HostRuntime) -> Result<Asked, Problem> {
    let words: Vec<String> = env::args(rt)?.skip(1).collect(rt.alloc())?;
    read_words(&words).ok_or(Problem::Usage)
}

/// Builds the network, works on it, and prints a line on each.
fn run(rt: &HostRuntime) -> Result<(), Problem> {
    let asked = words(rt)?;
    let net = network(rt.alloc(), asked.kind, asked.arcs)?;
    println!(rt; "{} nodes, {} arcs", net.nodes, net.arcs.len())?;
    work_on(rt, asked.work, &net)
}

/// Does the work on a network, and prints what came of it.
fn work_on(rt: &HostRuntime, work: Work, net: &Net) -> Result<(), Problem> {
    match work {
        Work::Build => {}
        Work::Phases => {
            let count = phases(rt.alloc(), net)?.ok_or(Problem::NotValid)?;
            println!(rt; "{count} phases")?;
        }
        Work::Solve => {
            let solved = solve(rt.alloc(), net)?.ok_or(Problem::NotValid)?;
            println!(rt;
                "value {}, {} nodes on the sink's side",
                solved.value, solved.sink_side
            )?;
        }
    }
    Ok(())
}

fn main(rt: HostRuntime) -> ExitCode {
    match run(&rt) {
        Ok(()) => ExitCode::SUCCESS,
        Err(problem) => ExitCode::from(problem.status()),
    }
}
