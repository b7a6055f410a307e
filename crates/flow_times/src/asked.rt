//! What the words of the program ask for.

ghost use Rattle.std.specs.Prelude.{◌<◌, ◌^◌};

use crate::networks::Kind;

/// What the number of arcs stays below.
const ARC_BOUND: u32 = 1 << 24;

/// What is done with the network once it is built.
#[derive(Clone, Copy)]
pub enum Work {
    /// Nothing.
    Build,
    /// Its phases are counted.
    Phases,
    /// Its maximum flow is found, and the latest cut.
    Solve,
}

/// A network, and what is done with it.
#[derive(Clone, Copy)]
pub struct Asked {
    pub kind: Kind,
    pub arcs: u32,
    pub work: Work,
    ghost few: { arcs < 2 ^ 24 },
}

/// What is asked for by three words: a kind of network, about how many arcs it has, below 2^24, and the work.
pub fn read_words(words: &[String]) -> Option<Asked> {
    if words.len() != 3 {
        return None;
    }
    let arcs = words[1].parse::<u32>().ok()?;
    if arcs >= ARC_BOUND {
        return None;
    }
    Some(Asked {
        kind: kind_named(&words[0])?,
        arcs,
        work: work_named(&words[2])?,
    })
}

/// The kind of a name.
fn kind_named(name: &str) -> Option<Kind> {
    match name {
        "chain" => Some(Kind::Chain),
        "ladder" => Some(Kind::Ladder),
        "grid" => Some(Kind::Grid),
        "random" => Some(Kind::Random),
        _ => None,
    }
}

/// The work of a name.
fn work_named(name: &str) -> Option<Work> {
    match name {
        "build" => Some(Work::Build),
        "phases" => Some(Work::Phases),
        "solve" => Some(Work::Solve),
        _ => None,
    }
}
