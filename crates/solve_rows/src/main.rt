//! The placements that `solve` gives in small functions, beside wanted ones and beside all placements.
//!
//! Standard input has cases: a title, a row that is wanted or an empty line, a profile and a module.
#![tactic(auto)]

mod cases;
mod comparing;
mod judging;
mod listing;
mod problem;
mod question;
mod showing;
mod solving;

use crate::cases::Case;
use crate::problem::Problem;
use crate::showing::show_case;
use std::io;

/// What stands between two cases.
const CASE_END: &str = "====\n";

fn main(rt: HostRuntime) -> Result<(), Problem> {
    let text = io::read_to_string(rt.alloc(), rt.reader())?;
    for part in text.split(CASE_END) {
        let case = Case::read(part).ok_or(Problem::NotACase)?;
        show_case(&rt, &case)?;
    }
    Ok(())
}
