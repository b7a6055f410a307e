//! The placement that `solve` gives.
ghost use Rattle.std.specs.Prelude.{◌≡◌, ◌<◌};
ghost use Rattle.solve_rows.specs.Asking.{IsAsked};

use crate::question::Question;
use max_flow::Steps;
use mc_num::NoMemory;
use mc_solve::solve;
use placement::Placement;
use std::alloc::Global;
use std::marker::Brand;
use std::sync::ledger::{Blank, Ledger};

/// The placement that `solve` gives.
pub fn solved(alloc: Global, question: &Question<'_, '_>) -> Result<Placement, NoMemory>
    requires { IsAsked question.now }
{
    solved_on::<Brand>(alloc, Blank::new(1), question)
}

fn solved_on<L: Ledger>(
    alloc: Global,
    blank: Blank,
    question: &Question<'_, '_>,
) -> Result<Placement, NoMemory>
    requires name { blank.name ≡ L.name }
    requires parts { blank.parts ≡ L.parts }
    requires some { 0 < blank.parts }
    requires asked { IsAsked question.now }
{
    let Question {
        function,
        points,
        table,
        counts,
        e,
    } = *question;
    let mut steps = Steps::<L>::new(blank);
    let solved = solve(alloc, function, points, table, e, counts, &mut steps)?;
    Ok(solved.placement)
}
