//! Graphs by the arcs that lead to each point.
ghost use Rattle.std.specs.Prelude.{◌≡◌, ◌<◌, ◌^◌, ◌↔◌, ℕ, All, Contains, IfOk, length};
ghost use Rattle.flow_paths.specs.Paths.{source, target, ArcsWithin};
ghost use Rattle.live_search.specs.Leading.{LeadsTo};
ghost use Rattle.live_search.specs.Searching.{AreLinked, IsLast};

use crate::search::found_from;
use indexmap::IndexSet;
use mc_num::NoMemory;
use std::alloc::Global;
use std::marker::Model;

/// A graph that knows the arcs to each of its points. An arc is the point where it begins and the point where it ends.
/// Contracts see it as the number of its points and the list of its arcs.
#[derive(Drop)]
pub struct Incoming {
    arcs: Vec<(u32, u32)>,
    links: Links,
}

impl Model for Incoming {
    ghost use Rattle.std.specs.Prelude.{length};
    ghost use Rattle.live_search.specs.Leading.{Graph};
    ghost use Rattle.live_search.specs.Searching.{IsWhole};

    ghost Value = { Graph };

    ghost view = { λ g. record { points = length g.links.last.items; arcs = g.arcs.items } };

    ghost invariant = { λ g. IsWhole g.arcs.items g.links.last.items g.links.before.items };
}

/// The arcs that lead to the same point as a chain from the last one to the first. So a graph needs two tables,
/// however many points it has.
#[derive(Drop)]
struct Links {
    /// For each point the last arc that leads to it.
    last: Vec<Option<u32>>,
    /// For each arc the last one before it that leads to the same point.
    before: Vec<Option<u32>>,
}

/// The chains of these arcs between `points` points.
fn linked(alloc: Global, points: usize, arcs: &[(u32, u32)]) -> Result<Links, NoMemory>
    requires within { ArcsWithin arcs.now points }
    requires few { length arcs.now < 2 ^ 32 }
    ensures points { IfOk result (λ links. length links.last.items ≡ points) }
    ensures linked { IfOk result (λ links. AreLinked arcs.now (length arcs.now) links.last.items links.before.items) }
{
    let mut last = vec![in alloc; None; points]?;
    let mut before = Vec::new(alloc);
    for (arc, (_, to)) in arcs.iter().enumerate() {
        before.push(last[*to as usize])?;
        last[*to as usize] = Some(arc as u32);
    }
    Ok(Links { last, before })
}

impl Incoming {
    /// The graph of `points` points with these arcs. Linear time. `NoMemory` where an allocation was refused.
    pub fn new(alloc: Global, points: usize, arcs: Vec<(u32, u32)>) -> Result<Incoming, NoMemory>
        requires within { ArcsWithin arcs.items points }
        requires few { length arcs.items < 2 ^ 32 }
        ensures points { IfOk result (λ graph. graph.points ≡ points) }
        ensures arcs { IfOk result (λ graph. graph.arcs ≡ arcs.items) }
    {
        let links = linked(alloc, points, arcs.as_slice())?;
        Ok(Incoming { arcs, links })
    }

    /// Law: the arcs join points of the graph.
    pub(crate) fn arcs_join_points(&self)
        ensures { ArcsWithin self.now.arcs self.now.points }
    {
        let _ = &self.arcs;
    }

    /// The last arc that leads to a point.
    pub(crate) fn last_arc_to(&self, point: usize) -> Option<u32>
        requires { point < self.now.points }
        ensures { IsLast self.now.arcs (length self.now.arcs) point result }
    {
        self.links.last[point]
    }

    /// The last arc before this one that leads to the same point.
    pub(crate) fn arc_before(&self, arc: u32) -> Option<u32>
        requires { arc < length self.now.arcs }
        ensures { IsLast self.now.arcs arc (target self.now.arcs arc) result }
    {
        self.links.before[arc as usize]
    }

    /// The point where an arc begins.
    pub(crate) fn begin_of(&self, arc: u32) -> u32
        requires { arc < length self.now.arcs }
        ensures { result ≡ source self.now.arcs arc }
    {
        let (from, _) = self.arcs[arc as usize];
        from
    }

    /// The points from which some path leads to one of the goals and meets none of the barred points and arcs before it;
    /// a goal leads to itself. Only the points that are found and the arcs to them are looked at. `NoMemory` where an
    /// allocation was refused.
    pub fn leading_to(
        &self,
        alloc: Global,
        goals: &[u32],
        barred_points: &IndexSet<usize>,
        barred_arcs: &IndexSet<usize>,
    ) -> Result<IndexSet<usize>, NoMemory>
        requires { All (λ v. v < self.now.points) goals.now }
        ensures { IfOk result (λ found. (v : ℕ) → Contains found.keys v ↔ LeadsTo self.now barred_points.now.keys barred_arcs.now.keys goals.now v) }
    {
        found_from(alloc, self, goals, barred_points, barred_arcs)
    }
}
