//! A blocking flow: more along paths of the fewest residual arcs, until none is left.

ghost use Rattle.std.specs.Prelude.{◌≡◌, ◌≢◌, ℕ, ◌+◌, ◌<◌, ◌≤◌, IfSome, IfNone, true, false, length, slice_index_or, take};
ghost use Rattle.flow_net.specs.Network.{IsValid, IsWithin, IsBalanced, IsMaximum, ReachesSink, loads, flow_value};
ghost use Rattle.flow_net.specs.Incidence.{IsIncidenceOf};
ghost use Rattle.flow_net.specs.Levels.{HasNodes, distance_of};
ghost use Rattle.max_flow.specs.Path.{StepsFrom, HasRoom, HasPath, IsNearer, IsStuck, AreDead, AreLevels, LeadsNowhere, RisesAbove, is_dead, end_of};
ghost use Rattle.max_flow.specs.Marking.{HasMarks, ArePassed};

use crate::pushing::{Step, augment, end, start};
use flow_net::incidence::Incidence;
use flow_net::levels::Distances;
use flow_net::{Flow, Net, no_way_is_maximum};

/// What a phase knows of the nodes.
#[derive(Drop)]
pub struct Marks {
    /// Whether a node leads to the sink no more.
    pub dead: Vec<bool>,
    /// The first of a node's arcs that may lead on.
    pub next: Vec<usize>,
}

/// A phase, in places that are lent to it.
pub fn fill(
    net: &Net,
    flow: &mut Flow,
    incidence: &Incidence,
    found: &mut Distances,
    marks: &mut Marks,
    path: &mut [Step],
) -> bool
    requires valid { IsValid net.now }
    requires within { IsWithin net.now flow.old }
    requires balanced { IsBalanced net.now flow.old }
    requires incidence { IsIncidenceOf net.now incidence.now }
    requires found { HasNodes net.now.nodes found.old }
    requires marks { HasMarks net.now.nodes marks.old }
    requires path { length path.old ≡ net.now.nodes }
    ensures found { HasNodes net.now.nodes found.new }
    ensures marks { HasMarks net.now.nodes marks.new }
    ensures within { IsWithin net.now flow.new }
    ensures balanced { IsBalanced net.now flow.new }
    ensures farther { result ≡ true → RisesAbove (loads net.now flow.old) (loads net.now flow.new) }
    ensures near { result ≡ true → (n : ℕ) × (n < net.now.nodes) × ReachesSink (loads net.now flow.old) n 0 }
    ensures last { result ≡ false → (flow.new ≡ flow.old) × IsMaximum net.now flow.old }
{
    found.search(net, flow, incidence);
    if !found.reached[0] {
        no_way_is_maximum();
        return false;
    }
    marks.reset(net.nodes);
    loop {
        if !advance(net, flow, incidence, found, marks, path) {
            return true;
        }
    }
}

impl Marks {
    /// No node is dead, and each begins with its first arc.
    fn reset(&mut self, nodes: u32)
        requires { HasMarks nodes self.old }
        ensures marks { HasMarks nodes self.new }
        ensures dead { (v : ℕ) → is_dead self.new.dead.items v ≡ false }
        ensures next { (v : ℕ) → slice_index_or self.new.next.items v 0 ≡ 0 }
    {
        for node in 0..nodes as usize {
            self.dead[node] = false;
            self.next[node] = 0;
        }
    }
}

/// Lets more go by one path, if there is one.
fn advance(
    net: &Net,
    flow: &mut Flow,
    incidence: &Incidence,
    found: &Distances,
    marks: &mut Marks,
    path: &mut [Step],
) -> bool
    requires valid { IsValid net.now }
    requires within { IsWithin net.now flow.old }
    requires balanced { IsBalanced net.now flow.old }
    requires incidence { IsIncidenceOf net.now incidence.now }
    requires levels { AreLevels net.now.nodes (loads net.now flow.old) found.now }
    requires small { (v : ℕ) → distance_of found.now v < net.now.nodes }
    requires dead { AreDead net.now.nodes (loads net.now flow.old) found.now marks.old.dead.items }
    requires passed { ArePassed net.now.nodes (loads net.now flow.old) found.now incidence.now marks.old }
    requires alive { is_dead marks.old.dead.items 0 ≡ false }
    requires path { length path.old ≡ net.now.nodes }
    ensures within { IsWithin net.now flow.new }
    ensures balanced { IsBalanced net.now flow.new }
    ensures levels { AreLevels net.now.nodes (loads net.now flow.new) found.now }
    ensures dead { AreDead net.now.nodes (loads net.now flow.new) found.now marks.new.dead.items }
    ensures passed { ArePassed net.now.nodes (loads net.now flow.new) found.now incidence.now marks.new }
    ensures more { result ≡ true → (flow_value net.now flow.old < flow_value net.now flow.new) × (is_dead marks.new.dead.items 0 ≡ false) }
    ensures over { result ≡ false → is_dead marks.new.dead.items 0 ≡ true }
{
    let Some(steps) = live_path(net, flow, incidence, found, marks, path) else {
        return false;
    };
    augment(net, flow, found, &path[..steps]);
    true
}

/// The length of a path from the source by nodes that aren't dead. From a node with no way on it goes back by one step, and
/// the node is dead.
fn live_path(
    net: &Net,
    flow: &Flow,
    incidence: &Incidence,
    found: &Distances,
    marks: &mut Marks,
    path: &mut [Step],
) -> Option<usize>
    requires valid { IsValid net.now }
    requires within { IsWithin net.now flow.now }
    requires incidence { IsIncidenceOf net.now incidence.now }
    requires levels { AreLevels net.now.nodes (loads net.now flow.now) found.now }
    requires small { (v : ℕ) → distance_of found.now v < net.now.nodes }
    requires dead { AreDead net.now.nodes (loads net.now flow.now) found.now marks.old.dead.items }
    requires passed { ArePassed net.now.nodes (loads net.now flow.now) found.now incidence.now marks.old }
    requires alive { is_dead marks.old.dead.items 0 ≡ false }
    requires path { length path.old ≡ net.now.nodes }
    ensures dead { AreDead net.now.nodes (loads net.now flow.now) found.now marks.new.dead.items }
    ensures passed { ArePassed net.now.nodes (loads net.now flow.now) found.now incidence.now marks.new }
    ensures inside { IfSome result (λ steps. steps ≤ length path.new) }
    ensures path { IfSome result (λ steps. HasPath net.now.arcs.items flow.now.amounts.items found.now (take steps path.new)) }
    ensures some { IfSome result (λ steps. is_dead marks.new.dead.items 0 ≡ false) }
    ensures none { IfNone result (is_dead marks.new.dead.items 0 ≡ true) }
{
    let mut steps = 0;
    let mut node = 0;
    while node != 1 {
        if let Some(step) = step_nearer(net, flow, incidence, found, marks, node) {
            path[steps] = step;
            steps += 1;
            node = end(net, step);
            continue;
        }
        marks.dead[node as usize] = true;
        if steps == 0 {
            return None;
        }
        steps -= 1;
        node = start(net, path[steps]);
    }
    Some(steps)
}

/// The first step with room from a node to one that is nearer to the sink and not dead. It begins with the node's first arc
/// that may lead on, and passes those that don't.
fn step_nearer(
    net: &Net,
    flow: &Flow,
    incidence: &Incidence,
    found: &Distances,
    marks: &mut Marks,
    node: u32,
) -> Option<Step>
    requires valid { IsValid net.now }
    requires within { IsWithin net.now flow.now }
    requires incidence { IsIncidenceOf net.now incidence.now }
    requires levels { AreLevels net.now.nodes (loads net.now flow.now) found.now }
    requires dead { length marks.old.dead.items ≡ net.now.nodes }
    requires passed { ArePassed net.now.nodes (loads net.now flow.now) found.now incidence.now marks.old }
    requires node { node < net.now.nodes }
    ensures dead { marks.new.dead ≡ marks.old.dead }
    ensures passed { ArePassed net.now.nodes (loads net.now flow.now) found.now incidence.now marks.new }
    ensures step { IfSome result (StepsFrom net.now.arcs.items found.now node) }
    ensures room { IfSome result (HasRoom net.now.arcs.items flow.now.amounts.items) }
    ensures alive { IfSome result (λ step. is_dead marks.old.dead.items (end_of net.now.arcs.items step) ≡ false) }
    ensures none { IfNone result (IsStuck (loads net.now flow.now) found.now marks.old.dead.items node) }
{
    let around = &incidence.arcs_at[node as usize];
    for place in marks.next[node as usize]..around.len() {
        marks.next[node as usize] = place;
        if let Some(step) = step_by(net, flow, found, &marks.dead, node, around[place]) {
            return Some(step);
        }
    }
    None
}

/// The step with room by an arc from a node to one that is nearer to the sink.
fn step_by(
    net: &Net,
    flow: &Flow,
    found: &Distances,
    dead: &[bool],
    node: u32,
    index: usize,
) -> Option<Step>
    requires valid { IsValid net.now }
    requires within { IsWithin net.now flow.now }
    requires levels { AreLevels net.now.nodes (loads net.now flow.now) found.now }
    requires dead { length dead.now ≡ net.now.nodes }
    requires node { node < net.now.nodes }
    requires index { index < length net.now.arcs.items }
    ensures step { IfSome result (StepsFrom net.now.arcs.items found.now node) }
    ensures room { IfSome result (HasRoom net.now.arcs.items flow.now.amounts.items) }
    ensures alive { IfSome result (λ step. is_dead dead.now (end_of net.now.arcs.items step) ≡ false) }
    ensures none { IfNone result (LeadsNowhere (loads net.now flow.now) found.now dead.now node index) }
{
    let arc = net.arcs[index];
    let amount = flow.amounts[index];
    if arc.from == node && amount < arc.cap && leads_on(found, dead, node, arc.to) {
        return Some(Step {
            arc: index,
            forward: true,
        });
    }
    if arc.to == node && 0 < amount && leads_on(found, dead, node, arc.from) {
        return Some(Step {
            arc: index,
            forward: false,
        });
    }
    None
}

/// Whether a node is reached, one nearer to the sink, and not dead.
fn leads_on(found: &Distances, dead: &[bool], node: u32, next: u32) -> bool
    requires node { node < length found.now.distance.items }
    requires next { next < length found.now.distance.items }
    requires same { length found.now.reached.items ≡ length found.now.distance.items }
    requires dead { length dead.now ≡ length found.now.distance.items }
    ensures yes { result ≡ true → IsNearer found.now node next × (is_dead dead.now next ≡ false) }
    ensures no { result ≡ false → IsNearer found.now node next → is_dead dead.now next ≡ true }
{
    found.reached[next as usize]
        && 0 < found.distance[node as usize]
        && found.distance[next as usize] == found.distance[node as usize] - 1
        && !dead[next as usize]
}
