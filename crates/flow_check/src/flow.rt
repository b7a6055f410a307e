//! What is wrong with a flow.

ghost use Rattle.std.specs.Prelude.{◌≡◌, ◌≢◌, ◌==◌, ◌+◌, ◌<◌, ◌≤◌, ◌^◌, ◌+ℤ◌, ◌-ℤ◌, if◌then◌else◌, ℕ, pos, IsTrue, MatchOption, length};
ghost use Rattle.flow_net.specs.Network.{IsValid, IsWithin, IsBalanced, loads};
ghost use Rattle.flow_check.specs.Faults.{IsFirstAbove, IsFirstUnbalanced};
ghost use Rattle.flow_check.specs.Sums.{AreSums, IsFirstNonzero, IsRoomy, sum_at};

use flow_net::{Arc, Flow, Net};

/// What is wrong with a flow, if anything: `true` with the first arc whose amount is above its capacity, else `false`
/// with the first node but the source and the sink that isn't balanced. `sums` has a place for each node; what stands
/// there before and after says nothing. It takes linear time and no memory.
pub fn check_flow(net: &Net, flow: &Flow, sums: &mut [i128]) -> Option<(bool, u32)>
    requires valid { IsValid net.now }
    requires amounts { length flow.now.amounts.items ≡ length net.now.arcs.items }
    requires few { length net.now.arcs.items < 2 ^ 32 }
    requires sums { length sums.old ≡ net.now.nodes }
    ensures exact { MatchOption result (IsWithin net.now flow.now × IsBalanced net.now flow.now)
        (λ fault. (IsTrue fault.0 → IsFirstAbove net.now flow.now fault.1) × (¬ (IsTrue fault.0) → IsWithin net.now flow.now × IsFirstUnbalanced net.now flow.now fault.1)) }
    ensures places { length sums.new ≡ length sums.old }
{
    clear(sums);
    if let Some(arc) = add_amounts(net, flow, sums) {
        return Some((true, arc));
    }
    let node = first_unbalanced(net.nodes, sums)?;
    Some((false, node))
}

/// Makes each sum 0.
fn clear(sums: &mut [i128])
    ensures { (v : ℕ) → v < length sums.old → sum_at sums.new v ≡ pos 0 }
{
    for sum in sums.iter_mut() {
        *sum = 0;
    }
}

/// Takes each amount from the sum of the node where its arc begins, and adds it to that of the node where it ends. It
/// stops at the first arc whose amount is above its capacity.
fn add_amounts(net: &Net, flow: &Flow, sums: &mut [i128]) -> Option<u32>
    requires valid { IsValid net.now }
    requires amounts { length flow.now.amounts.items ≡ length net.now.arcs.items }
    requires few { length net.now.arcs.items < 2 ^ 32 }
    requires sums { length sums.old ≡ net.now.nodes }
    requires clear { (v : ℕ) → v < length sums.old → sum_at sums.old v ≡ pos 0 }
    ensures { MatchOption result (IsWithin net.now flow.now × AreSums (loads net.now flow.now) sums.new) (IsFirstAbove net.now flow.now) }
{
    for (index, arc) in net.arcs.iter().enumerate() {
        let amount = flow.amounts[index];
        if arc.cap < amount {
            return Some(index as u32);
        }
        add_amount(*arc, amount, sums);
    }
    None
}

/// Takes an amount from the sum of the node where an arc begins, and adds it to that of the node where it ends.
fn add_amount(arc: Arc, amount: u128, sums: &mut [i128])
    requires from { arc.from < length sums.old }
    requires to { arc.to < length sums.old }
    requires amount { amount < 2 ^ 120 }
    requires room { IsRoomy sums.old }
    ensures { (v : ℕ) → v < length sums.old → sum_at sums.new v ≡ sum_at sums.old v +ℤ pos (if arc.to == v then amount else 0) -ℤ pos (if arc.from == v then amount else 0) }
{
    sums[arc.from as usize] -= amount as i128;
    sums[arc.to as usize] += amount as i128;
}

/// The first of so many nodes, but the source and the sink, whose sum isn't 0.
fn first_unbalanced(nodes: u32, sums: &[i128]) -> Option<u32>
    requires { length sums.now ≡ nodes }
    ensures { MatchOption result ((v : ℕ) → 2 ≤ v → v < nodes → sum_at sums.now v ≡ pos 0) (IsFirstNonzero nodes sums.now) }
{
    for node in 2..nodes {
        if sums[node as usize] != 0 {
            return Some(node);
        }
    }
    None
}
