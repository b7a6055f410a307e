//! A law of workloads. The function does nothing: its contract is the law.
ghost use Rattle.std.specs.Prelude.{ℕ, ◌≤◌};
ghost use Rattle.workload.specs.Sound.{IsSound};

/// The module of at most 10000 rounds keeps the rules and the limits, and its counts are accepted.
pub fn workloads_are_sound()
    ensures { (n : ℕ) → n ≤ 10000 → IsSound n }
{}
