//! A law of what is generated. The function does nothing: its contract is the law.
ghost use Rattle.std.specs.Prelude.{ℕ, ◌≤◌};
ghost use Rattle.generate.specs.Accepted.{AreAccepted};

use ir_reader::reads_back;
use workload::workloads_are_sound;

/// The texts of a workload are short enough to be read, the module's reads as the module, and the profile's as its
/// counts.
pub fn workloads_are_accepted()
    ensures { (n : ℕ) → 1 ≤ n → n ≤ 10000 → AreAccepted n }
{
    workloads_are_sound();
    reads_back();
    profile::reads_back();
}
