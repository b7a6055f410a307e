//! The texts of a workload.
ghost use Rattle.std.specs.Prelude.{◌≡◌, ◌≤◌, IfOk};
ghost use Rattle.ir_printer.specs.Text.{text_of};
ghost use Rattle.profile.specs.Text.{prof_text};
ghost use Rattle.workload.specs.Workload.{workload_program, workload_counts};

use ir_printer::print;
use mc_num::NoMemory;
use profile::print_profile;
use std::alloc::Global;
use workload::{Counted, names, workload, workloads_are_sound};

/// The text of a module, and that of its profile.
#[derive(Debug, Drop)]
pub struct Workload {
    pub module: Vec<u8>,
    pub profile: Vec<u8>,
}

/// The texts of a module and its profile.
fn texts(alloc: Global, n: u32, made: &Counted<'_>) -> Result<Workload, NoMemory>
    requires few { n ≤ 10000 }
    requires module { made.now.module ≡ workload_program n }
    requires counts { made.now.counts.functions ≡ workload_counts n }
    ensures module { IfOk result (λ texts. texts.module.items ≡ text_of (workload_program n)) }
    ensures profile { IfOk result (λ texts. texts.profile.items ≡ prof_text (workload_program n) (workload_counts n)) }
{
    workloads_are_sound();
    let module = print(alloc, &made.module)?;
    let profile = print_profile(alloc, &made.module, &made.counts)?;
    Ok(Workload { module, profile })
}

/// The texts of the module of `n` diamonds, one behind another, and of its profile. Both are accepted, by the law
/// `workloads_are_accepted`.
///
/// `NoMemory` where an allocation was refused.
pub fn make(alloc: Global, n: u32) -> Result<Workload, NoMemory>
    requires some { 1 ≤ n }
    requires few { n ≤ 10000 }
    ensures module { IfOk result (λ made. made.module.items ≡ text_of (workload_program n)) }
    ensures profile { IfOk result (λ made. made.profile.items ≡ prof_text (workload_program n) (workload_counts n)) }
{
    let names = names(alloc, n)?;
    let made = workload(alloc, n, &names)?;
    texts(alloc, n, &made)
}
