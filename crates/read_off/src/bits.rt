//! Lists of numbers made bit by bit.
ghost use Rattle.std.specs.Prelude.{◌≡◌, ◌+◌, ◌<◌, ◌^◌, [], ◌∷◌, IfOk};

use mc_num::NoMemory;
use std::alloc::Global;

/// The numbers of the set bits of a list that grows, and the number of its next bit.
#[derive(Drop)]
pub struct SetBits {
    pub numbers: Vec<u32>,
    pub next: u32,
}

impl SetBits {
    ghost use Rattle.read_off.specs.Bits.{Adds};

    /// No bit yet.
    pub fn new(alloc: Global) -> SetBits
        ensures numbers { result.numbers.items ≡ [] }
        ensures next { result.next ≡ 0 }
    {
        SetBits {
            numbers: Vec::new(alloc),
            next: 0,
        }
    }

    /// One more bit.
    pub fn add(&mut self, bit: bool) -> Result<(), NoMemory>
        requires { self.old.next + 1 < 2 ^ 32 }
        ensures { IfOk result (λ _. Adds (bit ∷ []) self.old self.new) }
    {
        if bit {
            self.numbers.push(self.next)?;
        }
        self.next += 1;
        Ok(())
    }
}
