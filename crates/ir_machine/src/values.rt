//! Lists of numbers.
ghost use Rattle.std.specs.Prelude.{◌≡◌, ◌<◌, ◌-◌, [], ◌∷◌, ◌++◌, length, take, replicate, slice_index, slice_set, IfOk, OnOk, OnErr};

use std::alloc::{AllocError, Global};
use std::marker::Model;

/// Numbers by their places, counted from 0. Contracts see them as a list.
#[derive(Debug, Drop)]
pub struct Values {
    numbers: Vec<u64>,
}

impl Model for Values {
    ghost use Rattle.std.specs.Prelude.{List, ℕ};

    ghost Value = { List ℕ };

    ghost view = { λ values. values.numbers.items };
}

impl Values {
    /// No numbers. It takes no memory.
    pub fn new(alloc: Global) -> Values
        ensures { result ≡ [] }
    {
        Values {
            numbers: Vec::new(alloc),
        }
    }

    /// `count` zeros. `AllocError` where an allocation was refused.
    pub fn zeros(alloc: Global, count: usize) -> Result<Values, AllocError>
        ensures { IfOk result (λ values. values ≡ replicate count 0) }
    {
        let numbers = vec![in alloc; 0; count]?;
        Ok(Values { numbers })
    }

    /// How many numbers there are.
    pub fn len(&self) -> usize
        ensures { result ≡ length self.now }
    {
        self.numbers.len()
    }

    /// The number at a place; 0 behind the last.
    pub fn get(&self, place: u32) -> u64
        ensures { result ≡ slice_index self.now place }
    {
        self.numbers.get(place as usize).copied().unwrap_or(0)
    }

    /// Puts a number at a place; nothing changes where the place is behind the last.
    pub fn set(&mut self, place: u32, value: u64)
        ensures { self.new ≡ slice_set self.old place value }
    {
        if (place as usize) < self.numbers.len() {
            self.numbers[place as usize] = value;
        }
    }

    /// Puts a number in place of the last.
    pub fn set_last(&mut self, value: u64)
        requires { 0 < length self.old }
        ensures { self.new ≡ take (length self.old - 1) self.old ++ value ∷ [] }
    {
        let last = self.numbers.len() - 1;
        self.numbers[last] = value;
    }

    /// Adds a number at the end. `AllocError` where an allocation was refused; nothing is changed then.
    pub fn push(&mut self, value: u64) -> Result<(), AllocError>
        ensures ok { OnOk result (self.new ≡ self.old ++ value ∷ []) }
        ensures err { OnErr result (self.new ≡ self.old) }
    {
        self.numbers.push(value)?;
        Ok(())
    }

    /// Takes all numbers out; their room stays.
    pub fn clear(&mut self)
        ensures { self.new ≡ [] }
    {
        self.numbers.clear();
    }
}
