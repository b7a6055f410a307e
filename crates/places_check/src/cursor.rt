//! A list of numbers, compared with bits one after another.
ghost use Rattle.std.specs.Prelude.{◌≡◌, ℕ, ◌+◌, ◌<◌, ◌^◌, ◌↔◌, IsTrue, List, [], ◌∷◌, true};
ghost use Rattle.best_placement.specs.Bits.{none};
ghost use Rattle.best_placement.specs.Shapes.{steps_from};

/// What is left of a list behind some bits, the number of the next bit, and whether each set bit so far was the next
/// number of the list. A number whose bit isn't set is never taken, so something is left in the end.
#[derive(Drop)]
pub struct Cursor<'p> {
    pub left: &'p [u32],
    pub next: u32,
    pub agrees: bool,
}

impl<'p> Cursor<'p> {
    ghost use Rattle.places_check.specs.Walked.{GoesPast, IsLeft};

    /// Before the first bit.
    pub fn new(list: &'p [u32]) -> Cursor<'p>
        ensures left { result.left.now ≡ list.now }
        ensures next { result.next ≡ 0 }
        ensures agrees { result.agrees ≡ true }
    {
        Cursor {
            left: list,
            next: 0,
            agrees: true,
        }
    }

    /// Takes the number of the next bit from the list.
    fn take_next(&mut self)
        ensures next { self.new.next ≡ self.old.next }
        ensures left { (rest : List ℕ) → (IsTrue self.old.agrees × (self.old.left.now ≡ self.old.next ∷ rest)) ↔ (IsTrue self.new.agrees × (self.new.left.now ≡ rest)) }
    {
        match self.left.split_first() {
            Some((first, rest)) => {
                self.agrees = self.agrees && *first == self.next;
                self.left = rest;
            }
            None => self.agrees = false,
        }
    }

    /// Goes past a bit.
    pub fn pass(&mut self, bit: bool)
        requires { self.old.next + 1 < 2 ^ 32 }
        ensures { GoesPast (bit ∷ []) self.old self.new }
    {
        if bit {
            self.take_next();
        }
        self.next += 1;
    }

    /// Goes past so many bits that aren't set.
    pub fn skip(&mut self, bits: u32)
        requires { self.old.next + bits < 2 ^ 32 }
        ensures { (edge point : ℕ) → GoesPast (none (steps_from edge point bits)) self.old self.new }
    {
        self.next += bits;
    }

    /// Whether the list is that of the numbers of the set bits.
    pub fn is_done(&self) -> bool
        ensures { IsTrue result ↔ IsLeft [] self.now }
    {
        self.agrees && self.left.is_empty()
    }
}
