//! Flags that hold on every path.

ghost use Rattle.dataflow.specs.Flags.{flag_height, flag_laws, met_flags};

use crate::lattice::Meet;

/// Whether something holds on every path. Any two flags are alike, and both are set where their meet is.
#[derive(Clone, Copy, Debug, PartialEq, Eq)]
pub struct Flag {
    pub set: bool,
}

impl Meet for Flag {
    ghost Alike = { λ x y. Unit {0} };

    ghost met = { met_flags };

    ghost height_of = { flag_height };

    fn meet(&mut self, other: &Self) -> bool {
        let changed = self.set && !other.set;
        self.set = self.set && other.set;
        changed
    }

    fn height(&self) -> u64 {
        if self.set { 1 } else { 0 }
    }

    ghost laws = { flag_laws };
}
