//! The operands of an expression.
ghost use Rattle.std.specs.Prelude.{◌≡◌, [], ◌∷◌, ◌++◌, OnOk, OnErr};
ghost use Rattle.std.specs.Cmp.Lexicographic.{pointwise, lists_per, lists_equiv};
ghost use Rattle.std.specs.Hash as fed;
ghost use Rattle.std.specs.Hash.{items_Alike};

use crate::syntax::Arg;
use smallvec::SmallVec;
use std::alloc::{AllocError, Global};
use std::hash::{Hash, Hasher};
use std::marker::Model;

/// The operands of an expression, of which up to three take no memory. Contracts see them as a list.
#[derive(Debug, Drop)]
pub struct Args {
    items: SmallVec<Arg, 3>,
}

impl Model for Args {
    ghost use Rattle.std.specs.Prelude.{List};
    ghost use Rattle.expressions.specs.declared.syntax.Arg.{Arg};

    ghost Value = { List Arg };

    ghost view = { λ args. args.items.items };
}

impl Args {
    /// No operands. It takes no memory.
    pub fn new(alloc: Global) -> Args
        ensures { result ≡ [] }
    {
        Args {
            items: SmallVec::new(alloc),
        }
    }

    /// The operands, in order.
    pub fn as_slice(&self) -> &[Arg]
        ensures { result.now ≡ self.now }
    {
        self.items.as_slice()
    }

    /// Adds `arg` at the end. `AllocError` where an allocation was refused; the list is then unchanged.
    pub fn push(&mut self, arg: Arg) -> Result<(), AllocError>
        ensures ok { OnOk result (self.new ≡ self.old ++ arg ∷ []) }
        ensures err { OnErr result (self.new ≡ self.old) }
    {
        self.items.push(arg)?;
        Ok(())
    }
}

impl PartialEq for Args {
    ghost use Rattle.expressions.specs.contracts.syntax.ArgPartialEq.TheImpl.{eq-value};
    ghost use Rattle.expressions.specs.contracts.syntax.ArgPartialEq.TheImpl.Laws.{laws-law};

    ghost eq = { pointwise eq-value.it };

    ghost laws = { lists_per laws-law };

    fn eq(&self, other: &Args) -> bool {
        self.items == other.items
    }
}

impl Eq for Args {
    ghost use Rattle.expressions.specs.contracts.syntax.ArgEq.TheImpl.Laws.{laws-law};

    ghost laws = { lists_equiv laws-law };
}

impl Hash for Args {
    ghost use Rattle.expressions.specs.contracts.syntax.ArgHash.TheImpl.{hash_input-value};
    ghost use Rattle.expressions.specs.contracts.syntax.ArgHash.TheImpl.Laws.{respects_eq-law};

    ghost hash_input = { fed.slice hash_input-value.it };

    ghost respects_eq = { (items_Alike (record { fed = respects_eq-law })).fed };

    fn hash<H: Hasher>(&self, state: &mut H) {
        self.items.hash(state);
    }
}
