//! The function that a run begins with.
ghost use Rattle.std.specs.Prelude.{◌≡◌, ◌<◌, length, IfSome, option_map, IsTrue};
ghost use Rattle.ir_types.specs.WellFormed.{IsWellFormed};
ghost use Rattle.interp.specs.Main.{is_main, main_of};

use ir_types::module::Module;
use ir_types::syntax::Function;

fn is_main(function: &Function<'_>) -> bool
    ensures { result ≡ is_main function.now }
{
    function.name.bytes() == b"main".as_slice()
        && function.params.len() == 0
        && function.blocks.len() != 0
}

/// The number of the module's `main`: its first defined function of that name without parameters, counted from 0. No memory.
pub fn main_of(program: &Module<'_>) -> Option<u32>
    ensures number { result ≡ option_map (λ main. main.0) (main_of program.now) }
    ensures rules { IsWellFormed program.now }
    ensures within { IfSome result (λ number. number < length program.now.functions) }
{
    for (number, function) in program.functions().iter().enumerate() {
        if is_main(function) {
            return Some(number as u32);
        }
    }
    None
}
