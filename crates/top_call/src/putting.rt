//! What is put on the standard output.
ghost use Rattle.std.specs.Prelude.{◌≡◌, IfErr, IfOk};
ghost use Rattle.call_lines.specs.declared.ending.Done.TheVariants.{Written};
ghost use Rattle.top_call.specs.Report.{HasPut};
ghost use Rattle.top_call.specs.Stops.{StopsPutting};

use call_lines::{Done, Stop};
use mc_host::Sink;

/// Puts a text on the standard output.
pub(crate) fn put_text<'a, O: Sink>(out: &mut O, text: &[u8]) -> Result<Done, Stop<'a>>
    ensures written { IfOk result (λ done. done ≡ Written) }
    ensures put { IfOk result (λ _. HasPut text.now (O.state out.old) (O.state out.new)) }
    ensures stops { IfErr result (StopsPutting text.now (O.state out.old) (O.state out.new)) }
{
    match out.put(text) {
        Ok(()) => Ok(Done::Written),
        Err(_) => Err(Stop::WriteFault {
            name: "standard output",
        }),
    }
}
