//! Bytes that are put piece by piece.
ghost use Rattle.std.specs.Prelude.{map};
ghost use Rattle.std.specs.List.{concat};
ghost use Rattle.mc_host.specs.Streams.{Puts};

use crate::{Failed, Sink};

/// Puts the pieces one after another, up to the first that fails. It takes no memory of its own.
///
/// `Failed` comes only where the sink's count of faults rose in this call; a first part of the pieces' bytes was then
/// added.
pub fn put_all<S: Sink>(sink: &mut S, pieces: &[&[u8]]) -> Result<(), Failed>
    ensures { Puts (concat (map (λ piece. piece.now) pieces.now)) result (S.state sink.old) (S.state sink.new) }
{
    for piece in pieces {
        sink.put(piece)?;
    }
    Ok(())
}
