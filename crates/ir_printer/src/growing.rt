//! A text that grows in memory, as a sink.
ghost use Rattle.std.specs.Prelude.{◌≡◌, []};
ghost use Rattle.mc_host.specs.Streams.{Puts};
ghost use Rattle.ir_printer.specs.Growing.{told_text};

use mc_host::{Failed, Sink};
use std::alloc::Global;
use std::marker::Model;

/// The bytes so far. It fails where a growth is refused.
#[derive(Drop)]
pub(crate) struct Text {
    bytes: Vec<u8>,
    faults: u64,
}

impl Model for Text {
    ghost use Rattle.ir_printer.specs.Growing.{Growing};

    ghost Value = { Growing };

    ghost view = { λ t. record { written = t.bytes.items; faults = t.faults } };
}

impl Text {
    pub(crate) fn new(alloc: Global) -> Text
        ensures { result ≡ record { written = []; faults = 0 } }
    {
        Text {
            bytes: Vec::new(alloc),
            faults: 0,
        }
    }

    pub(crate) fn into_bytes(self) -> Vec<u8>
        ensures { result.items ≡ self.written }
    {
        let Text { bytes, faults: _ } = self;
        bytes
    }
}

impl Sink for Text {
    ghost state = { told_text };

    fn put(&mut self, bytes: &[u8]) -> Result<(), Failed>
        ensures { Puts bytes.now result (told_text self.old) (told_text self.new) }
    {
        match self.bytes.extend_from_slice(bytes) {
            Ok(()) => Ok(()),
            Err(_) => {
                self.faults = self.faults.saturating_add(1);
                Err(Failed)
            }
        }
    }
}
