//! A text that grows in memory, piece by piece.
ghost use Rattle.std.specs.Prelude.{◌≡◌, ◌++◌, [], OnOk, OnErr};
ghost use Rattle.std.specs.Fmt.{decimal};
ghost use Rattle.mc_host.specs.Streams.{Puts};
ghost use Rattle.growing_text.specs.Growing.{told_text};

use itoa::Buffer;
use mc_host::{Failed, Sink};
use mc_num::NoMemory;
use std::alloc::Global;
use std::marker::Model;

/// The bytes so far. As a sink it fails where a growth was refused.
#[derive(Drop)]
pub struct Text {
    bytes: Vec<u8>,
    faults: u64,
}

impl Model for Text {
    ghost use Rattle.growing_text.specs.Growing.{Growing};

    ghost Value = { Growing };

    ghost view = { λ t. record { written = t.bytes.items; faults = t.faults } };
}

impl Text {
    /// The empty text. It takes no memory.
    pub fn new(alloc: Global) -> Text
        ensures { result ≡ record { written = []; faults = 0 } }
    {
        Text {
            bytes: Vec::new(alloc),
            faults: 0,
        }
    }

    /// The bytes of the text. It takes no memory.
    pub fn into_bytes(self) -> Vec<u8>
        ensures { result.items ≡ self.written }
    {
        let Text { bytes, faults: _ } = self;
        bytes
    }

    /// Adds these bytes at the end.
    ///
    /// `NoMemory` where an allocation was refused; the text is then as before.
    pub fn put(&mut self, bytes: &[u8]) -> Result<(), NoMemory>
        ensures ok { OnOk result (self.new.written ≡ self.old.written ++ bytes.now) }
        ensures err { OnErr result (self.new.written ≡ self.old.written) }
    {
        self.bytes.extend_from_slice(bytes)?;
        Ok(())
    }

    /// Adds the decimal digits of a number at the end, without leading zeros.
    ///
    /// `NoMemory` where an allocation was refused; the text is then as before.
    pub fn put_number(&mut self, number: u128) -> Result<(), NoMemory>
        ensures ok { OnOk result (self.new.written ≡ self.old.written ++ decimal number) }
        ensures err { OnErr result (self.new.written ≡ self.old.written) }
    {
        let mut digits = Buffer::new();
        self.put(digits.format(number).as_bytes())
    }
}

impl Sink for Text {
    ghost state = { told_text };

    fn put(&mut self, bytes: &[u8]) -> Result<(), Failed>
        ensures { Puts bytes.now result (told_text self.old) (told_text self.new) }
    {
        match self.bytes.extend_from_slice(bytes) {
            Ok(()) => Ok(()),
            Err(_) => {
                self.faults = self.faults.saturating_add(1);
                Err(Failed)
            }
        }
    }
}
