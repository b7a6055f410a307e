//! The place of a part of a certificate, put in pieces.
ghost use Rattle.std.specs.Prelude.{◌≡◌};
ghost use Rattle.mc_host.specs.Streams.{Puts};
ghost use Rattle.call_lines.specs.Reasons.{key_text, path_text, under};

use certificate::{CertKey, CertPath};
use itoa::Buffer;
use mc_host::{Failed, Sink, put_all};

/// Puts a name and a number, if there is a number.
fn put_number<S: Sink>(sink: &mut S, name: &[u8], number: Option<u64>) -> Result<(), Failed>
    ensures { Puts (under name.now number) result (S.state sink.old) (S.state sink.new) }
{
    match number {
        Some(number) => {
            let mut digits = Buffer::new();
            put_all(sink, &[name, digits.format(number).as_bytes()])
        }
        None => Ok(()),
    }
}

fn key_name<'a>(key: CertKey) -> &'a [u8]
    ensures { result.now ≡ key_text key }
{
    match key {
        CertKey::Whole => b"/",
        CertKey::Version => b"/version",
        CertKey::Functions => b"/functions",
        CertKey::Expressions => b"/expressions",
        CertKey::Flow => b"/flow",
        CertKey::Inserted => b"/inserted",
        CertKey::Kept => b"/kept",
        CertKey::Ranks => b"/ranks",
    }
}

/// Puts a place, as `/functions/0/expressions/1/flow/3`.
pub fn put_path<S: Sink>(sink: &mut S, path: CertPath) -> Result<(), Failed>
    ensures { Puts (path_text path) result (S.state sink.old) (S.state sink.new) }
{
    put_number(sink, b"/functions/", path.function)?;
    put_number(sink, b"/expressions/", path.expression)?;
    sink.put(key_name(path.key))?;
    put_number(sink, b"/", path.index)
}
