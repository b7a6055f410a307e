//! How the canonical text spells a name.
ghost use Rattle.std.specs.Prelude.{◌++◌, codes};
ghost use Rattle.mc_host.specs.Streams.{Puts};
ghost use Rattle.ir_types.specs.Names.{name_text, prefix, parts, quoted_text};

use ir_types::bytes::is_plain_name;
use ir_types::name::{Made, Name};
use itoa::Buffer;
use mc_host::{Failed, Sink, put_all};

/// Puts a text, between quotes where it is no plain name.
pub(crate) fn text_to<S: Sink>(bytes: &[u8], sink: &mut S) -> Result<(), Failed>
    ensures { Puts (quoted_text bytes.now) result (S.state sink.old) (S.state sink.new) }
{
    if is_plain_name(bytes) {
        return sink.put(bytes);
    }
    put_all(sink, &[b"\"", bytes, b"\""])
}

/// A made name with its prefix, whose own number is not written where it is 0.
fn made_to<S: Sink>(prefix: &str, made: Made, sink: &mut S) -> Result<(), Failed>
    ensures { Puts ((codes "pre" ++ (prefix.now ++ codes ".")) ++ parts made) result (S.state sink.old) (S.state sink.new) }
{
    let mut first = Buffer::new();
    let mut second = Buffer::new();
    let mut third = Buffer::new();
    match made {
        Made::Temp { x } => put_all(
            sink,
            &[b"pre", prefix.as_bytes(), b".", first.format(x).as_bytes()],
        ),
        Made::Sum { x, p } => put_all(
            sink,
            &[
                b"pre",
                prefix.as_bytes(),
                b".",
                first.format(x).as_bytes(),
                b".",
                second.format(p).as_bytes(),
            ],
        ),
        Made::Operand { x, p, i } => put_all(
            sink,
            &[
                b"pre",
                prefix.as_bytes(),
                b".",
                first.format(x).as_bytes(),
                b".",
                second.format(p).as_bytes(),
                b".",
                third.format(i).as_bytes(),
            ],
        ),
        Made::Split { p } => put_all(
            sink,
            &[
                b"pre",
                prefix.as_bytes(),
                b".b.",
                first.format(p).as_bytes(),
            ],
        ),
    }
}

/// Puts the name as the canonical text spells it, without its `%` or `@`: a text between quotes where it is no plain
/// name. It takes no memory of its own.
///
/// `Failed` comes only where the sink's count of faults rose in this call; a first part of the name was then added.
pub fn name_to<S: Sink>(name: &Name<'_>, sink: &mut S) -> Result<(), Failed>
    ensures { Puts (name_text name.now) result (S.state sink.old) (S.state sink.new) }
{
    let mut digits = Buffer::new();
    match name {
        Name::Text(spelling) => text_to(spelling.bytes(), sink),
        Name::Number(number) => sink.put(digits.format(*number).as_bytes()),
        Name::Made(prefix, made) => {
            if *prefix == 0 {
                return made_to("", *made, sink);
            }
            made_to(digits.format(*prefix), *made, sink)
        }
    }
}
