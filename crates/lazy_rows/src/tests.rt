//! Where divisions are inserted and kept.

use crate::placing::lazy_at;
use crate::sources::{arm, barred, looping, twice};
use placement::Placement;
use std::alloc::{AllocError, Global};
use std::test::Fail;

/// The numbers of the edges where an expression is inserted, and of the points where it is kept.
fn told(alloc: Global, name: &str, placement: &Placement) -> Result<String, AllocError> {
    let inserted = placement.inserted.as_slice();
    let kept = placement.kept.as_slice();
    format!(in alloc; "{name}: inserted {inserted:?}, kept {kept:?}\n")
}

#[test]
fn divisions(rt: HostRuntime) -> Result<(), Fail> {
    let alloc = rt.alloc();
    let rows = [
        ("arm", arm(), 1, 1),
        ("barred", barred(), 2, 1),
        ("twice", twice(), 0, 0),
        ("looping", looping(), 0, 2),
    ];
    let mut text = String::new(alloc);
    for (name, source, number, e) in rows {
        let placement = lazy_at(alloc, source.as_bytes(), number, e)?.ok_or("no expression")?;
        text.push_str(&told(alloc, name, &placement)?)?;
    }
    assert_eq!(rt;
        text.as_str(),
        "\
arm: inserted [17], kept [12]
barred: inserted [], kept [12, 21]
twice: inserted [], kept [4]
looping: inserted [], kept [15]
"
    );
    Ok(())
}
