//! Names and the first prefix that is none of theirs.

use fresh_prefix::fresh_prefix;
use ir_types::items::Items;
use ir_types::name::{Made, Name, Spelling};
use ir_types::syntax::Function;
use mc_num::Width;
use std::alloc::{AllocError, Global};
use std::test::Fail;

/// A declaration with parameters of these names.
fn with_names<'a>(alloc: Global, texts: &[&'a [u8]]) -> Result<Function<'a>, AllocError> {
    let mut params = Items::new(alloc);
    for text in texts {
        params.push((Width::I32, Name::Text(Spelling::new(*text))))?;
    }
    Ok(Function {
        name: Spelling::new(b"f".as_slice()),
        ret: None,
        params,
        vars: Items::new(alloc),
        blocks: Items::new(alloc),
    })
}

#[test]
fn texts_take_their_prefixes(rt: HostRuntime) -> Result<(), Fail> {
    let alloc = rt.alloc();
    let none = with_names(alloc, &[])?;
    assert_eq!(rt; fresh_prefix(alloc, &none)?, 0);
    let two = [
        b"pre1.b2".as_slice(),
        b"pre.".as_slice(),
        b"pre3.7".as_slice(),
    ];
    assert_eq!(rt; fresh_prefix(alloc, &with_names(alloc, &two)?)?, 2);
    let others = [
        b"pre".as_slice(),
        b"prefix.".as_slice(),
        b"pre0.1".as_slice(),
    ];
    assert_eq!(rt; fresh_prefix(alloc, &with_names(alloc, &others)?)?, 0);
    let leading = [b"pre.0".as_slice(), b"pre01.".as_slice()];
    assert_eq!(rt; fresh_prefix(alloc, &with_names(alloc, &leading)?)?, 1);
    Ok(())
}

#[test]
fn made_names_take_theirs(rt: HostRuntime) -> Result<(), Fail> {
    let alloc = rt.alloc();
    let mut function = with_names(alloc, &[b"pre1.x".as_slice()])?;
    function
        .vars
        .push((Width::I32, Name::Made(0, Made::Temp { x: 4 })))?;
    assert_eq!(rt; fresh_prefix(alloc, &function)?, 2);
    Ok(())
}
