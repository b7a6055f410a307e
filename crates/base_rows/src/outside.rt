//! Answers of the forms of the outside in memory.

use mc_host::{
    Failed, FirmHost, FirmSink, FirmSource, Host, HostError, MemHost, MemSink, MemSource, Sink,
    Source,
};
use std::alloc::{AllocError, Global};
use std::test::Fail;

// The files of a host that has `a` alone.
fn one_file(alloc: Global) -> Result<Vec<(String, Vec<u8>)>, AllocError> {
    let mut files = Vec::new(alloc);
    let content = Vec::from_slice(alloc, b"abcde")?;
    files.push((String::from_str(alloc, "a")?, content))?;
    Ok(files)
}

#[test]
fn hosts_read_up_to_one_byte_more_than_the_limit(rt: HostRuntime) -> Result<(), Fail> {
    let alloc = rt.alloc();
    let mut host = MemHost::new(one_file(alloc)?, Vec::new(alloc));
    let mut firm = FirmHost::new(one_file(alloc)?);
    for (limit, text) in [
        (9, "abcde"),
        (5, "abcde"),
        (4, "abcde"),
        (3, "abcd"),
        (0, "a"),
    ] {
        assert_eq!(rt;
            host.read(alloc, "a", limit)?.as_slice(),
            text.as_bytes(),
            "at {limit}"
        );
        assert_eq!(rt;
            firm.read(alloc, "a", limit)?.as_slice(),
            text.as_bytes(),
            "at {limit}"
        );
    }
    assert_eq!(rt; firm.read(alloc, "b", 9)?.len(), 0);
    assert!(rt; firm.file("b").is_none());
    Ok(())
}

#[test]
fn hosts_keep_what_is_written(rt: HostRuntime) -> Result<(), Fail> {
    let alloc = rt.alloc();
    let mut host = MemHost::new(one_file(alloc)?, [2, 3].to_vec(alloc)?);
    let mut firm = FirmHost::new(one_file(alloc)?);
    for (name, text) in [("a", "xyz"), ("b", "")] {
        host.write(alloc, name, text.as_bytes())?;
        firm.write(alloc, name, text.as_bytes())?;
        assert_eq!(rt;
            host.file(name).unwrap_or(b"none"),
            text.as_bytes(),
            "in {name}"
        );
        assert_eq!(rt;
            firm.file(name).unwrap_or(b"none"),
            text.as_bytes(),
            "in {name}"
        );
    }
    assert!(rt; host.write(alloc, "a", b"12345") == Err(HostError::Failed));
    assert_eq!(rt; host.file("a").unwrap_or(b"none"), b"12".as_slice());
    assert!(rt; matches!(host.read(alloc, "a", 9), Err(HostError::Failed)));
    assert!(rt; matches!(host.read(alloc, "c", 9), Err(HostError::Failed)));
    assert_eq!(rt; host.read(alloc, "a", 9)?.as_slice(), b"12".as_slice());
    Ok(())
}

#[test]
fn sources_give_their_bytes(rt: HostRuntime) -> Result<(), Fail> {
    let alloc = rt.alloc();
    let mut source = MemSource::new(Vec::from_slice(alloc, b"ab")?, [1].to_vec(alloc)?);
    for answer in [
        Ok(Some(b'a')),
        Err(Failed),
        Ok(Some(b'b')),
        Ok(None),
        Ok(None),
    ] {
        assert!(rt; source.next() == answer);
    }
    let mut firm = FirmSource::new(Vec::from_slice(alloc, b"a")?);
    for answer in [Ok(Some(b'a')), Ok(None)] {
        assert!(rt; firm.next() == answer);
    }
    Ok(())
}

#[test]
fn sinks_keep_what_has_room(rt: HostRuntime) -> Result<(), Fail> {
    let alloc = rt.alloc();
    let mut sink = MemSink::new(alloc, 4, [1].to_vec(alloc)?)?;
    let mut firm = FirmSink::with_room(alloc, 4)?;
    let mut small = FirmSink::new(alloc);
    for (text, answer) in [
        ("ab", Ok(())),
        ("c", Err(Failed)),
        ("def", Err(Failed)),
        ("gh", Ok(())),
    ] {
        assert!(rt; sink.put(text.as_bytes()) == answer, "at {text}");
        assert!(rt; firm.put(text.as_bytes()) == Ok(()), "at {text}");
        assert!(rt; small.put(text.as_bytes()) == Ok(()), "at {text}");
    }
    assert_eq!(rt; sink.written(), b"abgh".as_slice());
    assert_eq!(rt; firm.written(), b"abcd".as_slice());
    assert_eq!(rt; small.written().len(), 0);
    Ok(())
}
