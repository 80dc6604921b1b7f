//! Each public call with ample memory, at values from outside.
use crate::{
    Bytes, FILE_LIMIT, Failed, Files, Items, MemFiles, MemSink, ReadError, Sink, Span, field_u16,
    field_u32, field_u64, read_all, write_all,
};
use std::test::Fail;

// The first 24 bytes of an executable for x86-64 (gABI, ELF header). The expected numbers are those of Python's `struct`.
const HEADER: &[u8; 24] =
    b"\x7fELF\x02\x01\x01\x00\x00\x00\x00\x00\x00\x00\x00\x00\x02\x00\x3e\x00\x01\x00\x00\x00";

#[test]
fn fields(rt: HostRuntime) {
    for (at, number) in [
        (0, Some(0x457f)),
        (18, Some(0x3e)),
        (22, Some(0)),
        (23, None),
        (u64::MAX, None),
    ] {
        assert_eq!(rt; field_u16(HEADER, at), number);
    }
    for (at, number) in [
        (0, Some(0x464c_457f)),
        (16, Some(0x003e_0002)),
        (20, Some(1)),
        (21, None),
        (u64::MAX - 3, None),
    ] {
        assert_eq!(rt; field_u32(HEADER, at), number);
    }
    for (at, number) in [
        (0, Some(0x0001_0102_464c_457f)),
        (16, Some(0x0000_0001_003e_0002)),
        (17, None),
        (u64::MAX - 7, None),
    ] {
        assert_eq!(rt; field_u64(HEADER, at), number);
    }
}

fn span(start: u64, len: u64) -> Span {
    Span { start, len }
}

// The columns: two spans, whether the first ends before the second, whether they meet, and whether the first holds the second.
#[test]
fn spans(rt: HostRuntime) {
    for (a, b, before, meet, hold) in [
        (span(0, 4), span(4, 4), true, false, false),
        (span(0, 5), span(4, 4), false, true, false),
        (span(4, 4), span(0, 4), false, false, false),
        (span(0, 8), span(2, 3), false, true, true),
        (span(0, 8), span(8, 0), true, false, true),
        (span(2, 0), span(0, 8), false, false, false),
        (
            span(u64::MAX, u64::MAX),
            span(u64::MAX, 1),
            false,
            true,
            true,
        ),
    ] {
        assert_eq!(rt; a.ends_before(b), before);
        assert_eq!(rt; a.meets(b), meet);
        assert_eq!(rt; a.holds(b), hold);
    }
}

#[test]
fn lists(rt: HostRuntime) -> Result<(), Fail> {
    let mut list = Items::new(rt.alloc());
    assert!(rt; list.is_empty());
    for number in [3u64, 5, 8] {
        list.push(number)?;
    }
    assert_eq!(rt; list.len(), 3);
    assert_eq!(rt; list.get(1).copied(), Some(5));
    assert_eq!(rt; list.get(3).copied(), None);
    let same = Items::from_slice(rt.alloc(), list.as_slice())?;
    assert!(rt; list == same);
    assert!(rt; Bytes::from_slice(rt.alloc(), b"ab")? != Bytes::from_slice(rt.alloc(), b"a")?);
    Ok(())
}

fn holds(files: &MemFiles, name: &str, bytes: &[u8]) -> bool {
    match files.get(name) {
        Some(found) => found == bytes,
        None => false,
    }
}

#[test]
fn files(rt: HostRuntime) -> Result<(), Fail> {
    let mut files = MemFiles::new(rt.alloc());
    files.put("a", b"first")?;
    files.put("b", b"")?;
    files.put("a", b"hello, world")?;
    assert!(rt; holds(&files, "a", b"hello, world"));
    assert!(rt; holds(&files, "b", b""));
    assert!(rt; files.get("c").is_none());
    let mut part = [0; 5];
    for (at, n, bytes) in [
        (0, 5, *b"hello"),
        (5, 5, *b", wor"),
        (10, 2, *b"ldwor"),
        (12, 0, *b"ldwor"),
        (u64::MAX, 0, *b"ldwor"),
    ] {
        assert_eq!(rt; files.read("a", at, &mut part), Ok(n));
        assert_eq!(rt; part, bytes);
    }
    assert_eq!(rt; files.read("b", 0, &mut part), Ok(0));
    assert_eq!(rt; files.read("c", 0, &mut part), Err(Failed));
    Ok(())
}

// A file is replaced in the room that was taken for it, once: a replacement uses the room up, whether it fits or not.
#[test]
fn replacements(rt: HostRuntime) -> Result<(), Fail> {
    let mut files = MemFiles::new(rt.alloc());
    files.put("a", b"old")?;
    assert_eq!(rt; files.replace("a", b""), Err(Failed));
    for (name, len, bytes, answer) in [
        ("a", 5, "longer", Err(Failed)),
        ("b", 0, "x", Err(Failed)),
        ("b", 0, "", Ok(())),
        ("c", 6, "longer", Ok(())),
        ("c", 9, "short", Ok(())),
    ] {
        files.room(name, 100)?;
        files.room(name, len)?;
        let before = files.get(name).is_some();
        assert_eq!(rt; files.replace(name, bytes.as_bytes()), answer);
        assert_eq!(rt; files.get(name).is_some(), before || answer.is_ok());
        assert_eq!(rt; holds(&files, name, bytes.as_bytes()), answer.is_ok());
        assert_eq!(rt; files.replace(name, b""), Err(Failed));
    }
    assert!(rt; holds(&files, "a", b"old"));
    assert!(rt; holds(&files, "c", b"short"));
    Ok(())
}

#[test]
fn whole_files(rt: HostRuntime) -> Result<(), Fail> {
    let mut files = MemFiles::new(rt.alloc());
    for len in [0, 1, 65_535, 65_536, 65_537, FILE_LIMIT] {
        let bytes = vec![in rt.alloc(); 7u8; len]?;
        files.put("a", &bytes)?;
        assert!(rt; read_all(rt.alloc(), &mut files, "a")? == bytes);
    }
    files.put("a", &vec![in rt.alloc(); 7u8; FILE_LIMIT + 1]?)?;
    assert!(rt; read_all(rt.alloc(), &mut files, "a") == Err(ReadError::TooLarge));
    assert!(rt; read_all(rt.alloc(), &mut files, "b") == Err(ReadError::Failed));
    Ok(())
}

#[test]
fn outputs(rt: HostRuntime) -> Result<(), Fail> {
    for (most, room, piece, all, taken) in [
        (1, 5, "abc", true, "abc"),
        (2, 3, "abc", true, "abc"),
        (2, 2, "abc", false, "ab"),
        (9, 0, "abc", false, ""),
        (9, 0, "", true, ""),
    ] {
        let mut sink = MemSink::new(rt.alloc(), most, room)?;
        assert_eq!(rt; write_all(&mut sink, piece.as_bytes()).is_ok(), all);
        assert_eq!(rt; sink.bytes(), taken.as_bytes());
    }
    let mut sink = MemSink::new(rt.alloc(), 2, 3)?;
    for answer in [Ok(2), Ok(1), Err(Failed), Err(Failed)] {
        assert_eq!(rt; sink.write(b"xyz"), answer);
    }
    assert_eq!(rt; sink.write(b""), Ok(0));
    assert_eq!(rt; sink.bytes(), b"xyx".as_slice());
    Ok(())
}
