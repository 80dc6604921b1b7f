//! `notes`, over files and outputs in memory.
use super::link::{LINK, objects as objects_of};
use super::*;
use std::test::Fail;

// What gcc writes for an object compiled with -fcf-protection=full: one property 0xc0000002 with the bits 3.
const FULL: &[u8] = b"\x04\0\0\0\x10\0\0\0\x05\0\0\0GNU\0\x02\0\0\xc0\x04\0\0\0\x03\0\0\0\0\0\0\0";

// The same with the bits 1, and its first 27 bytes.
const LESS: &[u8] = b"\x04\0\0\0\x10\0\0\0\x05\0\0\0GNU\0\x02\0\0\xc0\x04\0\0\0\x01\0\0\0\0\0\0\0";

const CUT: &[u8] = b"\x04\0\0\0\x10\0\0\0\x05\0\0\0GNU\0\x02\0\0\xc0\x04\0\0\0\x01\0\0";

// Two properties: the word 0x10 of type 0xc0008002, and the word 0x89abcdef of type 0xc0010000.
const TWO: &[u8] =
    b"\x04\0\0\0\x20\0\0\0\x05\0\0\0GNU\0\x02\x80\0\xc0\x04\0\0\0\x10\0\0\0\0\0\0\0\0\0\x01\xc0\x04\0\0\0\xef\xcd\xab\x89\0\0\0\0";

const A: &[&str] = &["notes", "a"];

const AB: &[&str] = &["notes", "a", "b"];

const ABC: &[&str] = &["notes", "a", "b", "c"];

// The columns: the contents of `a`, `b` and `c`, the words, the output, the line on standard error, the status.
#[test]
fn reports(rt: HostRuntime) -> Result<(), Fail> {
    let rows: [(&[u8], &[u8], &[u8], &[&str], &str, &str, u8); 9] = [
        (
            FULL,
            b"",
            b"",
            A,
            "a: 0xc0000002=0x00000003\nmerged: 0xc0000002=0x00000003\n",
            "",
            0,
        ),
        (
            FULL,
            b"",
            b"",
            AB,
            "a: 0xc0000002=0x00000003\nb: none\nmerged: none\n",
            "",
            0,
        ),
        (
            FULL,
            FULL,
            LESS,
            ABC,
            "a: 0xc0000002=0x00000003\nb: 0xc0000002=0x00000003\nc: 0xc0000002=0x00000001\nmerged: 0xc0000002=0x00000001\n",
            "",
            0,
        ),
        (
            TWO,
            b"",
            b"",
            A,
            "a: 0xc0008002=0x00000010 0xc0010000=0x89abcdef\nmerged: 0xc0008002=0x00000010 0xc0010000=0x89abcdef\n",
            "",
            0,
        ),
        // Of the OR range what some file has, of the OR_AND range what every file has.
        (
            TWO,
            b"",
            b"",
            AB,
            "a: 0xc0008002=0x00000010 0xc0010000=0x89abcdef\nb: none\nmerged: 0xc0008002=0x00000010\n",
            "",
            0,
        ),
        // What begins as an ELF file and ends in its header, and what only nearly does.
        (
            b"\x7fELF\x02\x01",
            b"",
            b"",
            A,
            "",
            "cet: bad a at 0: bounds\n",
            6,
        ),
        (b"\x7fEL", b"", b"", A, "", "cet: bad a at 0: cut\n", 6),
        // The first file in the order of the words counts.
        (FULL, CUT, b"\x7fELF", ABC, "", "cet: bad b at 24: cut\n", 6),
        (
            b"",
            b"\x7fELF",
            CUT,
            ABC,
            "",
            "cet: bad b at 0: bounds\n",
            6,
        ),
    ];
    for (a, b, c, words, report, line, status) in rows {
        let mut files = MemFiles::new(rt.alloc());
        files.put("a", a)?;
        files.put("b", b)?;
        files.put("c", c)?;
        let answer = run(rt.alloc(), words, &mut files, 100, 500)?;
        assert_eq!(rt; answer.out.bytes(), report.as_bytes());
        assert_eq!(rt; answer.err.bytes(), line.as_bytes());
        assert_eq!(rt; answer.status, status);
    }
    Ok(())
}

// The columns: a note with a fault at each of its fields, and the line on standard error.
#[test]
fn faults(rt: HostRuntime) -> Result<(), Fail> {
    let rows: [(&[u8], &str); 8] = [
        (
            b"\x05\0\0\0\x10\0\0\0\x05\0\0\0GNU\0\x02\0\0\xc0\x04\0\0\0\x03\0\0\0\0\0\0\0",
            "cet: bad a at 0: name\n",
        ),
        (
            b"\x04\0\0\0\x0c\0\0\0\x05\0\0\0GNU\0\x02\0\0\xc0\x04\0\0\0\x03\0\0\0\0\0\0\0",
            "cet: bad a at 4: size\n",
        ),
        (
            b"\x04\0\0\0\x10\0\0\0\x01\0\0\0GNU\0\x02\0\0\xc0\x04\0\0\0\x03\0\0\0\0\0\0\0",
            "cet: bad a at 8: kind\n",
        ),
        (
            b"\x04\0\0\0\x10\0\0\0\x05\0\0\0HNU\0\x02\0\0\xc0\x04\0\0\0\x03\0\0\0\0\0\0\0",
            "cet: bad a at 12: name\n",
        ),
        (
            b"\x04\0\0\0\x10\0\0\0\x05\0\0\0GNU\0\x02\0\0\xc0\x08\0\0\0\x03\0\0\0\0\0\0\0",
            "cet: bad a at 20: size\n",
        ),
        (
            b"\x04\0\0\0\x18\0\0\0\x05\0\0\0GNU\0\x02\0\0\xc0\x04\0\0\0\x03\0\0\0\0\0\0\0",
            "cet: bad a at 32: cut\n",
        ),
        (
            b"\x04\0\0\0\x20\0\0\0\x05\0\0\0GNU\0\x02\x80\0\xc0\x04\0\0\0\x10\0\0\0\0\0\0\0\x01\x80\0\xc0\x04\0\0\0\x01\0\0\0\0\0\0\0",
            "cet: bad a at 32: order\n",
        ),
        (
            b"\x04\0\0\0\x20\0\0\0\x05\0\0\0GNU\0\x02\x80\0\xc0\x04\0\0\0\x10\0\0\0\0\0\0\0\x02\x80\0\xc0\x04\0\0\0\x01\0\0\0\0\0\0\0",
            "cet: bad a at 32: twice\n",
        ),
    ];
    for (bytes, line) in rows {
        let mut files = holding(rt.alloc(), bytes)?;
        let answer = run(rt.alloc(), A, &mut files, 100, 100)?;
        assert_eq!(rt; answer.err.bytes(), line.as_bytes());
        assert_eq!(rt; answer.out.bytes(), b"".as_slice());
        assert_eq!(rt; answer.status, 6);
    }
    Ok(())
}

// An object whose sections are the null one, `.note.gnu.property` with the bytes of FULL at 64, and the names of sections at 96; their headers
// stand at 128. `readelf` names the note `IBT, SHSTK`.
const OBJECT: &[u8; 320] =
    b"\x7fELF\x02\x01\x01\0\0\0\0\0\0\0\0\0\x01\0>\0\x01\0\0\0\0\0\0\0\0\0\0\0\0\0\0\0\0\0\0\0\x80\0\0\0\0\0\0\0\0\0\0\0@\0\0\0\0\0@\0\x03\0\x02\0\x04\0\0\0\x10\0\0\0\x05\0\0\0GNU\0\x02\0\0\xc0\x04\0\0\0\x03\0\0\0\0\0\0\0\0.note.gnu.property\0.shstrtab\0\0\0\0\0\0\0\0\0\0\0\0\0\0\0\0\0\0\0\0\0\0\0\0\0\0\0\0\0\0\0\0\0\0\0\0\0\0\0\0\0\0\0\0\0\0\0\0\0\0\0\0\0\0\0\0\0\0\0\0\0\0\0\0\0\0\0\x01\0\0\0\x07\0\0\0\x02\0\0\0\0\0\0\0\0\0\0\0\0\0\0\0@\0\0\0\0\0\0\0 \0\0\0\0\0\0\0\0\0\0\0\0\0\0\0\x08\0\0\0\0\0\0\0\0\0\0\0\0\0\0\0\x14\0\0\0\x03\0\0\0\0\0\0\0\0\0\0\0\0\0\0\0\0\0\0\0`\0\0\0\0\0\0\0\x1e\0\0\0\0\0\0\0\0\0\0\0\0\0\0\0\x01\0\0\0\0\0\0\0\0\0\0\0\0\0\0\0";

// The columns: a place in OBJECT and the byte put there, the output, the line on standard error, the status.
#[test]
fn objects(rt: HostRuntime) -> Result<(), Fail> {
    let rows: [(usize, u8, &str, &str, u8); 10] = [
        (
            0,
            0x7f,
            "a: 0xc0000002=0x00000003\nmerged: 0xc0000002=0x00000003\n",
            "",
            0,
        ),
        // The other feature alone, and a section of the name that is no note.
        (
            88,
            1,
            "a: 0xc0000002=0x00000001\nmerged: 0xc0000002=0x00000001\n",
            "",
            0,
        ),
        (196, 1, "a: none\nmerged: none\n", "", 0),
        // As an executable it has no note, since it has no program headers.
        (16, 2, "a: none\nmerged: none\n", "", 0),
        // No type of ours, another machine, section headers past the end of the file, and a note past it.
        (16, 3, "", "cet: bad a at 16: kind\n", 6),
        (18, 3, "", "cet: bad a at 18: machine\n", 6),
        (40, 0x81, "", "cet: bad a at 40: bounds\n", 6),
        (225, 2, "", "cet: bad a at 216: bounds\n", 6),
        // Faults of the note, counted in the note.
        (64, 5, "", "cet: bad a at 0: name\n", 6),
        (224, 0x1b, "", "cet: bad a at 24: cut\n", 6),
    ];
    for (place, byte, out, err, status) in rows {
        let mut bytes = *OBJECT;
        bytes[place] = byte;
        let mut files = holding(rt.alloc(), &bytes)?;
        let answer = run(rt.alloc(), A, &mut files, 100, 100)?;
        assert_eq!(rt; answer.err.bytes(), err.as_bytes());
        assert_eq!(rt; answer.out.bytes(), out.as_bytes());
        assert_eq!(rt; answer.status, status);
    }
    Ok(())
}

const CLAIMING: &[u8] = b".global _start; .func _start; ret; .end; .note ibt shstk";

const SILENT: &[u8] = b".global _start; .func _start; ret; .end";

// The columns: the text of an object, a place in its executable `e` and the byte put there, the output, the line on standard error, the status.
// The program headers of `e` stand at 64, 120 and 176, the last one that of the note, which is at 8,192.
const EXECUTABLES: &[(&[u8], usize, u8, &str, &str, u8)] = &[
    (
        CLAIMING,
        0,
        0x7f,
        "e: 0xc0000002=0x00000003\na.o: 0xc0000002=0x00000003\nn: 0xc0000002=0x00000001\nmerged: 0xc0000002=0x00000001\n",
        "",
        0,
    ),
    (
        SILENT,
        0,
        0x7f,
        "e: none\na.o: none\nn: 0xc0000002=0x00000001\nmerged: none\n",
        "",
        0,
    ),
    // The claim of the executable itself.
    (
        CLAIMING,
        8216,
        2,
        "e: 0xc0000002=0x00000002\na.o: 0xc0000002=0x00000003\nn: 0xc0000002=0x00000001\nmerged: none\n",
        "",
        0,
    ),
    // Faults of its note, counted in the note.
    (CLAIMING, 8192, 5, "", "cet: bad e at 0: name\n", 6),
    (CLAIMING, 208, 0x1b, "", "cet: bad e at 24: cut\n", 6),
    // Its own: another type, another machine, a program interpreter, and a note past the end of the file.
    (CLAIMING, 16, 3, "", "cet: bad e at 16: kind\n", 6),
    (CLAIMING, 18, 3, "", "cet: bad e at 18: machine\n", 6),
    (CLAIMING, 120, 3, "", "cet: bad e at 120: unsupported\n", 6),
    (CLAIMING, 186, 1, "", "cet: bad e at 184: bounds\n", 6),
];

// The files: `a.o` is the object of the text, `e` its executable with the byte put there, and `n` holds the note LESS.
fn linked(alloc: Global, text: &[u8], place: usize, byte: u8) -> Result<MemFiles, NoMemory> {
    let mut files = objects_of(alloc, text, b"")?;
    let _ = run(alloc, LINK, &mut files, 1000, 1000)?;
    let mut bytes = Vec::new(alloc);
    if let Some(held) = files.get("e") {
        bytes.extend_from_slice(held)?;
    }
    if let Some(field) = bytes.get_mut(place) {
        *field = byte;
    }
    files.put("e", &bytes)?;
    files.put("n", LESS)?;
    Ok(files)
}

#[test]
fn executables(rt: HostRuntime) -> Result<(), Fail> {
    for row in EXECUTABLES {
        let mut files = linked(rt.alloc(), row.0, row.1, row.2)?;
        let answer = run(
            rt.alloc(),
            &["notes", "e", "a.o", "n"],
            &mut files,
            100,
            200,
        )?;
        assert_eq!(rt; answer.err.bytes(), row.4.as_bytes());
        assert_eq!(rt; answer.out.bytes(), row.3.as_bytes());
        assert_eq!(rt; answer.status, row.5);
    }
    Ok(())
}

// Every file is read before the form of any: an absent file and one over the limit come before a file that is no note.
#[test]
fn reads_come_first(rt: HostRuntime) -> Result<(), Fail> {
    let longest = vec![in rt.alloc(); 0u8; 16_777_217]?;
    let mut files = holding(rt.alloc(), b"\x7fELF")?;
    files.put("long", &longest)?;
    let rows: [(&[&str], &str, u8); 5] = [
        (&["notes", "a", "b"], "cet: file b\n", 3),
        (&["notes", "b", "long"], "cet: file b\n", 3),
        (
            &["notes", "a", "long", "b"],
            "cet: bad long at 0: toolarge\n",
            6,
        ),
        (&["notes"], "cet: words\n", 2),
        (&["notes", "a", "-b"], "cet: words\n", 2),
    ];
    for (words, line, status) in rows {
        let answer = run(rt.alloc(), words, &mut files, 100, 100)?;
        assert_eq!(rt; answer.err.bytes(), line.as_bytes());
        assert_eq!(rt; answer.out.bytes(), b"".as_slice());
        assert_eq!(rt; answer.status, status);
    }
    Ok(())
}

// Sixty-four files: as many lines and one more.
#[test]
fn many_files(rt: HostRuntime) -> Result<(), Fail> {
    let mut words = Vec::new(rt.alloc());
    words.push("notes")?;
    for _ in 0..64 {
        words.push("a")?;
    }
    let mut files = holding(rt.alloc(), FULL)?;
    let answer = run(rt.alloc(), &words, &mut files, 1000, 2000)?;
    assert_eq!(rt; answer.status, 0);
    // `a: 0xc0000002=0x00000003` and `merged: 0xc0000002=0x00000003`, with their line feeds.
    assert_eq!(rt; answer.out.bytes().len(), 64 * 25 + 30);
    Ok(())
}

// An output that takes a few bytes at a time gains the whole report; one that is full before its end fails.
#[test]
fn full_outputs(rt: HostRuntime) -> Result<(), Fail> {
    for (most, room, out, status) in [
        (3, 100, "a: none\nmerged: none\n", 0),
        (100, 21, "a: none\nmerged: none\n", 0),
        (100, 20, "a: none\nmerged: none", 5),
        (4, 9, "a: none\nm", 5),
        (1, 0, "", 5),
    ] {
        let mut files = holding(rt.alloc(), b"")?;
        let answer = run(rt.alloc(), A, &mut files, most, room)?;
        assert_eq!(rt; answer.status, status);
        assert_eq!(rt; answer.out.bytes(), out.as_bytes());
        assert_eq!(rt; answer.err.bytes(), b"".as_slice());
    }
    Ok(())
}
