//! `dis`, over files and outputs in memory.
use super::*;
use std::test::Fail;

const DIS: [&str; 2] = ["dis", "a"];

const JUMP: &[u8] = b"\xb8\x09\x10\x40\x00\xff\xe0\x90\x90\xf3\x0f\x1e\xfa\x0f\x0b";

const LISTING: &str =
    "0x401000 b809104000 movabs.4 rax, 4198409\n0x401005 ffe0 jmp rax\n0x401007 90 nop\n0x401008 90 nop\n0x401009 f30f1efa endbr64\n0x40100d 0f0b ud2\n";

// The columns: raw code, the output, the line on standard error, the status.
#[test]
fn listings(rt: HostRuntime) -> Result<(), Fail> {
    let rows: [(&[u8], &str, &str, u8); 7] = [
        (JUMP, LISTING, "", 0),
        (b"\x90", "0x401000 90 nop\n", "", 0),
        (b"", "", "cet: bad a at 0: empty\n", 6),
        // A form cut by the end, at the start and behind another.
        (b"\xf3\x0f\x1e", "", "cet: bad a at 0x401000: short\n", 6),
        (
            b"\x90\xb8\x00\x00",
            "",
            "cet: bad a at 0x401001: short\n",
            6,
        ),
        // Bytes that begin no form, at the start and behind another.
        (
            b"\xf3\x0f\x1e\xfb\x90",
            "",
            "cet: bad a at 0x401000: outside\n",
            6,
        ),
        (b"\x0f\x0b\xf2", "", "cet: bad a at 0x401002: outside\n", 6),
    ];
    for (code, report, line, status) in rows {
        let mut files = holding(rt.alloc(), code)?;
        let answer = run(rt.alloc(), &DIS, &mut files, 1000, 1000)?;
        assert_eq!(rt; answer.out.bytes(), report.as_bytes(), "for {code:?}");
        assert_eq!(rt; answer.err.bytes(), line.as_bytes());
        assert_eq!(rt; answer.status, status);
    }
    Ok(())
}

// The columns: the words, the line on standard error, the status.
#[test]
fn words_of_dis(rt: HostRuntime) -> Result<(), Fail> {
    let rows: [(&[&str], &str, u8); 4] = [
        (&["dis"], "cet: words\n", 2),
        (&["dis", "-a"], "cet: words\n", 2),
        (&["dis", "a", "a"], "cet: words\n", 2),
        (&["dis", "b"], "cet: file b\n", 3),
    ];
    for (words, line, status) in rows {
        let mut files = holding(rt.alloc(), JUMP)?;
        let answer = run(rt.alloc(), words, &mut files, 1000, 1000)?;
        assert_eq!(rt; answer.err.bytes(), line.as_bytes());
        assert_eq!(rt; answer.status, status);
        assert_eq!(rt; answer.out.bytes(), b"".as_slice());
    }
    Ok(())
}

// An output that takes one byte at a time gains the whole listing; one that is full before its end fails.
#[test]
fn listings_to_outputs(rt: HostRuntime) -> Result<(), Fail> {
    for (most, room, out, status) in [(1, 1000, LISTING, 0), (7, 15, "0x401000 b80910", 5)] {
        let mut files = holding(rt.alloc(), JUMP)?;
        let answer = run(rt.alloc(), &DIS, &mut files, most, room)?;
        assert_eq!(rt; answer.status, status);
        assert_eq!(rt; answer.out.bytes(), out.as_bytes());
        assert_eq!(rt; answer.err.bytes(), b"".as_slice());
    }
    Ok(())
}
