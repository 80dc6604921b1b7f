//! The program over files and outputs in memory. Expected values follow from the written rules.
ghost use Rattle.std.specs.Prelude.{◌≢◌, None};

use crate::top;
use cet_base::{Failed, Files, MemFiles, MemSink, NoMemory, Sink};
use cet_choosers::{Chooser, Counter, RoundRobin, Watcher};
use std::alloc::Global;
use std::test::Fail;

mod asm;
mod choosers;
mod dis;
mod link;
mod notes;
mod programs;
mod real_files;
mod requests;
mod runs;

/// What the program answered.
#[derive(Drop)]
struct Answer {
    status: u8,
    out: MemSink,
    err: MemSink,
}

// Runs `top` on the words, as `main` does, with an output that takes `most` bytes in a write and `room` in all.
fn run<F: Files>(
    alloc: Global,
    words: &[&str],
    files: &mut F,
    most: u64,
    room: u64,
) -> Result<Answer, NoMemory>
    requires { most ≢ 0 }
{
    let mut texts = Vec::new(alloc);
    for word in words {
        texts.push(String::from_str(alloc, word)?)?;
    }
    let mut out = MemSink::new(alloc, most, room)?;
    let mut err = MemSink::new(alloc, most, 100)?;
    let mut choosers: Vec<Box<dyn Chooser>> = Vec::new(alloc);
    choosers.push(Box::new(alloc, RoundRobin::new())?)?;
    let mut watchers: Vec<Box<dyn Watcher>> = Vec::new(alloc);
    watchers.push(Box::new(alloc, Counter::new())?)?;
    let status = top(
        alloc,
        &texts,
        files,
        &mut out,
        &mut err,
        choosers,
        &mut watchers,
    );
    Ok(Answer { status, out, err })
}

fn holding(alloc: Global, bytes: &[u8]) -> Result<MemFiles, NoMemory> {
    let mut files = MemFiles::new(alloc);
    files.put("a", bytes)?;
    Ok(files)
}

const CHECK: [&str; 3] = ["check", "--raw", "a"];

// The columns: raw code, the report, the status.
#[test]
fn verdicts(rt: HostRuntime) -> Result<(), Fail> {
    let rows: [(&[u8], &str, u8); 41] = [
        // A constant jump past two NOPs to an ENDBR64, and to none.
        (
            b"\xb8\x09\x10\x40\x00\xff\xe0\x90\x90\xf3\x0f\x1e\xfa\x0f\x0b",
            "accepted\n",
            0,
        ),
        (
            b"\xb8\x09\x10\x40\x00\xff\xe0\x90\x90\xf3\x0f\x1e\xfb\x0f\x0b",
            "refused rule 18 at 0x401005\n",
            1,
        ),
        (b"\x0f\x0b", "accepted\n", 0),
        (b"\xeb\xfe", "accepted\n", 0),
        (b"\xeb\x00", "refused rule 5 at 0x401000\n", 1),
        (b"\x90", "refused rule 11 at 0x401000\n", 1),
        (b"\xff\xe0", "refused rule 19 at 0x401000\n", 1),
        (
            b"\xf3\x0f\x1e\xfa\xeb\xfa",
            "refused rule 8 at 0x401004\n",
            1,
        ),
        // Pieces of one instruction, and the constant jump at the start.
        (b"\xf3\x0f\x1e\xfa\x0f\x0b", "accepted\n", 0),
        (
            b"\xb8\x07\x10\x40\x00\xff\xe0\xf3\x0f\x1e\xfa\x0f\x0b",
            "accepted\n",
            0,
        ),
        (b"\xf3\x0f\x1e\xfa", "refused rule 11 at 0x401000\n", 1),
        (b"\xb8\x00\x00\x00\x00", "refused rule 11 at 0x401000\n", 1),
        (b"\x0f\x0b\x90", "refused rule 11 at 0x401002\n", 1),
        // Forms that the function cuts short, and bytes that are none.
        (b"\x90\xf3\x0f\x1e", "refused rule 6 at 0x401001\n", 1),
        (b"\xb8\x00\x00", "refused rule 6 at 0x401000\n", 1),
        (b"\x90\xc3", "refused rule 6 at 0x401001\n", 1),
        // Jumps to the last instruction, to the last byte inside it, into a constant jump, and past both ends.
        (b"\xeb\x00\x0f\x0b", "accepted\n", 0),
        (b"\xeb\x01\x0f\x0b", "refused rule 8 at 0x401000\n", 1),
        (
            b"\xeb\x05\xb8\x09\x10\x40\x00\xff\xe0\xf3\x0f\x1e\xfa\x0f\x0b",
            "refused rule 8 at 0x401000\n",
            1,
        ),
        (b"\xeb\x02\x0f\x0b", "refused rule 5 at 0x401000\n", 1),
        (b"\xeb\xfd", "refused rule 5 at 0x401000\n", 1),
        // The lower rule at one place, and the lower place of one rule.
        (
            b"\xeb\x01\x0f\x0b\xeb\x10",
            "refused rule 5 at 0x401000\n",
            1,
        ),
        (b"\x90\xff\xe0\xff\xe0", "refused rule 19 at 0x401001\n", 1),
        // A constant with a set top bit, one that names the prologue, and a constant that the branch does not follow at once.
        (
            b"\xb8\x00\x00\x00\x80\xff\xe0",
            "refused rule 18 at 0x401005\n",
            1,
        ),
        (
            b"\xf3\x0f\x1e\xfa\xb8\x00\x10\x40\x00\xff\xe0",
            "refused rule 18 at 0x401009\n",
            1,
        ),
        (
            b"\xb8\x09\x10\x40\x00\x90\xff\xe0\x90\xf3\x0f\x1e\xfa\x0f\x0b",
            "refused rule 19 at 0x401006\n",
            1,
        ),
        (
            b"\xb8\x0a\x10\x40\x00\xff\xe0\x90\x90\xf3\x0f\x1e\xfa\x0f\x0b",
            "refused rule 18 at 0x401005\n",
            1,
        ),
        // NOPs of two, three and fifteen bytes, PAUSE, and a jump into a NOP of two bytes.
        (b"\x66\x90\x0f\x0b", "accepted\n", 0),
        (b"\x0f\x1f\x00\x0f\x0b", "accepted\n", 0),
        (
            b"\x66\x66\x66\x66\x66\x66\x2e\x0f\x1f\x84\x00\x00\x00\x00\x00\x0f\x0b",
            "accepted\n",
            0,
        ),
        (b"\xf3\x90\x0f\x0b", "accepted\n", 0),
        (b"\x0f\x0b\x66\x90", "refused rule 11 at 0x401002\n", 1),
        (
            b"\xeb\x01\x66\x90\x0f\x0b",
            "refused rule 8 at 0x401000\n",
            1,
        ),
        // Constant jumps with a REX that has no bits before one or both instructions, and such a branch alone.
        (
            b"\x40\xb8\x09\x10\x40\x00\x40\xff\xe0\xf3\x0f\x1e\xfa\x0f\x0b",
            "accepted\n",
            0,
        ),
        (
            b"\xb8\x08\x10\x40\x00\x40\xff\xe0\xf3\x0f\x1e\xfa\x0f\x0b",
            "accepted\n",
            0,
        ),
        (
            b"\x40\xb8\x0a\x10\x40\x00\x40\xff\xe0\xf3\x0f\x1e\xfa\x0f\x0b",
            "refused rule 18 at 0x401006\n",
            1,
        ),
        (b"\x40\xff\xe0", "refused rule 19 at 0x401000\n", 1),
        // Other values: MOV of 64 bits, JMP by 32 bits, JMP through R8, JMP without tracking.
        (
            b"\x48\xb8\x00\x00\x00\x00\x00\x00\x00\x00\x0f\x0b",
            "refused rule 6 at 0x401000\n",
            1,
        ),
        (b"\xe9\xfb\xff\xff\xff", "refused rule 6 at 0x401000\n", 1),
        (b"\x41\xff\xe0", "refused rule 6 at 0x401000\n", 1),
        (b"\x3e\xff\xe0", "refused rule 6 at 0x401000\n", 1),
    ];
    for (code, report, status) in rows {
        let mut files = holding(rt.alloc(), code)?;
        let answer = run(rt.alloc(), &CHECK, &mut files, 100, 100)?;
        assert_eq!(rt; answer.out.bytes(), report.as_bytes(), "for {code:?}");
        assert_eq!(rt; answer.status, status);
        assert_eq!(rt; answer.err.bytes(), b"".as_slice());
    }
    Ok(())
}

// The columns: the words, and the line on standard error; the status is 2 but for the absent file.
#[test]
fn words(rt: HostRuntime) -> Result<(), Fail> {
    let rows: [(&[&str], &str, u8); 8] = [
        (&[], "cet: words\n", 2),
        (&["chek", "--raw", "a"], "cet: words\n", 2),
        (&["check", "--raw"], "cet: words\n", 2),
        (&["check", "--raw", "a", "a"], "cet: words\n", 2),
        (&["check", "--raw", "-a"], "cet: words\n", 2),
        (&["check", "a"], "cet: words\n", 2),
        (&["check", "--raw", "b"], "cet: file b\n", 3),
        (&["check", "--raw", ""], "cet: file \n", 3),
    ];
    for (words, line, status) in rows {
        let mut files = holding(rt.alloc(), b"\x0f\x0b")?;
        let answer = run(rt.alloc(), words, &mut files, 100, 100)?;
        assert_eq!(rt; answer.status, status);
        assert_eq!(rt; answer.err.bytes(), line.as_bytes());
        assert_eq!(rt; answer.out.bytes(), b"".as_slice());
    }
    Ok(())
}

// Files of no byte, of as many as are read, and of one more.
#[test]
fn lengths(rt: HostRuntime) -> Result<(), Fail> {
    let longest = vec![in rt.alloc(); 0x90u8; 16_777_217]?;
    let rows: [(&[u8], &str, &str, u8); 3] = [
        (b"", "", "cet: bad a at 0: empty\n", 6),
        (&longest, "", "cet: bad a at 0: toolarge\n", 6),
        (&longest[1..], "refused rule 11 at 0x1400fff\n", "", 1),
    ];
    for (code, report, line, status) in rows {
        let mut files = holding(rt.alloc(), code)?;
        let answer = run(rt.alloc(), &CHECK, &mut files, 100, 100)?;
        assert_eq!(rt; answer.status, status);
        assert_eq!(rt; answer.out.bytes(), report.as_bytes());
        assert_eq!(rt; answer.err.bytes(), line.as_bytes());
    }
    Ok(())
}

// An output that takes one byte at a time gains the whole report; one that is full before its end fails.
#[test]
fn outputs(rt: HostRuntime) -> Result<(), Fail> {
    for (most, room, out, status) in [
        (1, 100, "accepted\n", 0),
        (100, 9, "accepted\n", 0),
        (2, 5, "accep", 5),
        (100, 0, "", 5),
    ] {
        let mut files = holding(rt.alloc(), b"\x0f\x0b")?;
        let answer = run(rt.alloc(), &CHECK, &mut files, most, room)?;
        assert_eq!(rt; answer.status, status);
        assert_eq!(rt; answer.out.bytes(), out.as_bytes());
        assert_eq!(rt; answer.err.bytes(), b"".as_slice());
    }
    Ok(())
}

/// One file of any name, of which a read gives one byte at most.
#[derive(Drop)]
struct Drops<'a> {
    bytes: &'a [u8],
}

impl Files for Drops<'_> {
    ghost contents = { λ _. None };

    ghost faults = { λ _. 0 };

    fn read(&mut self, _name: &str, at: u64, buf: &mut [u8]) -> Result<usize, Failed> {
        match self.bytes.get(at as usize) {
            Some(byte) if !buf.is_empty() => {
                buf[0] = *byte;
                Ok(1)
            }
            _ => Ok(0),
        }
    }

    fn replace(&mut self, _name: &str, _bytes: &[u8]) -> Result<(), Failed> {
        Ok(())
    }
}

// A file that comes a byte at a time is read whole.
#[test]
fn reads_a_byte_at_a_time(rt: HostRuntime) -> Result<(), Fail> {
    let mut files = Drops {
        bytes: b"\x90\x90\xeb\x00\x0f\x0b",
    };
    let answer = run(rt.alloc(), &CHECK, &mut files, 100, 100)?;
    assert_eq!(rt; answer.status, 0);
    assert_eq!(rt; answer.out.bytes(), b"accepted\n".as_slice());
    Ok(())
}
