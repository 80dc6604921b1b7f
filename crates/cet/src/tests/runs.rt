//! Runs of raw code and of executables.
use super::Answer;
use cet_base::{Files, MemFiles, MemSink, NoMemory};
use cet_choosers::{Counter, RoundRobin};
use cet_verbs::run::{RunRequest, run};
use std::alloc::Global;
use std::test::Fail;

// What is printed of a run, on an output with this room.
fn told<F: Files>(
    alloc: Global,
    request: RunRequest<'_>,
    files: &mut F,
    room: u64,
) -> Result<Answer, NoMemory> {
    let mut out = MemSink::new(alloc, 100, room)?;
    let mut err = MemSink::new(alloc, 100, 100)?;
    let mut choosers = Vec::new(alloc);
    choosers.push(RoundRobin::new())?;
    let mut watchers: Vec<Counter> = Vec::new(alloc);
    let status = match run(alloc, request, files, &mut out, choosers, &mut watchers) {
        Ok(status) => status,
        Err(refusal) => refusal.tell(alloc, &mut err),
    };
    Ok(Answer { status, out, err })
}

// `run --raw --input i --limit LIMIT a`.
fn raw(limit: u32) -> RunRequest<'static> {
    RunRequest {
        raw: true,
        schedule: None,
        input: Some("i"),
        limit,
        file: "a",
    }
}

// call 1f; ud2; 1: call to the next instruction; ret
const CALLS: &[u8] = b"\xe8\x02\x00\x00\x00\x0f\x0b\xe8\x00\x00\x00\x00\xc3";

// read(0, rsp, 4); write(1, rsp, as many as were read); exit(3)
const ECHO: &[u8] =
    b"\xb8\x00\x00\x00\x00\xbf\x00\x00\x00\x00\x48\x89\xe6\xba\x04\x00\x00\x00\x0f\x05\x89\xc2\xbf\x01\x00\x00\x00\xb8\x01\x00\x00\x00\x0f\x05\xbf\x03\x00\x00\x00\xb8\x3c\x00\x00\x00\x0f\x05";

// The columns: raw code, the input, the limit, the report, the status.
#[test]
fn reports(rt: HostRuntime) -> Result<(), Fail> {
    let rows: [(&[u8], &[u8], u32, &str, u8); 14] = [
        (
            CALLS,
            b"",
            1_000_000,
            "events 3 ignored 0\noutput -\ndied thread 0 cp 1 at 0x40100c popped 0x40100c shadow 0x401005\n",
            1,
        ),
        (
            CALLS,
            b"",
            2,
            "events 2 ignored 0\noutput -\nstopped limit\n",
            0,
        ),
        // call 1f; ud2; 1: mov qword [rsp], 0; ret
        (
            b"\xe8\x02\x00\x00\x00\x0f\x0b\x48\xc7\x04\x24\x00\x00\x00\x00\xc3",
            b"",
            1_000_000,
            "events 3 ignored 0\noutput -\ndied thread 0 cp 1 at 0x40100f popped 0x0 shadow 0x401005\n",
            1,
        ),
        // call 1f; ud2; 1: rdsspq rax; rstorssp [rax]
        (
            b"\xe8\x02\x00\x00\x00\x0f\x0b\xf3\x48\x0f\x1e\xc8\xf3\x0f\x01\x28",
            b"",
            1_000_000,
            "events 3 ignored 0\noutput -\ndied thread 0 cp 4 at 0x40100c word 0x401005\n",
            1,
        ),
        // mov eax, 0x401007; call rax; nop; ud2
        (
            b"\xb8\x07\x10\x40\x00\xff\xd0\x90\x0f\x0b",
            b"",
            1_000_000,
            "events 3 ignored 0\noutput -\ndied thread 0 cp 3 at 0x401007\n",
            1,
        ),
        (
            b"\x0f\x0b",
            b"",
            1,
            "events 1 ignored 0\noutput -\ndied thread 0 ud at 0x401000\n",
            1,
        ),
        // A loop, at limits.
        (
            b"\xeb\xfe",
            b"",
            1,
            "events 1 ignored 0\noutput -\nstopped limit\n",
            0,
        ),
        (
            b"\xeb\xfe",
            b"",
            9999,
            "events 9999 ignored 0\noutput -\nstopped limit\n",
            0,
        ),
        // exit_group with 0, 255, 256 and 257.
        (
            b"\xbf\x00\x00\x00\x00\xb8\xe7\x00\x00\x00\x0f\x05",
            b"",
            3,
            "events 3 ignored 0\noutput -\nended 0\n",
            0,
        ),
        (
            b"\xbf\xff\x00\x00\x00\xb8\xe7\x00\x00\x00\x0f\x05",
            b"",
            4,
            "events 3 ignored 0\noutput -\nended 255\n",
            1,
        ),
        (
            b"\xbf\x00\x01\x00\x00\xb8\xe7\x00\x00\x00\x0f\x05",
            b"",
            4,
            "events 3 ignored 0\noutput -\nended 0\n",
            0,
        ),
        // Input that is longer and shorter than is asked for, and none.
        (
            ECHO,
            b"hello",
            100,
            "events 12 ignored 0\noutput 68656c6c\nended 3\n",
            1,
        ),
        (
            ECHO,
            b"h\n",
            100,
            "events 12 ignored 0\noutput 680a\nended 3\n",
            1,
        ),
        (
            ECHO,
            b"",
            11,
            "events 11 ignored 0\noutput -\nstopped limit\n",
            0,
        ),
    ];
    for (code, input, limit, report, status) in rows {
        let mut files = MemFiles::new(rt.alloc());
        files.put("a", code)?;
        files.put("i", input)?;
        let answer = told(rt.alloc(), raw(limit), &mut files, 200)?;
        assert_eq!(rt; answer.out.bytes(), report.as_bytes(), "for {code:?}");
        assert_eq!(rt; answer.status, status);
        assert_eq!(rt; answer.err.bytes(), b"".as_slice());
    }
    Ok(())
}

// The columns: the program and the input, if they are there, the room of the output, what is written to it and to standard error, the status.
#[test]
fn refusals(rt: HostRuntime) -> Result<(), Fail> {
    let longest = vec![in rt.alloc(); 0x90u8; 16_777_217]?;
    let rows: [(Option<&[u8]>, Option<&[u8]>, u64, &str, &str, u8); 8] = [
        // The input is read before the program, and both before the program is looked at.
        (None, None, 100, "", "cet: file i\n", 3),
        (None, Some(b""), 100, "", "cet: file a\n", 3),
        (
            None,
            Some(&longest),
            100,
            "",
            "cet: bad i at 0: toolarge\n",
            6,
        ),
        (Some(b""), None, 100, "", "cet: file i\n", 3),
        (Some(b""), Some(b""), 100, "", "cet: bad a at 0: empty\n", 6),
        (
            Some(&longest),
            Some(b""),
            100,
            "",
            "cet: bad a at 0: toolarge\n",
            6,
        ),
        // An output that is full.
        (
            Some(b"\x0f\x0b"),
            Some(b""),
            23,
            "events 1 ignored 0\noutp",
            "",
            5,
        ),
        (Some(b"\x0f\x0b"), Some(b""), 0, "", "", 5),
    ];
    for (code, input, room, out, err, status) in rows {
        let mut files = MemFiles::new(rt.alloc());
        if let Some(code) = code {
            files.put("a", code)?;
        }
        if let Some(input) = input {
            files.put("i", input)?;
        }
        let answer = told(rt.alloc(), raw(9), &mut files, room)?;
        assert_eq!(rt; answer.out.bytes(), out.as_bytes());
        assert_eq!(rt; answer.err.bytes(), err.as_bytes());
        assert_eq!(rt; answer.status, status);
    }
    Ok(())
}

// The columns: the schedule, the program, what is written to the output and to standard error, the status. The input is not there, and not asked for.
#[test]
fn schedules(rt: HostRuntime) -> Result<(), Fail> {
    let rows: [(Option<&[u8]>, &[u8], &str, &str, u8); 6] = [
        // A step of the one thread, a signal without an action, a step of no thread; then the thread goes on.
        (
            Some(b"x 1 0\n\ng 0 0xa\ns 7 0 0\n"),
            CALLS,
            "events 5 ignored 2\noutput -\ndied thread 0 cp 1 at 0x40100c popped 0x40100c shadow 0x401005\n",
            "",
            1,
        ),
        // Of more events than the limit the first ones.
        (
            Some(b"g 0 10\nx 100 3\n"),
            CALLS,
            "events 9 ignored 9\noutput -\nstopped limit\n",
            "",
            0,
        ),
        (
            Some(b""),
            b"\x0f\x0b",
            "events 1 ignored 0\noutput -\ndied thread 0 ud at 0x401000\n",
            "",
            1,
        ),
        (Some(b"s 0 16 0\n"), CALLS, "", "cet: bad s at 1: line\n", 6),
        // The schedule is looked at before the program, and both are read before.
        (Some(b"\ng 0 10"), b"", "", "cet: bad s at 2: line\n", 6),
        (None, b"", "", "cet: file s\n", 3),
    ];
    for (schedule, code, out, err, status) in rows {
        let mut files = MemFiles::new(rt.alloc());
        files.put("a", code)?;
        if let Some(schedule) = schedule {
            files.put("s", schedule)?;
        }
        let request = RunRequest {
            raw: true,
            schedule: Some("s"),
            input: None,
            limit: 9,
            file: "a",
        };
        let answer = told(rt.alloc(), request, &mut files, 200)?;
        assert_eq!(rt; answer.out.bytes(), out.as_bytes());
        assert_eq!(rt; answer.err.bytes(), err.as_bytes());
        assert_eq!(rt; answer.status, status);
    }
    Ok(())
}

// A program header: its type, its address, its size, its flags and its stored bytes.
type Program = (u32, u64, u64, u32, &'static [u8]);

const LOAD: u32 = 1;

const PROPERTY: u32 = 0x6474_e553;

// The file of an executable with these program headers, whose entry is 0x401000.
fn executable(alloc: Global, programs: &[Program]) -> Result<Vec<u8>, NoMemory> {
    let mut file = Vec::from_slice(
        alloc,
        b"\x7fELF\x02\x01\x01\0\0\0\0\0\0\0\0\0\x02\0\x3e\0\x01\0\0\0\0\x10\x40\0\0\0\0\0",
    )?;
    // e_phoff, e_shoff, e_flags, e_ehsize, e_phentsize
    file.extend_from_slice(b"\x40\0\0\0\0\0\0\0\0\0\0\0\0\0\0\0\0\0\0\0\x40\0\x38\0")?;
    let count = u16::try_from(programs.len()).unwrap_or(0);
    file.extend_from_slice(&count.to_le_bytes())?;
    // e_shentsize, e_shnum, e_shstrndx
    file.extend_from_slice(b"\x40\0\0\0\0\0")?;
    let mut stored = Vec::new(alloc);
    for (kind, start, size, flags, bytes) in programs {
        let offset = 4096u64.wrapping_add(stored.len() as u64);
        file.extend_from_slice(&kind.to_le_bytes())?;
        file.extend_from_slice(&flags.to_le_bytes())?;
        for field in [offset, *start, *start, bytes.len() as u64, *size, 4096] {
            file.extend_from_slice(&field.to_le_bytes())?;
        }
        stored.extend_from_slice(bytes)?;
    }
    file.resize(4096, 0)?;
    file.extend_from_slice(&stored)?;
    Ok(file)
}

// The features IBT and SHSTK.
const NOTE: &[u8] = b"\x04\0\0\0\x10\0\0\0\x05\0\0\0GNU\0\x02\0\0\xc0\x04\0\0\0\x03\0\0\0\0\0\0\0";

// mov edi, 0x401000; mov [rdi], eax
const STORES_CODE: &[u8] = b"\xbf\x00\x10\x40\0\x89\x07";

// mov edi, 0x402ff8; mov [rdi], eax; mov edi, 0; mov eax, 231; syscall
const STORES: &[u8] = b"\xbf\xf8\x2f\x40\0\x89\x07\xbf\0\0\0\0\xb8\xe7\0\0\0\x0f\x05";

const ONE: Program = (LOAD, 0x500000, 1, 4, b"");

// An executable, what is written to the output and to standard error, the status.
struct Row {
    programs: &'static [Program],
    out: &'static str,
    err: &'static str,
    status: u8,
}

const ROWS: &[Row] = &[
    // Neither feature is claimed: each return goes where the stack says.
    Row {
        programs: &[(LOAD, 0x401000, 13, 5, CALLS)],
        out: "events 5 ignored 0\noutput -\ndied thread 0 ud at 0x401005\n",
        err: "",
        status: 1,
    },
    Row {
        programs: &[(LOAD, 0x401000, 13, 5, CALLS), (PROPERTY, 0, 32, 4, NOTE)],
        out: "events 3 ignored 0\noutput -\ndied thread 0 cp 1 at 0x40100c popped 0x40100c shadow 0x401005\n",
        err: "",
        status: 1,
    },
    // A segment of zeros that is written, and ONE that is not.
    Row {
        programs: &[
            (LOAD, 0x401000, 19, 5, STORES),
            (LOAD, 0x402ff0, 16, 6, b""),
        ],
        out: "events 5 ignored 0\noutput -\nended 0\n",
        err: "",
        status: 0,
    },
    Row {
        programs: &[
            (LOAD, 0x401000, 19, 5, STORES),
            (LOAD, 0x402ff0, 16, 4, b""),
        ],
        out: "events 2 ignored 0\noutput -\ndied thread 0 pf at 0x401005 addr 0x402ff8\n",
        err: "",
        status: 1,
    },
    // A segment that may be executed and written is code.
    Row {
        programs: &[(LOAD, 0x401000, 7, 7, STORES_CODE)],
        out: "events 2 ignored 0\noutput -\ndied thread 0 pf at 0x401005 addr 0x401000\n",
        err: "",
        status: 1,
    },
    // No segment at the entry.
    Row {
        programs: &[],
        out: "events 1 ignored 0\noutput -\ndied thread 0 pf at 0x401000 addr 0x401000\n",
        err: "",
        status: 1,
    },
    // p_filesz above p_memsz.
    Row {
        programs: &[(LOAD, 0x401000, 12, 5, CALLS)],
        out: "",
        err: "cet: bad a at 96: bounds\n",
        status: 6,
    },
    // A note whose descsz is no multiple of 8, and a segment that is too long.
    Row {
        programs: &[
            (LOAD, 0x401000, 16_777_217, 5, CALLS),
            (PROPERTY, 0, 8, 4, b"\x04\0\0\0\x07\0\0\0"),
        ],
        out: "",
        err: "cet: bad a at 4: size\n",
        status: 6,
    },
    Row {
        programs: &[(LOAD, 0x401000, 16_777_217, 5, CALLS)],
        out: "",
        err: "cet: bad a at 0x401000: range\n",
        status: 6,
    },
    Row {
        programs: &[
            ONE, ONE, ONE, ONE, ONE, ONE, ONE, ONE, ONE, ONE, ONE, ONE, ONE, ONE, ONE, ONE, ONE,
        ],
        out: "",
        err: "cet: bad a at 0: toomany\n",
        status: 6,
    },
    Row {
        programs: &[(LOAD, 0x401000, 16, 5, CALLS), (LOAD, 0x40100f, 1, 4, b"")],
        out: "",
        err: "cet: bad a at 0x401000: overlap\n",
        status: 6,
    },
    // Segments below the lowest page, past the highest, and on ONE page.
    Row {
        programs: &[(LOAD, 0xfff, 2, 4, b"")],
        out: "",
        err: "cet: bad a at 0xfff: place\n",
        status: 6,
    },
    Row {
        programs: &[(LOAD, 0xfffe_f000, 4097, 4, b"")],
        out: "",
        err: "cet: bad a at 0xfffef000: place\n",
        status: 6,
    },
    Row {
        programs: &[(LOAD, 0x401000, 16, 5, CALLS), (LOAD, 0x401010, 1, 4, b"")],
        out: "",
        err: "cet: bad a at 0x401000: shared\n",
        status: 6,
    },
    // Of two pairs that of the earlier first segment, and out of place goes before both.
    Row {
        programs: &[
            (LOAD, 0x401000, 13, 5, CALLS),
            (LOAD, 0x403000, 1, 4, b""),
            (LOAD, 0x403800, 1, 4, b""),
            (LOAD, 0x401800, 1, 4, b""),
        ],
        out: "",
        err: "cet: bad a at 0x401000: shared\n",
        status: 6,
    },
    Row {
        programs: &[
            (LOAD, 0x401000, 13, 5, CALLS),
            (LOAD, 0x401800, 1, 4, b""),
            (LOAD, 0x800, 1, 4, b""),
        ],
        out: "",
        err: "cet: bad a at 0x800: place\n",
        status: 6,
    },
    Row {
        programs: &[
            (LOAD, 0x401000, 13, 5, CALLS),
            (LOAD, 0xfffe_f000, 4096, 4, b""),
        ],
        out: "events 5 ignored 0\noutput -\ndied thread 0 ud at 0x401005\n",
        err: "",
        status: 1,
    },
];

#[test]
fn executables(rt: HostRuntime) -> Result<(), Fail> {
    for row in ROWS {
        let mut files = MemFiles::new(rt.alloc());
        files.put("a", &executable(rt.alloc(), row.programs)?)?;
        let request = RunRequest {
            raw: false,
            schedule: None,
            input: None,
            limit: 1000,
            file: "a",
        };
        let answer = told(rt.alloc(), request, &mut files, 200)?;
        assert_eq!(rt; answer.out.bytes(), row.out.as_bytes());
        assert_eq!(rt; answer.err.bytes(), row.err.as_bytes());
        assert_eq!(rt; answer.status, row.status);
    }
    Ok(())
}
