//! Each kind of line, right and wrong, at the bounds of each number, and whole texts.
use crate::{EventList, ScheduleError, read_schedule};
use cet_process::Event;
use std::alloc::Global;
use std::test::Fail;

const fn step(thread: u32, free: u8, answer: u64) -> Event {
    Event::Step {
        thread,
        free,
        answer,
    }
}

const fn signal(thread: u32, signo: u32) -> Event {
    Event::Signal { thread, signo }
}

// The line of the fault, where there is one.
fn fault(error: ScheduleError) -> (u32, bool) {
    match error {
        ScheduleError::Line { line } => (line, false),
        ScheduleError::TooMany { line } => (line, true),
        ScheduleError::NoMemory => (0, false),
    }
}

fn read(alloc: Global, text: &str) -> Result<EventList, ScheduleError> {
    if text.len() > 256 {
        return Err(ScheduleError::NoMemory);
    }
    read_schedule(alloc, text.as_bytes())
}

#[test]
fn texts(rt: HostRuntime) -> Result<(), Fail> {
    let top = u32::MAX;
    let rows: [(&str, &[Event]); 14] = [
        ("", &[]),
        ("\n", &[]),
        ("\n\n\n", &[]),
        ("s 0 0 0\n", &[step(0, 0, 0)]),
        ("g 0 10\n", &[signal(0, 10)]),
        ("x 1 0\n", &[step(0, 0, 0)]),
        ("x 3 2\n", &[step(2, 0, 0), step(2, 0, 0), step(2, 0, 0)]),
        (
            "s 4294967295 15 18446744073709551615\n",
            &[step(top, 15, u64::MAX)],
        ),
        (
            "s 0xffffffff 0xF 0xffffFFFFffffFFFF\n",
            &[step(top, 15, u64::MAX)],
        ),
        (
            "s 0007 0x00000000000000000000b 00000000000000000000000001\n",
            &[step(7, 11, 1)],
        ),
        ("g 4294967295 4294967295\n", &[signal(top, top)]),
        ("g 0 0\n", &[signal(0, 0)]),
        (
            "\ng 1 0x40\n\ns 2 1 0x100000000\n",
            &[signal(1, 64), step(2, 1, 0x1_0000_0000)],
        ),
        (
            "x 0x2 0x1\ng 0 10\nx 01 0\n",
            &[step(1, 0, 0), step(1, 0, 0), signal(0, 10), step(0, 0, 0)],
        ),
    ];
    for (text, events) in rows {
        let list = read(rt.alloc(), text)?;
        assert_eq!(rt; list.as_slice(), events, "{text:?}");
    }
    Ok(())
}

#[test]
fn wrong_lines(rt: HostRuntime) -> Result<(), Fail> {
    let rows: [(&str, (u32, bool)); 52] = [
        ("s 0 16 0\n", (1, false)),
        ("s 0 0 0", (1, false)),
        (" ", (1, false)),
        ("\n\ns", (3, false)),
        ("\ns 0 0 0\ng 0 10", (3, false)),
        ("x 1 0", (1, false)),
        ("x 1000000 0", (1, false)),
        ("x 1000001 0", (1, false)),
        ("x 1000000 0\nx 1 0", (2, false)),
        ("\r\n", (1, false)),
        ("s 0 0 0\r\n", (1, false)),
        (" s 0 0 0\n", (1, false)),
        ("s 0 0 0 \n", (1, false)),
        ("s  0 0 0\n", (1, false)),
        ("s 0  0 0\n", (1, false)),
        ("s 0\t0 0\n", (1, false)),
        ("s\n", (1, false)),
        ("s \n", (1, false)),
        ("s 0\n", (1, false)),
        ("s 0 0\n", (1, false)),
        ("s 0 0 \n", (1, false)),
        ("s 0 0 0 0\n", (1, false)),
        ("s0 0 0\n", (1, false)),
        ("S 0 0 0\n", (1, false)),
        ("t 0 0 0\n", (1, false)),
        ("ss 0 0 0\n", (1, false)),
        ("s 4294967296 0 0\n", (1, false)),
        ("s 0 0 18446744073709551616\n", (1, false)),
        ("s 0 0 0x10000000000000000\n", (1, false)),
        ("s 0 0 -1\n", (1, false)),
        ("s 0 0 +1\n", (1, false)),
        ("s 0 0 0x\n", (1, false)),
        ("s 0 0 0X1\n", (1, false)),
        ("s 0 0 x1\n", (1, false)),
        ("s 0 0 0xg\n", (1, false)),
        ("s 0 0 1a\n", (1, false)),
        ("s 0 0 0,\n", (1, false)),
        ("g 0\n", (1, false)),
        ("g 0 10 0\n", (1, false)),
        ("g 4294967296 10\n", (1, false)),
        ("g 0 4294967296\n", (1, false)),
        ("x 0 0\n", (1, false)),
        ("x 1000001 0\n", (1, false)),
        ("x 0xF4241 0\n", (1, false)),
        ("x 4294967297 0\n", (1, false)),
        ("x 1 4294967296\n", (1, false)),
        ("x 1\n", (1, false)),
        ("x 1 0 0\n", (1, false)),
        ("g 0 10\n\ng 0 10\nz\nz\n", (4, false)),
        ("x 1000000 0\nx 1 0\n", (2, true)),
        ("x 999999 0\ng 0 10\n\ns 0 0 0\ns 0 16 0\n", (4, true)),
        ("x 999999 0\ns 0 16 0\nx 2 0\n", (2, false)),
    ];
    for (text, wanted) in rows {
        let answer = read(rt.alloc(), text);
        assert_eq!(rt; answer.map_err(fault).err(), Some(wanted), "{text:?}");
    }
    Ok(())
}

// A million events, of one line and of many.
#[test]
fn many(rt: HostRuntime) -> Result<(), Fail> {
    for text in ["x 1000000 0\n", "x 999999 0\n\nx 1 0\n", "x 0xf4240 63\n\n"] {
        let list = read(rt.alloc(), text)?;
        assert_eq!(rt; list.len(), 1_000_000, "{text:?}");
    }
    Ok(())
}
