//! Threads: clone, exit, exit_group, and events that cannot happen.
use crate::Event::{Signal, Step};
use crate::Outcome;
use crate::Outcome::{Ignored, Ran};
use crate::tests::Act::{
    Apply, Call, End, Ended, Fresh, Gone, Held, Signals, Steps, Thread, Threads, Word,
};
use crate::tests::Part::{Flags, Mask, Reg, Rip, Ssp, Waits};
use crate::tests::{AFTER, CALL, CLONES, EAGAIN, EINVAL, ENOMEM, RESTORER, RSP, Row, SSP, START};
use cet_isa::Fault::{EndBranch, General};
use cet_isa::Reg::{R11, Rax, Rcx, Rdi, Rsi, Rsp};
use cet_mem::Kind::{Code, Shadow, Write};

/// The flags of a thread of this process's kind, with all memory, files, signal handlers and System V undo lists shared.
const FLAGS: u64 = 0x5_0f00;

/// A stack in the main stack.
const STACK: u64 = 0x7ffe_0008_0000;

pub static ROWS: &[Row] = &[
    // the start
    (
        0,
        b"",
        &[
            Thread(0, Rip(START)),
            Thread(0, Reg(Rsp, RSP)),
            Thread(0, Reg(Rax, 0)),
            Thread(0, Ssp(0)),
            Thread(0, Mask(0)),
            Thread(0, Waits(false)),
            Thread(0, Flags(false, false, false, false)),
            Threads(1, 1),
            Fresh(0x1_0000_0000),
            Ended(None),
            Gone(1),
            Gone(u32::MAX),
            Held(START, 4096, Some(Code)),
            Held(0x7ffe_0000_0000, 1_048_576, Some(Write)),
            Held(0x7ffd_0000_0000, 1, None),
        ],
    ),
    (
        3,
        b"",
        &[
            Thread(0, Ssp(SSP)),
            Thread(0, Waits(false)),
            Held(0x7ffd_0000_0000, 65536, Some(Shadow)),
            Held(0x7ffd_0000_0000, 65537, None),
        ],
    ),
    // steps of no thread, and with other bits than the four flags
    (
        0,
        b"",
        &[
            Apply(
                Step {
                    thread: 1,
                    free: 0,
                    answer: 0,
                },
                Ignored,
            ),
            Apply(
                Step {
                    thread: 64,
                    free: 0,
                    answer: 0,
                },
                Ignored,
            ),
            Apply(
                Step {
                    thread: u32::MAX,
                    free: 0,
                    answer: 0,
                },
                Ignored,
            ),
            Apply(
                Step {
                    thread: 0,
                    free: 16,
                    answer: 0,
                },
                Ignored,
            ),
            Apply(
                Step {
                    thread: 0,
                    free: 255,
                    answer: 0,
                },
                Ignored,
            ),
            Thread(0, Rip(START)),
            Apply(
                Step {
                    thread: 0,
                    free: 15,
                    answer: 0,
                },
                Ran,
            ),
            Thread(0, Rip(START + 4)),
        ],
    ),
    // threads with shadow stacks
    (
        3,
        b"",
        &[
            Call(0, 0x1_0000_0000, &[56, 0x5_0f01, STACK], EINVAL),
            Call(0, 0x1_0000_0000, &[56, 0, STACK], EINVAL),
            Call(0, 0x1_0000_0000, &[56, 0x1_0005_0f00, STACK], EINVAL),
            Call(0, 0x1_0000_0000, &[56, FLAGS, 0], EINVAL),
            // arguments before the place
            Call(0, 0, &[56, 0, STACK], EINVAL),
            Call(0, 0, &[56, FLAGS, 0], EINVAL),
            Call(0, 0, &[56, FLAGS, STACK], ENOMEM),
            Call(0, 0x7ffd_0001_0000, &[56, FLAGS, STACK], ENOMEM),
            Threads(1, 1),
            Fresh(0x1_0000_0000),
            Call(0, 0x1_0000_0000, &[56, FLAGS, STACK], 2),
            Threads(2, 3),
            Fresh(0x1_0002_0000),
            Held(0x1_0000_0000, 65536, Some(Shadow)),
            Word(0x1_0000_fff8, 0),
            Thread(1, Reg(Rax, 0)),
            Thread(1, Reg(Rsp, STACK)),
            Thread(1, Reg(Rdi, FLAGS)),
            Thread(1, Reg(Rsi, STACK)),
            Thread(1, Reg(Rcx, AFTER)),
            Thread(1, Reg(R11, 2)),
            Thread(1, Rip(AFTER)),
            Thread(1, Ssp(0x1_0001_0000)),
            Thread(1, Waits(false)),
            Thread(1, Mask(0)),
            Thread(0, Reg(Rsp, RSP)),
            Thread(0, Ssp(SSP)),
            Call(1, 0, &[186], 2),
            Call(0, 0, &[186], 1),
            // a thread that a thread makes, in the gap and then beyond it
            Call(1, 0x1_0001_f000, &[56, FLAGS, STACK + 8], ENOMEM),
            Call(1, 0x1_0002_0000, &[56, FLAGS, STACK + 8], 3),
            Thread(2, Ssp(0x1_0003_0000)),
            Thread(2, Reg(Rsp, STACK + 8)),
            // one of several ends: its number is not used again
            End(1, &[60, 7], Ran),
            Gone(1),
            Threads(3, 5),
            Ended(None),
            Apply(
                Step {
                    thread: 1,
                    free: 0,
                    answer: 0,
                },
                Ignored,
            ),
            Call(2, 0x1_0004_0000, &[56, FLAGS, STACK], 4),
            Threads(4, 13),
            Call(3, 0, &[186], 4),
            // the last one ends the process
            End(3, &[60, 0x101], Ran),
            End(0, &[60, 0x102], Ran),
            Gone(0),
            Threads(4, 4),
            End(2, &[60, 0x1fd], Outcome::Ended { status: 0xfd }),
            Threads(4, 0),
            Gone(2),
            Ended(Some(Outcome::Ended { status: 0xfd })),
            Apply(
                Step {
                    thread: 2,
                    free: 0,
                    answer: 0,
                },
                Ignored,
            ),
            Apply(
                Step {
                    thread: 0,
                    free: 0,
                    answer: 0,
                },
                Ignored,
            ),
        ],
    ),
    // threads without shadow stacks
    (
        1,
        b"",
        &[
            Call(0, 0, &[56, FLAGS, 1], 2),
            Thread(1, Reg(Rsp, 1)),
            Thread(1, Ssp(0)),
            Fresh(0x1_0000_0000),
            End(0, &[231, 0x300], Outcome::Ended { status: 0 }),
            // they count as they stood then
            Threads(2, 3),
            Thread(0, Rip(AFTER)),
            Thread(0, Reg(Rax, 231)),
            Thread(0, Reg(Rdi, 0x300)),
            Thread(0, Reg(Rcx, AFTER)),
            Thread(1, Rip(AFTER)),
            Apply(
                Step {
                    thread: 1,
                    free: 0,
                    answer: 0,
                },
                Ignored,
            ),
            Thread(1, Rip(AFTER)),
        ],
    ),
    (
        0,
        b"",
        &[
            End(0, &[231, u64::MAX], Outcome::Ended { status: 255 }),
            Ended(Some(Outcome::Ended { status: 255 })),
        ],
    ),
    (
        0,
        b"",
        &[End(0, &[60], Outcome::Ended { status: 0 }), Threads(1, 0)],
    ),
    // 64 threads and a 65th: 63 times five steps of a loop that clones
    (
        2,
        b"",
        &[
            Call(0, 0, &[13, 10, 0x401270, 0, 8], 0),
            Call(0, 0, &[13, 12, 0x4011f0, 0, 8], 0),
            Signals(0, 10, 1),
            Steps(0, 1),
            Thread(0, Rip(CLONES + 4)),
            Steps(0, 314),
            Thread(0, Reg(Rax, 64)),
            Threads(64, u64::MAX),
            Fresh(0x1_007e_0000),
            Thread(63, Ssp(0x1_007d_0000)),
            Thread(63, Mask(0x200)),
            Thread(63, Reg(Rax, 0)),
            Gone(64),
            // EAGAIN, and not ENOMEM
            Steps(0, 4),
            Apply(
                Step {
                    thread: 0,
                    free: 0,
                    answer: 0,
                },
                Ran,
            ),
            Thread(0, Reg(Rax, EAGAIN)),
            Threads(64, u64::MAX),
            Fresh(0x1_007e_0000),
            Apply(
                Step {
                    thread: 64,
                    free: 0,
                    answer: 0,
                },
                Ignored,
            ),
            Apply(
                Signal {
                    thread: 64,
                    signo: 10,
                },
                Ignored,
            ),
            // EINVAL, and not EAGAIN
            Signals(0, 12, 1),
            Call(0, 0, &[56, 0, STACK], EINVAL),
            Call(0, 0, &[56, FLAGS, 0], EINVAL),
            Call(0, 0x1_0100_0000, &[56, FLAGS, STACK], EAGAIN),
            // one that has ended makes no room
            End(0, &[60], Ran),
            Gone(0),
            Steps(1, 5),
            Thread(1, Reg(Rax, EAGAIN)),
            Threads(64, u64::MAX - 1),
        ],
    ),
    // the same without shadow stacks, which map nothing
    (
        1,
        b"",
        &[
            Call(0, 0, &[13, 10, 0x401270, 0, 8], 0),
            Signals(0, 10, 1),
            Steps(0, 315),
            Thread(0, Reg(Rax, 64)),
            Threads(64, u64::MAX),
            Fresh(0x1_0000_0000),
            Thread(63, Ssp(0)),
            Steps(0, 5),
            Thread(0, Reg(Rax, EAGAIN)),
            Threads(64, u64::MAX),
            Gone(64),
        ],
    ),
    // a fault: all stays as it was before the SYSCALL
    (
        3,
        b"",
        &[
            Call(0, 0x1_0000_0000, &[56, FLAGS, STACK], 2),
            Call(1, 0, &[24], 0),
            End(
                1,
                &[15, 5, 6],
                Outcome::Died {
                    thread: 1,
                    fault: General,
                    rip: CALL,
                },
            ),
            Thread(1, Rip(CALL)),
            Thread(1, Reg(Rax, 15)),
            Thread(1, Reg(Rcx, START)),
            Threads(2, 3),
            Ended(Some(Outcome::Died {
                thread: 1,
                fault: General,
                rip: CALL,
            })),
            Apply(
                Step {
                    thread: 0,
                    free: 0,
                    answer: 0,
                },
                Ignored,
            ),
        ],
    ),
    // a fault of a step: a handler without ENDBR64
    (
        1,
        b"",
        &[
            Call(0, 0, &[13, 64, 0x4012b0, 0, 8], 0),
            Signals(0, 64, 1),
            Thread(0, Rip(RESTORER)),
            Apply(
                Step {
                    thread: 0,
                    free: 0,
                    answer: 0,
                },
                Outcome::Died {
                    thread: 0,
                    fault: EndBranch,
                    rip: RESTORER,
                },
            ),
            Thread(0, Waits(true)),
            Threads(1, 1),
            Apply(
                Signal {
                    thread: 0,
                    signo: 64,
                },
                Ignored,
            ),
        ],
    ),
];
