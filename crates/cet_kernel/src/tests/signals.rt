//! rt_sigaction, signals, and the return from their handlers.
use crate::Event::Signal;
use crate::Outcome::{Ignored, Ran};
use crate::tests::Act::{
    Apply, Call, End, Gone, Held, Interrupted, Signals, Steps, Thread, Threads, Word,
};
use crate::tests::Part::{Flags, Mask, Reg, Rip, Ssp, Waits};
use crate::tests::{
    AFTER, CALL, EFAULT, EINVAL, PUSHES, RESTORER, RETURNS, RSP, Row, SKIPS, SSP, START,
};
use crate::{Event, Outcome};
use cet_isa::Fault::{General, Page};
use cet_isa::Reg::{Rax, Rbp, Rcx, Rdi, Rdx, Rsi, Rsp};

/// The actions that the program is given, by what is told of each.
const PLAIN: u64 = 0x4010d0;

const NO_DEFER: u64 = 0x4010f0;

const MASKS_12: u64 = 0x401110;

const DEFAULT: u64 = 0x401130;

const IGNORE: u64 = 0x401150;

const NO_RESTORER: u64 = 0x401170;

const ON_STACK: u64 = 0x401190;

const RESET_HAND: u64 = 0x4011b0;

const HIGH_FLAG: u64 = 0x4011d0;

const ENTERS_LOOP: u64 = 0x4011f0;

const CALLS_LOOP: u64 = 0x401210;

const SKIPS_WORD: u64 = 0x401230;

const PUSHES_WORD: u64 = 0x401250;

const MASKS_ALL: u64 = 0x401290;

const FORGED: u64 = 0x4012d0;

const FORGED_LOW_BIT: u64 = 0x4012f0;

const FORGED_NO_MARK: u64 = 0x401310;

/// The frame of the first signal, and what marks a frame.
const FRAME: u64 = 0x7ffe_000f_fe68;

const MARK: u64 = 0x4345_5453_4947_4631;

const STACK_END: u64 = 0x7ffe_0010_0000;

const STEP: Event = Event::Step {
    thread: 0,
    free: 0,
    answer: 0,
};

pub static ROWS: &[Row] = &[
    // rt_sigaction
    (
        0,
        b"",
        &[
            Call(0, 0, &[13, 0, 0, 1, 7], EINVAL),
            Call(0, 0, &[13, 10, PLAIN, 0, 0], EINVAL),
            Call(0, 0, &[13, 10, PLAIN, 0, 16], EINVAL),
            Call(0, 0, &[13, 0, PLAIN, 0, 8], EINVAL),
            Call(0, 0, &[13, 65, PLAIN, 0, 8], EINVAL),
            Call(0, 0, &[13, 9, PLAIN, 0, 8], EINVAL),
            Call(0, 0, &[13, 19, PLAIN, 0, 8], EINVAL),
            Call(0, 0, &[13, 9, 0, 0, 8], EINVAL),
            Call(0, 0, &[13, 0x1_0000_000a, PLAIN, 0, 8], EINVAL),
            Call(0, 0, &[13, 10, 0, PLAIN, 8], EINVAL),
            // arguments before the record, and before none of it
            Call(0, 0, &[13, 10, 0, 0, 7], EINVAL),
            Call(0, 0, &[13, 10, 1, 0, 7], EINVAL),
            Call(0, 0, &[13, 65, 1, 0, 8], EINVAL),
            Call(0, 0, &[13, 10, 1, PLAIN, 8], EINVAL),
            Call(0, 0, &[13, 10, 0, 0, 8], 0),
            Call(0, 0, &[13, 10, 1, 0, 8], EFAULT),
            Call(0, 0, &[13, 10, STACK_END - 31, 0, 8], EFAULT),
            // flags 0
            Call(0, 0, &[13, 10, STACK_END - 32, 0, 8], EINVAL),
            Call(0, 0, &[13, 10, NO_RESTORER, 0, 8], EINVAL),
            Call(0, 0, &[13, 10, ON_STACK, 0, 8], EINVAL),
            Call(0, 0, &[13, 10, RESET_HAND, 0, 8], EINVAL),
            Call(0, 0, &[13, 10, HIGH_FLAG, 0, 8], EINVAL),
            Apply(
                Signal {
                    thread: 0,
                    signo: 10,
                },
                Ignored,
            ),
            Call(0, 0, &[13, 1, PLAIN, 0, 8], 0),
            // a refusal leaves the action
            Call(0, 0, &[13, 1, NO_RESTORER, 0, 8], EINVAL),
            Call(0, 0, &[13, 64, MASKS_12, 0, 8], 0),
            Call(0, 0, &[13, 64, 0, 0, 8], 0),
            Apply(
                Signal {
                    thread: 0,
                    signo: 0,
                },
                Ignored,
            ),
            Apply(
                Signal {
                    thread: 0,
                    signo: 65,
                },
                Ignored,
            ),
            Apply(
                Signal {
                    thread: 0,
                    signo: u32::MAX,
                },
                Ignored,
            ),
            Apply(
                Signal {
                    thread: 0,
                    signo: 2,
                },
                Ignored,
            ),
            Apply(
                Signal {
                    thread: 1,
                    signo: 1,
                },
                Ignored,
            ),
            Thread(0, Rip(AFTER)),
            Signals(0, 1, 1),
            Thread(0, Reg(Rdi, 1)),
            Thread(0, Mask(1)),
            Steps(0, 4),
            Signals(0, 64, 1),
            Thread(0, Mask(0x8000_0000_0000_0800)),
            Steps(0, 4),
            // a handler 0 or 1 clears the action
            Call(0, 0, &[13, 1, DEFAULT, 0, 8], 0),
            Call(0, 0, &[13, 64, IGNORE, 0, 8], 0),
            Apply(
                Signal {
                    thread: 0,
                    signo: 1,
                },
                Ignored,
            ),
            Apply(
                Signal {
                    thread: 0,
                    signo: 64,
                },
                Ignored,
            ),
            Thread(0, Rip(AFTER)),
        ],
    ),
    // a frame and its return
    (
        3,
        b"",
        &[
            Call(0, 0, &[13, 10, PLAIN, 0, 8], 0),
            Signals(0, 10, 1),
            Thread(0, Rip(RETURNS)),
            Thread(0, Reg(Rsp, FRAME)),
            Thread(0, Ssp(0x7ffd_0000_fff0)),
            Word(0x7ffd_0000_fff8, 0x8000_7ffd_0001_0000),
            Word(0x7ffd_0000_fff0, RESTORER),
            Thread(0, Reg(Rdi, 10)),
            Thread(0, Reg(Rax, 0)),
            Thread(0, Reg(Rsi, 0)),
            Thread(0, Reg(Rdx, 0)),
            Thread(0, Reg(Rcx, AFTER)),
            Thread(0, Waits(true)),
            Thread(0, Mask(0x200)),
            Word(FRAME, RESTORER),
            Word(FRAME + 8, 0),
            Word(FRAME + 16, AFTER),
            Word(FRAME + 24, 0),
            Word(FRAME + 40, RSP),
            Word(FRAME + 48, 0x7ffe_0000_0000),
            Word(FRAME + 56, PLAIN),
            Word(FRAME + 64, 10),
            Word(FRAME + 88, 8),
            Word(FRAME + 96, 2),
            Word(FRAME + 136, AFTER),
            Word(FRAME + 144, 2),
            Word(FRAME + 152, 0),
            Word(FRAME + 160, 10),
            Word(FRAME + 168, 0),
            Word(FRAME + 176, MARK),
            Word(FRAME + 184, 0),
            Word(FRAME + 200, 0),
            Apply(
                Signal {
                    thread: 0,
                    signo: 10,
                },
                Ignored,
            ),
            Steps(0, 2),
            Thread(0, Rip(RESTORER)),
            Thread(0, Ssp(0x7ffd_0000_fff8)),
            Thread(0, Reg(Rsp, FRAME + 8)),
            Steps(0, 2),
            Thread(0, Rip(AFTER)),
            Thread(0, Reg(Rsp, RSP)),
            Thread(0, Ssp(SSP)),
            Thread(0, Mask(0)),
            Thread(0, Waits(false)),
            Thread(0, Reg(Rsi, PLAIN)),
            Thread(0, Reg(Rax, 0)),
        ],
    ),
    // a signal at each instruction, the one after an indirect branch too
    (
        3,
        b"",
        &[
            Call(0, 0, &[13, 10, PLAIN, 0, 8], 0),
            Call(0, 0, &[13, 12, NO_DEFER, 0, 8], 0),
            Interrupted(0, 10, 13),
            Thread(0, Rip(CALL)),
            // and at the SYSCALL
            Signals(0, 10, 1),
            Steps(0, 4),
            Thread(0, Rip(CALL)),
            Call(0, 0, &[24], 0),
            Steps(0, 2),
            Thread(0, Waits(true)),
            Signals(0, 12, 1),
            Word(FRAME + 152, 1),
            Thread(0, Waits(true)),
            Thread(0, Mask(0)),
            // in the handler: nested twice
            Interrupted(0, 12, 1),
            Interrupted(0, 10, 1),
            Thread(0, Rip(RESTORER)),
            Signals(0, 10, 1),
            Thread(0, Mask(0x200)),
            Apply(
                Signal {
                    thread: 0,
                    signo: 10,
                },
                Ignored,
            ),
            Signals(0, 12, 1),
            Thread(0, Mask(0x200)),
            Thread(0, Ssp(0x7ffd_0000_ffd8)),
            Steps(0, 4),
            Thread(0, Rip(RETURNS)),
            Thread(0, Waits(true)),
            Steps(0, 4),
            Thread(0, Rip(RESTORER)),
            Thread(0, Mask(0)),
            Steps(0, 2),
            Thread(0, Rip(START)),
            Thread(0, Waits(true)),
            Thread(0, Ssp(SSP)),
            Call(0, 0, &[186], 1),
        ],
    ),
    // with one of the two, and with none
    (
        1,
        b"",
        &[
            Call(0, 0, &[13, 10, PLAIN, 0, 8], 0),
            Interrupted(0, 10, 13),
            Signals(0, 10, 1),
            Thread(0, Ssp(0)),
            Thread(0, Waits(true)),
        ],
    ),
    (
        2,
        b"",
        &[
            Call(0, 0, &[13, 10, PLAIN, 0, 8], 0),
            Interrupted(0, 10, 13),
            Signals(0, 10, 1),
            Thread(0, Ssp(0x7ffd_0000_fff0)),
            Thread(0, Waits(false)),
        ],
    ),
    (
        0,
        b"",
        &[
            Call(0, 0, &[13, 10, PLAIN, 0, 8], 0),
            Interrupted(0, 10, 13),
            Signals(0, 10, 1),
            Thread(0, Ssp(0)),
            Thread(0, Waits(false)),
        ],
    ),
    // masks: of other signals, and of the thread that a handler clones
    (
        3,
        b"",
        &[
            Call(0, 0, &[13, 10, MASKS_12, 0, 8], 0),
            Call(0, 0, &[13, 12, ENTERS_LOOP, 0, 8], 0),
            Call(0, 0, &[13, 14, MASKS_ALL, 0, 8], 0),
            Signals(0, 10, 1),
            Thread(0, Mask(0xa00)),
            Apply(
                Signal {
                    thread: 0,
                    signo: 12,
                },
                Ignored,
            ),
            Signals(0, 14, 1),
            Thread(0, Mask(u64::MAX)),
            Apply(
                Signal {
                    thread: 0,
                    signo: 12,
                },
                Ignored,
            ),
            Steps(0, 4),
            Steps(0, 4),
            Thread(0, Mask(0)),
            // its handler does not defer it, and makes calls
            Signals(0, 12, 2),
            Thread(0, Mask(0)),
            Thread(0, Ssp(0x7ffd_0000_ffe0)),
            Call(0, 0x1_0000_0000, &[56, 0x5_0f00, 0x7ffe_0008_0000], 2),
            Signals(1, 10, 1),
            Thread(1, Mask(0xa00)),
            Thread(0, Mask(0)),
            Thread(1, Reg(Rsp, 0x7ffe_0007_fea8)),
            Word(0x1_0000_fff8, 0x8000_0001_0001_0000),
            Steps(1, 4),
            End(1, &[60], Ran),
            Gone(1),
            Apply(
                Signal {
                    thread: 1,
                    signo: 10,
                },
                Ignored,
            ),
            Threads(2, 1),
        ],
    ),
    // the lowest stack that has room, and one byte less
    (
        0,
        b"",
        &[
            Call(0, 0, &[13, 10, PLAIN, 0, 8], 0),
            Call(0, 0, &[56, 0x5_0f00, 0x7ffe_0000_0158], 2),
            Call(0, 0, &[56, 0x5_0f00, 0x7ffe_0000_0157], 3),
            Signals(1, 10, 1),
            Thread(1, Reg(Rsp, 0x7ffe_0000_0008)),
            Word(0x7ffe_0000_0000, 168),
            Apply(
                Signal {
                    thread: 2,
                    signo: 10,
                },
                Outcome::Died {
                    thread: 2,
                    fault: Page {
                        addr: 0x7ffd_ffff_fff8,
                    },
                    rip: AFTER,
                },
            ),
            Thread(2, Rip(AFTER)),
            Thread(2, Mask(0)),
            Thread(2, Reg(Rsp, 0x7ffe_0000_0157)),
            Word(0x7ffe_0000_0000, 168),
        ],
    ),
    // a stack that ends below 2^64
    (
        0,
        b"",
        &[
            Call(0, 0, &[13, 10, PLAIN, 0, 8], 0),
            Call(0, 0, &[56, 0x5_0f00, 0x10], 2),
            Apply(
                Signal {
                    thread: 1,
                    signo: 10,
                },
                Outcome::Died {
                    thread: 1,
                    fault: Page {
                        addr: 0xffff_ffff_ffff_feb8,
                    },
                    rip: AFTER,
                },
            ),
        ],
    ),
    // a shadow stack that is full to its last word, and of which one word is left: nothing is written
    (
        2,
        b"",
        &[
            Call(0, 0, &[13, 10, NO_DEFER, 0, 8], 0),
            Call(
                0,
                0x1_0000_0000,
                &[9, 0, 0x20_0000, 3, 0x22, u64::MAX, 0],
                0x1_0000_0000,
            ),
            Call(0, 0x1_0030_0000, &[56, 0x5_0f00, 0x1_0020_0000], 2),
            Signals(1, 10, 4096),
            Thread(1, Ssp(0x1_0030_0000)),
            Apply(
                Signal {
                    thread: 1,
                    signo: 10,
                },
                Outcome::Died {
                    thread: 1,
                    fault: Page {
                        addr: 0x1_002f_fff8,
                    },
                    rip: RETURNS,
                },
            ),
        ],
    ),
    (
        2,
        b"",
        &[
            Call(0, 0, &[13, 10, NO_DEFER, 0, 8], 0),
            Call(0, 0, &[13, 12, CALLS_LOOP, 0, 8], 0),
            Call(
                0,
                0x1_0000_0000,
                &[9, 0, 0x20_0000, 3, 0x22, u64::MAX, 0],
                0x1_0000_0000,
            ),
            Call(0, 0x1_0030_0000, &[56, 0x5_0f00, 0x1_0020_0000], 2),
            Signals(1, 12, 1),
            Steps(1, 2),
            Thread(1, Rip(START)),
            Signals(1, 10, 4094),
            Thread(1, Ssp(0x1_0030_0008)),
            Apply(
                Signal {
                    thread: 1,
                    signo: 10,
                },
                Outcome::Died {
                    thread: 1,
                    fault: Page {
                        addr: 0x1_002f_fff8,
                    },
                    rip: RETURNS,
                },
            ),
            Word(0x1_0030_0000, 0),
            Thread(1, Ssp(0x1_0030_0008)),
            Held(0x1_0030_0000, 65536, Some(cet_mem::Kind::Shadow)),
        ],
    ),
    // rt_sigreturn without a frame: no room for one, and no mark
    (
        3,
        b"",
        &[End(
            0,
            &[15],
            Outcome::Died {
                thread: 0,
                fault: Page {
                    addr: 0x7ffe_000f_ffb8,
                },
                rip: CALL,
            },
        )],
    ),
    (
        3,
        b"",
        &[
            Call(0, 0, &[13, 10, ENTERS_LOOP, 0, 8], 0),
            Signals(0, 10, 1),
            End(
                0,
                &[15],
                Outcome::Died {
                    thread: 0,
                    fault: General,
                    rip: CALL,
                },
            ),
            Thread(0, Reg(Rsp, FRAME)),
            Thread(0, Reg(Rbp, 0x7ffe_0000_0000)),
            Thread(0, Flags(false, false, false, false)),
        ],
    ),
    // and with a frame: SSP at its end, and at a word without the mark. Without shadow stacks none of it is looked at.
    (
        3,
        b"",
        &[
            Call(0, 0, &[13, 10, SKIPS_WORD, 0, 8], 0),
            Signals(0, 10, 1),
            Steps(0, 5),
            Apply(
                STEP,
                Outcome::Died {
                    thread: 0,
                    fault: Page { addr: SSP },
                    rip: SKIPS + 15,
                },
            ),
        ],
    ),
    (
        3,
        b"",
        &[
            Call(0, 0, &[13, 10, PUSHES_WORD, 0, 8], 0),
            Signals(0, 10, 1),
            Steps(0, 5),
            Apply(
                STEP,
                Outcome::Died {
                    thread: 0,
                    fault: General,
                    rip: PUSHES + 15,
                },
            ),
        ],
    ),
    // a word in the place of the marked SSP: a mark is all that is asked for, and low bits 0
    (
        2,
        b"",
        &[
            Call(0, 0, &[13, 10, FORGED, 0, 8], 0),
            Signals(0, 10, 1),
            Steps(0, 3),
            Thread(0, Rip(AFTER)),
            Thread(0, Ssp(0x7ffd_0000_8000)),
        ],
    ),
    (
        2,
        b"",
        &[
            Call(0, 0, &[13, 10, FORGED_LOW_BIT, 0, 8], 0),
            Signals(0, 10, 1),
            Steps(0, 2),
            Apply(
                STEP,
                Outcome::Died {
                    thread: 0,
                    fault: General,
                    rip: PUSHES + 15,
                },
            ),
            Thread(0, Ssp(0x7ffd_0000_fff0)),
        ],
    ),
    (
        2,
        b"",
        &[
            Call(0, 0, &[13, 10, FORGED_NO_MARK, 0, 8], 0),
            Signals(0, 10, 1),
            Steps(0, 2),
            Apply(
                STEP,
                Outcome::Died {
                    thread: 0,
                    fault: General,
                    rip: PUSHES + 15,
                },
            ),
        ],
    ),
    (
        1,
        b"",
        &[
            Call(0, 0, &[13, 10, PUSHES_WORD, 0, 8], 0),
            Signals(0, 10, 1),
            Steps(0, 6),
            Thread(0, Rip(AFTER)),
            Thread(0, Reg(Rsp, RSP)),
        ],
    ),
];
