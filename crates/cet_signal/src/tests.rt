//! Signals that are delivered and returned, and each refusal. The frame's words and what is refused follow from docs/machine.md, the marked SSP from
//! Linux's user shadow stack document.
use crate::{Action, deliver, sigreturn};
use cet_cpu::{value, with_value};
use cet_isa::{Fault, Flags, Mode, Reg, Regs};
use cet_mem::{Kind, MapError, Memory};
use std::alloc::Global;

/// The first page of all, the end of the shadow stack, that of the data stack, and a page that is only read.
const LOW: u64 = 0;

const SSP: u64 = 0x7ffd_0001_0000;

const STACK_END: u64 = 0x7ffe_0010_0000;

const READ: u64 = 0x7ffe_0020_0000;

const RSP: u64 = 0x7ffe_000f_ffc0;

/// Where the frame stands for that rsp, and what marks it.
const FRAME: u64 = 0x7ffe_000f_fe68;

const MARK: u64 = 0x4345_5453_4947_4631;

const OFF: Mode = Mode {
    ibt: false,
    shstk: false,
};

const IBT: Mode = Mode {
    ibt: true,
    shstk: false,
};

const SHSTK: Mode = Mode {
    ibt: false,
    shstk: true,
};

const BOTH: Mode = Mode {
    ibt: true,
    shstk: true,
};

/// SA_RESTORER, and the same with SA_NODEFER (Linux, arch/x86/include/uapi/asm/signal.h and include/uapi/asm-generic/signal-defs.h).
const DEFERS: u64 = 0x0400_0000;

const NO_DEFER: u64 = 0x4400_0000;

/// A thread that waits for an ENDBR64 and blocks signal 1.
const THREAD: Regs = Regs {
    r: [
        0x10, 0x11, 0x12, 0x13, RSP, 0x15, 0x16, 0x17, 0x18, 0x19, 0x1a, 0x1b, 0x1c, 0x1d, 0x1e,
        0x1f,
    ],
    rip: 0x40_1234,
    flags: Flags {
        cf: true,
        zf: false,
        sf: true,
        of: true,
    },
    waiting: true,
    ssp: SSP,
    mask: 0x1,
};

/// The same at the handler of signal 10.
const AT_HANDLER: Regs = Regs {
    r: [
        0, 0x11, 0, 0x13, FRAME, 0x15, 0, 10, 0x18, 0x19, 0x1a, 0x1b, 0x1c, 0x1d, 0x1e, 0x1f,
    ],
    rip: 0x40_1020,
    flags: Flags {
        cf: false,
        zf: false,
        sf: false,
        of: false,
    },
    waiting: true,
    ssp: 0x7ffd_0000_fff0,
    mask: 0xa01,
};

/// The words of its frame, each at its address.
const FRAME_WORDS: [(u64, u64); 14] = [
    (FRAME, 0x40_1030),
    (FRAME + 8, 0x10),
    (FRAME + 16, 0x11),
    (FRAME + 40, RSP),
    (FRAME + 128, 0x1f),
    (FRAME + 136, 0x40_1234),
    (FRAME + 144, 0x883),
    (FRAME + 152, 1),
    (FRAME + 160, 10),
    (FRAME + 168, 0x1),
    (FRAME + 176, MARK),
    (FRAME + 184, 0),
    (FRAME + 192, 0),
    (FRAME + 200, 0),
];

/// And those on its shadow stack.
const SHADOW_WORDS: [(u64, u64); 2] = [
    (0x7ffd_0000_fff8, 0x8000_7ffd_0001_0000),
    (0x7ffd_0000_fff0, 0x40_1030),
];

/// What of CET is on, the flags of the action; and the tracker, SSP and mask at the handler.
const DELIVERED: [(Mode, u64, bool, u64, u64); 5] = [
    (BOTH, DEFERS, true, 0x7ffd_0000_fff0, 0xa01),
    (BOTH, NO_DEFER, true, 0x7ffd_0000_fff0, 0x801),
    (SHSTK, DEFERS, false, 0x7ffd_0000_fff0, 0xa01),
    (IBT, DEFERS, true, SSP, 0xa01),
    (OFF, DEFERS, false, SSP, 0xa01),
];

/// What of CET is on, rsp and SSP; and the fault of the delivery.
const REFUSED: [(Mode, u64, u64, Fault); 11] = [
    // one byte below the lowest rsp that has room, over no region, and where nothing is stored
    (
        OFF,
        0x7ffe_000f_f157,
        SSP,
        Fault::Page {
            addr: 0x7ffe_000f_eff8,
        },
    ),
    (
        OFF,
        0x10,
        SSP,
        Fault::Page {
            addr: 0xffff_ffff_ffff_feb8,
        },
    ),
    (OFF, READ + 0xfc0, SSP, Fault::Page { addr: READ + 0xe68 }),
    (OFF, SSP, SSP, Fault::Page { addr: SSP - 0x158 }),
    // the first word
    (BOTH, RSP, SSP + 8, Fault::Page { addr: SSP }),
    (
        SHSTK,
        RSP,
        STACK_END,
        Fault::Page {
            addr: STACK_END - 8,
        },
    ),
    (
        BOTH,
        RSP,
        0x7ffd_0000_0000,
        Fault::Page {
            addr: 0x7ffc_ffff_fff8,
        },
    ),
    (
        BOTH,
        RSP,
        LOW,
        Fault::Page {
            addr: 0xffff_ffff_ffff_fff8,
        },
    ),
    // the second
    (
        BOTH,
        RSP,
        0x7ffd_0000_0008,
        Fault::Page {
            addr: 0x7ffc_ffff_fff8,
        },
    ),
    (
        SHSTK,
        RSP,
        LOW + 8,
        Fault::Page {
            addr: 0xffff_ffff_ffff_fff8,
        },
    ),
    // the frame before both
    (
        BOTH,
        0x10,
        LOW,
        Fault::Page {
            addr: 0xffff_ffff_ffff_feb8,
        },
    ),
];

/// What of CET is on, a word that changes in the handler, and where it returns, by rsp and SSP; and the SSP that the thread goes on with, or the fault.
const RETURNED: [(Mode, (u64, u64), u64, u64, Result<u64, Fault>); 12] = [
    // words that no return reads
    (BOTH, (FRAME, 0), FRAME + 8, SSP - 8, Ok(SSP)),
    (BOTH, (FRAME + 200, 7), FRAME + 8, SSP - 8, Ok(SSP)),
    (BOTH, (SSP - 16, 0), FRAME + 8, SSP - 8, Ok(SSP)),
    // the frame
    (
        BOTH,
        (FRAME, 0),
        STACK_END - 192,
        SSP - 8,
        Err(Fault::Page {
            addr: STACK_END - 200,
        }),
    ),
    (
        BOTH,
        (FRAME + 176, MARK - 1),
        FRAME + 8,
        SSP - 8,
        Err(Fault::General),
    ),
    // the word of the shadow stack
    (
        BOTH,
        (FRAME, 0),
        FRAME + 8,
        SSP,
        Err(Fault::Page { addr: SSP }),
    ),
    (
        BOTH,
        (FRAME, 0),
        FRAME + 8,
        FRAME,
        Err(Fault::Page { addr: FRAME }),
    ),
    (
        BOTH,
        (SSP - 8, SSP),
        FRAME + 8,
        SSP - 8,
        Err(Fault::General),
    ),
    (
        BOTH,
        (SSP - 8, 0x8000_7ffd_0001_0001),
        FRAME + 8,
        SSP - 8,
        Err(Fault::General),
    ),
    (
        BOTH,
        (SSP - 8, 0x8000_7ffd_0001_0004),
        FRAME + 8,
        SSP - 8,
        Err(Fault::General),
    ),
    // the mark is all that is asked of it, and without shadow stacks nothing
    (
        SHSTK,
        (SSP - 8, 0x8000_7ffd_0000_8000),
        FRAME + 8,
        SSP - 8,
        Ok(0x7ffd_0000_8000),
    ),
    (IBT, (FRAME, 0), FRAME + 8, LOW, Ok(LOW)),
];

fn memory(alloc: Global) -> Result<Memory, MapError> {
    let mut memory = Memory::new(alloc);
    memory.place(LOW, 4096, Kind::Shadow)?;
    memory.place(SSP - 0x1_0000, 0x1_0000, Kind::Shadow)?;
    memory.place(STACK_END - 4096, 4096, Kind::Write)?;
    memory.place(READ, 4096, Kind::Read)?;
    Ok(memory)
}

/// The registers at the handler of signal 10, whose action has these flags. None where SSP is no multiple of 8, or where a fault changed the registers.
fn sent(memory: &mut Memory, regs: &Regs, mode: Mode, flags: u64) -> Option<Result<Regs, Fault>> {
    if regs.ssp % 8 != 0 {
        return None;
    }
    let action = Action {
        handler: 0x40_1020,
        flags,
        restorer: 0x40_1030,
        mask: 0x800,
    };
    let mut after = *regs;
    match deliver(memory, &mut after, mode, action, 10) {
        Ok(()) => Some(Ok(after)),
        Err(fault) if after == *regs => Some(Err(fault)),
        Err(_) => None,
    }
}

/// The registers after the return, where the handler's RET left rsp and SSP so. None where SSP is no multiple of 8, or where a fault changed the registers.
fn left(memory: &Memory, mode: Mode, rsp: u64, ssp: u64) -> Option<Result<Regs, Fault>> {
    if ssp % 8 != 0 {
        return None;
    }
    let at_handler = Regs {
        ssp,
        ..with_value(AT_HANDLER, Reg::Rsp, rsp)
    };
    let mut after = at_handler;
    match sigreturn(memory, &mut after, mode) {
        Ok(()) => Some(Ok(after)),
        Err(fault) if after == at_handler => Some(Err(fault)),
        Err(_) => None,
    }
}

/// The first word that is not as listed.
fn other_word(memory: &Memory, words: &[(u64, u64)]) -> Option<u64> {
    for (a, word) in words {
        if memory.load(*a, 8) != Ok(*word) {
            return Some(*a);
        }
    }
    None
}

#[test]
fn deliveries(rt: HostRuntime) {
    for (mode, flags, waiting, ssp, mask) in &DELIVERED {
        let mut memory = memory(rt.alloc()).expect(&rt, "memory");
        let at_handler = Regs {
            waiting: *waiting,
            ssp: *ssp,
            mask: *mask,
            ..AT_HANDLER
        };
        let delivered = sent(&mut memory, &THREAD, *mode, *flags);
        assert_eq!(rt; delivered, Some(Ok(at_handler)), "{mode:?}");
        assert_eq!(rt; other_word(&memory, &FRAME_WORDS), None, "{mode:?}");
        if mode.shstk {
            assert_eq!(rt; other_word(&memory, &SHADOW_WORDS), None, "{mode:?}");
        }
        // the handler's RET, and the return
        let rsp = value(&at_handler, Reg::Rsp).wrapping_add(8);
        let ssp = if mode.shstk {
            ssp.wrapping_add(8)
        } else {
            *ssp
        };
        let thread = Regs {
            waiting: mode.ibt,
            ..THREAD
        };
        let returned = left(&memory, *mode, rsp, ssp);
        assert_eq!(rt; returned, Some(Ok(thread)), "{mode:?}");
    }
}

#[test]
fn refused_deliveries(rt: HostRuntime) {
    for (mode, rsp, ssp, fault) in &REFUSED {
        let mut memory = memory(rt.alloc()).expect(&rt, "memory");
        let at = with_value(THREAD, Reg::Rsp, *rsp);
        let refused = sent(&mut memory, &Regs { ssp: *ssp, ..at }, *mode, DEFERS);
        assert_eq!(rt; refused, Some(Err(*fault)), "rsp {rsp:#x} ssp {ssp:#x}");
        assert_eq!(rt; memory.load(FRAME, 8), Ok(0), "rsp {rsp:#x} ssp {ssp:#x}");
    }
}

#[test]
fn returns(rt: HostRuntime) {
    for (mode, (a, word), rsp, ssp, answer) in &RETURNED {
        let mut memory = memory(rt.alloc()).expect(&rt, "memory");
        let _at_handler = sent(&mut memory, &THREAD, *mode, DEFERS);
        let _changed = memory.fill(*a, &word.to_le_bytes());
        let thread = match answer {
            Ok(ssp) => Ok(Regs {
                waiting: mode.ibt,
                ssp: *ssp,
                ..THREAD
            }),
            Err(fault) => Err(*fault),
        };
        let returned = left(&memory, *mode, *rsp, *ssp);
        assert_eq!(rt; returned, Some(thread), "{word:#x} at {a:#x}");
    }
}
