//! The tracker, and transfers of control under each mode: what the tables of transfers leave. The states follow from the SDM (volume 1, chapter
//! "Control-flow Enforcement Technology", and the instructions' pages of volume 2).
use crate::StepEnd::{Fault, Next};
use crate::tests::Part::{Flags, Reg, Rip, Ssp, Waiting, Word};
use crate::tests::{BOTH, IBT, OFF, Row, SHSTK};
use cet_isa::Fault::{EndBranch, General, NearRet, Page, Undefined};
use cet_isa::Reg::{Rax, Rdi, Rsp};

/// Anything other than ENDBR64 while the tracker waits is the fault of the tracker, before any other.
pub const WAITING: &[Row] = &[
    // endbr64
    (
        b"\xf3\x0f\x1e\xfa",
        SHSTK,
        1,
        &[Waiting(true)],
        Next,
        &[Rip(0x401004), Waiting(false)],
    ),
    // endbr64
    (
        b"\xf3\x0f\x1e\xfa",
        BOTH,
        1,
        &[Waiting(true)],
        Next,
        &[Rip(0x401004), Waiting(false)],
    ),
    // endbr64
    (b"\xf3\x0f\x1e\xfa", OFF, 1, &[], Next, &[Rip(0x401004)]),
    // nop
    (b"\x90", SHSTK, 1, &[Waiting(true)], Fault(EndBranch), &[]),
    // nop
    (b"\x90", BOTH, 1, &[Waiting(true)], Fault(EndBranch), &[]),
    // call .+0x1000
    (
        b"\xe8\xfb\x0f\x00\x00",
        BOTH,
        1,
        &[Waiting(true)],
        Fault(EndBranch),
        &[],
    ),
    // call .+5
    (
        b"\xe8\x00\x00\x00\x00",
        IBT,
        1,
        &[Waiting(true)],
        Fault(EndBranch),
        &[],
    ),
    // call rax
    (
        b"\xff\xd0",
        BOTH,
        1,
        &[Waiting(true), Reg(Rax, 0x401000)],
        Fault(EndBranch),
        &[],
    ),
    // notrack jmp rax
    (
        b"\x3e\xff\xe0",
        IBT,
        1,
        &[Waiting(true)],
        Fault(EndBranch),
        &[],
    ),
    // jmp qword ptr [rdi]
    (b"\xff\x27", IBT, 1, &[Waiting(true)], Fault(EndBranch), &[]),
    // notrack call qword ptr [rdi]
    (
        b"\x3e\xff\x17",
        IBT,
        1,
        &[Waiting(true)],
        Fault(EndBranch),
        &[],
    ),
    // jmp .+2
    (b"\xeb\x00", IBT, 1, &[Waiting(true)], Fault(EndBranch), &[]),
    // je .+2
    (
        b"\x74\x00",
        IBT,
        1,
        &[Waiting(true), Flags(2)],
        Fault(EndBranch),
        &[],
    ),
    // ret
    (
        b"\xc3",
        BOTH,
        1,
        &[
            Waiting(true),
            Word(0x403800, 0x401234),
            Word(0x405800, 0x401234),
        ],
        Fault(EndBranch),
        &[],
    ),
    // push rax
    (
        b"\x50",
        IBT,
        1,
        &[Waiting(true), Reg(Rsp, 0x403000)],
        Fault(EndBranch),
        &[],
    ),
    // mov qword ptr [rdi], rax
    (
        b"\x48\x89\x07",
        IBT,
        1,
        &[Waiting(true), Reg(Rdi, 0x403900), Reg(Rax, 0x7)],
        Fault(EndBranch),
        &[],
    ),
    // mov rax, qword ptr [rdi]
    (
        b"\x48\x8b\x07",
        IBT,
        1,
        &[Waiting(true)],
        Fault(EndBranch),
        &[],
    ),
    // div ecx
    (b"\xf7\xf1", IBT, 1, &[Waiting(true)], Fault(EndBranch), &[]),
    // syscall
    (b"\x0f\x05", IBT, 1, &[Waiting(true)], Fault(EndBranch), &[]),
    // hlt
    (b"\xf4", IBT, 1, &[Waiting(true)], Fault(EndBranch), &[]),
    // incsspq rcx
    (
        b"\xf3\x48\x0f\xae\xe9",
        IBT,
        1,
        &[Waiting(true)],
        Fault(EndBranch),
        &[],
    ),
    // saveprevssp
    (
        b"\xf3\x0f\x01\xea",
        BOTH,
        1,
        &[Waiting(true), Word(0x405800, 0x405903)],
        Fault(EndBranch),
        &[],
    ),
    (b"\x06", IBT, 1, &[Waiting(true)], Fault(EndBranch), &[]),
    (
        b"\x66\xf3\x0f\x1e\xfa",
        IBT,
        1,
        &[Waiting(true)],
        Fault(EndBranch),
        &[],
    ),
    (
        b"\xf3",
        IBT,
        1,
        &[Rip(0x401fff), Waiting(true)],
        Fault(EndBranch),
        &[],
    ),
    (
        b"\xf3\x0f",
        IBT,
        1,
        &[Rip(0x401ffe), Waiting(true)],
        Fault(EndBranch),
        &[],
    ),
    (
        b"\xf3",
        IBT,
        1,
        &[Rip(0x401fff)],
        Fault(Page { addr: 0x402000 }),
        &[],
    ),
    (
        b"\xf3\x0f",
        IBT,
        1,
        &[Rip(0x401ffe)],
        Fault(Page { addr: 0x402000 }),
        &[],
    ),
    // endbr64
    (
        b"\xf3\x0f\x1e\xfa",
        IBT,
        1,
        &[Rip(0x400ffc), Waiting(true)],
        Next,
        &[Rip(0x401000), Waiting(false)],
    ),
    // endbr64
    (
        b"\xf3\x0f\x1e\xfa",
        IBT,
        1,
        &[Rip(0x401ffc)],
        Next,
        &[Rip(0x402000)],
    ),
    (
        b"\xf3",
        IBT,
        1,
        &[Rip(0x400fff), Word(0x401000, 0xfa1e0f)],
        Fault(Page { addr: 0x401000 }),
        &[],
    ),
    (
        b"\xf3",
        IBT,
        1,
        &[Rip(0x400fff), Waiting(true), Word(0x401000, 0xfa1e0f)],
        Fault(EndBranch),
        &[],
    ),
    // jmp rax, then jmp rax
    (
        b"\xff\xe0\xff\xe0",
        IBT,
        2,
        &[Reg(Rax, 0x401002)],
        Fault(EndBranch),
        &[Rip(0x401002), Waiting(true)],
    ),
    // jmp rax, then call rax
    (
        b"\xff\xe0\xff\xd0",
        BOTH,
        2,
        &[Reg(Rax, 0x401002)],
        Fault(EndBranch),
        &[Rip(0x401002), Waiting(true)],
    ),
    // endbr64, then jmp rax
    (
        b"\xf3\x0f\x1e\xfa\xff\xe0",
        IBT,
        2,
        &[Waiting(true), Reg(Rax, 0x401000)],
        Next,
        &[Rip(0x401000)],
    ),
    // endbr64, then jmp rax
    (
        b"\xf3\x0f\x1e\xfa\xff\xe0",
        IBT,
        3,
        &[Waiting(true), Reg(Rax, 0x401000)],
        Next,
        &[Rip(0x401004), Waiting(false)],
    ),
    // endbr64, then nop, then call rax
    (
        b"\xf3\x0f\x1e\xfa\x90\xff\xd0",
        BOTH,
        3,
        &[Waiting(true), Reg(Rax, 0x401234)],
        Next,
        &[
            Rip(0x401234),
            Reg(Rsp, 0x4037f8),
            Word(0x4037f8, 0x401007),
            Ssp(0x4057f8),
            Word(0x4057f8, 0x401007),
        ],
    ),
    // endbr64, then jmp qword ptr [rdi]
    (
        b"\xf3\x0f\x1e\xfa\xff\x27",
        IBT,
        2,
        &[Waiting(true)],
        Fault(Page { addr: 0x0 }),
        &[Rip(0x401004), Waiting(false)],
    ),
    // jmp rax
    (
        b"\xff\xe0",
        IBT,
        2,
        &[Reg(Rax, 0x409000)],
        Fault(Page { addr: 0x409000 }),
        &[Rip(0x409000), Waiting(true)],
    ),
];

/// Transfers of control under each mode.
pub const TRANSFERS: &[Row] = &[
    // call .+0x1000
    (
        b"\xe8\xfb\x0f\x00\x00",
        IBT,
        1,
        &[],
        Next,
        &[Rip(0x402000), Reg(Rsp, 0x4037f8), Word(0x4037f8, 0x401005)],
    ),
    // call .+0x1000
    (
        b"\xe8\xfb\x0f\x00\x00",
        BOTH,
        1,
        &[],
        Next,
        &[
            Rip(0x402000),
            Reg(Rsp, 0x4037f8),
            Word(0x4037f8, 0x401005),
            Ssp(0x4057f8),
            Word(0x4057f8, 0x401005),
        ],
    ),
    // call .+5
    (
        b"\xe8\x00\x00\x00\x00",
        BOTH,
        1,
        &[],
        Next,
        &[Rip(0x401005), Reg(Rsp, 0x4037f8), Word(0x4037f8, 0x401005)],
    ),
    // call .+5
    (
        b"\xe8\x00\x00\x00\x00",
        SHSTK,
        1,
        &[Reg(Rsp, 0x403000)],
        Fault(Page { addr: 0x402ff8 }),
        &[],
    ),
    // call .+0x1000
    (
        b"\xe8\xfb\x0f\x00\x00",
        SHSTK,
        1,
        &[Reg(Rsp, 0x403000), Ssp(0x405000)],
        Fault(Page { addr: 0x402ff8 }),
        &[],
    ),
    // call .+0x1000
    (
        b"\xe8\xfb\x0f\x00\x00",
        SHSTK,
        1,
        &[Ssp(0x403900)],
        Fault(Page { addr: 0x4038f8 }),
        &[],
    ),
    // call .+0x1000
    (
        b"\xe8\xfb\x0f\x00\x00",
        SHSTK,
        1,
        &[Ssp(0x405008)],
        Next,
        &[
            Rip(0x402000),
            Reg(Rsp, 0x4037f8),
            Word(0x4037f8, 0x401005),
            Ssp(0x405000),
            Word(0x405000, 0x401005),
        ],
    ),
    // call .+0x1000
    (
        b"\xe8\xfb\x0f\x00\x00",
        SHSTK,
        1,
        &[Reg(Rsp, 0x405900)],
        Fault(Page { addr: 0x4058f8 }),
        &[],
    ),
    // call rax
    (
        b"\xff\xd0",
        OFF,
        1,
        &[Reg(Rax, 0x401234)],
        Next,
        &[Rip(0x401234), Reg(Rsp, 0x4037f8), Word(0x4037f8, 0x401002)],
    ),
    // call rax
    (
        b"\xff\xd0",
        IBT,
        1,
        &[Reg(Rax, 0x401234)],
        Next,
        &[
            Rip(0x401234),
            Reg(Rsp, 0x4037f8),
            Word(0x4037f8, 0x401002),
            Waiting(true),
        ],
    ),
    // call rax
    (
        b"\xff\xd0",
        SHSTK,
        1,
        &[Reg(Rax, 0x401002)],
        Next,
        &[
            Rip(0x401002),
            Reg(Rsp, 0x4037f8),
            Word(0x4037f8, 0x401002),
            Ssp(0x4057f8),
            Word(0x4057f8, 0x401002),
        ],
    ),
    // notrack call rax
    (
        b"\x3e\xff\xd0",
        SHSTK,
        1,
        &[Reg(Rax, 0x401234)],
        Next,
        &[
            Rip(0x401234),
            Reg(Rsp, 0x4037f8),
            Word(0x4037f8, 0x401003),
            Ssp(0x4057f8),
            Word(0x4057f8, 0x401003),
        ],
    ),
    // notrack call rax
    (
        b"\x3e\xff\xd0",
        BOTH,
        1,
        &[Reg(Rax, 0x401234)],
        Next,
        &[
            Rip(0x401234),
            Reg(Rsp, 0x4037f8),
            Word(0x4037f8, 0x401003),
            Ssp(0x4057f8),
            Word(0x4057f8, 0x401003),
        ],
    ),
    // notrack call rax
    (
        b"\x3e\xff\xd0",
        BOTH,
        1,
        &[Ssp(0x405000)],
        Fault(Page { addr: 0x404ff8 }),
        &[],
    ),
    // notrack call qword ptr [rdi]
    (
        b"\x3e\xff\x17",
        BOTH,
        1,
        &[],
        Fault(Page { addr: 0x0 }),
        &[],
    ),
    // notrack call qword ptr [rdi]
    (
        b"\x3e\xff\x17",
        OFF,
        1,
        &[Reg(Rdi, 0x403900), Word(0x403900, 0x401234)],
        Next,
        &[Rip(0x401234), Reg(Rsp, 0x4037f8), Word(0x4037f8, 0x401003)],
    ),
    // call qword ptr [rdi]
    (
        b"\xff\x17",
        IBT,
        1,
        &[Reg(Rdi, 0x403900), Word(0x403900, 0x401234)],
        Next,
        &[
            Rip(0x401234),
            Reg(Rsp, 0x4037f8),
            Word(0x4037f8, 0x401002),
            Waiting(true),
        ],
    ),
    // call qword ptr [rdi]
    (
        b"\xff\x17",
        SHSTK,
        1,
        &[Reg(Rdi, 0x403900), Word(0x403900, 0x401234)],
        Next,
        &[
            Rip(0x401234),
            Reg(Rsp, 0x4037f8),
            Word(0x4037f8, 0x401002),
            Ssp(0x4057f8),
            Word(0x4057f8, 0x401002),
        ],
    ),
    // call qword ptr [rdi]
    (
        b"\xff\x17",
        BOTH,
        1,
        &[Reg(Rdi, 0x403900), Word(0x403900, 0x401234)],
        Next,
        &[
            Rip(0x401234),
            Reg(Rsp, 0x4037f8),
            Word(0x4037f8, 0x401002),
            Ssp(0x4057f8),
            Word(0x4057f8, 0x401002),
            Waiting(true),
        ],
    ),
    // call qword ptr [rdi]
    (
        b"\xff\x17",
        BOTH,
        1,
        &[Reg(Rsp, 0x403000), Ssp(0x405000)],
        Fault(Page { addr: 0x0 }),
        &[],
    ),
    // call qword ptr [rdi]
    (
        b"\xff\x17",
        BOTH,
        1,
        &[Reg(Rdi, 0x403900), Word(0x403900, 0x401234), Ssp(0x405000)],
        Fault(Page { addr: 0x404ff8 }),
        &[],
    ),
    // jmp rax
    (
        b"\xff\xe0",
        OFF,
        1,
        &[Reg(Rax, 0x401234)],
        Next,
        &[Rip(0x401234)],
    ),
    // jmp rax
    (
        b"\xff\xe0",
        SHSTK,
        1,
        &[Reg(Rax, 0x401234)],
        Next,
        &[Rip(0x401234)],
    ),
    // jmp rax
    (
        b"\xff\xe0",
        BOTH,
        1,
        &[Reg(Rax, 0x401234)],
        Next,
        &[Rip(0x401234), Waiting(true)],
    ),
    // jmp qword ptr [rdi]
    (
        b"\xff\x27",
        BOTH,
        1,
        &[Reg(Rdi, 0x403900), Word(0x403900, 0x401234)],
        Next,
        &[Rip(0x401234), Waiting(true)],
    ),
    // notrack jmp qword ptr [rdi]
    (b"\x3e\xff\x27", IBT, 1, &[], Fault(Page { addr: 0x0 }), &[]),
    // notrack jmp qword ptr [rdi]
    (
        b"\x3e\xff\x27",
        OFF,
        1,
        &[Reg(Rdi, 0x403900), Word(0x403900, 0x401234)],
        Next,
        &[Rip(0x401234)],
    ),
    // jmp .+0x12
    (b"\xeb\x10", BOTH, 1, &[], Next, &[Rip(0x401012)]),
    // je .+0x12
    (b"\x74\x10", BOTH, 1, &[Flags(2)], Next, &[Rip(0x401012)]),
    // ret
    (
        b"\xc3",
        IBT,
        1,
        &[Word(0x403800, 0x401234), Word(0x405800, 0x401238)],
        Next,
        &[Rip(0x401234), Reg(Rsp, 0x403808)],
    ),
    // ret
    (
        b"\xc3",
        BOTH,
        1,
        &[Word(0x403800, 0x401234), Word(0x405800, 0x401234)],
        Next,
        &[Rip(0x401234), Reg(Rsp, 0x403808), Ssp(0x405808)],
    ),
    // ret
    (
        b"\xc3",
        BOTH,
        1,
        &[Word(0x403800, 0x401234), Word(0x405800, 0x8000000000401234)],
        Fault(NearRet {
            popped: 0x401234,
            shadow: 0x8000000000401234,
        }),
        &[],
    ),
    // ret
    (
        b"\xc3",
        SHSTK,
        1,
        &[
            Word(0x403800, 0x401234),
            Word(0x405ff8, 0x401234),
            Ssp(0x405ff8),
        ],
        Next,
        &[Rip(0x401234), Reg(Rsp, 0x403808), Ssp(0x406000)],
    ),
    // ret
    (
        b"\xc3",
        SHSTK,
        1,
        &[Reg(Rsp, 0x404000)],
        Fault(Page { addr: 0x404000 }),
        &[],
    ),
    // ret
    (
        b"\xc3",
        SHSTK,
        1,
        &[
            Reg(Rsp, 0x405900),
            Word(0x405900, 0x401234),
            Word(0x405800, 0x401234),
        ],
        Next,
        &[Rip(0x401234), Reg(Rsp, 0x405908), Ssp(0x405808)],
    ),
    // mov qword ptr [rdi], rax
    (
        b"\x48\x89\x07",
        SHSTK,
        1,
        &[Reg(Rdi, 0x405800)],
        Fault(Page { addr: 0x405800 }),
        &[],
    ),
    // push rax
    (
        b"\x50",
        BOTH,
        1,
        &[Reg(Rsp, 0x405900)],
        Fault(Page { addr: 0x4058f8 }),
        &[],
    ),
    // mov rax, qword ptr [rdi]
    (
        b"\x48\x8b\x07",
        IBT,
        1,
        &[Reg(Rdi, 0x8000000000000000)],
        Fault(Page {
            addr: 0x8000000000000000,
        }),
        &[],
    ),
    // mov dword ptr [rdi], eax
    (
        b"\x89\x07",
        IBT,
        1,
        &[Reg(Rdi, 0x403ffd)],
        Fault(Page { addr: 0x403ffd }),
        &[],
    ),
    // mov qword ptr [rdi], rax
    (
        b"\x48\x89\x07",
        IBT,
        1,
        &[Reg(Rdi, 0xffffffffffffffff)],
        Fault(Page { addr: u64::MAX }),
        &[],
    ),
    (b"\x66\x89\xc8", IBT, 1, &[], Fault(Undefined), &[]),
    // ud2
    (b"\x0f\x0b", BOTH, 1, &[], Fault(Undefined), &[]),
    // hlt
    (b"\xf4", BOTH, 1, &[], Fault(General), &[]),
];
