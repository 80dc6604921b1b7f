//! Branches, CALL and RET, the tracker and the shadow stack.
use crate::StepEnd::{Fault, Next, Syscall};
use crate::tests::Part::{Flags, Reg, Rip, Ssp, Waiting, Word};
use crate::tests::{BOTH, IBT, OFF, Row, SHSTK};
use cet_isa::Fault::{EndBranch, General, NearRet, Page, Rstor, Undefined};
use cet_isa::Reg::{R11, Rax, Rcx, Rdi, Rsp};

/// Control transfers, and what ends a program.
pub fn control() -> &'static [Row] {
    &[
        (b"\xeb\xfe", OFF, 1, &[], Next, &[Rip(0x401000)]),
        (b"\x74\x10", OFF, 1, &[Flags(2)], Next, &[Rip(0x401012)]),
        (b"\x74\x10", OFF, 1, &[], Next, &[Rip(0x401002)]),
        (
            b"\xe8\xfb\x0f\x00\x00",
            OFF,
            1,
            &[],
            Next,
            &[Rip(0x402000), Reg(Rsp, 0x4037f8), Word(0x4037f8, 0x401005)],
        ),
        (
            b"\xe8\xfb\x0f\x00\x00",
            SHSTK,
            1,
            &[],
            Next,
            &[
                Rip(0x402000),
                Reg(Rsp, 0x4037f8),
                Word(0x4037f8, 0x401005),
                Ssp(0x4057f8),
                Word(0x4057f8, 0x401005),
            ],
        ),
        (
            b"\xe8\x00\x00\x00\x00",
            SHSTK,
            1,
            &[],
            Next,
            &[
                Rip(0x401005),
                Reg(Rsp, 0x4037f8),
                Word(0x4037f8, 0x401005),
                Word(0x4057f8, 0x0),
            ],
        ),
        (
            b"\xe8\xfb\x0f\x00\x00",
            SHSTK,
            1,
            &[Ssp(0x405000)],
            Fault(Page { addr: 0x404ff8 }),
            &[Word(0x4037f8, 0x0)],
        ),
        (
            b"\xe8\xfb\x0f\x00\x00",
            SHSTK,
            1,
            &[Reg(Rsp, 0x403000)],
            Fault(Page { addr: 0x402ff8 }),
            &[Word(0x4057f8, 0x0)],
        ),
        // call [rsp]
        (
            b"\xff\x14\x24",
            IBT,
            1,
            &[Word(0x403800, 0x401234)],
            Next,
            &[
                Rip(0x401234),
                Waiting(true),
                Reg(Rsp, 0x4037f8),
                Word(0x4037f8, 0x401003),
            ],
        ),
        (
            b"\xe8\x00\x00\x00\x00",
            SHSTK,
            1,
            &[Ssp(0x405000)],
            Next,
            &[Rip(0x401005), Reg(Rsp, 0x4037f8), Word(0x4037f8, 0x401005)],
        ),
        // call rax
        (
            b"\xff\xd0",
            SHSTK,
            1,
            &[Reg(Rax, 0x401234)],
            Next,
            &[
                Rip(0x401234),
                Reg(Rsp, 0x4037f8),
                Word(0x4037f8, 0x401002),
                Ssp(0x4057f8),
                Word(0x4057f8, 0x401002),
            ],
        ),
        // call rax
        (
            b"\xff\xd0",
            BOTH,
            1,
            &[Reg(Rax, 0x401234)],
            Next,
            &[
                Rip(0x401234),
                Waiting(true),
                Reg(Rsp, 0x4037f8),
                Word(0x4037f8, 0x401002),
                Ssp(0x4057f8),
                Word(0x4057f8, 0x401002),
            ],
        ),
        // call rax
        (
            b"\xff\xd0",
            BOTH,
            1,
            &[Ssp(0x405000)],
            Fault(Page { addr: 0x404ff8 }),
            &[Word(0x4037f8, 0x0)],
        ),
        // call [rdi]
        (
            b"\xff\x17",
            BOTH,
            1,
            &[Reg(Rdi, 0x403900), Reg(Rsp, 0x403000), Ssp(0x405000)],
            Fault(Page { addr: 0x402ff8 }),
            &[],
        ),
        // notrack call [rdi]
        (
            b"\x3e\xff\x17",
            BOTH,
            1,
            &[Reg(Rdi, 0x403900), Word(0x403900, 0x401234)],
            Next,
            &[
                Rip(0x401234),
                Reg(Rsp, 0x4037f8),
                Word(0x4037f8, 0x401003),
                Ssp(0x4057f8),
                Word(0x4057f8, 0x401003),
            ],
        ),
        // notrack call rax
        (
            b"\x3e\xff\xd0",
            IBT,
            1,
            &[Reg(Rax, 0x401234)],
            Next,
            &[Rip(0x401234), Reg(Rsp, 0x4037f8), Word(0x4037f8, 0x401003)],
        ),
        // call [rdi]
        (b"\xff\x17", IBT, 1, &[], Fault(Page { addr: 0x0 }), &[]),
        // jmp rax
        (
            b"\xff\xe0",
            IBT,
            1,
            &[Reg(Rax, 0x401234)],
            Next,
            &[Rip(0x401234), Waiting(true)],
        ),
        // notrack jmp rax
        (
            b"\x3e\xff\xe0",
            IBT,
            1,
            &[Reg(Rax, 0x401234)],
            Next,
            &[Rip(0x401234)],
        ),
        // notrack jmp [rdi]
        (
            b"\x3e\xff\x27",
            IBT,
            1,
            &[Reg(Rdi, 0x403900), Word(0x403900, 0x401234)],
            Next,
            &[Rip(0x401234)],
        ),
        // jmp [rdi]
        (
            b"\xff\x27",
            IBT,
            1,
            &[Reg(Rdi, 0x403900), Word(0x403900, 0x401234)],
            Next,
            &[Rip(0x401234), Waiting(true)],
        ),
        // jmp [rdi]
        (b"\xff\x27", IBT, 1, &[], Fault(Page { addr: 0x0 }), &[]),
        // jmp [rdi]
        (
            b"\xff\x27",
            SHSTK,
            1,
            &[Reg(Rdi, 0x403900), Word(0x403900, 0x401234)],
            Next,
            &[Rip(0x401234)],
        ),
        // ret
        (
            b"\xc3",
            OFF,
            1,
            &[Word(0x403800, 0x401234)],
            Next,
            &[Rip(0x401234), Reg(Rsp, 0x403808)],
        ),
        // ret
        (
            b"\xc3",
            SHSTK,
            1,
            &[Word(0x403800, 0x401234), Word(0x405800, 0x401234)],
            Next,
            &[Rip(0x401234), Reg(Rsp, 0x403808), Ssp(0x405808)],
        ),
        // ret
        (
            b"\xc3",
            SHSTK,
            1,
            &[Word(0x403800, 0x401234)],
            Fault(NearRet {
                popped: 0x401234,
                shadow: 0x0,
            }),
            &[],
        ),
        // ret
        (
            b"\xc3",
            SHSTK,
            1,
            &[Word(0x403800, 0x401234), Ssp(0x406000)],
            Fault(Page { addr: 0x406000 }),
            &[],
        ),
        // ret
        (
            b"\xc3",
            SHSTK,
            1,
            &[Reg(Rsp, 0x404000), Ssp(0x406000)],
            Fault(Page { addr: 0x404000 }),
            &[],
        ),
        // ret
        (
            b"\xc3",
            SHSTK,
            1,
            &[Ssp(0x403900)],
            Fault(Page { addr: 0x403900 }),
            &[],
        ),
        // syscall
        (
            b"\x0f\x05",
            OFF,
            1,
            &[Flags(15), Reg(Rcx, 0x1), Reg(R11, 0x1)],
            Syscall,
            &[Rip(0x401002), Reg(Rcx, 0x401002), Reg(R11, 0x8c3)],
        ),
        // syscall
        (
            b"\x0f\x05",
            OFF,
            1,
            &[],
            Syscall,
            &[Rip(0x401002), Reg(Rcx, 0x401002), Reg(R11, 0x2)],
        ),
        // ud2
        (b"\x0f\x0b", OFF, 1, &[], Fault(Undefined), &[]),
        // hlt
        (b"\xf4", OFF, 1, &[], Fault(General), &[]),
        (b"\x06", OFF, 1, &[], Fault(Undefined), &[]),
        (
            b"\x90",
            OFF,
            1,
            &[Rip(0x402000)],
            Fault(Page { addr: 0x402000 }),
            &[],
        ),
        // nop
        (
            b"\x90",
            OFF,
            1,
            &[Rip(0x403900)],
            Fault(Page { addr: 0x403900 }),
            &[],
        ),
        // nop
        (b"\x90", OFF, 1, &[Rip(0x400fff)], Next, &[Rip(0x401000)]),
        (
            b"\xe8\x00\x00",
            OFF,
            1,
            &[Rip(0x400ffd)],
            Fault(Page { addr: 0x401000 }),
            &[],
        ),
    ]
}

/// Indirect branch tracking.
pub fn tracker() -> &'static [Row] {
    &[
        // endbr64
        (
            b"\xf3\x0f\x1e\xfa",
            IBT,
            1,
            &[Waiting(true)],
            Next,
            &[Rip(0x401004), Waiting(false)],
        ),
        // endbr64
        (b"\xf3\x0f\x1e\xfa", IBT, 1, &[], Next, &[Rip(0x401004)]),
        // nop
        (b"\x90", IBT, 1, &[Waiting(true)], Fault(EndBranch), &[]),
        // nop
        (b"\x90", OFF, 1, &[Waiting(true)], Fault(EndBranch), &[]),
        // endbr64
        (
            b"\xf3\x0f\x1e\xfa",
            OFF,
            1,
            &[Waiting(true)],
            Next,
            &[Rip(0x401004), Waiting(false)],
        ),
        // endbr32
        (
            b"\xf3\x0f\x1e\xfb",
            IBT,
            1,
            &[Waiting(true)],
            Fault(EndBranch),
            &[],
        ),
        // jmp rax
        (b"\xff\xe0", IBT, 1, &[Waiting(true)], Fault(EndBranch), &[]),
        // ud2
        (b"\x0f\x0b", IBT, 1, &[Waiting(true)], Fault(EndBranch), &[]),
        // endbr64
        (
            b"\xf3\x0f\x1e\xfa",
            IBT,
            1,
            &[Rip(0x401ffc), Waiting(true)],
            Next,
            &[Rip(0x402000), Waiting(false)],
        ),
        (
            b"\xf3\x0f\x1e",
            IBT,
            1,
            &[Rip(0x401ffd), Waiting(true)],
            Fault(EndBranch),
            &[],
        ),
        (
            b"\xf3\x0f\x1e",
            IBT,
            1,
            &[Rip(0x401ffd)],
            Fault(Page { addr: 0x402000 }),
            &[],
        ),
        (
            b"\xf3\x0f\x1e",
            IBT,
            1,
            &[Rip(0x400ffd), Waiting(true), Word(0x401000, 0xfa)],
            Fault(EndBranch),
            &[],
        ),
        (
            b"\x90",
            IBT,
            1,
            &[Rip(0x402000), Waiting(true)],
            Fault(Page { addr: 0x402000 }),
            &[],
        ),
        (
            b"\xb8\x07\x10\x40\x00\xff\xd0\x90\x0f\x0b",
            IBT,
            3,
            &[],
            Fault(EndBranch),
            &[
                Rip(0x401007),
                Reg(Rax, 0x401007),
                Waiting(true),
                Reg(Rsp, 0x4037f8),
                Word(0x4037f8, 0x401007),
            ],
        ),
    ]
}

/// The shadow stack instructions.
pub fn shadow() -> &'static [Row] {
    &[
        // rdsspq rax
        (
            b"\xf3\x48\x0f\x1e\xc8",
            SHSTK,
            1,
            &[],
            Next,
            &[Rip(0x401005), Reg(Rax, 0x405800)],
        ),
        // rdsspq rax
        (
            b"\xf3\x48\x0f\x1e\xc8",
            IBT,
            1,
            &[Reg(Rax, 0x1)],
            Next,
            &[Rip(0x401005)],
        ),
        // incsspq rcx
        (b"\xf3\x48\x0f\xae\xe9", IBT, 1, &[], Fault(Undefined), &[]),
        // incsspq rcx
        (
            b"\xf3\x48\x0f\xae\xe9",
            SHSTK,
            1,
            &[Ssp(0x406000)],
            Next,
            &[Rip(0x401005)],
        ),
        // incsspq rcx
        (
            b"\xf3\x48\x0f\xae\xe9",
            SHSTK,
            1,
            &[Reg(Rcx, 0x101), Ssp(0x405ff8)],
            Next,
            &[Rip(0x401005), Ssp(0x406000)],
        ),
        // incsspq rcx
        (
            b"\xf3\x48\x0f\xae\xe9",
            SHSTK,
            1,
            &[Reg(Rcx, 0xff), Ssp(0x405000)],
            Next,
            &[Rip(0x401005), Ssp(0x4057f8)],
        ),
        // incsspq rcx
        (
            b"\xf3\x48\x0f\xae\xe9",
            SHSTK,
            1,
            &[Reg(Rcx, 0x100), Ssp(0x406000)],
            Next,
            &[Rip(0x401005)],
        ),
        // incsspq rcx
        (
            b"\xf3\x48\x0f\xae\xe9",
            SHSTK,
            1,
            &[Reg(Rcx, 0x1), Ssp(0x406000)],
            Fault(Page { addr: 0x406000 }),
            &[],
        ),
        // incsspq rcx
        (
            b"\xf3\x48\x0f\xae\xe9",
            SHSTK,
            1,
            &[Reg(Rcx, 0x2), Ssp(0x405ff8)],
            Fault(Page { addr: 0x406000 }),
            &[],
        ),
        // rstorssp [rdi]
        (b"\xf3\x0f\x01\x2f", IBT, 1, &[], Fault(Undefined), &[]),
        // rstorssp [rdi]
        (
            b"\xf3\x0f\x01\x2f",
            SHSTK,
            1,
            &[Flags(15), Reg(Rdi, 0x405100), Word(0x405100, 0x405109)],
            Next,
            &[
                Rip(0x401004),
                Flags(0),
                Ssp(0x405100),
                Word(0x405100, 0x405803),
            ],
        ),
        // rstorssp [rdi]
        (
            b"\xf3\x0f\x01\x2f",
            SHSTK,
            1,
            &[Reg(Rdi, 0x405100), Word(0x405100, 0x40510d)],
            Next,
            &[
                Rip(0x401004),
                Flags(1),
                Ssp(0x405100),
                Word(0x405100, 0x405803),
            ],
        ),
        // rstorssp [rdi]
        (
            b"\xf3\x0f\x01\x2f",
            SHSTK,
            1,
            &[Reg(Rdi, 0x405100), Word(0x405100, 0x405108)],
            Fault(Rstor { word: 0x405108 }),
            &[Word(0x405100, 0x405108)],
        ),
        // rstorssp [rdi]
        (
            b"\xf3\x0f\x01\x2f",
            SHSTK,
            1,
            &[Reg(Rdi, 0x405100), Word(0x405100, 0x40510b)],
            Fault(Rstor { word: 0x40510b }),
            &[Word(0x405100, 0x40510b)],
        ),
        // rstorssp [rdi]
        (
            b"\xf3\x0f\x01\x2f",
            SHSTK,
            1,
            &[Reg(Rdi, 0x405100), Word(0x405100, 0x405111)],
            Fault(Rstor { word: 0x405111 }),
            &[Word(0x405100, 0x405111)],
        ),
        // rstorssp [rdi]
        (
            b"\xf3\x0f\x01\x2f",
            SHSTK,
            1,
            &[Reg(Rdi, 0x405104)],
            Fault(General),
            &[],
        ),
        // rstorssp [rdi]
        (
            b"\xf3\x0f\x01\x2f",
            SHSTK,
            1,
            &[Reg(Rdi, 0x403900), Word(0x403900, 0x403909)],
            Fault(Page { addr: 0x403900 }),
            &[],
        ),
        // saveprevssp
        (b"\xf3\x0f\x01\xea", IBT, 1, &[], Fault(Undefined), &[]),
        // saveprevssp
        (
            b"\xf3\x0f\x01\xea",
            SHSTK,
            1,
            &[Word(0x405800, 0x405903)],
            Next,
            &[
                Rip(0x401004),
                Ssp(0x405808),
                Word(0x405800, 0x405903),
                Word(0x4058f8, 0x405901),
            ],
        ),
        // saveprevssp
        (
            b"\xf3\x0f\x01\xea",
            SHSTK,
            1,
            &[Flags(1), Word(0x405800, 0x405903)],
            Fault(General),
            &[Word(0x4058f8, 0x0)],
        ),
        // saveprevssp
        (
            b"\xf3\x0f\x01\xea",
            SHSTK,
            1,
            &[Word(0x405800, 0x405901)],
            Fault(General),
            &[],
        ),
        // saveprevssp
        (
            b"\xf3\x0f\x01\xea",
            SHSTK,
            1,
            &[Word(0x405800, 0x405907)],
            Fault(General),
            &[],
        ),
        // saveprevssp
        (
            b"\xf3\x0f\x01\xea",
            SHSTK,
            1,
            &[Word(0x405800, 0x405003)],
            Fault(Page { addr: 0x404ff8 }),
            &[],
        ),
        // saveprevssp
        (
            b"\xf3\x0f\x01\xea",
            SHSTK,
            1,
            &[Ssp(0x406000)],
            Fault(Page { addr: 0x406000 }),
            &[],
        ),
        // wrssq [rdi], rax
        (
            b"\x48\x0f\x38\xf6\x07",
            SHSTK,
            1,
            &[Reg(Rdi, 0x405800)],
            Fault(Undefined),
            &[],
        ),
    ]
}

/// A CALL, then what goes wrong with the address that it pushed; an indirect JMP and its target; and a turn from one shadow stack to another.
pub fn programs() -> &'static [Row] {
    &[
        (
            b"\xe8\x02\x00\x00\x00\x0f\x0b\xe8\x00\x00\x00\x00\xc3",
            SHSTK,
            3,
            &[],
            Fault(NearRet {
                popped: 0x40100c,
                shadow: 0x401005,
            }),
            &[
                Rip(0x40100c),
                Reg(Rsp, 0x4037f0),
                Word(0x4037f8, 0x401005),
                Word(0x4037f0, 0x40100c),
                Ssp(0x4057f8),
                Word(0x4057f8, 0x401005),
            ],
        ),
        (
            b"\xe8\x02\x00\x00\x00\x0f\x0b\x48\xc7\x04\x24\x00\x00\x00\x00\xc3",
            SHSTK,
            3,
            &[],
            Fault(NearRet {
                popped: 0x0,
                shadow: 0x401005,
            }),
            &[
                Rip(0x40100f),
                Reg(Rsp, 0x4037f8),
                Word(0x4037f8, 0x0),
                Ssp(0x4057f8),
                Word(0x4057f8, 0x401005),
            ],
        ),
        (
            b"\xe8\x02\x00\x00\x00\x0f\x0b\xf3\x48\x0f\x1e\xc8\xf3\x0f\x01\x28",
            SHSTK,
            3,
            &[],
            Fault(Rstor { word: 0x401005 }),
            &[
                Rip(0x40100c),
                Reg(Rax, 0x4057f8),
                Reg(Rsp, 0x4037f8),
                Word(0x4037f8, 0x401005),
                Ssp(0x4057f8),
                Word(0x4057f8, 0x401005),
            ],
        ),
        // jmp rax, to endbr64 and nop
        (
            b"\xff\xe0\x90\x90\xf3\x0f\x1e\xfa\x90",
            IBT,
            3,
            &[Reg(Rax, 0x401004)],
            Next,
            &[Rip(0x401009)],
        ),
        // notrack jmp rax, to nop
        (
            b"\x3e\xff\xe0\x90",
            IBT,
            2,
            &[Reg(Rax, 0x401003)],
            Next,
            &[Rip(0x401004)],
        ),
        // rstorssp [rdi], saveprevssp
        (
            b"\xf3\x0f\x01\x2f\xf3\x0f\x01\xea",
            SHSTK,
            2,
            &[Reg(Rdi, 0x405100), Word(0x405100, 0x405109)],
            Next,
            &[
                Rip(0x401008),
                Ssp(0x405108),
                Word(0x405100, 0x405803),
                Word(0x4057f8, 0x405801),
            ],
        ),
        // rstorssp [rdi], saveprevssp
        (
            b"\xf3\x0f\x01\x2f\xf3\x0f\x01\xea",
            SHSTK,
            2,
            &[Reg(Rdi, 0x405100), Word(0x405100, 0x40510d)],
            Fault(General),
            &[
                Rip(0x401004),
                Flags(1),
                Ssp(0x405100),
                Word(0x405100, 0x405803),
                Word(0x4057f8, 0x0),
            ],
        ),
    ]
}
