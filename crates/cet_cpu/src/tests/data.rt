//! Moves, arithmetic and the data stack.
use crate::StepEnd::{Fault, Next};
use crate::tests::Part::{Flags, Reg, Rip, Word};
use crate::tests::{OFF, Row};
use cet_isa::Fault::{Divide, Page};
use cet_isa::Reg::{Rax, Rbp, Rcx, Rdi, Rdx, Rsp};

/// Data transfers.
pub fn moves() -> &'static [Row] {
    &[
        // mov eax, ecx
        (
            b"\x89\xc8",
            OFF,
            1,
            &[Reg(Rax, u64::MAX), Reg(Rcx, 0x180000001)],
            Next,
            &[Rip(0x401002), Reg(Rax, 0x80000001)],
        ),
        // mov al, cl
        (
            b"\x88\xc8",
            OFF,
            1,
            &[Reg(Rax, 0x1122334455667788), Reg(Rcx, 0x1ff)],
            Next,
            &[Rip(0x401002), Reg(Rax, 0x11223344556677ff)],
        ),
        // mov [rdi], eax
        (
            b"\x89\x07",
            OFF,
            1,
            &[Reg(Rax, 0x1), Reg(Rdi, 0x403900), Word(0x403900, u64::MAX)],
            Next,
            &[Rip(0x401002), Word(0x403900, 0xffffffff00000001)],
        ),
        // mov [rdi], rax
        (
            b"\x48\x89\x07",
            OFF,
            1,
            &[Reg(Rdi, 0x401000)],
            Fault(Page { addr: 0x401000 }),
            &[],
        ),
        // mov [rdi], rax
        (
            b"\x48\x89\x07",
            OFF,
            1,
            &[Reg(Rdi, 0x405800)],
            Fault(Page { addr: 0x405800 }),
            &[],
        ),
        // mov rax, [rdi]
        (
            b"\x48\x8b\x07",
            OFF,
            1,
            &[Reg(Rdi, 0x405800), Word(0x405800, 0x1122334455667788)],
            Next,
            &[Rip(0x401003), Reg(Rax, 0x1122334455667788)],
        ),
        // mov rax, [rdi]
        (
            b"\x48\x8b\x07",
            OFF,
            1,
            &[Reg(Rdi, 0x403ff9)],
            Fault(Page { addr: 0x403ff9 }),
            &[],
        ),
        // mov rax, -1
        (
            b"\x48\xc7\xc0\xff\xff\xff\xff",
            OFF,
            1,
            &[],
            Next,
            &[Rip(0x401007), Reg(Rax, u64::MAX)],
        ),
        // mov eax, 0x80000000
        (
            b"\xb8\x00\x00\x00\x80",
            OFF,
            1,
            &[Reg(Rax, u64::MAX)],
            Next,
            &[Rip(0x401005), Reg(Rax, 0x80000000)],
        ),
        // movzx eax, cl
        (
            b"\x0f\xb6\xc1",
            OFF,
            1,
            &[Reg(Rax, u64::MAX), Reg(Rcx, 0x180)],
            Next,
            &[Rip(0x401003), Reg(Rax, 0x80)],
        ),
        // movsx eax, cl
        (
            b"\x0f\xbe\xc1",
            OFF,
            1,
            &[Reg(Rcx, 0x80)],
            Next,
            &[Rip(0x401003), Reg(Rax, 0xffffff80)],
        ),
        // movsxd rax, ecx
        (
            b"\x48\x63\xc1",
            OFF,
            1,
            &[Reg(Rcx, 0x80000000)],
            Next,
            &[Rip(0x401003), Reg(Rax, 0xffffffff80000000)],
        ),
        // lea eax, [rcx + rdx*4 - 1]
        (
            b"\x8d\x44\x91\xff",
            OFF,
            1,
            &[Reg(Rax, u64::MAX), Reg(Rcx, 0xffffffff), Reg(Rdx, 0x1)],
            Next,
            &[Rip(0x401004), Reg(Rax, 0x2)],
        ),
        // cdq
        (
            b"\x99",
            OFF,
            1,
            &[Reg(Rax, 0x80000000), Reg(Rdx, u64::MAX)],
            Next,
            &[Rip(0x401001), Reg(Rdx, 0xffffffff)],
        ),
        // cqo
        (
            b"\x48\x99",
            OFF,
            1,
            &[Reg(Rax, 0x80000000), Reg(Rdx, u64::MAX)],
            Next,
            &[Rip(0x401002), Reg(Rdx, 0x0)],
        ),
        // cdqe
        (
            b"\x48\x98",
            OFF,
            1,
            &[Reg(Rax, 0x80000000)],
            Next,
            &[Rip(0x401002), Reg(Rax, 0xffffffff80000000)],
        ),
        // cmove eax, ecx
        (
            b"\x0f\x44\xc1",
            OFF,
            1,
            &[Reg(Rax, u64::MAX), Reg(Rcx, 0x5)],
            Next,
            &[Rip(0x401003), Reg(Rax, 0xffffffff)],
        ),
        // cmove eax, ecx
        (
            b"\x0f\x44\xc1",
            OFF,
            1,
            &[Flags(2), Reg(Rax, u64::MAX), Reg(Rcx, 0x5)],
            Next,
            &[Rip(0x401003), Reg(Rax, 0x5)],
        ),
        // cmove rax, [rdi]
        (
            b"\x48\x0f\x44\x07",
            OFF,
            1,
            &[],
            Fault(Page { addr: 0x0 }),
            &[],
        ),
        // sete [rdi]
        (
            b"\x0f\x94\x07",
            OFF,
            1,
            &[
                Flags(2),
                Reg(Rdi, 0x403900),
                Word(0x403900, 0x1122334455667788),
            ],
            Next,
            &[Rip(0x401003), Word(0x403900, 0x1122334455667701)],
        ),
        // xchg [rdi], ecx
        (
            b"\x87\x0f",
            OFF,
            1,
            &[
                Reg(Rcx, 0x1122334455667788),
                Reg(Rdi, 0x403900),
                Word(0x403900, u64::MAX),
            ],
            Next,
            &[
                Rip(0x401002),
                Reg(Rcx, 0xffffffff),
                Word(0x403900, 0xffffffff55667788),
            ],
        ),
        // xchg [rdi], ecx
        (
            b"\x87\x0f",
            OFF,
            1,
            &[Reg(Rdi, 0x401000)],
            Fault(Page { addr: 0x401000 }),
            &[],
        ),
        // cmpxchg [rdi], ecx
        (
            b"\x0f\xb1\x0f",
            OFF,
            1,
            &[
                Reg(Rax, 0x155667788),
                Reg(Rcx, 0x7),
                Reg(Rdi, 0x403900),
                Word(0x403900, 0x1122334455667788),
            ],
            Next,
            &[Rip(0x401003), Flags(2), Word(0x403900, 0x1122334400000007)],
        ),
        // cmpxchg [rdi], ecx
        (
            b"\x0f\xb1\x0f",
            OFF,
            1,
            &[
                Reg(Rax, 0x100000000),
                Reg(Rcx, 0x7),
                Reg(Rdi, 0x403900),
                Word(0x403900, 0x1122334455667788),
            ],
            Next,
            &[Rip(0x401003), Flags(5), Reg(Rax, 0x55667788)],
        ),
        // cmpxchg [rdi], ecx
        (
            b"\x0f\xb1\x0f",
            OFF,
            1,
            &[Reg(Rdi, 0x401000)],
            Fault(Page { addr: 0x401000 }),
            &[],
        ),
        // lock xadd [rdi], rcx
        (
            b"\xf0\x48\x0f\xc1\x0f",
            OFF,
            1,
            &[Reg(Rcx, 0x1), Reg(Rdi, 0x403900), Word(0x403900, u64::MAX)],
            Next,
            &[
                Rip(0x401005),
                Flags(3),
                Reg(Rcx, u64::MAX),
                Word(0x403900, 0x0),
            ],
        ),
    ]
}

/// Arithmetic, logical and shift instructions.
pub fn arithmetic() -> &'static [Row] {
    &[
        // add rax, rcx
        (
            b"\x48\x01\xc8",
            OFF,
            1,
            &[Reg(Rax, 0x1), Reg(Rcx, u64::MAX)],
            Next,
            &[Rip(0x401003), Flags(3), Reg(Rax, 0x0)],
        ),
        // add [rdi], rax
        (
            b"\x48\x01\x07",
            OFF,
            1,
            &[Reg(Rax, 0x1), Reg(Rdi, 0x401000)],
            Fault(Page { addr: 0x401000 }),
            &[],
        ),
        // cmp [rdi], al
        (
            b"\x38\x07",
            OFF,
            1,
            &[Reg(Rax, 0x38), Reg(Rdi, 0x401000)],
            Next,
            &[Rip(0x401002), Flags(2)],
        ),
        // sbb eax, [rdi]
        (
            b"\x1b\x07",
            OFF,
            1,
            &[Flags(1), Reg(Rdi, 0x403900)],
            Next,
            &[Rip(0x401002), Flags(5), Reg(Rax, 0xffffffff)],
        ),
        // and rax, -16
        (
            b"\x48\x83\xe0\xf0",
            OFF,
            1,
            &[Flags(9), Reg(Rax, 0x1f)],
            Next,
            &[Rip(0x401004), Flags(0), Reg(Rax, 0x10)],
        ),
        // test al, al
        (
            b"\x84\xc0",
            OFF,
            1,
            &[Reg(Rax, 0x180)],
            Next,
            &[Rip(0x401002), Flags(4)],
        ),
        // inc byte ptr [rdi]
        (
            b"\xfe\x07",
            OFF,
            1,
            &[Flags(1), Reg(Rdi, 0x403900), Word(0x403900, 0x1ff)],
            Next,
            &[Rip(0x401002), Flags(3), Word(0x403900, 0x100)],
        ),
        // not eax
        (
            b"\xf7\xd0",
            OFF,
            1,
            &[Flags(15), Reg(Rax, u64::MAX)],
            Next,
            &[Rip(0x401002), Reg(Rax, 0x0)],
        ),
        // neg rax
        (
            b"\x48\xf7\xd8",
            OFF,
            1,
            &[Reg(Rax, 0x1)],
            Next,
            &[Rip(0x401003), Flags(5), Reg(Rax, u64::MAX)],
        ),
        // shl eax, cl
        (
            b"\xd3\xe0",
            OFF,
            1,
            &[Flags(1), Reg(Rax, u64::MAX), Reg(Rcx, 0x20)],
            Next,
            &[Rip(0x401002), Reg(Rax, 0xffffffff)],
        ),
        // shl rax, 1
        (
            b"\x48\xd1\xe0",
            OFF,
            1,
            &[Reg(Rax, 0xc000000000000000)],
            Next,
            &[Rip(0x401003), Flags(5), Reg(Rax, 0x8000000000000000)],
        ),
        // imul eax, ecx, -1
        (
            b"\x6b\xc1\xff",
            OFF,
            1,
            &[Reg(Rcx, 0x7fffffff)],
            Next,
            &[Rip(0x401003), Reg(Rax, 0x80000001)],
        ),
        // mul rcx
        (
            b"\x48\xf7\xe1",
            OFF,
            1,
            &[Reg(Rax, u64::MAX), Reg(Rcx, 0x2)],
            Next,
            &[
                Rip(0x401003),
                Flags(9),
                Reg(Rax, 0xfffffffffffffffe),
                Reg(Rdx, 0x1),
            ],
        ),
        // div ecx
        (
            b"\xf7\xf1",
            OFF,
            1,
            &[Reg(Rax, 0x100000007), Reg(Rdx, 0x0), Reg(Rcx, 0x2)],
            Next,
            &[Rip(0x401002), Reg(Rax, 0x3), Reg(Rdx, 0x1)],
        ),
        // div ecx
        (
            b"\xf7\xf1",
            OFF,
            1,
            &[Reg(Rdx, 0x2), Reg(Rcx, 0x2)],
            Fault(Divide),
            &[],
        ),
        // idiv rcx
        (
            b"\x48\xf7\xf9",
            OFF,
            1,
            &[
                Reg(Rax, 0x8000000000000000),
                Reg(Rdx, u64::MAX),
                Reg(Rcx, u64::MAX),
            ],
            Fault(Divide),
            &[],
        ),
    ]
}

/// PUSH, POP and LEAVE.
pub fn stack() -> &'static [Row] {
    &[
        // push rax
        (
            b"\x50",
            OFF,
            1,
            &[Reg(Rax, 0x1122334455667788)],
            Next,
            &[
                Rip(0x401001),
                Reg(Rsp, 0x4037f8),
                Word(0x4037f8, 0x1122334455667788),
            ],
        ),
        // push rsp
        (
            b"\x54",
            OFF,
            1,
            &[],
            Next,
            &[Rip(0x401001), Reg(Rsp, 0x4037f8), Word(0x4037f8, 0x403800)],
        ),
        // push [rsp]
        (
            b"\xff\x34\x24",
            OFF,
            1,
            &[Word(0x403800, 0x1122334455667788)],
            Next,
            &[
                Rip(0x401003),
                Reg(Rsp, 0x4037f8),
                Word(0x4037f8, 0x1122334455667788),
            ],
        ),
        // push -1
        (
            b"\x6a\xff",
            OFF,
            1,
            &[],
            Next,
            &[Rip(0x401002), Reg(Rsp, 0x4037f8), Word(0x4037f8, u64::MAX)],
        ),
        // push rax
        (
            b"\x50",
            OFF,
            1,
            &[Reg(Rsp, 0x403000)],
            Fault(Page { addr: 0x402ff8 }),
            &[],
        ),
        // pop rsp
        (
            b"\x5c",
            OFF,
            1,
            &[Word(0x403800, 0x1122334455667788)],
            Next,
            &[Rip(0x401001), Reg(Rsp, 0x1122334455667788)],
        ),
        // pop rax
        (
            b"\x58",
            OFF,
            1,
            &[Reg(Rsp, 0x403ff8), Word(0x403ff8, 0x1122334455667788)],
            Next,
            &[
                Rip(0x401001),
                Reg(Rax, 0x1122334455667788),
                Reg(Rsp, 0x404000),
            ],
        ),
        // pop rax
        (
            b"\x58",
            OFF,
            1,
            &[Reg(Rsp, 0x404000)],
            Fault(Page { addr: 0x404000 }),
            &[],
        ),
        // leave
        (
            b"\xc9",
            OFF,
            1,
            &[Reg(Rbp, 0x403900), Word(0x403900, 0x7)],
            Next,
            &[Rip(0x401001), Reg(Rbp, 0x7), Reg(Rsp, 0x403908)],
        ),
        // leave
        (
            b"\xc9",
            OFF,
            1,
            &[Reg(Rbp, 0x8)],
            Fault(Page { addr: 0x8 }),
            &[],
        ),
    ]
}
