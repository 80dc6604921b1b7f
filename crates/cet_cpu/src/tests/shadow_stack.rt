//! The shadow stack instructions under each mode, and at each of their accesses: what the tables of transfers leave. The states follow from
//! the instructions' pages of the SDM (volume 2).
use crate::StepEnd::{Fault, Next};
use crate::tests::Part::{Flags, Reg, Rip, Ssp, Word};
use crate::tests::{BOTH, IBT, OFF, Row, SHSTK};
use cet_isa::Fault::{General, Page, Rstor, Undefined};
use cet_isa::Reg::{R11, Rax, Rcx, Rdi, Rsp};

/// RDSSPQ, INCSSPQ, RSTORSSP, SAVEPREVSSP and WRSSQ.
pub const SHADOW: &[Row] = &[
    // rdsspq rax
    (
        b"\xf3\x48\x0f\x1e\xc8",
        OFF,
        1,
        &[Reg(Rax, 0x1)],
        Next,
        &[Rip(0x401005)],
    ),
    // rdsspq r11
    (
        b"\xf3\x49\x0f\x1e\xcb",
        BOTH,
        1,
        &[Ssp(0x403ff8)],
        Next,
        &[Rip(0x401005), Reg(R11, 0x403ff8)],
    ),
    // incsspq rcx
    (b"\xf3\x48\x0f\xae\xe9", OFF, 1, &[], Fault(Undefined), &[]),
    // rstorssp qword ptr [rdi]
    (b"\xf3\x0f\x01\x2f", OFF, 1, &[], Fault(Undefined), &[]),
    // saveprevssp
    (b"\xf3\x0f\x01\xea", OFF, 1, &[], Fault(Undefined), &[]),
    // rstorssp qword ptr [rdi]
    (
        b"\xf3\x0f\x01\x2f",
        IBT,
        1,
        &[Reg(Rdi, 0x405100), Word(0x405100, 0x405109)],
        Fault(Undefined),
        &[],
    ),
    // saveprevssp
    (
        b"\xf3\x0f\x01\xea",
        IBT,
        1,
        &[Word(0x405800, 0x405903)],
        Fault(Undefined),
        &[],
    ),
    // incsspq rcx
    (
        b"\xf3\x48\x0f\xae\xe9",
        IBT,
        1,
        &[Reg(Rcx, 0x1)],
        Fault(Undefined),
        &[],
    ),
    // wrssq qword ptr [rdi], rax
    (
        b"\x48\x0f\x38\xf6\x07",
        OFF,
        1,
        &[Reg(Rdi, 0x405800), Reg(Rax, 0x7)],
        Fault(Undefined),
        &[],
    ),
    // wrssq qword ptr [rdi], rax
    (
        b"\x48\x0f\x38\xf6\x07",
        IBT,
        1,
        &[Reg(Rdi, 0x405800), Reg(Rax, 0x7)],
        Fault(Undefined),
        &[],
    ),
    // wrssq qword ptr [rdi], rax
    (
        b"\x48\x0f\x38\xf6\x07",
        BOTH,
        1,
        &[Reg(Rdi, 0x405800), Reg(Rax, 0x7)],
        Fault(Undefined),
        &[],
    ),
    // incsspq rcx
    (
        b"\xf3\x48\x0f\xae\xe9",
        BOTH,
        1,
        &[Reg(Rcx, 0x1)],
        Next,
        &[Rip(0x401005), Ssp(0x405808)],
    ),
    // incsspq rcx
    (
        b"\xf3\x48\x0f\xae\xe9",
        SHSTK,
        1,
        &[Reg(Rcx, 0x100)],
        Next,
        &[Rip(0x401005)],
    ),
    // incsspq rcx
    (
        b"\xf3\x48\x0f\xae\xe9",
        SHSTK,
        1,
        &[Reg(Rcx, 0x1ff)],
        Next,
        &[Rip(0x401005), Ssp(0x405ff8)],
    ),
    // incsspq rcx
    (
        b"\xf3\x48\x0f\xae\xe9",
        SHSTK,
        1,
        &[Reg(Rcx, 0xffffffffffffff02)],
        Next,
        &[Rip(0x401005), Ssp(0x405810)],
    ),
    // incsspq rcx
    (
        b"\xf3\x48\x0f\xae\xe9",
        SHSTK,
        1,
        &[Flags(15), Reg(Rcx, 0xff), Ssp(0x405808)],
        Next,
        &[Rip(0x401005), Ssp(0x406000)],
    ),
    // incsspq rcx
    (
        b"\xf3\x48\x0f\xae\xe9",
        SHSTK,
        1,
        &[Reg(Rcx, 0xff), Ssp(0x405810)],
        Fault(Page { addr: 0x406000 }),
        &[],
    ),
    // incsspq rcx
    (
        b"\xf3\x48\x0f\xae\xe9",
        SHSTK,
        1,
        &[Reg(Rcx, 0x2), Ssp(0x404ff8)],
        Fault(Page { addr: 0x404ff8 }),
        &[],
    ),
    // incsspq rcx
    (
        b"\xf3\x48\x0f\xae\xe9",
        SHSTK,
        1,
        &[Reg(Rcx, 0x1), Ssp(0x403900)],
        Fault(Page { addr: 0x403900 }),
        &[],
    ),
    // incsspq rcx
    (
        b"\xf3\x48\x0f\xae\xe9",
        SHSTK,
        1,
        &[Ssp(0x404000)],
        Next,
        &[Rip(0x401005)],
    ),
    // incsspq rsp
    (
        b"\xf3\x48\x0f\xae\xec",
        SHSTK,
        1,
        &[Reg(Rsp, 0x1)],
        Next,
        &[Rip(0x401005), Ssp(0x405808)],
    ),
    // rstorssp qword ptr [rdi]
    (
        b"\xf3\x0f\x01\x2f",
        BOTH,
        1,
        &[Flags(14), Reg(Rdi, 0x405100), Word(0x405100, 0x405109)],
        Next,
        &[
            Rip(0x401004),
            Flags(0),
            Ssp(0x405100),
            Word(0x405100, 0x405803),
        ],
    ),
    // rstorssp qword ptr [rdi]
    (
        b"\xf3\x0f\x01\x2f",
        SHSTK,
        1,
        &[
            Flags(15),
            Reg(Rdi, 0x405100),
            Word(0x405100, 0x40510d),
            Ssp(0x406000),
        ],
        Next,
        &[
            Rip(0x401004),
            Flags(1),
            Ssp(0x405100),
            Word(0x405100, 0x406003),
        ],
    ),
    // rstorssp qword ptr [rsp]
    (
        b"\xf3\x0f\x01\x2c\x24",
        SHSTK,
        1,
        &[Reg(Rsp, 0x4057f8), Word(0x4057f8, 0x405801)],
        Next,
        &[Rip(0x401005), Ssp(0x4057f8), Word(0x4057f8, 0x405803)],
    ),
    // rstorssp qword ptr [rdi + rcx*8 - 8]
    (
        b"\xf3\x0f\x01\x6c\xcf\xf8",
        SHSTK,
        1,
        &[Reg(Rdi, 0x405100), Reg(Rcx, 0x2), Word(0x405108, 0x405111)],
        Next,
        &[Rip(0x401006), Ssp(0x405108), Word(0x405108, 0x405803)],
    ),
    // rstorssp qword ptr [rdi]
    (
        b"\xf3\x0f\x01\x2f",
        SHSTK,
        1,
        &[Flags(15), Reg(Rdi, 0x405100), Word(0x405100, 0x405101)],
        Fault(Rstor { word: 0x405101 }),
        &[],
    ),
    // rstorssp qword ptr [rdi]
    (
        b"\xf3\x0f\x01\x2f",
        SHSTK,
        1,
        &[Flags(15), Reg(Rdi, 0x405100), Word(0x405100, 0x405119)],
        Fault(Rstor { word: 0x405119 }),
        &[],
    ),
    // rstorssp qword ptr [rdi]
    (
        b"\xf3\x0f\x01\x2f",
        SHSTK,
        1,
        &[Flags(15), Reg(Rdi, 0x405100), Word(0x405100, 0x404109)],
        Fault(Rstor { word: 0x404109 }),
        &[],
    ),
    // rstorssp qword ptr [rdi]
    (
        b"\xf3\x0f\x01\x2f",
        SHSTK,
        1,
        &[
            Flags(15),
            Reg(Rdi, 0x405100),
            Word(0x405100, 0x8000000000405109),
        ],
        Fault(Rstor {
            word: 0x8000000000405109,
        }),
        &[],
    ),
    // rstorssp qword ptr [rdi]
    (
        b"\xf3\x0f\x01\x2f",
        SHSTK,
        1,
        &[Flags(15), Reg(Rdi, 0x405100), Word(0x405100, 0x0)],
        Fault(Rstor { word: 0x0 }),
        &[],
    ),
    // rstorssp qword ptr [rdi]
    (
        b"\xf3\x0f\x01\x2f",
        SHSTK,
        1,
        &[Flags(15), Reg(Rdi, 0x405100), Word(0x405100, 0x405103)],
        Fault(Rstor { word: 0x405103 }),
        &[],
    ),
    // rstorssp qword ptr [rdi]
    (
        b"\xf3\x0f\x01\x2f",
        SHSTK,
        1,
        &[Flags(15), Reg(Rdi, 0x405100), Word(0x405100, 0x40510f)],
        Fault(Rstor { word: 0x40510f }),
        &[],
    ),
    // rstorssp qword ptr [rdi]
    (
        b"\xf3\x0f\x01\x2f",
        SHSTK,
        1,
        &[Flags(15), Reg(Rdi, 0x405101), Word(0x405100, 0x405109)],
        Fault(General),
        &[],
    ),
    // rstorssp qword ptr [rdi]
    (
        b"\xf3\x0f\x01\x2f",
        SHSTK,
        1,
        &[Reg(Rdi, 0x409001)],
        Fault(General),
        &[],
    ),
    // rstorssp qword ptr [rdi]
    (
        b"\xf3\x0f\x01\x2f",
        SHSTK,
        1,
        &[Reg(Rdi, 0x406000)],
        Fault(Page { addr: 0x406000 }),
        &[],
    ),
    // rstorssp qword ptr [rdi]
    (
        b"\xf3\x0f\x01\x2f",
        SHSTK,
        1,
        &[Reg(Rdi, 0x401100), Word(0x401100, 0x401109)],
        Fault(Page { addr: 0x401100 }),
        &[],
    ),
    // saveprevssp
    (
        b"\xf3\x0f\x01\xea",
        BOTH,
        1,
        &[Flags(14), Word(0x405800, 0x405903)],
        Next,
        &[Rip(0x401004), Ssp(0x405808), Word(0x4058f8, 0x405901)],
    ),
    // saveprevssp
    (
        b"\xf3\x0f\x01\xea",
        SHSTK,
        1,
        &[Word(0x405ff8, 0x406002), Ssp(0x405ff8)],
        Next,
        &[Rip(0x401004), Ssp(0x406000), Word(0x405ff8, 0x406001)],
    ),
    // saveprevssp
    (
        b"\xf3\x0f\x01\xea",
        SHSTK,
        1,
        &[Word(0x405800, 0x0)],
        Fault(General),
        &[],
    ),
    // saveprevssp
    (
        b"\xf3\x0f\x01\xea",
        SHSTK,
        1,
        &[Word(0x405800, 0x405900)],
        Fault(General),
        &[],
    ),
    // saveprevssp
    (
        b"\xf3\x0f\x01\xea",
        SHSTK,
        1,
        &[Word(0x405800, 0x405905)],
        Fault(General),
        &[],
    ),
    // saveprevssp
    (
        b"\xf3\x0f\x01\xea",
        SHSTK,
        1,
        &[Word(0x405800, 0x405906)],
        Fault(General),
        &[],
    ),
    // saveprevssp
    (
        b"\xf3\x0f\x01\xea",
        SHSTK,
        1,
        &[Flags(1), Word(0x405800, 0x405003)],
        Fault(General),
        &[],
    ),
    // saveprevssp
    (
        b"\xf3\x0f\x01\xea",
        SHSTK,
        1,
        &[Flags(1), Ssp(0x406000)],
        Fault(Page { addr: 0x406000 }),
        &[],
    ),
    // saveprevssp
    (
        b"\xf3\x0f\x01\xea",
        SHSTK,
        1,
        &[Word(0x405800, 0x403903)],
        Fault(Page { addr: 0x4038f8 }),
        &[],
    ),
    // saveprevssp
    (
        b"\xf3\x0f\x01\xea",
        SHSTK,
        1,
        &[Word(0x405800, 0x3)],
        Fault(Page {
            addr: 0xfffffffffffffff8,
        }),
        &[],
    ),
    // saveprevssp
    (
        b"\xf3\x0f\x01\xea",
        SHSTK,
        1,
        &[Word(0x403900, 0x405903), Ssp(0x403900)],
        Fault(Page { addr: 0x403900 }),
        &[],
    ),
];
