//! Rows whose values and lengths were compared with objdump, and rows of the two refusals.

use super::*;
use cet_isa::{AluOp, Cond, Mem, MulDivOp, Reg, Rel, Rm, ShiftCount, ShiftOp, UnOp, Width};

#[rattlefmt::skip]
const FORMS: &[(&[u8], Insn)] = &[
    (&[0xF3, 0x0F, 0x1E, 0xFA], Insn::EndBr64),
    (&[0x90], Insn::Nop),
    (&[0xF3, 0x90], Insn::Nop),
    (&[0x66, 0x90], Insn::Nop),
    (&[0x0F, 0x1F, 0x00], Insn::Nop),
    (&[0x0F, 0x1F, 0xC0], Insn::Nop),
    (&[0x66, 0x0F, 0x1F, 0x44, 0x00, 0x00], Insn::Nop),
    (&[0x66, 0x66, 0x66, 0x66, 0x66, 0x66, 0x2E, 0x0F, 0x1F, 0x84, 0x00, 0x00, 0x00, 0x00, 0x00], Insn::Nop),
    (&[0x2E, 0x0F, 0x1F, 0x00], Insn::Nop),
    (&[0x88, 0xC8], Insn::Mov { width: Width::B1, dst: Rm::Reg(Reg::Rax), src: Reg::Rcx }),
    (&[0x40, 0x88, 0xFC], Insn::Mov { width: Width::B1, dst: Rm::Reg(Reg::Rsp), src: Reg::Rdi }),
    (&[0x45, 0x00, 0xFB], Insn::Alu { op: AluOp::Add, width: Width::B1, dst: Rm::Reg(Reg::R11), src: Reg::R15 }),
    (&[0x89, 0x08], Insn::Mov { width: Width::B4, dst: Rm::Mem(Mem { base: Some(Reg::Rax), index: None, scale: 1, disp: 0, rip: false }), src: Reg::Rcx }),
    (&[0x48, 0x89, 0x5C, 0x24, 0x08], Insn::Mov { width: Width::B8, dst: Rm::Mem(Mem { base: Some(Reg::Rsp), index: None, scale: 1, disp: 8, rip: false }), src: Reg::Rbx }),
    (&[0x8A, 0x0C, 0x24], Insn::MovLoad { width: Width::B1, dst: Reg::Rcx, src: Rm::Mem(Mem { base: Some(Reg::Rsp), index: None, scale: 1, disp: 0, rip: false }) }),
    (&[0x8B, 0x05, 0xF0, 0xFF, 0xFF, 0xFF], Insn::MovLoad { width: Width::B4, dst: Reg::Rax, src: Rm::Mem(Mem { base: None, index: None, scale: 1, disp: -16, rip: true }) }),
    (&[0x4C, 0x8B, 0x6C, 0x8D, 0x80], Insn::MovLoad { width: Width::B8, dst: Reg::R13, src: Rm::Mem(Mem { base: Some(Reg::Rbp), index: Some(Reg::Rcx), scale: 4, disp: -128, rip: false }) }),
    (&[0xC6, 0x45, 0x00, 0x01], Insn::MovImm { width: Width::B1, dst: Rm::Mem(Mem { base: Some(Reg::Rbp), index: None, scale: 1, disp: 0, rip: false }), imm: 1 }),
    (&[0xC7, 0x47, 0xFC, 0x00, 0x00, 0x00, 0x80], Insn::MovImm { width: Width::B4, dst: Rm::Mem(Mem { base: Some(Reg::Rdi), index: None, scale: 1, disp: -4, rip: false }), imm: -2147483648 }),
    (&[0x48, 0xC7, 0xC0, 0xFF, 0xFF, 0xFF, 0xFF], Insn::MovImm { width: Width::B8, dst: Rm::Reg(Reg::Rax), imm: -1 }),
    (&[0x40, 0xB7, 0x7F], Insn::MovAbs { width: Width::B1, dst: Reg::Rdi, imm: 127 }),
    (&[0x41, 0xBF, 0xFF, 0xFF, 0xFF, 0xFF], Insn::MovAbs { width: Width::B4, dst: Reg::R15, imm: 4294967295 }),
    (&[0x49, 0xB8, 0xEF, 0xCD, 0xAB, 0x89, 0x67, 0x45, 0x23, 0x01], Insn::MovAbs { width: Width::B8, dst: Reg::R8, imm: 81985529216486895 }),
    (&[0x0F, 0xB6, 0xC1], Insn::MovZx { width: Width::B4, dst: Reg::Rax, src: Rm::Reg(Reg::Rcx) }),
    (&[0x48, 0x0F, 0xB6, 0x04, 0x11], Insn::MovZx { width: Width::B8, dst: Reg::Rax, src: Rm::Mem(Mem { base: Some(Reg::Rcx), index: Some(Reg::Rdx), scale: 1, disp: 0, rip: false }) }),
    (&[0x0F, 0xBE, 0xC1], Insn::MovSx { width: Width::B4, dst: Reg::Rax, src: Rm::Reg(Reg::Rcx) }),
    (&[0x48, 0x0F, 0xBE, 0x0B], Insn::MovSx { width: Width::B8, dst: Reg::Rcx, src: Rm::Mem(Mem { base: Some(Reg::Rbx), index: None, scale: 1, disp: 0, rip: false }) }),
    (&[0x48, 0x63, 0xC8], Insn::MovSxd { dst: Reg::Rcx, src: Rm::Reg(Reg::Rax) }),
    (&[0x8D, 0x04, 0xCD, 0x00, 0x00, 0x00, 0x00], Insn::Lea { width: Width::B4, dst: Reg::Rax, mem: Mem { base: None, index: Some(Reg::Rcx), scale: 8, disp: 0, rip: false } }),
    (&[0x48, 0x8D, 0x04, 0x25, 0x00, 0x00, 0x00, 0x80], Insn::Lea { width: Width::B8, dst: Reg::Rax, mem: Mem { base: None, index: None, scale: 1, disp: -2147483648, rip: false } }),
    (&[0x00, 0xC8], Insn::Alu { op: AluOp::Add, width: Width::B1, dst: Rm::Reg(Reg::Rax), src: Reg::Rcx }),
    (&[0x01, 0x44, 0x24, 0x10], Insn::Alu { op: AluOp::Add, width: Width::B4, dst: Rm::Mem(Mem { base: Some(Reg::Rsp), index: None, scale: 1, disp: 16, rip: false }), src: Reg::Rax }),
    (&[0x48, 0x29, 0xC8], Insn::Alu { op: AluOp::Sub, width: Width::B8, dst: Rm::Reg(Reg::Rax), src: Reg::Rcx }),
    (&[0x3A, 0x45, 0x00], Insn::AluLoad { op: AluOp::Cmp, width: Width::B1, dst: Reg::Rax, src: Rm::Mem(Mem { base: Some(Reg::Rbp), index: None, scale: 1, disp: 0, rip: false }) }),
    (&[0x33, 0xC0], Insn::AluLoad { op: AluOp::Xor, width: Width::B4, dst: Reg::Rax, src: Rm::Reg(Reg::Rax) }),
    (&[0x4C, 0x0B, 0x00], Insn::AluLoad { op: AluOp::Or, width: Width::B8, dst: Reg::R8, src: Rm::Mem(Mem { base: Some(Reg::Rax), index: None, scale: 1, disp: 0, rip: false }) }),
    (&[0x80, 0xE1, 0x7F], Insn::AluImm { op: AluOp::And, width: Width::B1, dst: Rm::Reg(Reg::Rcx), imm: 127 }),
    (&[0x83, 0xF8, 0xFF], Insn::AluImm { op: AluOp::Cmp, width: Width::B4, dst: Rm::Reg(Reg::Rax), imm: -1 }),
    (&[0x48, 0x81, 0xEC, 0x00, 0x01, 0x00, 0x00], Insn::AluImm { op: AluOp::Sub, width: Width::B8, dst: Rm::Reg(Reg::Rsp), imm: 256 }),
    (&[0x04, 0x05], Insn::AluImm { op: AluOp::Add, width: Width::B1, dst: Rm::Reg(Reg::Rax), imm: 5 }),
    (&[0x0D, 0xFF, 0xFF, 0xFF, 0xFF], Insn::AluImm { op: AluOp::Or, width: Width::B4, dst: Rm::Reg(Reg::Rax), imm: -1 }),
    (&[0x48, 0xA9, 0x01, 0x00, 0x00, 0x00], Insn::TestImm { width: Width::B8, dst: Rm::Reg(Reg::Rax), imm: 1 }),
    (&[0x84, 0xC9], Insn::Test { width: Width::B1, dst: Rm::Reg(Reg::Rcx), src: Reg::Rcx }),
    (&[0x48, 0x85, 0xDB], Insn::Test { width: Width::B8, dst: Rm::Reg(Reg::Rbx), src: Reg::Rbx }),
    (&[0xF6, 0xC1, 0x01], Insn::TestImm { width: Width::B1, dst: Rm::Reg(Reg::Rcx), imm: 1 }),
    (&[0x48, 0xF7, 0xC0, 0x00, 0x00, 0x00, 0xFF], Insn::TestImm { width: Width::B8, dst: Rm::Reg(Reg::Rax), imm: -16777216 }),
    (&[0xA8, 0x80], Insn::TestImm { width: Width::B1, dst: Rm::Reg(Reg::Rax), imm: -128 }),
    (&[0xA9, 0x01, 0x00, 0x00, 0x00], Insn::TestImm { width: Width::B4, dst: Rm::Reg(Reg::Rax), imm: 1 }),
    (&[0xFE, 0xC0], Insn::Unary { op: UnOp::Inc, width: Width::B1, dst: Rm::Reg(Reg::Rax) }),
    (&[0xFF, 0xC8], Insn::Unary { op: UnOp::Dec, width: Width::B4, dst: Rm::Reg(Reg::Rax) }),
    (&[0x48, 0xFF, 0x0C, 0x24], Insn::Unary { op: UnOp::Dec, width: Width::B8, dst: Rm::Mem(Mem { base: Some(Reg::Rsp), index: None, scale: 1, disp: 0, rip: false }) }),
    (&[0xF6, 0xD1], Insn::Unary { op: UnOp::Not, width: Width::B1, dst: Rm::Reg(Reg::Rcx) }),
    (&[0xF7, 0xD9], Insn::Unary { op: UnOp::Neg, width: Width::B4, dst: Rm::Reg(Reg::Rcx) }),
    (&[0x48, 0xF7, 0x5D, 0xB8], Insn::Unary { op: UnOp::Neg, width: Width::B8, dst: Rm::Mem(Mem { base: Some(Reg::Rbp), index: None, scale: 1, disp: -72, rip: false }) }),
    (&[0xD0, 0xC1], Insn::Shift { op: ShiftOp::Rol, width: Width::B1, dst: Rm::Reg(Reg::Rcx), count: ShiftCount::Imm(1) }),
    (&[0xD1, 0xC8], Insn::Shift { op: ShiftOp::Ror, width: Width::B4, dst: Rm::Reg(Reg::Rax), count: ShiftCount::Imm(1) }),
    (&[0x48, 0xD1, 0xF8], Insn::Shift { op: ShiftOp::Sar, width: Width::B8, dst: Rm::Reg(Reg::Rax), count: ShiftCount::Imm(1) }),
    (&[0xC0, 0xE1, 0x03], Insn::Shift { op: ShiftOp::Shl, width: Width::B1, dst: Rm::Reg(Reg::Rcx), count: ShiftCount::Imm(3) }),
    (&[0xC1, 0xEA, 0x00], Insn::Shift { op: ShiftOp::Shr, width: Width::B4, dst: Rm::Reg(Reg::Rdx), count: ShiftCount::Imm(0) }),
    (&[0x49, 0xC1, 0xE7, 0xFF], Insn::Shift { op: ShiftOp::Shl, width: Width::B8, dst: Rm::Reg(Reg::R15), count: ShiftCount::Imm(255) }),
    (&[0xD2, 0xE8], Insn::Shift { op: ShiftOp::Shr, width: Width::B1, dst: Rm::Reg(Reg::Rax), count: ShiftCount::Cl }),
    (&[0xD3, 0xE2], Insn::Shift { op: ShiftOp::Shl, width: Width::B4, dst: Rm::Reg(Reg::Rdx), count: ShiftCount::Cl }),
    (&[0x0F, 0xAF, 0xC1], Insn::IMul2 { width: Width::B4, dst: Reg::Rax, src: Rm::Reg(Reg::Rcx) }),
    (&[0x4D, 0x0F, 0xAF, 0x0C, 0x24], Insn::IMul2 { width: Width::B8, dst: Reg::R9, src: Rm::Mem(Mem { base: Some(Reg::R12), index: None, scale: 1, disp: 0, rip: false }) }),
    (&[0x6B, 0xC0, 0x7F], Insn::IMul3 { width: Width::B4, dst: Reg::Rax, src: Rm::Reg(Reg::Rax), imm: 127 }),
    (&[0x48, 0x69, 0xC9, 0x00, 0x00, 0x00, 0x80], Insn::IMul3 { width: Width::B8, dst: Reg::Rcx, src: Rm::Reg(Reg::Rcx), imm: -2147483648 }),
    (&[0xF7, 0xE1], Insn::MulDiv { op: MulDivOp::Mul, width: Width::B4, src: Rm::Reg(Reg::Rcx) }),
    (&[0x48, 0xF7, 0xE9], Insn::MulDiv { op: MulDivOp::IMul1, width: Width::B8, src: Rm::Reg(Reg::Rcx) }),
    (&[0xF7, 0xF1], Insn::MulDiv { op: MulDivOp::Div, width: Width::B4, src: Rm::Reg(Reg::Rcx) }),
    (&[0x48, 0xF7, 0x3C, 0x24], Insn::MulDiv { op: MulDivOp::IDiv, width: Width::B8, src: Rm::Mem(Mem { base: Some(Reg::Rsp), index: None, scale: 1, disp: 0, rip: false }) }),
    (&[0x99], Insn::Cdq { width: Width::B4 }),
    (&[0x48, 0x99], Insn::Cdq { width: Width::B8 }),
    (&[0x98], Insn::Cdqe { width: Width::B4 }),
    (&[0x48, 0x98], Insn::Cdqe { width: Width::B8 }),
    (&[0x53], Insn::Push { src: Reg::Rbx }),
    (&[0x41, 0x57], Insn::Push { src: Reg::R15 }),
    (&[0x5B], Insn::Pop { dst: Reg::Rbx }),
    (&[0x41, 0x5E], Insn::Pop { dst: Reg::R14 }),
    (&[0x6A, 0xFF], Insn::PushImm { imm: -1 }),
    (&[0x68, 0x00, 0x00, 0x00, 0x80], Insn::PushImm { imm: -2147483648 }),
    (&[0xFF, 0x30], Insn::PushMem { mem: Mem { base: Some(Reg::Rax), index: None, scale: 1, disp: 0, rip: false } }),
    (&[0x41, 0xFF, 0x74, 0x24, 0x08], Insn::PushMem { mem: Mem { base: Some(Reg::R12), index: None, scale: 1, disp: 8, rip: false } }),
    (&[0xE8, 0xFC, 0xFF, 0xFF, 0xFF], Insn::Call { rel: -4 }),
    (&[0xFF, 0xD0], Insn::CallInd { target: Rm::Reg(Reg::Rax), notrack: false }),
    (&[0x3E, 0xFF, 0xD0], Insn::CallInd { target: Rm::Reg(Reg::Rax), notrack: true }),
    (&[0xFF, 0x14, 0xC5, 0x00, 0x00, 0x00, 0x00], Insn::CallInd { target: Rm::Mem(Mem { base: None, index: Some(Reg::Rax), scale: 8, disp: 0, rip: false }), notrack: false }),
    (&[0xFF, 0xE0], Insn::JmpInd { target: Rm::Reg(Reg::Rax), notrack: false }),
    (&[0x3E, 0x41, 0xFF, 0x65, 0x00], Insn::JmpInd { target: Rm::Mem(Mem { base: Some(Reg::R13), index: None, scale: 1, disp: 0, rip: false }), notrack: true }),
    (&[0xEB, 0x7F], Insn::Jmp { rel: Rel::S(127) }),
    (&[0xE9, 0x00, 0x00, 0x00, 0x80], Insn::Jmp { rel: Rel::L(-2147483648) }),
    (&[0x74, 0x80], Insn::Jcc { cond: Cond::E, rel: Rel::S(-128) }),
    (&[0x7F, 0x00], Insn::Jcc { cond: Cond::G, rel: Rel::S(0) }),
    (&[0x0F, 0x80, 0x00, 0x00, 0x00, 0x00], Insn::Jcc { cond: Cond::O, rel: Rel::L(0) }),
    (&[0x0F, 0x8F, 0xFE, 0xFF, 0xFF, 0xFF], Insn::Jcc { cond: Cond::G, rel: Rel::L(-2) }),
    (&[0x0F, 0x94, 0xC0], Insn::SetCc { cond: Cond::E, dst: Rm::Reg(Reg::Rax) }),
    (&[0x41, 0x0F, 0x9F, 0x45, 0xFF], Insn::SetCc { cond: Cond::G, dst: Rm::Mem(Mem { base: Some(Reg::R13), index: None, scale: 1, disp: -1, rip: false }) }),
    (&[0x0F, 0x42, 0xC1], Insn::CMov { cond: Cond::B, width: Width::B4, dst: Reg::Rax, src: Rm::Reg(Reg::Rcx) }),
    (&[0x48, 0x0F, 0x4D, 0x04, 0x24], Insn::CMov { cond: Cond::Ge, width: Width::B8, dst: Reg::Rax, src: Rm::Mem(Mem { base: Some(Reg::Rsp), index: None, scale: 1, disp: 0, rip: false }) }),
    (&[0xC3], Insn::Ret),
    (&[0xC9], Insn::Leave),
    (&[0x86, 0xC8], Insn::Xchg { width: Width::B1, dst: Rm::Reg(Reg::Rax), src: Reg::Rcx }),
    (&[0x87, 0x45, 0x00], Insn::Xchg { width: Width::B4, dst: Rm::Mem(Mem { base: Some(Reg::Rbp), index: None, scale: 1, disp: 0, rip: false }), src: Reg::Rax }),
    (&[0x49, 0x87, 0xDB], Insn::Xchg { width: Width::B8, dst: Rm::Reg(Reg::R11), src: Reg::Rbx }),
    (&[0x0F, 0xB0, 0x08], Insn::CmpXchg { width: Width::B1, dst: Mem { base: Some(Reg::Rax), index: None, scale: 1, disp: 0, rip: false }, src: Reg::Rcx, lock: false }),
    (&[0xF0, 0x0F, 0xB1, 0x4D, 0x00], Insn::CmpXchg { width: Width::B4, dst: Mem { base: Some(Reg::Rbp), index: None, scale: 1, disp: 0, rip: false }, src: Reg::Rcx, lock: true }),
    (&[0xF0, 0x48, 0x0F, 0xB1, 0x0B], Insn::CmpXchg { width: Width::B8, dst: Mem { base: Some(Reg::Rbx), index: None, scale: 1, disp: 0, rip: false }, src: Reg::Rcx, lock: true }),
    (&[0x0F, 0xC0, 0x09], Insn::XAdd { width: Width::B1, dst: Mem { base: Some(Reg::Rcx), index: None, scale: 1, disp: 0, rip: false }, src: Reg::Rcx, lock: false }),
    (&[0x0F, 0xC1, 0x4C, 0x24, 0x04], Insn::XAdd { width: Width::B4, dst: Mem { base: Some(Reg::Rsp), index: None, scale: 1, disp: 4, rip: false }, src: Reg::Rcx, lock: false }),
    (&[0xF0, 0x4D, 0x0F, 0xC1, 0x24, 0x24], Insn::XAdd { width: Width::B8, dst: Mem { base: Some(Reg::R12), index: None, scale: 1, disp: 0, rip: false }, src: Reg::R12, lock: true }),
    (&[0xF3, 0x48, 0x0F, 0x1E, 0xC8], Insn::RdSsp { dst: Reg::Rax }),
    (&[0xF3, 0x49, 0x0F, 0x1E, 0xCF], Insn::RdSsp { dst: Reg::R15 }),
    (&[0xF3, 0x48, 0x0F, 0xAE, 0xED], Insn::IncSsp { src: Reg::Rbp }),
    (&[0xF3, 0x0F, 0x01, 0x28], Insn::RstorSsp { mem: Mem { base: Some(Reg::Rax), index: None, scale: 1, disp: 0, rip: false } }),
    (&[0xF3, 0x43, 0x0F, 0x01, 0x6C, 0x25, 0x00], Insn::RstorSsp { mem: Mem { base: Some(Reg::R13), index: Some(Reg::R12), scale: 1, disp: 0, rip: false } }),
    (&[0xF3, 0x0F, 0x01, 0xEA], Insn::SavePrevSsp),
    (&[0x48, 0x0F, 0x38, 0xF6, 0x08], Insn::WrSs { mem: Mem { base: Some(Reg::Rax), index: None, scale: 1, disp: 0, rip: false }, src: Reg::Rcx }),
    (&[0x4E, 0x0F, 0x38, 0xF6, 0x24, 0xBD, 0x00, 0x00, 0x00, 0x00], Insn::WrSs { mem: Mem { base: None, index: Some(Reg::R15), scale: 4, disp: 0, rip: false }, src: Reg::R12 }),
    (&[0x0F, 0x05], Insn::Syscall),
    (&[0x0F, 0x0B], Insn::Ud2),
    (&[0xF4], Insn::Hlt),
    (&[0x41, 0x89, 0x04, 0x24], Insn::Mov { width: Width::B4, dst: Rm::Mem(Mem { base: Some(Reg::R12), index: None, scale: 1, disp: 0, rip: false }), src: Reg::Rax }),
    (&[0x41, 0x89, 0x45, 0xFC], Insn::Mov { width: Width::B4, dst: Rm::Mem(Mem { base: Some(Reg::R13), index: None, scale: 1, disp: -4, rip: false }), src: Reg::Rax }),
    (&[0x41, 0x89, 0x84, 0x24, 0x00, 0x01, 0x00, 0x00], Insn::Mov { width: Width::B4, dst: Rm::Mem(Mem { base: Some(Reg::R12), index: None, scale: 1, disp: 256, rip: false }), src: Reg::Rax }),
];

// less than a form
const SHORT: &[&[u8]] = &[
    &[],
    &[0xF3, 0x0F, 0x1E],
    &[0x42],
    &[0xF3, 0x42],
    &[0xF0, 0x48, 0x0F, 0xB1],
    &[0x66, 0x66, 0x66, 0x66, 0x66, 0x66, 0x2E, 0x0F],
    &[0x4F],
    &[0x48, 0xB8, 0, 0, 0, 0, 0, 0, 0],
    &[0x81, 0x84, 0x24, 0, 0, 0, 0, 0, 0, 0],
];

// no form, however the bytes go on
const OUTSIDE: &[&[u8]] = &[
    &[0xF3, 0x0F, 0x1E, 0xFC],
    &[0x0F, 0x38],
    &[0x63, 0xC0],
    &[0x63],
    &[0xF3, 0x44],
    &[0xF3, 0x4A],
    &[0xF3, 0x48, 0x0F, 0x01],
    &[0xF0, 0x48, 0x0F, 0xB0],
    &[0x42, 0x50],
    &[0x40, 0x90],
    &[0x88, 0xE0],
    &[0x42, 0x89, 0xC0],
    &[0x41, 0x8B, 0x05],
    &[0x8B, 0x04, 0x60],
    &[0x66, 0x89],
    &[0x66, 0x66, 0x66, 0x66, 0x66, 0x66, 0x66],
    &[0xF0, 0x89],
    &[0x3E, 0xFF, 0xF0],
    &[0x48, 0xFF, 0xD0],
    &[0x7A],
    &[0x0F, 0x8B],
    &[0x44, 0xFF],
    &[0x8D, 0xC0],
    &[0xF6, 0xE0],
];

#[test]
fn tells_values_and_lengths(rt: HostRuntime) {
    for (bytes, value) in FORMS {
        let found = decode(bytes);
        let is_right = match found {
            Ok((insn, length)) => insn == *value && usize::from(length) == bytes.len(),
            Err(_) => false,
        };
        assert!(rt; is_right, "{bytes:?} {found:?}");
    }
}

#[test]
fn tells_refusals(rt: HostRuntime) {
    for bytes in SHORT {
        assert!(rt;
            matches!(decode(bytes), Err(DecodeError::Short)),
            "{bytes:?}"
        );
    }
    for bytes in OUTSIDE {
        assert!(rt;
            matches!(decode(bytes), Err(DecodeError::Outside)),
            "{bytes:?}"
        );
    }
}
