//! Rows whose bytes GNU as gives, or the SDM where it prefers another encoding, and rows of values without a form.

use super::*;
use cet_isa::{AluOp, Cond, Mem, MulDivOp, Reg, Rel, Rm, ShiftCount, ShiftOp, UnOp, Width};

#[rattlefmt::skip]
const CODES: &[(Insn, &[u8])] = &[
    (Insn::EndBr64, &[0xF3, 0x0F, 0x1E, 0xFA]),
    (Insn::Nop, &[0x90]),
    (Insn::Mov { width: Width::B4, dst: Rm::Mem(Mem { base: Some(Reg::Rax), index: None, scale: 1, disp: 0, rip: false }), src: Reg::Rcx }, &[0x89, 0x08]),
    (Insn::Mov { width: Width::B8, dst: Rm::Mem(Mem { base: Some(Reg::Rbp), index: None, scale: 1, disp: 0, rip: false }), src: Reg::Rcx }, &[0x48, 0x89, 0x4D, 0x00]),
    (Insn::Mov { width: Width::B4, dst: Rm::Mem(Mem { base: Some(Reg::R13), index: None, scale: 1, disp: 0, rip: false }), src: Reg::R9 }, &[0x45, 0x89, 0x4D, 0x00]),
    (Insn::Mov { width: Width::B1, dst: Rm::Mem(Mem { base: Some(Reg::Rsp), index: None, scale: 1, disp: 0, rip: false }), src: Reg::Rcx }, &[0x88, 0x0C, 0x24]),
    (Insn::MovLoad { width: Width::B8, dst: Reg::R8, src: Rm::Mem(Mem { base: Some(Reg::R12), index: None, scale: 1, disp: 0, rip: false }) }, &[0x4D, 0x8B, 0x04, 0x24]),
    (Insn::MovLoad { width: Width::B4, dst: Reg::Rax, src: Rm::Mem(Mem { base: Some(Reg::R12), index: Some(Reg::R12), scale: 2, disp: -128, rip: false }) }, &[0x43, 0x8B, 0x44, 0x64, 0x80]),
    (Insn::MovLoad { width: Width::B4, dst: Reg::Rax, src: Rm::Mem(Mem { base: Some(Reg::Rbp), index: Some(Reg::Rdx), scale: 1, disp: 0, rip: false }) }, &[0x8B, 0x44, 0x15, 0x00]),
    (Insn::MovLoad { width: Width::B8, dst: Reg::Rax, src: Rm::Mem(Mem { base: Some(Reg::Rdi), index: None, scale: 1, disp: 127, rip: false }) }, &[0x48, 0x8B, 0x47, 0x7F]),
    (Insn::MovLoad { width: Width::B8, dst: Reg::Rax, src: Rm::Mem(Mem { base: Some(Reg::Rdi), index: None, scale: 1, disp: 128, rip: false }) }, &[0x48, 0x8B, 0x87, 0x80, 0x00, 0x00, 0x00]),
    (Insn::MovLoad { width: Width::B8, dst: Reg::Rax, src: Rm::Mem(Mem { base: Some(Reg::Rdi), index: None, scale: 1, disp: -129, rip: false }) }, &[0x48, 0x8B, 0x87, 0x7F, 0xFF, 0xFF, 0xFF]),
    (Insn::Lea { width: Width::B8, dst: Reg::Rax, mem: Mem { base: None, index: None, scale: 1, disp: 5, rip: true } }, &[0x48, 0x8D, 0x05, 0x05, 0x00, 0x00, 0x00]),
    (Insn::Lea { width: Width::B4, dst: Reg::Rax, mem: Mem { base: None, index: Some(Reg::Rcx), scale: 8, disp: 3, rip: false } }, &[0x8D, 0x04, 0xCD, 0x03, 0x00, 0x00, 0x00]),
    (Insn::Lea { width: Width::B8, dst: Reg::R9, mem: Mem { base: None, index: None, scale: 1, disp: -16, rip: false } }, &[0x4C, 0x8D, 0x0C, 0x25, 0xF0, 0xFF, 0xFF, 0xFF]),
    (Insn::Mov { width: Width::B1, dst: Rm::Reg(Reg::Rax), src: Reg::Rcx }, &[0x88, 0xC8]),
    (Insn::Mov { width: Width::B1, dst: Rm::Reg(Reg::Rax), src: Reg::Rsp }, &[0x40, 0x88, 0xE0]),
    (Insn::Mov { width: Width::B1, dst: Rm::Reg(Reg::Rsi), src: Reg::Rdx }, &[0x40, 0x88, 0xD6]),
    (Insn::Mov { width: Width::B1, dst: Rm::Reg(Reg::R10), src: Reg::R11 }, &[0x45, 0x88, 0xDA]),
    (Insn::MovZx { width: Width::B4, dst: Reg::Rsp, src: Rm::Reg(Reg::Rdi) }, &[0x40, 0x0F, 0xB6, 0xE7]),
    (Insn::MovSx { width: Width::B8, dst: Reg::Rsp, src: Rm::Reg(Reg::Rbx) }, &[0x48, 0x0F, 0xBE, 0xE3]),
    (Insn::MovImm { width: Width::B1, dst: Rm::Mem(Mem { base: Some(Reg::Rax), index: None, scale: 1, disp: 0, rip: false }), imm: -128 }, &[0xC6, 0x00, 0x80]),
    (Insn::MovImm { width: Width::B4, dst: Rm::Mem(Mem { base: Some(Reg::Rax), index: None, scale: 1, disp: 0, rip: false }), imm: -2147483648 }, &[0xC7, 0x00, 0x00, 0x00, 0x00, 0x80]),
    (Insn::MovImm { width: Width::B8, dst: Rm::Reg(Reg::Rbx), imm: -1 }, &[0x48, 0xC7, 0xC3, 0xFF, 0xFF, 0xFF, 0xFF]),
    (Insn::MovAbs { width: Width::B1, dst: Reg::Rbp, imm: 255 }, &[0x40, 0xB5, 0xFF]),
    (Insn::MovAbs { width: Width::B4, dst: Reg::Rax, imm: 4294967295 }, &[0xB8, 0xFF, 0xFF, 0xFF, 0xFF]),
    (Insn::MovAbs { width: Width::B8, dst: Reg::R15, imm: 1 }, &[0x49, 0xBF, 0x01, 0x00, 0x00, 0x00, 0x00, 0x00, 0x00, 0x00]),
    (Insn::MovSxd { dst: Reg::R8, src: Rm::Mem(Mem { base: Some(Reg::Rax), index: None, scale: 1, disp: 0, rip: false }) }, &[0x4C, 0x63, 0x00]),
    (Insn::Alu { op: AluOp::Sbb, width: Width::B8, dst: Rm::Reg(Reg::Rdx), src: Reg::Rax }, &[0x48, 0x19, 0xC2]),
    (Insn::AluLoad { op: AluOp::Cmp, width: Width::B1, dst: Reg::Rbx, src: Rm::Mem(Mem { base: Some(Reg::Rax), index: None, scale: 1, disp: 0, rip: false }) }, &[0x3A, 0x18]),
    (Insn::AluImm { op: AluOp::Add, width: Width::B8, dst: Rm::Reg(Reg::Rax), imm: 5 }, &[0x48, 0x83, 0xC0, 0x05]),
    (Insn::AluImm { op: AluOp::Or, width: Width::B1, dst: Rm::Reg(Reg::Rax), imm: 127 }, &[0x80, 0xC8, 0x7F]),
    (Insn::AluImm { op: AluOp::Cmp, width: Width::B4, dst: Rm::Reg(Reg::Rax), imm: 128 }, &[0x81, 0xF8, 0x80, 0x00, 0x00, 0x00]),
    (Insn::Test { width: Width::B4, dst: Rm::Reg(Reg::Rsi), src: Reg::Rdi }, &[0x85, 0xFE]),
    (Insn::TestImm { width: Width::B1, dst: Rm::Reg(Reg::Rax), imm: 1 }, &[0xF6, 0xC0, 0x01]),
    (Insn::TestImm { width: Width::B8, dst: Rm::Reg(Reg::Rax), imm: 1 }, &[0x48, 0xF7, 0xC0, 0x01, 0x00, 0x00, 0x00]),
    (Insn::Unary { op: UnOp::Inc, width: Width::B1, dst: Rm::Mem(Mem { base: Some(Reg::Rax), index: None, scale: 1, disp: 0, rip: false }) }, &[0xFE, 0x00]),
    (Insn::Unary { op: UnOp::Dec, width: Width::B8, dst: Rm::Reg(Reg::R9) }, &[0x49, 0xFF, 0xC9]),
    (Insn::Unary { op: UnOp::Not, width: Width::B4, dst: Rm::Reg(Reg::Rcx) }, &[0xF7, 0xD1]),
    (Insn::Unary { op: UnOp::Neg, width: Width::B1, dst: Rm::Reg(Reg::Rcx) }, &[0xF6, 0xD9]),
    (Insn::Shift { op: ShiftOp::Shl, width: Width::B4, dst: Rm::Reg(Reg::Rax), count: ShiftCount::Imm(1) }, &[0xD1, 0xE0]),
    (Insn::Shift { op: ShiftOp::Shl, width: Width::B4, dst: Rm::Reg(Reg::Rax), count: ShiftCount::Imm(2) }, &[0xC1, 0xE0, 0x02]),
    (Insn::Shift { op: ShiftOp::Sar, width: Width::B8, dst: Rm::Reg(Reg::Rdx), count: ShiftCount::Cl }, &[0x48, 0xD3, 0xFA]),
    (Insn::IMul2 { width: Width::B4, dst: Reg::Rax, src: Rm::Mem(Mem { base: Some(Reg::Rcx), index: None, scale: 1, disp: 0, rip: false }) }, &[0x0F, 0xAF, 0x01]),
    (Insn::IMul3 { width: Width::B8, dst: Reg::Rdx, src: Rm::Reg(Reg::Rcx), imm: 127 }, &[0x48, 0x6B, 0xD1, 0x7F]),
    (Insn::IMul3 { width: Width::B8, dst: Reg::Rdx, src: Rm::Reg(Reg::Rcx), imm: 128 }, &[0x48, 0x69, 0xD1, 0x80, 0x00, 0x00, 0x00]),
    (Insn::MulDiv { op: MulDivOp::IDiv, width: Width::B8, src: Rm::Reg(Reg::R14) }, &[0x49, 0xF7, 0xFE]),
    (Insn::Cdq { width: Width::B4 }, &[0x99]),
    (Insn::Cdqe { width: Width::B8 }, &[0x48, 0x98]),
    (Insn::Push { src: Reg::R15 }, &[0x41, 0x57]),
    (Insn::Pop { dst: Reg::Rbx }, &[0x5B]),
    (Insn::PushImm { imm: -128 }, &[0x6A, 0x80]),
    (Insn::PushImm { imm: 128 }, &[0x68, 0x80, 0x00, 0x00, 0x00]),
    (Insn::PushMem { mem: Mem { base: Some(Reg::Rsp), index: None, scale: 1, disp: 8, rip: false } }, &[0xFF, 0x74, 0x24, 0x08]),
    (Insn::Call { rel: -4 }, &[0xE8, 0xFC, 0xFF, 0xFF, 0xFF]),
    (Insn::CallInd { target: Rm::Mem(Mem { base: None, index: Some(Reg::Rax), scale: 8, disp: 4096, rip: false }), notrack: true }, &[0x3E, 0xFF, 0x14, 0xC5, 0x00, 0x10, 0x00, 0x00]),
    (Insn::JmpInd { target: Rm::Reg(Reg::R11), notrack: false }, &[0x41, 0xFF, 0xE3]),
    (Insn::Jmp { rel: Rel::S(-128) }, &[0xEB, 0x80]),
    (Insn::Jmp { rel: Rel::L(5) }, &[0xE9, 0x05, 0x00, 0x00, 0x00]),
    (Insn::Jcc { cond: Cond::G, rel: Rel::S(127) }, &[0x7F, 0x7F]),
    (Insn::Jcc { cond: Cond::L, rel: Rel::L(-2) }, &[0x0F, 0x8C, 0xFE, 0xFF, 0xFF, 0xFF]),
    (Insn::SetCc { cond: Cond::E, dst: Rm::Reg(Reg::Rsi) }, &[0x40, 0x0F, 0x94, 0xC6]),
    (Insn::CMov { cond: Cond::Ae, width: Width::B8, dst: Reg::Rax, src: Rm::Reg(Reg::R8) }, &[0x49, 0x0F, 0x43, 0xC0]),
    (Insn::Ret, &[0xC3]),
    (Insn::Leave, &[0xC9]),
    (Insn::Xchg { width: Width::B8, dst: Rm::Mem(Mem { base: Some(Reg::Rcx), index: None, scale: 1, disp: 0, rip: false }), src: Reg::Rax }, &[0x48, 0x87, 0x01]),
    (Insn::CmpXchg { width: Width::B8, dst: Mem { base: Some(Reg::Rdx), index: None, scale: 1, disp: 0, rip: false }, src: Reg::R8, lock: true }, &[0xF0, 0x4C, 0x0F, 0xB1, 0x02]),
    (Insn::XAdd { width: Width::B1, dst: Mem { base: Some(Reg::Rdx), index: None, scale: 1, disp: 0, rip: false }, src: Reg::Rbp, lock: false }, &[0x40, 0x0F, 0xC0, 0x2A]),
    (Insn::RdSsp { dst: Reg::Rax }, &[0xF3, 0x48, 0x0F, 0x1E, 0xC8]),
    (Insn::IncSsp { src: Reg::R12 }, &[0xF3, 0x49, 0x0F, 0xAE, 0xEC]),
    (Insn::RstorSsp { mem: Mem { base: Some(Reg::R9), index: None, scale: 1, disp: 0, rip: false } }, &[0xF3, 0x41, 0x0F, 0x01, 0x29]),
    (Insn::SavePrevSsp, &[0xF3, 0x0F, 0x01, 0xEA]),
    (Insn::WrSs { mem: Mem { base: Some(Reg::Rax), index: None, scale: 1, disp: 0, rip: false }, src: Reg::R9 }, &[0x4C, 0x0F, 0x38, 0xF6, 0x08]),
    (Insn::Syscall, &[0x0F, 0x05]),
    (Insn::Ud2, &[0x0F, 0x0B]),
    (Insn::Hlt, &[0xF4]),
];

#[rattlefmt::skip]
const WITHOUT_FORM: &[Insn] = &[
    Insn::MovLoad { width: Width::B8, dst: Reg::Rax, src: Rm::Mem(Mem { base: Some(Reg::Rax), index: Some(Reg::Rsp), scale: 1, disp: 0, rip: false }) },
    Insn::Lea { width: Width::B8, dst: Reg::Rax, mem: Mem { base: Some(Reg::Rax), index: Some(Reg::Rcx), scale: 3, disp: 0, rip: false } },
    Insn::Lea { width: Width::B8, dst: Reg::Rax, mem: Mem { base: Some(Reg::Rax), index: Some(Reg::Rcx), scale: 0, disp: 0, rip: false } },
    Insn::Lea { width: Width::B8, dst: Reg::Rax, mem: Mem { base: Some(Reg::Rax), index: None, scale: 2, disp: 0, rip: false } },
    Insn::PushMem { mem: Mem { base: Some(Reg::Rax), index: None, scale: 1, disp: 0, rip: true } },
    Insn::RstorSsp { mem: Mem { base: None, index: Some(Reg::Rax), scale: 1, disp: 0, rip: true } },
    Insn::WrSs { mem: Mem { base: None, index: None, scale: 8, disp: 0, rip: true }, src: Reg::Rax },
    Insn::MovImm { width: Width::B1, dst: Rm::Reg(Reg::Rax), imm: 128 },
    Insn::AluImm { op: AluOp::Add, width: Width::B1, dst: Rm::Reg(Reg::Rax), imm: -129 },
    Insn::TestImm { width: Width::B1, dst: Rm::Reg(Reg::Rax), imm: 255 },
    Insn::MovAbs { width: Width::B1, dst: Reg::Rax, imm: 256 },
    Insn::MovAbs { width: Width::B4, dst: Reg::Rax, imm: 4294967296 },
    Insn::Lea { width: Width::B1, dst: Reg::Rax, mem: Mem { base: Some(Reg::Rax), index: None, scale: 1, disp: 0, rip: false } },
    Insn::MovZx { width: Width::B1, dst: Reg::Rax, src: Rm::Reg(Reg::Rax) },
    Insn::IMul3 { width: Width::B1, dst: Reg::Rax, src: Rm::Reg(Reg::Rax), imm: 1 },
    Insn::MulDiv { op: MulDivOp::Mul, width: Width::B1, src: Rm::Reg(Reg::Rax) },
    Insn::Cdq { width: Width::B1 },
    Insn::CMov { cond: Cond::E, width: Width::B1, dst: Reg::Rax, src: Rm::Reg(Reg::Rax) },
];

#[test]
fn gives_canonical_bytes(rt: HostRuntime) {
    for (value, bytes) in CODES {
        let code = encode(*value);
        let is_right = match &code {
            Ok(code) => code.as_bytes() == *bytes && code.len() == bytes.len(),
            Err(EncodeError::NoForm) => false,
        };
        assert!(rt; is_right, "{value:?} {code:?}");
    }
}

#[test]
fn tells_values_without_form(rt: HostRuntime) {
    for value in WITHOUT_FORM {
        assert!(rt;
            matches!(encode(*value), Err(EncodeError::NoForm)),
            "{value:?}"
        );
    }
}
