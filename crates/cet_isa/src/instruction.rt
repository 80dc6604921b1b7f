use crate::operand::{Mem, Rel, Rm, Width};
use crate::operation::{AluOp, Cond, MulDivOp, ShiftCount, ShiftOp, UnOp};
use crate::register::Reg;

/// An instruction value. `Form` of `specs/Form.antt` says which bytes each value has.
#[derive(Clone, Copy, Debug, PartialEq, Eq)]
pub enum Insn {
    /// ENDBR64: a tracked indirect branch may land here.
    EndBr64,
    /// NOP, in any of its lengths, and PAUSE.
    Nop,
    /// MOV from a register.
    Mov {
        width: Width,
        dst: Rm,
        src: Reg,
    },
    /// MOV to a register.
    MovLoad {
        width: Width,
        dst: Reg,
        src: Rm,
    },
    /// MOV of a sign-extended constant.
    MovImm {
        width: Width,
        dst: Rm,
        imm: i32,
    },
    /// MOV of a constant of the operand's whole width.
    MovAbs {
        width: Width,
        dst: Reg,
        imm: u64,
    },
    /// MOVZX from a byte; the width is that of the destination.
    MovZx {
        width: Width,
        dst: Reg,
        src: Rm,
    },
    /// MOVSX from a byte; the width is that of the destination.
    MovSx {
        width: Width,
        dst: Reg,
        src: Rm,
    },
    /// MOVSXD from 32 to 64 bits.
    MovSxd {
        dst: Reg,
        src: Rm,
    },
    Lea {
        width: Width,
        dst: Reg,
        mem: Mem,
    },
    /// An operation whose second operand is a register.
    Alu {
        op: AluOp,
        width: Width,
        dst: Rm,
        src: Reg,
    },
    /// An operation whose first operand is a register.
    AluLoad {
        op: AluOp,
        width: Width,
        dst: Reg,
        src: Rm,
    },
    /// An operation with a sign-extended constant.
    AluImm {
        op: AluOp,
        width: Width,
        dst: Rm,
        imm: i32,
    },
    Test {
        width: Width,
        dst: Rm,
        src: Reg,
    },
    TestImm {
        width: Width,
        dst: Rm,
        imm: i32,
    },
    Unary {
        op: UnOp,
        width: Width,
        dst: Rm,
    },
    Shift {
        op: ShiftOp,
        width: Width,
        dst: Rm,
        count: ShiftCount,
    },
    /// IMUL of two operands.
    IMul2 {
        width: Width,
        dst: Reg,
        src: Rm,
    },
    /// IMUL of two operands and a sign-extended constant.
    IMul3 {
        width: Width,
        dst: Reg,
        src: Rm,
        imm: i32,
    },
    MulDiv {
        op: MulDivOp,
        width: Width,
        src: Rm,
    },
    /// CDQ and CQO.
    Cdq {
        width: Width,
    },
    /// CWDE and CDQE.
    Cdqe {
        width: Width,
    },
    Push {
        src: Reg,
    },
    Pop {
        dst: Reg,
    },
    PushImm {
        imm: i32,
    },
    PushMem {
        mem: Mem,
    },
    /// CALL to the next address plus `rel`.
    Call {
        rel: i32,
    },
    /// CALL through a register or memory; with `notrack` the target needs no ENDBR64.
    CallInd {
        target: Rm,
        notrack: bool,
    },
    /// JMP through a register or memory; with `notrack` the target needs no ENDBR64.
    JmpInd {
        target: Rm,
        notrack: bool,
    },
    /// JMP to the next address plus `rel`.
    Jmp {
        rel: Rel,
    },
    /// A conditional JMP to the next address plus `rel`.
    Jcc {
        cond: Cond,
        rel: Rel,
    },
    SetCc {
        cond: Cond,
        dst: Rm,
    },
    CMov {
        cond: Cond,
        width: Width,
        dst: Reg,
        src: Rm,
    },
    Ret,
    Leave,
    Xchg {
        width: Width,
        dst: Rm,
        src: Reg,
    },
    CmpXchg {
        width: Width,
        dst: Mem,
        src: Reg,
        lock: bool,
    },
    XAdd {
        width: Width,
        dst: Mem,
        src: Reg,
        lock: bool,
    },
    /// RDSSPQ: reads the shadow stack pointer.
    RdSsp {
        dst: Reg,
    },
    /// INCSSPQ: pops words of the shadow stack.
    IncSsp {
        src: Reg,
    },
    /// RSTORSSP: turns to the shadow stack whose restore token stands in memory.
    RstorSsp {
        mem: Mem,
    },
    /// SAVEPREVSSP: leaves a restore token on the shadow stack that was turned from.
    SavePrevSsp,
    /// WRSSQ: writes a word of a shadow stack.
    WrSs {
        mem: Mem,
        src: Reg,
    },
    Syscall,
    /// UD2: the undefined-instruction fault, on purpose.
    Ud2,
    Hlt,
}
