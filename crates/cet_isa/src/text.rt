//! The text of an instruction value, as the listing prints it.
ghost use Rattle.std.specs.Prelude.{◌≡◌, ◌+◌, ◌≤◌, ◌++◌, length, codes, OnOk, OnErr};
ghost use Rattle.cet_base.specs.Faults.{Rose};
ghost use Rattle.cet_base.specs.Sink.{Gains, GainsPart};
ghost use Rattle.cet_base.specs.declared.line.TheConstants.{LINE_CAPACITY};
ghost use Rattle.cet_isa.specs.Text.{text, width_text, register_text, operand_text, memory_text, alu_text, condition_text, with_one, with_two, with_three, behind, branch_text};
ghost use Rattle.std.specs.Fmt.{signed_decimal};

mod names;
mod operands;

use crate::instruction::Insn;
use crate::operand::{Mem, Rel, Rm, Width};
use crate::operation::{AluOp, Cond};
use crate::register::Reg;
use crate::text::names::{
    alu_name, condition_name, product_name, shift_name, unary_name, width_name,
};
use crate::text::operands::{Displacement, Operand};
use cet_base::{Failed, Line, Sink, write_all};

/// No text has more bytes.
pub const TEXT_LIMIT: usize = 64;

/// Writes the text of the value. It takes no memory. After `Failed` some first part of the text was taken.
pub fn write_text<O: Sink>(insn: Insn, out: &mut O) -> Result<(), Failed>
    ensures faults { O.faults out.old ≤ O.faults out.new }
    ensures taken { OnOk result (Gains (O.bytes out.old) (O.bytes out.new) (text insn)) }
    ensures failed { OnErr result (Rose (O.faults out.old) (O.faults out.new)) }
    ensures part { OnErr result (GainsPart (O.bytes out.old) (O.bytes out.new) (text insn)) }
{
    let mut line = Line::new();
    put_text(&mut line, insn);
    write_all(out, line.as_bytes())
}

/// Adds the text of the value to the line.
#[rattlefmt::skip]
pub fn put_text(line: &mut Line, insn: Insn)
    requires { length line.old + TEXT_LIMIT ≤ LINE_CAPACITY }
    ensures text { line.new ≡ line.old ++ text insn }
    ensures room { length line.new ≤ length line.old + TEXT_LIMIT }
{
    match insn {
        Insn::EndBr64 => line.put(b"endbr64"),
        Insn::Nop => line.put(b"nop"),
        Insn::Mov { width, dst, src } => put_sized_two(line, b"mov", width, dst, src),
        Insn::MovLoad { width, dst, src } => put_sized_two(line, b"ld", width, dst, src),
        Insn::MovImm { width, dst, imm } => put_sized_two(line, b"mov", width, dst, imm),
        Insn::MovAbs { width, dst, imm } => put_sized_two(line, b"movabs", width, dst, imm),
        Insn::MovZx { width, dst, src } => put_sized_two(line, b"movzx", width, dst, src),
        Insn::MovSx { width, dst, src } => put_sized_two(line, b"movsx", width, dst, src),
        Insn::MovSxd { dst, src } => put_two(line, b"movsxd", dst, src),
        Insn::Lea { width, dst, mem } => put_sized_two(line, b"lea", width, dst, mem),
        Insn::Alu { op, width, dst, src } => put_sized_two(line, alu_name(op), width, dst, src),
        Insn::AluLoad { op, width, dst, src } => put_alu_load(line, op, width, dst, src),
        Insn::AluImm { op, width, dst, imm } => put_sized_two(line, alu_name(op), width, dst, imm),
        Insn::Test { width, dst, src } => put_sized_two(line, b"test", width, dst, src),
        Insn::TestImm { width, dst, imm } => put_sized_two(line, b"test", width, dst, imm),
        Insn::Unary { op, width, dst } => put_sized_one(line, unary_name(op), width, dst),
        Insn::Shift { op, width, dst, count } => put_sized_two(line, shift_name(op), width, dst, count),
        Insn::IMul2 { width, dst, src } => put_sized_two(line, b"imul", width, dst, src),
        Insn::IMul3 { width, dst, src, imm } => put_triple_product(line, width, dst, src, imm),
        Insn::MulDiv { op, width, src } => put_sized_one(line, product_name(op), width, src),
        Insn::Cdq { width } => put_name(line, b"cdq", width),
        Insn::Cdqe { width } => put_name(line, b"cdqe", width),
        Insn::Push { src } => put_one(line, b"push", src),
        Insn::Pop { dst } => put_one(line, b"pop", dst),
        Insn::PushImm { imm } => put_one(line, b"push", imm),
        Insn::PushMem { mem } => put_one(line, b"push", mem),
        Insn::Call { rel } => put_one(line, b"call", Displacement(rel)),
        Insn::CallInd { target, notrack } => put_indirect(line, b"call", target, notrack),
        Insn::JmpInd { target, notrack } => put_indirect(line, b"jmp", target, notrack),
        Insn::Jmp { rel } => put_branch(line, b"jmp", rel),
        Insn::Jcc { cond, rel } => put_conditional_branch(line, cond, rel),
        Insn::SetCc { cond, dst } => put_conditional_set(line, cond, dst),
        Insn::CMov { cond, width, dst, src } => put_conditional_move(line, cond, width, dst, src),
        Insn::Ret => line.put(b"ret"),
        Insn::Leave => line.put(b"leave"),
        Insn::Xchg { width, dst, src } => put_sized_two(line, b"xchg", width, dst, src),
        Insn::CmpXchg { width, dst, src, lock } => put_locked(line, b"cmpxchg", width, dst, src, lock),
        Insn::XAdd { width, dst, src, lock } => put_locked(line, b"xadd", width, dst, src, lock),
        Insn::RdSsp { dst } => put_one(line, b"rdssp", dst),
        Insn::IncSsp { src } => put_one(line, b"incssp", src),
        Insn::RstorSsp { mem } => put_one(line, b"rstorssp", mem),
        Insn::SavePrevSsp => line.put(b"saveprevssp"),
        Insn::WrSs { mem, src } => put_two(line, b"wrss", mem, src),
        Insn::Syscall => line.put(b"syscall"),
        Insn::Ud2 => line.put(b"ud2"),
        Insn::Hlt => line.put(b"hlt"),
    }
}

/// Adds a name and its width.
fn put_name(line: &mut Line, name: &[u8], width: Width)
    requires { length line.old + length name.now + 2 ≤ LINE_CAPACITY }
    ensures text { line.new ≡ line.old ++ (name.now ++ width_text width) }
    ensures room { length line.new ≡ length line.old + length name.now + 2 }
{
    line.put(name);
    line.put(width_name(width));
}

/// Adds a name and one operand.
fn put_one<A: Operand>(line: &mut Line, name: &[u8], operand: A)
    requires { length line.old + length name.now + 1 + A.limit ≤ LINE_CAPACITY }
    ensures text { line.new ≡ line.old ++ with_one name.now (A.text operand) }
    ensures room { length line.new ≤ length line.old + length name.now + 1 + A.limit }
{
    line.put(name);
    line.put(b" ");
    operand.put_on(line);
}

/// Adds a name and two operands.
fn put_two<A: Operand, B: Operand>(line: &mut Line, name: &[u8], first: A, second: B)
    requires { length line.old + length name.now + 3 + A.limit + B.limit ≤ LINE_CAPACITY }
    ensures text { line.new ≡ line.old ++ with_two name.now (A.text first) (B.text second) }
    ensures room { length line.new ≤ length line.old + length name.now + 3 + A.limit + B.limit }
{
    put_one(line, name, first);
    line.put(b", ");
    second.put_on(line);
}

/// Adds a name, its width and one operand.
fn put_sized_one<A: Operand>(line: &mut Line, name: &[u8], width: Width, operand: A)
    requires { length line.old + length name.now + 3 + A.limit ≤ LINE_CAPACITY }
    ensures text { line.new ≡ line.old ++ with_one (name.now ++ width_text width) (A.text operand) }
    ensures room { length line.new ≤ length line.old + length name.now + 3 + A.limit }
{
    line.put(name);
    put_one(line, width_name(width), operand);
}

/// Adds a name, its width and two operands.
fn put_sized_two<A: Operand, B: Operand>(
    line: &mut Line,
    name: &[u8],
    width: Width,
    first: A,
    second: B,
)
    requires { length line.old + length name.now + 5 + A.limit + B.limit ≤ LINE_CAPACITY }
    ensures text { line.new ≡ line.old ++ with_two (name.now ++ width_text width) (A.text first) (B.text second) }
    ensures room { length line.new ≤ length line.old + length name.now + 5 + A.limit + B.limit }
{
    line.put(name);
    put_two(line, width_name(width), first, second);
}

/// Adds `imul`, its width and three operands.
fn put_triple_product(line: &mut Line, width: Width, dst: Reg, src: Rm, imm: i32)
    requires { length line.old + TEXT_LIMIT ≤ LINE_CAPACITY }
    ensures text { line.new ≡ line.old ++ with_three (codes "imul" ++ width_text width) (register_text dst) (operand_text src) (signed_decimal imm) }
    ensures room { length line.new ≤ length line.old + TEXT_LIMIT }
{
    put_sized_two(line, b"imul", width, dst, src);
    line.put(b", ");
    imm.put_on(line);
}

/// Adds the name of an operation that loads its first operand.
fn put_alu_load(line: &mut Line, op: AluOp, width: Width, dst: Reg, src: Rm)
    requires { length line.old + TEXT_LIMIT ≤ LINE_CAPACITY }
    ensures text { line.new ≡ line.old ++ with_two (alu_text op ++ codes "_ld" ++ width_text width) (register_text dst) (operand_text src) }
    ensures room { length line.new ≤ length line.old + TEXT_LIMIT }
{
    line.put(alu_name(op));
    put_sized_two(line, b"_ld", width, dst, src);
}

/// Adds a CALL or a JMP through an operand.
fn put_indirect(line: &mut Line, name: &[u8], target: Rm, notrack: bool)
    requires name { length name.now ≤ 8 }
    requires room { length line.old + TEXT_LIMIT ≤ LINE_CAPACITY }
    ensures text { line.new ≡ line.old ++ behind (codes "notrack") notrack (with_one name.now (operand_text target)) }
    ensures room { length line.new ≤ length line.old + TEXT_LIMIT }
{
    if notrack {
        line.put(b"notrack ");
    }
    put_one(line, name, target);
}

/// Adds an exchange with memory.
fn put_locked(line: &mut Line, name: &[u8], width: Width, dst: Mem, src: Reg, lock: bool)
    requires name { length name.now ≤ 8 }
    requires room { length line.old + TEXT_LIMIT ≤ LINE_CAPACITY }
    ensures text { line.new ≡ line.old ++ behind (codes "lock") lock (with_two (name.now ++ width_text width) (memory_text dst) (register_text src)) }
    ensures room { length line.new ≤ length line.old + TEXT_LIMIT }
{
    if lock {
        line.put(b"lock ");
    }
    put_sized_two(line, name, width, dst, src);
}

/// Adds a relative branch.
fn put_branch(line: &mut Line, name: &[u8], rel: Rel)
    requires { length line.old + length name.now + 15 ≤ LINE_CAPACITY }
    ensures text { line.new ≡ line.old ++ branch_text name.now rel }
    ensures room { length line.new ≤ length line.old + length name.now + 15 }
{
    match rel {
        Rel::S(short) => {
            line.put(name);
            put_one(line, b".s", Displacement(i32::from(short)));
        }
        Rel::L(long) => put_one(line, name, Displacement(long)),
    }
}

fn put_conditional_branch(line: &mut Line, cond: Cond, rel: Rel)
    requires { length line.old + TEXT_LIMIT ≤ LINE_CAPACITY }
    ensures text { line.new ≡ line.old ++ branch_text (codes "j" ++ condition_text cond) rel }
    ensures room { length line.new ≤ length line.old + TEXT_LIMIT }
{
    line.put(b"j");
    put_branch(line, condition_name(cond), rel);
}

fn put_conditional_set(line: &mut Line, cond: Cond, dst: Rm)
    requires { length line.old + TEXT_LIMIT ≤ LINE_CAPACITY }
    ensures text { line.new ≡ line.old ++ with_one (codes "set" ++ condition_text cond) (operand_text dst) }
    ensures room { length line.new ≤ length line.old + TEXT_LIMIT }
{
    line.put(b"set");
    put_one(line, condition_name(cond), dst);
}

fn put_conditional_move(line: &mut Line, cond: Cond, width: Width, dst: Reg, src: Rm)
    requires { length line.old + TEXT_LIMIT ≤ LINE_CAPACITY }
    ensures text { line.new ≡ line.old ++ with_two (codes "cmov" ++ condition_text cond ++ width_text width) (register_text dst) (operand_text src) }
    ensures room { length line.new ≤ length line.old + TEXT_LIMIT }
{
    line.put(b"cmov");
    put_sized_two(line, condition_name(cond), width, dst, src);
}
