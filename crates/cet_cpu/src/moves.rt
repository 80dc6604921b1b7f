//! Data transfer instructions (SDM volume 1, 5.1.1; SETcc 5.1.6; LEA 5.1.13).
ghost use Rattle.std.specs.Prelude.{◌≡◌, ◌<◌, ◌^◌, ◌-◌, ◌%◌, List, OnErr, if◌then◌else◌};
ghost use Rattle.cet_machine.specs.declared.memory.Region.{Region};
ghost use Rattle.cet_machine.specs.Arithmetic.{bits, top_bit};
ghost use Rattle.cet_machine.specs.Operand.{value, with_value, merged};
ghost use Rattle.cet_machine.specs.MoveInstructions.{mov, mov_load, mov_imm, mov_abs, mov_zx, mov_sx, mov_sxd, lea, cdq, signed_half, cdqe, set_cc, cmov, xchg, cmp_xchg, xadd};
ghost use Rattle.cet_cpu.specs.Answer.{machine, after};

use crate::operand::{address, immediate, load_at, low, put, read, store_at, value_at, write};
use cet_alu::{alu, holds};
use cet_isa::{AluOp, Cond, Fault, Mem, Reg, Regs, Rm, Width};
use cet_mem::Memory;

#[tactic(auto, unfolding(cet_machine::specs::MoveInstructions::mov))]
pub fn mov(mem: &mut Memory, regs: Regs, w: Width, dst: Rm, src: Reg) -> Result<Regs, Fault>
    ensures does { after mem.new result ≡ mov w dst src (machine mem.old regs) }
    ensures unchanged { OnErr result (mem.new ≡ mem.old) }
{
    let v = value_at(w, &regs, src);
    write(mem, regs, w, dst, v)
}

#[tactic(auto, unfolding(cet_machine::specs::MoveInstructions::mov_load))]
pub fn mov_load(mem: &Memory, regs: Regs, w: Width, dst: Reg, src: Rm) -> Result<Regs, Fault>
    ensures { after mem.now result ≡ mov_load w dst src (machine mem.now regs) }
{
    let v = read(w, src, mem, &regs)?;
    Ok(put(regs, w, dst, v))
}

#[tactic(auto, unfolding(cet_machine::specs::MoveInstructions::mov_imm))]
pub fn mov_imm(mem: &mut Memory, regs: Regs, w: Width, dst: Rm, imm: i32) -> Result<Regs, Fault>
    ensures does { after mem.new result ≡ mov_imm w dst imm (machine mem.old regs) }
    ensures unchanged { OnErr result (mem.new ≡ mem.old) }
{
    write(mem, regs, w, dst, immediate(w, i64::from(imm)))
}

// A constant at an operand's width.
fn cut(w: Width, imm: u64) -> u64
    ensures value { result ≡ imm % 2 ^ bits w }
    ensures fits { result < 2 ^ bits w }
{
    match w {
        Width::B1 => imm % (1 << 8),
        Width::B4 => imm % (1 << 32),
        Width::B8 => imm,
    }
}

#[tactic(auto, unfolding(cet_machine::specs::MoveInstructions::mov_abs))]
pub fn mov_abs(regs: Regs, w: Width, dst: Reg, imm: u64) -> Regs
    ensures { (M : List Region) → Ok (machine M result) ≡ mov_abs w dst imm (machine M regs) }
{
    put(regs, w, dst, cut(w, imm))
}

#[tactic(auto, unfolding(cet_machine::specs::MoveInstructions::mov_zx))]
pub fn mov_zx(mem: &Memory, regs: Regs, w: Width, dst: Reg, src: Rm) -> Result<Regs, Fault>
    ensures { after mem.now result ≡ mov_zx w dst src (machine mem.now regs) }
{
    let v = read(Width::B1, src, mem, &regs)?;
    Ok(put_byte(regs, w, dst, v))
}

// A byte in a register of this width.
fn put_byte(regs: Regs, w: Width, dst: Reg, v: u64) -> Regs
    requires { v < 256 }
    ensures { result ≡ with_value regs dst (merged w (value regs dst) v) }
{
    match w {
        Width::B1 => put(regs, Width::B1, dst, v),
        Width::B4 => put(regs, Width::B4, dst, v),
        Width::B8 => put(regs, Width::B8, dst, v),
    }
}

#[tactic(auto, unfolding(cet_machine::specs::MoveInstructions::mov_sx))]
pub fn mov_sx(mem: &Memory, regs: Regs, w: Width, dst: Reg, src: Rm) -> Result<Regs, Fault>
    ensures { after mem.now result ≡ mov_sx w dst src (machine mem.now regs) }
{
    let v = read(Width::B1, src, mem, &regs)?;
    let signed = i64::from((v as u8).cast_signed());
    Ok(put(regs, w, dst, immediate(w, signed)))
}

#[tactic(auto, unfolding(cet_machine::specs::MoveInstructions::mov_sxd))]
pub fn mov_sxd(mem: &Memory, regs: Regs, dst: Reg, src: Rm) -> Result<Regs, Fault>
    ensures { after mem.now result ≡ mov_sxd dst src (machine mem.now regs) }
{
    let v = read(Width::B4, src, mem, &regs)?;
    let signed = i64::from((v as u32).cast_signed());
    Ok(put(regs, Width::B8, dst, immediate(Width::B8, signed)))
}

#[tactic(auto, unfolding(cet_machine::specs::MoveInstructions::lea))]
pub fn lea(regs: Regs, w: Width, dst: Reg, mem: Mem) -> Regs
    ensures { (M : List Region) → Ok (machine M result) ≡ lea w dst mem (machine M regs) }
{
    let a = address(&regs, mem);
    put(regs, w, dst, low(w, a))
}

// All ones for a negative operand, and 0 for any other.
fn sign_word(w: Width, v: u64) -> u64
    ensures value { result ≡ (if top_bit w v then 2 ^ bits w - 1 else 0) }
    ensures fits { result < 2 ^ bits w }
{
    match w {
        Width::B1 => if (v >> 7) & 1 == 1 { 0xff } else { 0 },
        Width::B4 => if (v >> 31) & 1 == 1 { 0xffff_ffff } else { 0 },
        Width::B8 => if (v >> 63) & 1 == 1 {
            0xffff_ffff_ffff_ffff
        } else {
            0
        },
    }
}

#[tactic(auto, unfolding(cet_machine::specs::MoveInstructions::cdq))]
pub fn cdq(regs: Regs, w: Width) -> Regs
    ensures { (M : List Region) → Ok (machine M result) ≡ cdq w (machine M regs) }
{
    let v = value_at(w, &regs, Reg::Rax);
    put(regs, w, Reg::Rdx, sign_word(w, v))
}

// The lower half of an operand, in two's complement.
fn signed_half(w: Width, v: u64) -> i64
    requires { v < 2 ^ bits w }
    ensures { result ≡ signed_half w v }
{
    match w {
        Width::B1 => i64::from((v as u8).cast_signed()),
        Width::B4 => i64::from(((v % (1 << 16)) as u16).cast_signed()),
        Width::B8 => i64::from(((v % (1 << 32)) as u32).cast_signed()),
    }
}

#[tactic(auto, unfolding(cet_machine::specs::MoveInstructions::cdqe))]
pub fn cdqe(regs: Regs, w: Width) -> Regs
    ensures { (M : List Region) → Ok (machine M result) ≡ cdqe w (machine M regs) }
{
    let v = value_at(w, &regs, Reg::Rax);
    put(regs, w, Reg::Rax, immediate(w, signed_half(w, v)))
}

#[tactic(auto, unfolding(cet_machine::specs::MoveInstructions::set_cc))]
pub fn set_cc(mem: &mut Memory, regs: Regs, cond: Cond, dst: Rm) -> Result<Regs, Fault>
    ensures does { after mem.new result ≡ set_cc cond dst (machine mem.old regs) }
    ensures unchanged { OnErr result (mem.new ≡ mem.old) }
{
    let set = u64::from(holds(cond, regs.flags));
    write(mem, regs, Width::B1, dst, set)
}

#[tactic(auto, unfolding(cet_machine::specs::MoveInstructions::cmov))]
pub fn cmov(
    mem: &Memory,
    regs: Regs,
    cond: Cond,
    w: Width,
    dst: Reg,
    src: Rm,
) -> Result<Regs, Fault>
    ensures { after mem.now result ≡ cmov cond w dst src (machine mem.now regs) }
{
    let v = read(w, src, mem, &regs)?;
    let old = value_at(w, &regs, dst);
    Ok(put(regs, w, dst, either(w, holds(cond, regs.flags), v, old)))
}

// One operand or another.
fn either(w: Width, first: bool, x: u64, y: u64) -> u64
    requires left { x < 2 ^ bits w }
    requires right { y < 2 ^ bits w }
    ensures value { result ≡ (if first then x else y) }
    ensures fits { result < 2 ^ bits w }
{
    if first { x } else { y }
}

#[tactic(auto, unfolding(cet_machine::specs::MoveInstructions::xchg))]
pub fn xchg(mem: &mut Memory, regs: Regs, w: Width, dst: Rm, src: Reg) -> Result<Regs, Fault>
    ensures does { after mem.new result ≡ xchg w dst src (machine mem.old regs) }
    ensures unchanged { OnErr result (mem.new ≡ mem.old) }
{
    let old = read(w, dst, mem, &regs)?;
    let new = value_at(w, &regs, src);
    let written = write(mem, regs, w, dst, new)?;
    Ok(put(written, w, src, old))
}

#[tactic(auto, unfolding(cet_machine::specs::MoveInstructions::cmp_xchg))]
pub fn cmp_xchg(mem: &mut Memory, regs: Regs, w: Width, dst: Mem, src: Reg) -> Result<Regs, Fault>
    ensures does { after mem.new result ≡ cmp_xchg w dst src (machine mem.old regs) }
    ensures unchanged { OnErr result (mem.new ≡ mem.old) }
{
    let a = address(&regs, dst);
    let old = load_at(w, a, mem, &regs)?;
    let expected = value_at(w, &regs, Reg::Rax);
    let new = either(w, expected == old, value_at(w, &regs, src), old);
    let (_, flags) = alu(AluOp::Cmp, w, expected, old, regs.flags);
    let written = store_at(mem, regs, w, a, new)?;
    let compared = Regs { flags, ..written };
    if expected == old {
        Ok(compared)
    } else {
        Ok(put(compared, w, Reg::Rax, old))
    }
}

#[tactic(auto, unfolding(cet_machine::specs::MoveInstructions::xadd))]
pub fn xadd(mem: &mut Memory, regs: Regs, w: Width, dst: Mem, src: Reg) -> Result<Regs, Fault>
    ensures does { after mem.new result ≡ xadd w dst src (machine mem.old regs) }
    ensures unchanged { OnErr result (mem.new ≡ mem.old) }
{
    let a = address(&regs, dst);
    let old = load_at(w, a, mem, &regs)?;
    let (sum, flags) = alu(AluOp::Add, w, old, value_at(w, &regs, src), regs.flags);
    let written = store_at(mem, regs, w, a, sum)?;
    Ok(put(Regs { flags, ..written }, w, src, old))
}
