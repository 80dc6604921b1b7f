//! Operands: registers at a width, constants, addresses, and memory (SDM volume 1, 3.4.1.1 and 3.7).
ghost use Rattle.std.specs.Prelude.{◌≡◌, ◌<◌, ◌^◌, IfOk, OnErr, OnOk, if◌then◌else◌};
ghost use Rattle.cet_isa.specs.Canonical.{number};
ghost use Rattle.cet_mem.specs.Access.{IsWidth};
ghost use Rattle.cet_machine.specs.Arithmetic.{bits, bytes_of};
ghost use Rattle.cet_machine.specs.Operand.{value, low, value_at, with_value, merged, immediate, part, address, load_at, store_at, read, write};
ghost use Rattle.cet_machine.specs.MemoryLaws.{SameShape};
ghost use Rattle.cet_cpu.specs.Answer.{machine, after};

use cet_isa::{Fault, Mem, Reg, Regs, Rm, Width};
use cet_mem::Memory;

/// The number of a register (SDM volume 2, table 2-2 and 2.2.1.2).
fn number(reg: Reg) -> usize
    ensures number { result ≡ number reg }
    ensures bound { result < 16 }
{
    match reg {
        Reg::Rax => 0,
        Reg::Rcx => 1,
        Reg::Rdx => 2,
        Reg::Rbx => 3,
        Reg::Rsp => 4,
        Reg::Rbp => 5,
        Reg::Rsi => 6,
        Reg::Rdi => 7,
        Reg::R8 => 8,
        Reg::R9 => 9,
        Reg::R10 => 10,
        Reg::R11 => 11,
        Reg::R12 => 12,
        Reg::R13 => 13,
        Reg::R14 => 14,
        Reg::R15 => 15,
    }
}

/// All 64 bits of a register.
pub fn value(regs: &Regs, reg: Reg) -> u64
    ensures { result ≡ value regs.now reg }
{
    regs.r[number(reg)]
}

/// `regs` with `v` in a register.
pub fn with_value(regs: Regs, reg: Reg, v: u64) -> Regs
    ensures { result ≡ with_value regs reg v }
{
    let mut changed = regs;
    changed.r[number(reg)] = v;
    changed
}

/// The bits that an operand of this width has.
pub fn low(w: Width, n: u64) -> u64
    ensures value { result ≡ low w n }
    ensures fits { result < 2 ^ bits w }
{
    match w {
        Width::B1 => n % (1 << 8),
        Width::B4 => n % (1 << 32),
        Width::B8 => n,
    }
}

/// A register's bits of this width.
pub fn value_at(w: Width, regs: &Regs, reg: Reg) -> u64
    ensures value { result ≡ value_at w regs.now reg }
    ensures fits { result < 2 ^ bits w }
{
    low(w, value(regs, reg))
}

/// What a register that holds `old` holds after a result of this width: 32 bits clear its upper half, 8 bits leave its others.
fn merged(w: Width, old: u64, v: u64) -> u64
    requires { v < 2 ^ bits w }
    ensures { result ≡ merged w old v }
{
    match w {
        Width::B1 => old / 256 * 256 + v,
        Width::B4 | Width::B8 => v,
    }
}

/// `regs` with a result of this width in a register.
pub fn put(regs: Regs, w: Width, reg: Reg, v: u64) -> Regs
    requires { v < 2 ^ bits w }
    ensures { result ≡ with_value regs reg (merged w (value regs reg) v) }
{
    let old = value(&regs, reg);
    with_value(regs, reg, merged(w, old, v))
}

/// A constant, sign-extended to 64 bits, at this width.
pub fn immediate(w: Width, imm: i64) -> u64
    ensures value { result ≡ immediate w imm }
    ensures fits { result < 2 ^ bits w }
{
    let word = imm.cast_unsigned();
    match w {
        Width::B1 => word % (1 << 8),
        Width::B4 => word % (1 << 32),
        Width::B8 => word,
    }
}

fn part(regs: &Regs, reg: Option<Reg>) -> u64
    ensures { result ≡ part regs.now reg }
{
    match reg {
        None => 0,
        Some(reg) => value(regs, reg),
    }
}

/// The address of a memory operand, modulo 2^64. `rip` is that of the next instruction.
pub fn address(regs: &Regs, mem: Mem) -> u64
    ensures { result ≡ address regs.now mem }
{
    let displacement = u128::from(i64::from(mem.disp).cast_unsigned());
    let start = if mem.rip {
        u128::from(regs.rip)
    } else {
        u128::from(part(regs, mem.base)) + u128::from(part(regs, mem.index)) * u128::from(mem.scale)
    };
    ((start + displacement) % (1 << 64)) as u64
}

fn bytes_of(w: Width) -> u8
    ensures bytes { result ≡ bytes_of w }
    ensures width { IsWidth result }
    ensures bits { 256 ^ result ≡ 2 ^ bits w }
{
    match w {
        Width::B1 => 1,
        Width::B4 => 4,
        Width::B8 => 8,
    }
}

/// The number of this width at an address. A page fault where no one region holds it.
pub fn load_at(w: Width, a: u64, mem: &Memory, regs: &Regs) -> Result<u64, Fault>
    ensures value { result ≡ load_at w a (machine mem.now regs.now) }
    ensures fits { IfOk result (λ v. v < 2 ^ bits w) }
{
    match mem.load(a, bytes_of(w)) {
        Ok(v) => Ok(v),
        Err(_) => Err(Fault::Page { addr: a }),
    }
}

/// Writes the number of this width at an address. A page fault where no one Write region holds it.
#[tactic(auto, using(crate::proofs::Calls::store_keeps_shape))]
pub fn store_at(mem: &mut Memory, regs: Regs, w: Width, a: u64, v: u64) -> Result<Regs, Fault>
    ensures does { after mem.new result ≡ store_at w a v (machine mem.old regs) }
    ensures unchanged { OnErr result (mem.new ≡ mem.old) }
    ensures shape { OnOk result (SameShape mem.old mem.new) }
{
    match mem.store(a, bytes_of(w), v) {
        Ok(()) => Ok(regs),
        Err(_) => Err(Fault::Page { addr: a }),
    }
}

/// The operand's number. A page fault where memory has none.
pub fn read(w: Width, operand: Rm, mem: &Memory, regs: &Regs) -> Result<u64, Fault>
    ensures value { result ≡ read w operand (machine mem.now regs.now) }
    ensures fits { IfOk result (λ v. v < 2 ^ bits w) }
{
    match operand {
        Rm::Reg(reg) => Ok(value_at(w, regs, reg)),
        Rm::Mem(place) => load_at(w, address(regs, place), mem, regs),
    }
}

/// Writes the operand. A page fault where no Write region holds it, which leaves memory as it was.
pub fn write(mem: &mut Memory, regs: Regs, w: Width, operand: Rm, v: u64) -> Result<Regs, Fault>
    requires { v < 2 ^ bits w }
    ensures does { after mem.new result ≡ write w operand v (machine mem.old regs) }
    ensures unchanged { OnErr result (mem.new ≡ mem.old) }
{
    match operand {
        Rm::Reg(reg) => Ok(put(regs, w, reg, v)),
        Rm::Mem(place) => store_at(mem, regs, w, address(&regs, place), v),
    }
}
