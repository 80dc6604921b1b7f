//! Arithmetic, logical, shift and rotate instructions (SDM volume 1, 5.1.2, 5.1.4 and 5.1.5; TEST 5.1.6).
ghost use Rattle.std.specs.Prelude.{◌≡◌, ◌<◌, ◌^◌, ◌%◌, OnErr, MatchOption, if◌then◌else◌, List};
ghost use Rattle.cet_machine.specs.declared.memory.Region.{Region};
ghost use Rattle.cet_machine.specs.Arithmetic.{bits, free_flags};
ghost use Rattle.cet_machine.specs.Products.{div};
ghost use Rattle.cet_machine.specs.Operand.{value, with_value, merged, write};
ghost use Rattle.cet_machine.specs.ArithmeticInstructions.{writes, operated, alu, alu_load, alu_imm, tested, test, test_imm, unary, count_of, shift, imul2, imul3, multiplied, divided, multiplied_or_divided, mul_div};
ghost use Rattle.cet_cpu.specs.Answer.{machine, after};

use crate::operand::{immediate, put, read, value, value_at, write};
use cet_isa::{AluOp, Fault, Flags, MulDivOp, Reg, Regs, Rm, ShiftCount, ShiftOp, UnOp, Width};
use cet_mem::Memory;

// CMP writes no result.
fn writes(op: AluOp) -> bool
    ensures { result ≡ writes op }
{
    !matches!(op, AluOp::Cmp)
}

// A result to where it goes, if it goes anywhere, and the flags.
fn write_if(
    mem: &mut Memory,
    regs: Regs,
    goes: bool,
    w: Width,
    dst: Rm,
    v: u64,
) -> Result<Regs, Fault>
    requires { v < 2 ^ bits w }
    ensures does { after mem.new result ≡ (if goes then write w dst v (machine mem.old regs) else Ok (machine mem.old regs)) }
    ensures unchanged { OnErr result (mem.new ≡ mem.old) }
{
    if goes {
        write(mem, regs, w, dst, v)
    } else {
        Ok(regs)
    }
}

// The operation with `y` as its second operand.
#[tactic(auto, using(cet_machine::proofs::Fits::alu_fits))]
fn operated(
    mem: &mut Memory,
    regs: Regs,
    op: AluOp,
    w: Width,
    dst: Rm,
    y: u64,
) -> Result<Regs, Fault>
    requires { y < 2 ^ bits w }
    ensures does { after mem.new result ≡ operated op w dst y (machine mem.old regs) }
    ensures unchanged { OnErr result (mem.new ≡ mem.old) }
{
    let x = read(w, dst, mem, &regs)?;
    let (v, flags) = cet_alu::alu(op, w, x, y, regs.flags);
    let written = write_if(mem, regs, writes(op), w, dst, v)?;
    Ok(Regs { flags, ..written })
}

#[tactic(auto, unfolding(cet_machine::specs::ArithmeticInstructions::alu))]
pub fn alu(
    mem: &mut Memory,
    regs: Regs,
    op: AluOp,
    w: Width,
    dst: Rm,
    src: Reg,
) -> Result<Regs, Fault>
    ensures does { after mem.new result ≡ alu op w dst src (machine mem.old regs) }
    ensures unchanged { OnErr result (mem.new ≡ mem.old) }
{
    let y = value_at(w, &regs, src);
    operated(mem, regs, op, w, dst, y)
}

#[tactic(auto, unfolding(cet_machine::specs::ArithmeticInstructions::alu_load), using(cet_machine::proofs::Fits::alu_fits))]
pub fn alu_load(
    mem: &Memory,
    regs: Regs,
    op: AluOp,
    w: Width,
    dst: Reg,
    src: Rm,
) -> Result<Regs, Fault>
    ensures { after mem.now result ≡ alu_load op w dst src (machine mem.now regs) }
{
    let y = read(w, src, mem, &regs)?;
    let (v, flags) = cet_alu::alu(op, w, value_at(w, &regs, dst), y, regs.flags);
    if writes(op) {
        Ok(Regs {
            flags,
            ..put(regs, w, dst, v)
        })
    } else {
        Ok(Regs { flags, ..regs })
    }
}

#[tactic(auto, unfolding(cet_machine::specs::ArithmeticInstructions::alu_imm))]
pub fn alu_imm(
    mem: &mut Memory,
    regs: Regs,
    op: AluOp,
    w: Width,
    dst: Rm,
    imm: i32,
) -> Result<Regs, Fault>
    ensures does { after mem.new result ≡ alu_imm op w dst imm (machine mem.old regs) }
    ensures unchanged { OnErr result (mem.new ≡ mem.old) }
{
    operated(mem, regs, op, w, dst, immediate(w, i64::from(imm)))
}

// The flags of AND.
fn tested(mem: &Memory, regs: Regs, w: Width, dst: Rm, y: u64) -> Result<Regs, Fault>
    requires { y < 2 ^ bits w }
    ensures { after mem.now result ≡ tested w dst y (machine mem.now regs) }
{
    let x = read(w, dst, mem, &regs)?;
    let (_, flags) = cet_alu::alu(AluOp::And, w, x, y, regs.flags);
    Ok(Regs { flags, ..regs })
}

#[tactic(auto, unfolding(cet_machine::specs::ArithmeticInstructions::test))]
pub fn test(mem: &Memory, regs: Regs, w: Width, dst: Rm, src: Reg) -> Result<Regs, Fault>
    ensures { after mem.now result ≡ test w dst src (machine mem.now regs) }
{
    let y = value_at(w, &regs, src);
    tested(mem, regs, w, dst, y)
}

#[tactic(auto, unfolding(cet_machine::specs::ArithmeticInstructions::test_imm))]
pub fn test_imm(mem: &Memory, regs: Regs, w: Width, dst: Rm, imm: i32) -> Result<Regs, Fault>
    ensures { after mem.now result ≡ test_imm w dst imm (machine mem.now regs) }
{
    tested(mem, regs, w, dst, immediate(w, i64::from(imm)))
}

#[tactic(auto, unfolding(cet_machine::specs::ArithmeticInstructions::unary), using(cet_machine::proofs::Fits::unary_fits))]
pub fn unary(mem: &mut Memory, regs: Regs, op: UnOp, w: Width, dst: Rm) -> Result<Regs, Fault>
    ensures does { after mem.new result ≡ unary op w dst (machine mem.old regs) }
    ensures unchanged { OnErr result (mem.new ≡ mem.old) }
{
    let x = read(w, dst, mem, &regs)?;
    let (v, flags) = cet_alu::unary(op, w, x, regs.flags);
    let written = write(mem, regs, w, dst, v)?;
    Ok(Regs { flags, ..written })
}

// A constant, or CL.
fn count_of(count: ShiftCount, regs: &Regs) -> u8
    ensures { result ≡ count_of count regs.now }
{
    match count {
        ShiftCount::Imm(n) => n,
        ShiftCount::Cl => (value(regs, Reg::Rcx) % 256) as u8,
    }
}

#[tactic(auto, unfolding(cet_machine::specs::ArithmeticInstructions::shift), using(cet_machine::proofs::Fits::shift_fits))]
pub fn shift(
    mem: &mut Memory,
    regs: Regs,
    op: ShiftOp,
    w: Width,
    dst: Rm,
    count: ShiftCount,
    free: u8,
) -> Result<Regs, Fault>
    ensures does { after mem.new result ≡ shift op w dst count free (machine mem.old regs) }
    ensures unchanged { OnErr result (mem.new ≡ mem.old) }
{
    let x = read(w, dst, mem, &regs)?;
    let by = count_of(count, &regs);
    let (v, flags) = cet_alu::shift(op, w, x, by, regs.flags, free);
    let written = write(mem, regs, w, dst, v)?;
    Ok(Regs { flags, ..written })
}

#[tactic(auto, unfolding(cet_machine::specs::ArithmeticInstructions::imul2), using(cet_machine::proofs::Fits::imul_fits))]
pub fn imul2(mem: &Memory, regs: Regs, w: Width, dst: Reg, src: Rm, free: u8) -> Result<Regs, Fault>
    ensures { after mem.now result ≡ imul2 w dst src free (machine mem.now regs) }
{
    let y = read(w, src, mem, &regs)?;
    let (v, flags) = cet_alu::imul(w, value_at(w, &regs, dst), y, free);
    Ok(Regs {
        flags,
        ..put(regs, w, dst, v)
    })
}

#[tactic(auto, unfolding(cet_machine::specs::ArithmeticInstructions::imul3), using(cet_machine::proofs::Fits::imul_fits))]
pub fn imul3(
    mem: &Memory,
    regs: Regs,
    w: Width,
    dst: Reg,
    src: Rm,
    imm: i32,
    free: u8,
) -> Result<Regs, Fault>
    ensures { after mem.now result ≡ imul3 w dst src imm free (machine mem.now regs) }
{
    let x = read(w, src, mem, &regs)?;
    let (v, flags) = cet_alu::imul(w, x, immediate(w, i64::from(imm)), free);
    Ok(Regs {
        flags,
        ..put(regs, w, dst, v)
    })
}

// The accumulator times `y`: the low half to it, the high half to edx or rdx.
#[tactic(auto, using(cet_machine::proofs::Fits::mul_low_fits, cet_machine::proofs::Fits::mul_high_fits))]
fn multiplied(regs: Regs, signed: bool, w: Width, y: u64, free: u8) -> Regs
    requires { y < 2 ^ bits w }
    ensures { (M : List Region) → Ok (machine M result) ≡ multiplied signed w y free (machine M regs) }
{
    let (low, high, flags) = cet_alu::mul(signed, w, value_at(w, &regs, Reg::Rax), y, free);
    let with_low = put(regs, w, Reg::Rax, low);
    Regs {
        flags,
        ..put(with_low, w, Reg::Rdx, high)
    }
}

// edx:eax or rdx:rax divided by `y`: the quotient to the accumulator, the remainder to edx or rdx.
fn divided(
    mem: &Memory,
    regs: Regs,
    signed: bool,
    w: Width,
    y: u64,
    free: u8,
) -> Result<Regs, Fault>
    requires { y < 2 ^ bits w }
    ensures { after mem.now result ≡ divided signed w y free (machine mem.now regs) }
{
    let high = value_at(w, &regs, Reg::Rdx);
    let low = value_at(w, &regs, Reg::Rax);
    match quotient(signed, w, high, low, y) {
        None => Err(Fault::Divide),
        Some((quotient, remainder)) => {
            let with_quotient = put(regs, w, Reg::Rax, quotient);
            Ok(Regs {
                flags: free_flags(free),
                ..put(with_quotient, w, Reg::Rdx, remainder)
            })
        }
    }
}

// The quotient and the remainder, which fit their registers.
fn quotient(signed: bool, w: Width, high: u64, low: u64, y: u64) -> Option<(u64, u64)>
    requires high { high < 2 ^ bits w }
    requires low { low < 2 ^ bits w }
    requires y { y < 2 ^ bits w }
    ensures value { result ≡ div signed w high low y }
    ensures fits { MatchOption result (Unit {0}) (λ r. (r.0 < 2 ^ bits w) × (r.1 < 2 ^ bits w)) }
{
    cet_alu::div(signed, w, high, low, y)
}

// What the run chooses for flags that are undefined.
fn free_flags(free: u8) -> Flags
    ensures { result ≡ free_flags free }
{
    Flags {
        cf: free & 1 == 1,
        zf: (free >> 1) & 1 == 1,
        sf: (free >> 2) & 1 == 1,
        of: (free >> 3) & 1 == 1,
    }
}

fn multiplied_or_divided(
    mem: &Memory,
    regs: Regs,
    op: MulDivOp,
    w: Width,
    y: u64,
    free: u8,
) -> Result<Regs, Fault>
    requires { y < 2 ^ bits w }
    ensures { after mem.now result ≡ multiplied_or_divided op w y free (machine mem.now regs) }
{
    match op {
        MulDivOp::Mul => Ok(multiplied(regs, false, w, y, free)),
        MulDivOp::IMul1 => Ok(multiplied(regs, true, w, y, free)),
        MulDivOp::Div => divided(mem, regs, false, w, y, free),
        MulDivOp::IDiv => divided(mem, regs, true, w, y, free),
    }
}

#[tactic(auto, unfolding(cet_machine::specs::ArithmeticInstructions::mul_div))]
pub fn mul_div(
    mem: &Memory,
    regs: Regs,
    op: MulDivOp,
    w: Width,
    src: Rm,
    free: u8,
) -> Result<Regs, Fault>
    ensures { after mem.now result ≡ mul_div op w src free (machine mem.now regs) }
{
    let y = read(w, src, mem, &regs)?;
    multiplied_or_divided(mem, regs, op, w, y, free)
}
