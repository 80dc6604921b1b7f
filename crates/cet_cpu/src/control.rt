//! Branches, CALL and RET (SDM volume 1, 5.1.7 and 6.4; with CET, "Control-flow Enforcement Technology (CET)").
ghost use Rattle.std.specs.Prelude.{◌≡◌, ◌%◌, List, IsTrue, OnErr};
ghost use Rattle.cet_machine.specs.declared.memory.Region.{Region};
ghost use Rattle.cet_machine.specs.Machine.{displaced};
ghost use Rattle.cet_machine.specs.ControlInstructions.{displacement, jmp, jcc, jmp_ind, endbr64, called, call, call_ind, checked, ret};
ghost use Rattle.cet_cpu.specs.Answer.{machine, after};

use crate::operand::{read, value};
use crate::shadow::{fault_of, shadow_pushed};
use crate::stack::{above_top, pushed, top};
use cet_alu::holds;
use cet_isa::{Cond, Fault, Mode, Reg, Regs, Rel, Rm, Width};
use cet_mem::{Kind, Memory};
use cet_shadow::pop;

// By a displacement from the next instruction.
fn branch(regs: Regs, rel: i64) -> Regs
    ensures { result ≡ record regs { rip = displaced regs.rip rel } }
{
    Regs {
        rip: regs.rip.wrapping_add_signed(rel),
        ..regs
    }
}

fn displacement(rel: Rel) -> i64
    ensures { result ≡ displacement rel }
{
    match rel {
        Rel::S(rel) => i64::from(rel),
        Rel::L(rel) => i64::from(rel),
    }
}

#[tactic(auto, unfolding(cet_machine::specs::ControlInstructions::jmp))]
pub fn jmp(regs: Regs, rel: Rel) -> Regs
    ensures { (M : List Region) → Ok (machine M result) ≡ jmp rel (machine M regs) }
{
    branch(regs, displacement(rel))
}

#[tactic(auto, unfolding(cet_machine::specs::ControlInstructions::jcc))]
pub fn jcc(regs: Regs, cond: Cond, rel: Rel) -> Regs
    ensures { (M : List Region) → Ok (machine M result) ≡ jcc cond rel (machine M regs) }
{
    if holds(cond, regs.flags) {
        branch(regs, displacement(rel))
    } else {
        regs
    }
}

#[tactic(auto, unfolding(cet_machine::specs::ControlInstructions::jmp_ind))]
pub fn jmp_ind(
    mem: &Memory,
    regs: Regs,
    target: Rm,
    notrack: bool,
    mode: Mode,
) -> Result<Regs, Fault>
    ensures { after mem.now result ≡ jmp_ind target notrack mode (machine mem.now regs) }
{
    let rip = read(Width::B8, target, mem, &regs)?;
    Ok(Regs {
        rip,
        waiting: mode.ibt && !notrack,
        ..regs
    })
}

#[tactic(auto, unfolding(cet_machine::specs::ControlInstructions::endbr64))]
pub fn endbr64(regs: Regs) -> Regs
    ensures { (M : List Region) → Ok (machine M result) ≡ endbr64 (machine M regs) }
{
    Regs {
        waiting: false,
        ..regs
    }
}

// The next address on both stacks. Both words are looked for before the first is written, so that a fault finds memory as it was.
fn called_on_both(mem: &mut Memory, regs: Regs, mode: Mode) -> Result<Regs, Fault>
    requires shstk { IsTrue mode.shstk }
    requires aligned { regs.ssp % 8 ≡ 0 }
    ensures does { after mem.new result ≡ called mode (machine mem.old regs) }
    ensures unchanged { OnErr result (mem.new ≡ mem.old) }
{
    let data_top = value(&regs, Reg::Rsp).wrapping_sub(8);
    if !mem.is_held(data_top, 8, Kind::Write) {
        return Err(Fault::Page { addr: data_top });
    }
    let shadow_top = regs.ssp.wrapping_sub(8);
    if !mem.is_held(shadow_top, 8, Kind::Shadow) {
        return Err(Fault::Page { addr: shadow_top });
    }
    let on_data = pushed(mem, regs, regs.rip)?;
    match shadow_pushed(mem, on_data, regs.rip) {
        Ok(on_both) => Ok(on_both),
        Err(fault) => Err(fault),
    }
}

// The next address on the data stack, and with SHSTK on the shadow stack.
fn called(mem: &mut Memory, regs: Regs, mode: Mode) -> Result<Regs, Fault>
    requires { regs.ssp % 8 ≡ 0 }
    ensures does { after mem.new result ≡ called mode (machine mem.old regs) }
    ensures unchanged { OnErr result (mem.new ≡ mem.old) }
{
    if mode.shstk {
        called_on_both(mem, regs, mode)
    } else {
        pushed(mem, regs, regs.rip)
    }
}

#[tactic(auto, unfolding(cet_machine::specs::ControlInstructions::call))]
pub fn call(mem: &mut Memory, regs: Regs, rel: i32, mode: Mode) -> Result<Regs, Fault>
    requires { regs.ssp % 8 ≡ 0 }
    ensures does { after mem.new result ≡ call rel mode (machine mem.old regs) }
    ensures unchanged { OnErr result (mem.new ≡ mem.old) }
{
    if rel == 0 {
        let next = pushed(mem, regs, regs.rip)?;
        Ok(branch(next, i64::from(rel)))
    } else {
        let next = called(mem, regs, mode)?;
        Ok(branch(next, i64::from(rel)))
    }
}

#[tactic(auto, unfolding(cet_machine::specs::ControlInstructions::call_ind))]
pub fn call_ind(
    mem: &mut Memory,
    regs: Regs,
    target: Rm,
    notrack: bool,
    mode: Mode,
) -> Result<Regs, Fault>
    requires { regs.ssp % 8 ≡ 0 }
    ensures does { after mem.new result ≡ call_ind target notrack mode (machine mem.old regs) }
    ensures unchanged { OnErr result (mem.new ≡ mem.old) }
{
    let rip = read(Width::B8, target, mem, &regs)?;
    let next = called(mem, regs, mode)?;
    Ok(Regs {
        rip,
        waiting: mode.ibt && !notrack,
        ..next
    })
}

// With SHSTK, the word of the shadow stack has to be the address `a`.
fn checked(mem: &Memory, regs: Regs, mode: Mode, a: u64) -> Result<Regs, Fault>
    requires { regs.ssp % 8 ≡ 0 }
    ensures { after mem.now result ≡ checked mode a (machine mem.now regs) }
{
    if !mode.shstk {
        return Ok(regs);
    }
    let mut ssp = regs.ssp;
    match pop(mem, &mut ssp) {
        Ok(shadow) => {
            if a == shadow {
                Ok(Regs { ssp, ..regs })
            } else {
                Err(Fault::NearRet { popped: a, shadow })
            }
        }
        Err(fault) => Err(fault_of(fault)),
    }
}

#[tactic(auto, unfolding(cet_machine::specs::ControlInstructions::ret))]
pub fn ret(mem: &Memory, regs: Regs, mode: Mode) -> Result<Regs, Fault>
    requires { regs.ssp % 8 ≡ 0 }
    ensures { after mem.now result ≡ ret mode (machine mem.now regs) }
{
    let rip = top(mem, &regs)?;
    let returned = checked(mem, above_top(regs), mode, rip)?;
    Ok(Regs { rip, ..returned })
}
