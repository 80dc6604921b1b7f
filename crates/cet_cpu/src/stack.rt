//! PUSH, POP and LEAVE: the data stack, whose top word is at rsp (SDM volume 1, 6.2).
ghost use Rattle.std.specs.Prelude.{◌≡◌, IfOk, OnErr, OnOk};
ghost use Rattle.cet_machine.specs.Machine.{plus};
ghost use Rattle.cet_machine.specs.Operand.{value, with_value, load_at};
ghost use Rattle.cet_machine.specs.StackInstructions.{pushed, push, push_imm, push_mem, pop, leave};
ghost use Rattle.cet_machine.specs.MemoryLaws.{SameShape};
ghost use Rattle.cet_cpu.specs.Answer.{machine, after};

use crate::operand::{address, immediate, load_at, put, store_at, value};
use cet_isa::{Fault, Mem, Reg, Regs, Width};
use cet_mem::Memory;

/// Lowers rsp by 8 and writes the word there.
pub fn pushed(mem: &mut Memory, regs: Regs, word: u64) -> Result<Regs, Fault>
    ensures does { after mem.new result ≡ pushed word (machine mem.old regs) }
    ensures unchanged { OnErr result (mem.new ≡ mem.old) }
    ensures shape { OnOk result (SameShape mem.old mem.new) }
    ensures ssp { IfOk result (λ R. R.ssp ≡ regs.ssp) }
{
    let top = value(&regs, Reg::Rsp).wrapping_sub(8);
    let stored = store_at(mem, regs, Width::B8, top, word)?;
    Ok(put(stored, Width::B8, Reg::Rsp, top))
}

/// The word at rsp.
pub fn top(mem: &Memory, regs: &Regs) -> Result<u64, Fault>
    ensures { result ≡ load_at Width.B8 (value regs.now Reg.Rsp) (machine mem.now regs.now) }
{
    load_at(Width::B8, value(regs, Reg::Rsp), mem, regs)
}

/// `regs` with rsp above that word.
pub fn above_top(regs: Regs) -> Regs
    ensures { result ≡ with_value regs Reg.Rsp (plus (value regs Reg.Rsp) 8) }
{
    let above = value(&regs, Reg::Rsp).wrapping_add(8);
    put(regs, Width::B8, Reg::Rsp, above)
}

#[tactic(auto, unfolding(cet_machine::specs::StackInstructions::push))]
pub fn push(mem: &mut Memory, regs: Regs, src: Reg) -> Result<Regs, Fault>
    ensures does { after mem.new result ≡ push src (machine mem.old regs) }
    ensures unchanged { OnErr result (mem.new ≡ mem.old) }
{
    let word = value(&regs, src);
    pushed(mem, regs, word)
}

#[tactic(auto, unfolding(cet_machine::specs::StackInstructions::push_imm))]
pub fn push_imm(mem: &mut Memory, regs: Regs, imm: i32) -> Result<Regs, Fault>
    ensures does { after mem.new result ≡ push_imm imm (machine mem.old regs) }
    ensures unchanged { OnErr result (mem.new ≡ mem.old) }
{
    pushed(mem, regs, immediate(Width::B8, i64::from(imm)))
}

#[tactic(auto, unfolding(cet_machine::specs::StackInstructions::push_mem))]
pub fn push_mem(mem: &mut Memory, regs: Regs, place: Mem) -> Result<Regs, Fault>
    ensures does { after mem.new result ≡ push_mem place (machine mem.old regs) }
    ensures unchanged { OnErr result (mem.new ≡ mem.old) }
{
    let word = load_at(Width::B8, address(&regs, place), mem, &regs)?;
    pushed(mem, regs, word)
}

#[tactic(auto, unfolding(cet_machine::specs::StackInstructions::pop))]
pub fn pop(mem: &Memory, regs: Regs, dst: Reg) -> Result<Regs, Fault>
    ensures { after mem.now result ≡ pop dst (machine mem.now regs) }
{
    let word = top(mem, &regs)?;
    Ok(put(above_top(regs), Width::B8, dst, word))
}

#[tactic(auto, unfolding(cet_machine::specs::StackInstructions::leave))]
pub fn leave(mem: &Memory, regs: Regs) -> Result<Regs, Fault>
    ensures { after mem.now result ≡ leave (machine mem.now regs) }
{
    let frame = value(&regs, Reg::Rbp);
    pop(mem, put(regs, Width::B8, Reg::Rsp, frame), Reg::Rbp)
}
