//! The shadow stack instructions (SDM volume 1, 5.23), and what a refusal by the shadow stack comes to for a thread.
ghost use Rattle.std.specs.Prelude.{◌≡◌, ◌%◌, List, OnErr};
ghost use Rattle.cet_machine.specs.declared.memory.Region.{Region};
ghost use Rattle.cet_machine.specs.ShadowEffect.{fault_of, shadow_pushed};
ghost use Rattle.cet_machine.specs.CetInstructions.{rd_ssp, inc_ssp, rstor_ssp, save_prev_ssp};
ghost use Rattle.cet_cpu.specs.Answer.{machine, after};

use crate::operand::{address, put, value};
use cet_isa::{Fault, Flags, Mem, Mode, Reg, Regs, Width};
use cet_mem::Memory;
use cet_shadow::{ShadowFault, incssp, push, rstorssp, saveprevssp};

pub fn fault_of(fault: ShadowFault) -> Fault
    ensures { result ≡ fault_of fault }
{
    match fault {
        ShadowFault::Pf { addr } => Fault::Page { addr },
        ShadowFault::Gp => Fault::General,
        ShadowFault::Cp4 { word } => Fault::Rstor { word },
    }
}

/// Lowers SSP, a multiple of 8, by 8 and writes the word there (SDM volume 1, "Shadow Stacks"). A page fault where no Shadow region holds it,
/// which leaves memory as it was.
pub fn shadow_pushed(mem: &mut Memory, regs: Regs, word: u64) -> Result<Regs, Fault>
    requires { regs.ssp % 8 ≡ 0 }
    ensures does { after mem.new result ≡ shadow_pushed word (machine mem.old regs) }
    ensures unchanged { OnErr result (mem.new ≡ mem.old) }
{
    let mut ssp = regs.ssp;
    match push(mem, &mut ssp, word) {
        Ok(()) => Ok(Regs { ssp, ..regs }),
        Err(fault) => Err(fault_of(fault)),
    }
}

#[tactic(auto, unfolding(cet_machine::specs::CetInstructions::rd_ssp))]
pub fn rd_ssp(regs: Regs, dst: Reg, mode: Mode) -> Regs
    ensures { (M : List Region) → Ok (machine M result) ≡ rd_ssp dst mode (machine M regs) }
{
    if mode.shstk {
        let ssp = regs.ssp;
        put(regs, Width::B8, dst, ssp)
    } else {
        regs
    }
}

#[tactic(auto, unfolding(cet_machine::specs::CetInstructions::inc_ssp))]
pub fn inc_ssp(mem: &Memory, regs: Regs, src: Reg, mode: Mode) -> Result<Regs, Fault>
    requires { regs.ssp % 8 ≡ 0 }
    ensures { after mem.now result ≡ inc_ssp src mode (machine mem.now regs) }
{
    if !mode.shstk {
        return Err(Fault::Undefined);
    }
    let mut ssp = regs.ssp;
    let count = (value(&regs, src) % 256) as u8;
    match incssp(mem, &mut ssp, count) {
        Ok(()) => Ok(Regs { ssp, ..regs }),
        Err(fault) => Err(fault_of(fault)),
    }
}

#[tactic(auto, unfolding(cet_machine::specs::CetInstructions::rstor_ssp))]
pub fn rstor_ssp(mem: &mut Memory, regs: Regs, place: Mem, mode: Mode) -> Result<Regs, Fault>
    requires { regs.ssp % 8 ≡ 0 }
    ensures does { after mem.new result ≡ rstor_ssp place mode (machine mem.old regs) }
    ensures unchanged { OnErr result (mem.new ≡ mem.old) }
{
    if !mode.shstk {
        return Err(Fault::Undefined);
    }
    let mut ssp = regs.ssp;
    match rstorssp(mem, &mut ssp, address(&regs, place)) {
        Ok(cf) => {
            let flags = Flags {
                cf,
                zf: false,
                sf: false,
                of: false,
            };
            Ok(Regs { flags, ssp, ..regs })
        }
        Err(fault) => Err(fault_of(fault)),
    }
}

#[tactic(auto, unfolding(cet_machine::specs::CetInstructions::save_prev_ssp))]
pub fn save_prev_ssp(mem: &mut Memory, regs: Regs, mode: Mode) -> Result<Regs, Fault>
    requires { regs.ssp % 8 ≡ 0 }
    ensures does { after mem.new result ≡ save_prev_ssp mode (machine mem.old regs) }
    ensures unchanged { OnErr result (mem.new ≡ mem.old) }
{
    if !mode.shstk {
        return Err(Fault::Undefined);
    }
    let mut ssp = regs.ssp;
    match saveprevssp(mem, &mut ssp, regs.flags.cf) {
        Ok(()) => Ok(Regs { ssp, ..regs }),
        Err(fault) => Err(fault_of(fault)),
    }
}
