//! The return from a handler: rt_sigreturn.
ghost use Rattle.std.specs.Prelude.{◌≡◌, ◌%◌, OnErr, IfOk};
ghost use Rattle.cet_machine.specs.Signal.{returned_ssp, sigreturn};
ghost use Rattle.cet_cpu.specs.Answer.{machine};
ghost use Rattle.cet_signal.specs.Aligned.{IsAligned};
ghost use Rattle.cet_signal.specs.Answer.{returned};

use crate::delivery::SSP_MARK;
use crate::frame::{FRAME_MARK, FRAME_SIZE, framed_regs, word_of};
use cet_cpu::value;
use cet_isa::{Fault, Mode, Reg, Regs};
use cet_mem::Memory;

/// Gives a thread the registers of its signal's frame, of which the handler's RET has popped the first word: rt_sigreturn. A page fault where no one
/// region holds the frame or no Shadow region the word at SSP, a general fault where the frame or the word is not marked. A fault leaves the
/// registers as they were.
#[tactic(auto, unfolding(cet_machine::specs::Signal::sigreturn))]
pub fn sigreturn(mem: &Memory, regs: &mut Regs, mode: Mode) -> Result<(), Fault>
    requires { IsAligned regs.old }
    ensures does { returned result regs.new ≡ sigreturn mode (machine mem.now regs.old) }
    ensures unchanged { OnErr result (regs.new ≡ regs.old) }
    ensures aligned { IsAligned regs.new }
{
    let a = value(regs, Reg::Rsp).wrapping_sub(8);
    let Some(bytes) = mem.bytes_at(a, FRAME_SIZE) else {
        return Err(Fault::Page { addr: a });
    };
    if word_of(bytes, 22) != FRAME_MARK {
        return Err(Fault::General);
    }
    match returned_ssp(mem, regs, mode) {
        Ok(ssp) => {
            *regs = framed_regs(mode, ssp, bytes);
            Ok(())
        }
        Err(fault) => Err(fault),
    }
}

/// With SHSTK, the SSP that stands marked on top of the shadow stack.
fn returned_ssp(mem: &Memory, regs: &Regs, mode: Mode) -> Result<u64, Fault>
    requires { IsAligned regs.now }
    ensures value { result ≡ returned_ssp mode (machine mem.now regs.now) }
    ensures aligned { IfOk result (λ ssp. ssp % 8 ≡ 0) }
{
    if !mode.shstk {
        return Ok(regs.ssp);
    }
    let Ok(word) = mem.shadow_load(regs.ssp) else {
        return Err(Fault::Page { addr: regs.ssp });
    };
    if word < SSP_MARK || word % 8 != 0 {
        return Err(Fault::General);
    }
    Ok(word - SSP_MARK)
}
