//! One step.
ghost use Rattle.std.specs.Prelude.{◌≡◌, ◌%◌, length, take};
ghost use Rattle.cet_machine.specs.Memory.{fetched};
ghost use Rattle.cet_machine.specs.Step.{step, step_over, is_syscall, executed, executed_if_form};
ghost use Rattle.cet_cpu.specs.Answer.{machine, ended, OnFault, OnSyscall};

use crate::execute::execute;
use cet_decode::{DecodeError, decode};
use cet_isa::{Fault, Insn, Mode, Regs};
use cet_mem::Memory;

/// Where a step ends.
#[derive(Clone, Copy, Debug, PartialEq, Eq)]
pub enum StepEnd {
    /// At the next instruction.
    Next,
    /// In the kernel, by a SYSCALL: rcx and rip have the next address, and r11 the flags.
    Syscall,
    /// In a fault, which changes neither memory nor registers.
    Fault(Fault),
}

/// One instruction of a thread. `mode` says what of CET is on, and `free` has the flags that an instruction leaves undefined. SSP is a
/// multiple of 8 before and after.
#[tactic(auto, unfolding(cet_machine::specs::Step::step))]
pub fn step(mem: &mut Memory, regs: &mut Regs, mode: Mode, free: u8) -> StepEnd
    requires { regs.old.ssp % 8 ≡ 0 }
    ensures does { ended mem.new regs.new result ≡ step mode free (machine mem.old regs.old) }
    ensures fault_keeps_memory { OnFault result (mem.new ≡ mem.old) }
    ensures fault_keeps_registers { OnFault result (regs.new ≡ regs.old) }
    ensures syscall_keeps_memory { OnSyscall result (mem.new ≡ mem.old) }
    ensures aligned { regs.new.ssp % 8 ≡ 0 }
{
    let mut code = [0; 15];
    let count = mem.fetch(regs.rip, &mut code);
    step_over(&code[..count as usize], mem, regs, mode, free)
}

// The step over the code bytes from rip on.
fn step_over(code: &[u8], mem: &mut Memory, regs: &mut Regs, mode: Mode, free: u8) -> StepEnd
    requires { regs.old.ssp % 8 ≡ 0 }
    ensures does { ended mem.new regs.new result ≡ step_over code.now mode free (machine mem.old regs.old) }
    ensures fault_keeps_memory { OnFault result (mem.new ≡ mem.old) }
    ensures fault_keeps_registers { OnFault result (regs.new ≡ regs.old) }
    ensures syscall_keeps_memory { OnSyscall result (mem.new ≡ mem.old) }
    ensures aligned { regs.new.ssp % 8 ≡ 0 }
{
    if code.is_empty() {
        return StepEnd::Fault(Fault::Page { addr: regs.rip });
    }
    if regs.waiting && !matches!(code, [0xf3, 0x0f, 0x1e, 0xfa, ..]) {
        return StepEnd::Fault(Fault::EndBranch);
    }
    match decode(code) {
        Ok((insn, length)) => executed(insn, length, mem, regs, mode, free),
        Err(DecodeError::Short) => StepEnd::Fault(Fault::Page {
            addr: regs.rip.wrapping_add(code.len() as u64),
        }),
        Err(DecodeError::Outside) => StepEnd::Fault(Fault::Undefined),
    }
}

fn is_syscall(insn: Insn) -> bool
    ensures { result ≡ is_syscall insn }
{
    matches!(insn, Insn::Syscall)
}

// The instruction, of `length` bytes.
fn executed(
    insn: Insn,
    length: u8,
    mem: &mut Memory,
    regs: &mut Regs,
    mode: Mode,
    free: u8,
) -> StepEnd
    requires { regs.old.ssp % 8 ≡ 0 }
    ensures does { ended mem.new regs.new result ≡ executed insn length mode free (machine mem.old regs.old) }
    ensures fault_keeps_memory { OnFault result (mem.new ≡ mem.old) }
    ensures fault_keeps_registers { OnFault result (regs.new ≡ regs.old) }
    ensures syscall_keeps_memory { OnSyscall result (mem.new ≡ mem.old) }
    ensures aligned { regs.new.ssp % 8 ≡ 0 }
{
    let at_next = Regs {
        rip: regs.rip.wrapping_add(u64::from(length)),
        ..*regs
    };
    match execute(mem, at_next, insn, mode, free) {
        Ok(new) => {
            *regs = new;
            if is_syscall(insn) {
                StepEnd::Syscall
            } else {
                StepEnd::Next
            }
        }
        Err(fault) => StepEnd::Fault(fault),
    }
}
