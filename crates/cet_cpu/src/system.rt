//! SYSCALL: what it does before the kernel takes over (SDM volume 2, "SYSCALL").
ghost use Rattle.std.specs.Prelude.{◌≡◌, List};
ghost use Rattle.cet_machine.specs.declared.memory.Region.{Region};
ghost use Rattle.cet_machine.specs.Arithmetic.{flags_word};
ghost use Rattle.cet_machine.specs.SystemInstructions.{syscall};
ghost use Rattle.cet_cpu.specs.Answer.{machine};

use crate::operand::put;
use cet_isa::{Flags, Reg, Regs, Width};

/// The four flags in EFLAGS, whose bit 1 is always 1 (SDM volume 1, figure 3-8).
pub fn flags_word(flags: Flags) -> u64
    ensures { result ≡ flags_word flags }
{
    u64::from(flags.cf)
        + (1 << 1)
        + u64::from(flags.zf) * (1 << 6)
        + u64::from(flags.sf) * (1 << 7)
        + u64::from(flags.of) * (1 << 11)
}

#[tactic(auto, unfolding(cet_machine::specs::SystemInstructions::syscall))]
pub fn syscall(regs: Regs) -> Regs
    ensures { (M : List Region) → Ok (machine M result) ≡ syscall (machine M regs) }
{
    let (next, flags) = (regs.rip, flags_word(regs.flags));
    put(
        put(regs, Width::B8, Reg::Rcx, next),
        Width::B8,
        Reg::R11,
        flags,
    )
}
