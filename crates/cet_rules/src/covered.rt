ghost use Rattle.std.specs.Prelude.{◌≡◌};

use cet_isa::{Insn, Reg, Rel, Rm, Width};

/// The instruction values that images may have so far, each in every form that it has: NOPs of several bytes and PAUSE, and a
/// MOV or a JMP through RAX behind the REX byte 40, are among them. Every other value is refused like bytes that are no instruction.
#[derive(Clone, Copy, Debug, PartialEq, Eq)]
pub enum Covered {
    /// ENDBR64.
    EndBr64,
    /// NOP, in any of its lengths, and PAUSE.
    Nop,
    /// JMP with a displacement of 8 bits.
    Jmp { rel: i8 },
    /// MOV of a constant of 32 bits to EAX.
    MovEax { imm: u64 },
    /// JMP through RAX, tracked.
    JmpRax,
    /// UD2.
    Ud2,
}

impl Covered {
    ghost use Rattle.cet_rules.specs.Covered.{covered_of};

    /// The covered instruction that the value is, or none.
    pub fn of(insn: Insn) -> Option<Covered>
        ensures { result ≡ covered_of insn }
    {
        match insn {
            Insn::EndBr64 => Some(Covered::EndBr64),
            Insn::Nop => Some(Covered::Nop),
            Insn::Jmp { rel: Rel::S(rel) } => Some(Covered::Jmp { rel }),
            Insn::MovAbs {
                width: Width::B4,
                dst: Reg::Rax,
                imm,
            } => Some(Covered::MovEax { imm }),
            Insn::JmpInd {
                target: Rm::Reg(Reg::Rax),
                notrack: false,
            } => Some(Covered::JmpRax),
            Insn::Ud2 => Some(Covered::Ud2),
            _ => None,
        }
    }
}
