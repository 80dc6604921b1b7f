//! Registers: their numbers, and the REX byte (SDM volume 2, 2.2.1).
ghost use Rattle.std.specs.Prelude.{◌≡◌, ◌<◌, ◌≤◌};
ghost use Rattle.cet_isa.specs.Canonical.{number as number_of, needs_rex as needs_rex_by};
ghost use Rattle.cet_isa.specs.Canonical.{is_extended as is_extended_number, bit as bit_of, shortest_rex};

use cet_isa::Reg;
use std::marker::Model;

/// The number of a register (SDM volume 2, table 2-2 and 2.2.1.2).
pub(crate) fn number(register: Reg) -> u8
    ensures number { result ≡ number_of register }
    ensures bound { result < 16 }
{
    match register {
        Reg::Rax => 0,
        Reg::Rcx => 1,
        Reg::Rdx => 2,
        Reg::Rbx => 3,
        Reg::Rsp => 4,
        Reg::Rbp => 5,
        Reg::Rsi => 6,
        Reg::Rdi => 7,
        Reg::R8 => 8,
        Reg::R9 => 9,
        Reg::R10 => 10,
        Reg::R11 => 11,
        Reg::R12 => 12,
        Reg::R13 => 13,
        Reg::R14 => 14,
        Reg::R15 => 15,
    }
}

/// Whether a register's number has the bit that stands in REX.
pub(crate) fn is_extended(number: u8) -> bool
    ensures { result ≡ is_extended_number number }
{
    8 <= number
}

/// Whether a register needs a REX byte: without one the byte registers 4 to 7 are AH to BH.
pub(crate) fn needs_rex(is_byte: bool, register: Reg) -> bool
    ensures { result ≡ needs_rex_by is_byte register }
{
    is_byte && 4 <= number(register)
}

fn bit(is_set: bool, worth: u8) -> u8
    ensures bit { result ≡ bit_of is_set worth }
    ensures bound { result ≤ worth }
{
    if is_set { worth } else { 0 }
}

/// The bits of a REX byte (table 2-4), and whether a byte register needs the byte.
#[derive(Drop)]
pub(crate) struct Rex {
    pub(crate) w: bool,
    pub(crate) r: bool,
    pub(crate) x: bool,
    pub(crate) b: bool,
    pub(crate) needed: bool,
}

impl Model for Rex {
    ghost use Rattle.cet_isa.specs.Canonical.{Rex as Bits};

    ghost Value = { Bits };

    ghost view = { λ rex. record { w = rex.w; r = rex.r; x = rex.x; b = rex.b; needed = rex.needed } };
}

impl Rex {
    /// The REX byte. None where no bit is set and no register needs it.
    pub(crate) fn shortest(&self) -> Option<u8>
        ensures { result ≡ shortest_rex self.now }
    {
        if self.w || self.r || self.x || self.b || self.needed {
            Some(0x40 + bit(self.w, 8) + bit(self.r, 4) + bit(self.x, 2) + bit(self.b, 1))
        } else {
            None
        }
    }
}
