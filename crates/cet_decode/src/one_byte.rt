//! One-byte opcodes (SDM volume 2, table A-2), by the high four bits.

ghost use Rattle.std.specs.Prelude.{◌≡◌};
ghost use Rattle.cet_isa.specs.declared.instruction.Insn.{Insn};
ghost use Rattle.cet_isa.specs.Decoded.{row_at};
ghost use Rattle.cet_isa.specs.OpcodeMap.{one_byte as one_byte_map};
ghost use Rattle.cet_decode.specs.Gives.{Gives};

use crate::last_quarter::{row_c, row_d, row_e, row_f};
use crate::lower_half::{branch, row_0_to_3, row_5, row_6};
use crate::operand::Rex;
use crate::third_quarter::{constant, row_8, row_9, row_a};
use cet_isa::{DecodeError, Insn};

pub(crate) fn one_byte(rex: Rex, opcode: u8, bytes: &[u8]) -> Result<(Insn, &[u8]), DecodeError>
    ensures { Gives (λ x. (x.0, x.1.now)) result (row_at rex (one_byte_map rex opcode) bytes.now) }
{
    if opcode < 0x40 {
        return row_0_to_3(rex, opcode, bytes);
    }
    if opcode / 16 == 0x5 {
        return row_5(rex, opcode, bytes);
    }
    if opcode / 16 == 0x6 {
        return row_6(rex, opcode, bytes);
    }
    if opcode / 16 == 0x7 {
        return branch(rex, opcode, bytes);
    }
    if opcode / 16 == 0x8 {
        return row_8(rex, opcode, bytes);
    }
    if opcode / 16 == 0x9 {
        return row_9(rex, opcode, bytes);
    }
    if opcode / 16 == 0xA {
        return row_a(rex, opcode, bytes);
    }
    if opcode / 16 == 0xB {
        return constant(rex, opcode, bytes);
    }
    if opcode / 16 == 0xC {
        return row_c(rex, opcode, bytes);
    }
    if opcode / 16 == 0xD {
        return row_d(rex, opcode, bytes);
    }
    if opcode / 16 == 0xE {
        return row_e(rex, opcode, bytes);
    }
    if opcode / 16 == 0xF {
        return row_f(rex, opcode, bytes);
    }
    Err(DecodeError::Outside)
}
