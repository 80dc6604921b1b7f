//! The shapes of forms: prefix, REX, opcode, ModRM and what follows it (SDM volume 2, 2.1).
ghost use Rattle.std.specs.Prelude.{◌≡◌, ◌+◌, ◌<◌, ◌≤◌, ◌++◌, Some, length};
ghost use Rattle.cet_isa.specs.Canonical.{shortest_rex, form as form_of, plain as plain_of, in_opcode as in_opcode_of, modrm_form as modrm_form_of, with_modrm as with_modrm_of};
ghost use Rattle.cet_isa.specs.PrefixedMap.{prefix_bytes, rex_bytes};
ghost use Rattle.cet_encode.specs.Shape.{prefix_of, opcode_bytes};

use crate::code::Code;
use crate::operand::{RegField, RmField, fields, mode_bits};
use crate::register::{Rex, is_extended, needs_rex, number};
use cet_isa::Reg;

/// A byte before REX, if there is one.
#[derive(Clone, Copy)]
pub(crate) enum Prefix {
    Absent,
    /// F3, a part of the opcode.
    Mandatory,
    /// F0.
    Lock,
    /// 3E.
    Notrack,
}

/// The opcode: a byte alone, behind 0F, or behind 0F 38 (2.1.2).
#[derive(Clone, Copy)]
pub(crate) enum Opcode {
    OneByte(u8),
    TwoByte(u8),
    ThreeByte(u8),
}

fn push_prefix(code: &mut Code, prefix: Prefix)
    requires { length code.old < 15 }
    ensures { code.new ≡ code.old ++ prefix_bytes (prefix_of prefix) }
{
    match prefix {
        Prefix::Absent => {}
        Prefix::Mandatory => code.push(0xF3),
        Prefix::Lock => code.push(0xF0),
        Prefix::Notrack => code.push(0x3E),
    }
}

fn push_rex(code: &mut Code, rex: &Rex)
    requires { length code.old < 15 }
    ensures { code.new ≡ code.old ++ rex_bytes (shortest_rex rex.now) }
{
    if let Some(byte) = rex.shortest() {
        code.push(byte);
    }
}

fn push_opcode(code: &mut Code, opcode: Opcode)
    requires { length code.old + 3 ≤ 15 }
    ensures { code.new ≡ code.old ++ opcode_bytes opcode }
{
    match opcode {
        Opcode::OneByte(byte) => code.push(byte),
        Opcode::TwoByte(byte) => code.append(&[0x0F, byte]),
        Opcode::ThreeByte(byte) => code.append(&[0x0F, 0x38, byte]),
    }
}

/// A whole form: a prefix, REX and the opcode have 5 bytes at most, ModRM and what follows it 10.
pub(crate) fn form(prefix: Prefix, rex: &Rex, opcode: Opcode, operands: &[u8]) -> Code
    requires { length operands.now ≤ 10 }
    ensures { result ≡ form_of (prefix_of prefix) rex.now (opcode_bytes opcode) operands.now }
{
    let mut code = Code::empty();
    push_prefix(&mut code, prefix);
    push_rex(&mut code, rex);
    push_opcode(&mut code, opcode);
    code.append(operands);
    code
}

/// No REX and no ModRM.
pub(crate) fn plain(opcode: Opcode, end: &[u8]) -> Code
    requires { length end.now ≤ 4 }
    ensures { Some result ≡ plain_of (opcode_bytes opcode) (Some end.now) }
{
    let mut code = Code::empty();
    push_opcode(&mut code, opcode);
    code.append(end);
    code
}

/// A register in the low three bits of the opcode, which are 0 in `opcode`.
pub(crate) fn in_opcode(w: bool, opcode: u8, is_byte: bool, register: Reg, end: &[u8]) -> Code
    requires opcode { opcode < 248 }
    requires end { length end.now ≤ 8 }
    ensures { Some result ≡ in_opcode_of w opcode is_byte register (Some end.now) }
{
    let rex = Rex {
        w,
        r: false,
        x: false,
        b: is_extended(number(register)),
        needed: needs_rex(is_byte, register),
    };
    let opcode = Opcode::OneByte(opcode + number(register) % 8);
    form(Prefix::Absent, &rex, opcode, end)
}

/// ModRM with both operands.
pub(crate) fn modrm_form(
    prefix: Prefix,
    w: bool,
    opcode: Opcode,
    reg: RegField,
    rm: RmField,
    end: &[u8],
) -> Code
    requires { length end.now ≤ 4 }
    ensures { result ≡ modrm_form_of (prefix_of prefix) w (opcode_bytes opcode) reg rm end.now }
{
    let rex = Rex {
        w,
        r: is_extended(reg.number),
        x: rm.x,
        b: rm.b,
        needed: reg.needs_rex || rm.needs_rex,
    };
    let mut operands = Code::empty();
    operands.push(fields(mode_bits(rm.mode), reg.number % 8, rm.rm));
    operands.append(rm.behind.as_bytes());
    operands.append(end);
    form(prefix, &rex, opcode, operands.as_bytes())
}

/// ModRM with both operands, if the other one has a form.
pub(crate) fn with_modrm(
    prefix: Prefix,
    w: bool,
    opcode: Opcode,
    reg: RegField,
    rm: Option<RmField>,
    end: &[u8],
) -> Option<Code>
    requires { length end.now ≤ 4 }
    ensures { result ≡ with_modrm_of (prefix_of prefix) w (opcode_bytes opcode) reg rm (Some end.now) }
{
    Some(modrm_form(prefix, w, opcode, reg, rm?, end))
}
