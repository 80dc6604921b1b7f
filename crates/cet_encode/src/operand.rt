//! Operands: what they take of REX, ModRM and SIB, and the bytes behind ModRM (SDM volume 2, 2.1.3 to 2.1.5).
ghost use Rattle.std.specs.Prelude.{◌≡◌, ◌<◌, ◌≤◌, Some, IfSome, length};
ghost use Rattle.cet_isa.specs.Canonical.{fields as fields_of, digit as digit_field, reg_field as reg_field_of, register_field as register_field_of};
ghost use Rattle.cet_isa.specs.Canonical.{scale_field as scale_field_of, index_of as index_by, rip_relative as rip_relative_by, without_base as without_base_by};
ghost use Rattle.cet_isa.specs.Canonical.{needs_sib as needs_sib_by, base_field as base_field_of, with_base as with_base_by, memory as memory_of, register_or_memory as register_or_memory_of};
ghost use Rattle.cet_encode.specs.Mode.{mode_number};

use crate::code::Code;
use crate::number::{short_signed, signed32};
use crate::register::{is_extended, needs_rex, number};
use cet_isa::{Mem, Reg, Rm};
use std::marker::Model;

/// ModRM's mod field (table 2-2).
#[derive(Clone, Copy)]
pub(crate) enum Mode {
    /// Memory without a displacement.
    Plain,
    /// Memory and a displacement of 8 bits.
    Disp8,
    /// Memory and a displacement of 32 bits.
    Disp32,
    Register,
}

/// The number of ModRM's reg field, of which the field has the low three bits.
#[derive(Drop)]
pub(crate) struct RegField {
    pub(crate) number: u8,
    pub(crate) needs_rex: bool,
}

impl Model for RegField {
    ghost use Rattle.std.specs.Prelude.{◌<◌};
    ghost use Rattle.cet_isa.specs.Canonical.{RegField as Field};

    ghost Value = { Field };

    ghost view = { λ field. record { number = field.number; needs_rex = field.needs_rex } };

    ghost invariant = { λ field. field.number < 16 };
}

/// The other operand of ModRM: what it takes of REX, mod and rm, and the bytes behind ModRM, SIB and a displacement.
#[derive(Drop)]
pub(crate) struct RmField {
    pub(crate) x: bool,
    pub(crate) b: bool,
    pub(crate) needs_rex: bool,
    pub(crate) mode: Mode,
    pub(crate) rm: u8,
    pub(crate) behind: Code,
}

impl Model for RmField {
    ghost use Rattle.std.specs.Prelude.{◌<◌, ◌≤◌, length};
    ghost use Rattle.cet_isa.specs.Canonical.{RmField as Field};
    ghost use Rattle.cet_encode.specs.Mode.{mode_number};

    ghost Value = { Field };

    ghost view = { λ field. record { x = field.x; b = field.b; needs_rex = field.needs_rex; mode = mode_number field.mode; rm = field.rm; behind = field.behind } };

    ghost invariant = { λ field. (field.rm < 8) × (length field.behind ≤ 5) };
}

/// SIB's scale field, and the number of its index.
#[derive(Drop)]
struct Index {
    scale: u8,
    number: u8,
}

impl Model for Index {
    ghost use Rattle.std.specs.Prelude.{◌<◌};
    ghost use Rattle.cet_isa.specs.Canonical.{Index as Field};

    ghost Value = { Field };

    ghost view = { λ index. record { scale = index.scale; number = index.number } };

    ghost invariant = { λ index. (index.scale < 4) × (index.number < 16) };
}

/// The two bits of mod.
pub(crate) fn mode_bits(mode: Mode) -> u8
    ensures number { result ≡ mode_number mode }
    ensures bound { result < 4 }
{
    match mode {
        Mode::Plain => 0,
        Mode::Disp8 => 1,
        Mode::Disp32 => 2,
        Mode::Register => 3,
    }
}

/// ModRM of mod, reg and rm, or SIB of scale, index and base.
pub(crate) fn fields(high: u8, middle: u8, low: u8) -> u8
    requires high { high < 4 }
    requires middle { middle < 8 }
    requires low { low < 8 }
    ensures { result ≡ fields_of high middle low }
{
    high * 64 + middle * 8 + low
}

/// An extension of the opcode, /0 to /7.
pub(crate) fn digit(n: u8) -> RegField
    requires { n < 8 }
    ensures { result ≡ digit_field n }
{
    RegField {
        number: n,
        needs_rex: false,
    }
}

/// A register in ModRM's reg field.
pub(crate) fn reg_field(is_byte: bool, register: Reg) -> RegField
    ensures { result ≡ reg_field_of is_byte register }
{
    RegField {
        number: number(register),
        needs_rex: needs_rex(is_byte, register),
    }
}

/// A register as ModRM's rm.
pub(crate) fn register_field(is_byte: bool, register: Reg) -> RmField
    ensures { result ≡ register_field_of is_byte register }
{
    RmField {
        x: false,
        b: is_extended(number(register)),
        needs_rex: needs_rex(is_byte, register),
        mode: Mode::Register,
        rm: number(register) % 8,
        behind: Code::empty(),
    }
}

fn scale_field(scale: u8) -> Option<u8>
    ensures field { result ≡ scale_field_of scale }
    ensures bound { IfSome result (λ field. field < 4) }
{
    match scale {
        1 => Some(0),
        2 => Some(1),
        4 => Some(2),
        8 => Some(3),
        _ => None,
    }
}

/// Index 4 is none, so rsp is no index; without one the scale is 1.
fn index_of(index: Option<Reg>, scale: u8) -> Option<Index>
    ensures { result ≡ index_by index scale }
{
    let Some(register) = index else {
        if scale != 1 {
            return None;
        }
        return Some(Index {
            scale: 0,
            number: 4,
        });
    };
    if number(register) == 4 {
        return None;
    }
    Some(Index {
        scale: scale_field(scale)?,
        number: number(register),
    })
}

/// Mod 0 with rm 5: rip + disp32 (2.2.1.6), without base and index.
fn rip_relative(mem: Mem) -> Option<RmField>
    ensures { result ≡ rip_relative_by mem.base mem.index mem.scale mem.disp }
{
    if mem.base.is_some() || mem.index.is_some() || mem.scale != 1 {
        return None;
    }
    Some(RmField {
        x: false,
        b: false,
        needs_rex: false,
        mode: Mode::Plain,
        rm: 5,
        behind: Code::of(&signed32(mem.disp)),
    })
}

/// SIB with mod 0 and base 5: no base, and disp32.
fn without_base(index: Index, disp: i32) -> RmField
    ensures { Some result ≡ without_base_by index disp }
{
    let mut behind = Code::empty();
    behind.push(fields(index.scale, index.number % 8, 5));
    behind.append(&signed32(disp));
    RmField {
        x: is_extended(index.number),
        b: false,
        needs_rex: false,
        mode: Mode::Plain,
        rm: 4,
        behind,
    }
}

/// Rm 4 means SIB, so rsp and r12 as a base have one.
fn needs_sib(base: Reg, index: &Index) -> bool
    ensures { result ≡ needs_sib_by base index.now }
{
    index.number != 4 || number(base) % 8 == 4
}

/// A base, an index if there is one, and the bytes of a displacement.
fn base_field(base: Reg, index: Index, mode: Mode, displacement: &[u8]) -> RmField
    requires { length displacement.now ≤ 4 }
    ensures { result ≡ base_field_of base index (mode_number mode) displacement.now }
{
    let has_sib = needs_sib(base, &index);
    let low = number(base) % 8;
    let mut behind = Code::empty();
    if has_sib {
        behind.push(fields(index.scale, index.number % 8, low));
    }
    behind.append(displacement);
    RmField {
        x: has_sib && is_extended(index.number),
        b: is_extended(number(base)),
        needs_rex: false,
        mode,
        rm: if has_sib { 4 } else { low },
        behind,
    }
}

/// The shortest displacement: mod 0 with rm 5 or SIB base 5 is no base, so rbp and r13 always have one.
fn with_base(base: Reg, index: Index, disp: i32) -> RmField
    ensures { Some result ≡ with_base_by base index disp }
{
    if disp == 0 && number(base) % 8 != 5 {
        return base_field(base, index, Mode::Plain, &[]);
    }
    match short_signed(disp) {
        Some(bytes) => base_field(base, index, Mode::Disp8, &bytes),
        None => base_field(base, index, Mode::Disp32, &signed32(disp)),
    }
}

/// A memory operand. None exactly where it has no form.
pub(crate) fn memory(mem: Mem) -> Option<RmField>
    ensures { result ≡ memory_of mem }
{
    if mem.rip {
        return rip_relative(mem);
    }
    let index = index_of(mem.index, mem.scale)?;
    match mem.base {
        Some(base) => Some(with_base(base, index, mem.disp)),
        None => Some(without_base(index, mem.disp)),
    }
}

/// An operand that is a register or memory. None exactly where it has no form.
pub(crate) fn register_or_memory(is_byte: bool, operand: Rm) -> Option<RmField>
    ensures { result ≡ register_or_memory_of is_byte operand }
{
    match operand {
        Rm::Reg(register) => Some(register_field(is_byte, register)),
        Rm::Mem(mem) => memory(mem),
    }
}
