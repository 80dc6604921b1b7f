//! REX, ModRM, SIB and displacement (SDM volume 2, 2.1.3 to 2.1.5 and 2.2.1).

ghost use Rattle.std.specs.Prelude.{◌≡◌, ◌<◌, ◌^◌};
ghost use Rattle.cet_isa.specs.Operand.{rex_w, rex_r, rex_x, rex_b, extended, names_register, displacement_of_mod, modrm_address, sib_address};
ghost use Rattle.cet_isa.specs.Operand.{register as register_of, rm_register as rm_register_of, reg_register as reg_register_of, high_field};
ghost use Rattle.cet_isa.specs.Operand.{has_index as has_index_by, has_base as has_base_by, sib_index as sib_index_by, sib_base as sib_base_by, sib_displacement as sib_displacement_by};
ghost use Rattle.cet_isa.specs.Decoded.{displacement_at, address_at, memory_at, rm_at, memory_operand_at};
ghost use Rattle.cet_decode.specs.Gives.{Gives};

use crate::reader::{byte, signed8, signed32};
use cet_isa::{DecodeError, Mem, Reg, Rm};

/// The REX byte of an instruction, if it has one.
pub(crate) type Rex = Option<u8>;

/// 64-bit operands.
pub(crate) fn has_w(rex: Rex) -> bool
    ensures { result ≡ rex_w rex }
{
    match rex {
        Some(bits) => bits / 8 % 2 == 1,
        None => false,
    }
}

/// The bit above ModRM's reg field.
pub(crate) fn has_r(rex: Rex) -> bool
    ensures { result ≡ rex_r rex }
{
    match rex {
        Some(bits) => bits / 4 % 2 == 1,
        None => false,
    }
}

/// The bit above SIB's index field.
pub(crate) fn has_x(rex: Rex) -> bool
    ensures { result ≡ rex_x rex }
{
    match rex {
        Some(bits) => bits / 2 % 2 == 1,
        None => false,
    }
}

/// The bit above ModRM's rm field, SIB's base field, or the opcode's register.
pub(crate) fn has_b(rex: Rex) -> bool
    ensures { result ≡ rex_b rex }
{
    match rex {
        Some(bits) => bits / 1 % 2 == 1,
        None => false,
    }
}

fn register(number: u8) -> Reg
    ensures { result ≡ register_of number }
{
    match number {
        0 => Reg::Rax,
        1 => Reg::Rcx,
        2 => Reg::Rdx,
        3 => Reg::Rbx,
        4 => Reg::Rsp,
        5 => Reg::Rbp,
        6 => Reg::Rsi,
        7 => Reg::Rdi,
        8 => Reg::R8,
        9 => Reg::R9,
        10 => Reg::R10,
        11 => Reg::R11,
        12 => Reg::R12,
        13 => Reg::R13,
        14 => Reg::R14,
        _ => Reg::R15,
    }
}

/// The register of a field of three bits, below 8, with a bit of REX above it.
pub(crate) fn extended_register(bit: bool, field: u8) -> Reg
    requires { field < 8 }
    ensures { result ≡ register_of (extended bit field) }
{
    if bit {
        register(8 + field)
    } else {
        register(field)
    }
}

/// The register of ModRM's reg field.
pub(crate) fn reg_register(rex: Rex, modrm: u8) -> Reg
    ensures { result ≡ reg_register_of rex modrm }
{
    extended_register(has_r(rex), modrm / 8 % 8)
}

/// The register of ModRM's rm field.
pub(crate) fn rm_register(rex: Rex, modrm: u8) -> Reg
    ensures { result ≡ rm_register_of rex modrm }
{
    extended_register(has_b(rex), modrm % 8)
}

/// Whether a register field is a register of this subset: without REX, the byte registers 4 to 7 are AH to BH.
pub(crate) fn is_register_name(rex: Rex, is_byte: bool, field: u8) -> bool
    ensures { result ≡ names_register rex is_byte field }
{
    match rex {
        Some(_) => true,
        None => field < 4 || !is_byte,
    }
}

fn displacement(mode: u8, bytes: &[u8]) -> Result<(i32, &[u8]), DecodeError>
    ensures { Gives (λ x. (x.0, x.1.now)) result (displacement_at (displacement_of_mod mode) bytes.now) }
{
    if mode == 0 {
        return Ok((0, bytes));
    }
    if mode == 1 {
        let (disp, rest) = signed8(bytes)?;
        return Ok((i32::from(disp), rest));
    }
    signed32(bytes)
}

fn modrm_memory(rex: Rex, modrm: u8, bytes: &[u8]) -> Result<(Mem, &[u8]), DecodeError>
    ensures { Gives (λ x. (x.0, x.1.now)) result (address_at (modrm_address rex modrm) bytes.now) }
{
    if has_x(rex) {
        return Err(DecodeError::Outside);
    }
    if modrm / 64 == 0 && modrm % 8 == 5 {
        if has_b(rex) {
            return Err(DecodeError::Outside);
        }
        let (disp, rest) = signed32(bytes)?;
        return Ok((
            Mem {
                base: None,
                index: None,
                scale: 1,
                disp,
                rip: true,
            },
            rest,
        ));
    }
    let base = rm_register(rex, modrm);
    let (disp, rest) = displacement(modrm / 64, bytes)?;
    Ok((
        Mem {
            base: Some(base),
            index: None,
            scale: 1,
            disp,
            rip: false,
        },
        rest,
    ))
}

/// Whether SIB names an index register: number 4 is none.
fn has_index(rex: Rex, sib: u8) -> bool
    ensures { result ≡ has_index_by rex sib }
{
    has_x(rex) || sib / 8 % 8 != 4
}

/// Whether SIB names a base register: number 5 with mod 0 is none.
fn has_base(modrm: u8, sib: u8) -> bool
    ensures { result ≡ has_base_by modrm sib }
{
    modrm / 64 != 0 || sib % 8 != 5
}

fn sib_index(rex: Rex, sib: u8) -> Option<Reg>
    ensures { result ≡ sib_index_by rex sib }
{
    if has_index(rex, sib) {
        Some(extended_register(has_x(rex), sib / 8 % 8))
    } else {
        None
    }
}

fn sib_base(rex: Rex, modrm: u8, sib: u8) -> Option<Reg>
    ensures { result ≡ sib_base_by rex modrm sib }
{
    if has_base(modrm, sib) {
        Some(extended_register(has_b(rex), sib % 8))
    } else {
        None
    }
}

fn sib_displacement(modrm: u8, sib: u8, bytes: &[u8]) -> Result<(i32, &[u8]), DecodeError>
    ensures { Gives (λ x. (x.0, x.1.now)) result (displacement_at (sib_displacement_by modrm sib) bytes.now) }
{
    if has_base(modrm, sib) {
        displacement(modrm / 64, bytes)
    } else {
        signed32(bytes)
    }
}

fn scale(sib: u8) -> u8
    ensures { result ≡ 2 ^ high_field sib }
{
    match sib / 64 {
        0 => 1,
        1 => 2,
        2 => 4,
        _ => 8,
    }
}

fn sib_memory(rex: Rex, modrm: u8, sib: u8, bytes: &[u8]) -> Result<(Mem, &[u8]), DecodeError>
    ensures { Gives (λ x. (x.0, x.1.now)) result (address_at (sib_address rex modrm sib) bytes.now) }
{
    let index_fits = has_index(rex, sib) || sib / 64 == 0;
    let base_fits = has_base(modrm, sib) || !has_b(rex);
    if !(index_fits && base_fits) {
        return Err(DecodeError::Outside);
    }
    let (disp, rest) = sib_displacement(modrm, sib, bytes)?;
    let mem = Mem {
        base: sib_base(rex, modrm, sib),
        index: sib_index(rex, sib),
        scale: scale(sib),
        disp,
        rip: false,
    };
    Ok((mem, rest))
}

/// A memory operand, whose bytes go on behind its ModRM byte.
pub(crate) fn memory(rex: Rex, modrm: u8, bytes: &[u8]) -> Result<(Mem, &[u8]), DecodeError>
    ensures { Gives (λ x. (x.0, x.1.now)) result (memory_at rex modrm bytes.now) }
{
    if modrm % 8 == 4 {
        let (sib, rest) = byte(bytes)?;
        sib_memory(rex, modrm, sib, rest)
    } else {
        modrm_memory(rex, modrm, bytes)
    }
}

/// An operand that is a register or memory, whose bytes go on behind its ModRM byte.
pub(crate) fn rm(
    rex: Rex,
    is_byte: bool,
    modrm: u8,
    bytes: &[u8],
) -> Result<(Rm, &[u8]), DecodeError>
    ensures { Gives (λ x. (x.0, x.1.now)) result (rm_at rex is_byte modrm bytes.now) }
{
    if modrm / 64 != 3 {
        let (mem, rest) = memory(rex, modrm, bytes)?;
        return Ok((Rm::Mem(mem), rest));
    }
    if has_x(rex) || !is_register_name(rex, is_byte, modrm % 8) {
        return Err(DecodeError::Outside);
    }
    Ok((Rm::Reg(rm_register(rex, modrm)), bytes))
}

/// An operand that is memory alone, whose bytes go on behind its ModRM byte.
pub(crate) fn memory_operand(rex: Rex, modrm: u8, bytes: &[u8]) -> Result<(Mem, &[u8]), DecodeError>
    ensures { Gives (λ x. (x.0, x.1.now)) result (memory_operand_at rex modrm bytes.now) }
{
    if modrm / 64 == 3 {
        return Err(DecodeError::Outside);
    }
    memory(rex, modrm, bytes)
}
