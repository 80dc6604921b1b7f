//! Operands.
ghost use Rattle.std.specs.Prelude.{◌≡◌, ◌≤◌, length};
ghost use Rattle.std.specs.List.{prefix_len, position_or_len};
ghost use Rattle.std.specs.Option.{option_copied};
ghost use Rattle.cet_syntax.specs.Name.{continues_name as continues};
ghost use Rattle.cet_syntax.specs.Number.{unsigned_number};
ghost use Rattle.cet_syntax.specs.Operand.{is_sign, nonzero as nonzero_number, is_0 as is_0_number, addend_of, address_behind, address_of, displacement_of, rip_displacement_of, index_of, first_term as first_term_of, behind_first_term as behind_first_term_of, indexed as indexed_of, based as based_of, based_or_indexed as based_or_indexed_of, from_register as from_register_of, constant_of, memory_of, bracketed as bracketed_of, operand_of};

use crate::name::{Name, continues_name, register};
use crate::number::{Number, unsigned};
use crate::pieces::{before, behind};
use cet_isa::Reg;

/// A symbol's value with a number added.
#[derive(Drop)]
pub struct Address<'a> {
    pub name: Name<'a>,
    pub addend: Number,
}

/// A number, or an address that the linker puts in.
#[derive(Drop)]
pub enum Constant<'a> {
    Number(Number),
    Address(Address<'a>),
}

/// A memory operand as it is written.
#[derive(Drop)]
pub struct Memory<'a> {
    pub base: Option<Reg>,
    pub index: Option<Reg>,
    pub scale: Number,
    pub disp: Constant<'a>,
    pub rip: bool,
}

/// An operand that a ModRM byte gives: a register or memory.
#[derive(Drop)]
pub enum Place<'a> {
    Reg(Reg),
    Memory(Memory<'a>),
}

/// An operand.
#[derive(Drop)]
pub enum Operand<'a> {
    Place(Place<'a>),
    Constant(Constant<'a>),
    /// A branch's displacement, behind `$`.
    Relative(Number),
    Name(Name<'a>),
}

fn is_0(number: Number) -> bool
    ensures { result ≡ is_0_number number }
{
    number.magnitude == Some(0)
}

// ---- `@NAME`, `@NAME+n`, `@NAME-n`

// What is added to a name.
fn addend(bytes: &[u8]) -> Option<Number>
    ensures { result ≡ addend_of bytes.now }
{
    if bytes.starts_with(b"+") {
        return Number::read(&bytes[1..]);
    }
    if bytes.starts_with(b"-") {
        return Number::read(&bytes[1..]).map(|number| number.negated());
    }
    if bytes.is_empty() {
        return Some(Number::ZERO);
    }
    None
}

// How many bytes of a name stand at the head.
fn name_size(bytes: &[u8]) -> usize
    ensures size { result ≡ prefix_len continues bytes.now }
    ensures within { result ≤ length bytes.now }
{
    for (i, byte) in bytes.iter().enumerate() {
        if !continues_name(*byte) {
            return i;
        }
    }
    bytes.len()
}

// A name, and what is added to it.
fn address_text(bytes: &[u8]) -> Option<Address<'_>>
    ensures { result ≡ address_behind bytes.now }
{
    let size = name_size(bytes);
    let name = Name::read(&bytes[..size])?;
    let addend = addend(&bytes[size..])?;
    Some(Address { name, addend })
}

fn read_address(bytes: &[u8]) -> Option<Address<'_>>
    ensures { result ≡ address_of bytes.now }
{
    if bytes.starts_with(b"@") {
        address_text(&bytes[1..])
    } else {
        None
    }
}

// ---- memory

fn nonzero(bytes: &[u8]) -> Option<Number>
    ensures { result ≡ nonzero_number (unsigned_number bytes.now) }
{
    let number = unsigned(bytes)?;
    if is_0(number) { None } else { Some(number) }
}

// The displacement behind a register.
fn displacement(bytes: &[u8]) -> Option<Constant<'_>>
    ensures { result ≡ displacement_of bytes.now }
{
    if bytes.is_empty() {
        return Some(Constant::Number(Number::ZERO));
    }
    if bytes.starts_with(b"+@") {
        let address = read_address(&bytes[1..])?;
        return Some(Constant::Address(address));
    }
    if bytes.starts_with(b"+") {
        let number = nonzero(&bytes[1..])?;
        return Some(Constant::Number(number));
    }
    if bytes.starts_with(b"-") {
        let number = nonzero(&bytes[1..])?;
        return Some(Constant::Number(number.negated()));
    }
    None
}

// The displacement behind rip.
fn rip_displacement(bytes: &[u8]) -> Option<Constant<'_>>
    ensures { result ≡ rip_displacement_of bytes.now }
{
    if bytes.is_empty() {
        return None;
    }
    if bytes.starts_with(b"+") {
        if let Some(number) = unsigned(&bytes[1..]) {
            return Some(Constant::Number(number));
        }
    }
    displacement(bytes)
}

const STAR: u8 = b'*';

// A register and a scale.
fn index(bytes: &[u8]) -> Option<(Reg, Number)>
    ensures { result ≡ index_of bytes.now }
{
    let scale = behind(STAR, bytes)?;
    let reg = register(before(STAR, bytes))?;
    let scale = unsigned(scale)?;
    Some((reg, scale))
}

// Where the first sign stands, or the end.
fn sign_place(bytes: &[u8]) -> usize
    ensures place { result ≡ position_or_len is_sign bytes.now }
    ensures within { result ≤ length bytes.now }
{
    for (i, byte) in bytes.iter().enumerate() {
        if *byte == b'+' || *byte == b'-' {
            return i;
        }
    }
    bytes.len()
}

// The term at the head.
fn first_term(bytes: &[u8]) -> &[u8]
    ensures { result.now ≡ first_term_of bytes.now }
{
    &bytes[..sign_place(bytes)]
}

fn behind_first_term(bytes: &[u8]) -> &[u8]
    ensures { result.now ≡ behind_first_term_of bytes.now }
{
    &bytes[sign_place(bytes)..]
}

// The terms from an index on.
fn indexed(base: Option<Reg>, bytes: &[u8]) -> Option<Memory<'_>>
    ensures { result ≡ indexed_of base bytes.now }
{
    let (index, scale) = index(first_term(bytes))?;
    let disp = displacement(behind_first_term(bytes))?;
    Some(Memory {
        base,
        index: Some(index),
        scale,
        disp,
        rip: false,
    })
}

// The terms behind a base.
fn based(base: Reg, bytes: &[u8]) -> Option<Memory<'_>>
    ensures { result ≡ based_of base bytes.now }
{
    if bytes.starts_with(b"+") {
        if let Some(memory) = indexed(Some(base), &bytes[1..]) {
            return Some(memory);
        }
    }
    let disp = displacement(bytes)?;
    Some(Memory {
        base: Some(base),
        index: None,
        scale: Number::ONE,
        disp,
        rip: false,
    })
}

fn based_or_indexed<'a>(base: Option<Reg>, bytes: &'a [u8], rest: &'a [u8]) -> Option<Memory<'a>>
    ensures { result ≡ based_or_indexed_of base bytes.now rest.now }
{
    match base {
        Some(base) => based(base, rest),
        None => indexed(None, bytes),
    }
}

fn from_register(bytes: &[u8]) -> Option<Memory<'_>>
    ensures { result ≡ from_register_of bytes.now }
{
    let first = first_term(bytes);
    let rest = behind_first_term(bytes);
    if first == b"rip".as_slice() {
        let disp = rip_displacement(rest)?;
        return Some(Memory {
            base: None,
            index: None,
            scale: Number::ONE,
            disp,
            rip: true,
        });
    }
    based_or_indexed(register(first), bytes, rest)
}

// A constant alone.
fn read_constant(bytes: &[u8]) -> Option<Constant<'_>>
    ensures { result ≡ constant_of bytes.now }
{
    if let Some(number) = Number::read(bytes) {
        return Some(Constant::Number(number));
    }
    let address = read_address(bytes)?;
    Some(Constant::Address(address))
}

// What stands in the brackets.
fn read_memory(bytes: &[u8]) -> Option<Memory<'_>>
    ensures { result ≡ memory_of bytes.now }
{
    if let Some(disp) = read_constant(bytes) {
        return Some(Memory {
            base: None,
            index: None,
            scale: Number::ONE,
            disp,
            rip: false,
        });
    }
    from_register(bytes)
}

// ---- operands

fn bracketed(bytes: &[u8]) -> Option<&[u8]>
    ensures { option_copied result ≡ bracketed_of bytes.now }
{
    if bytes.starts_with(b"[") && bytes.ends_with(b"]") && bytes.len() >= 2 {
        Some(&bytes[1..bytes.len() - 1])
    } else {
        None
    }
}

/// The operand that the bytes are.
pub(crate) fn read_operand(bytes: &[u8]) -> Option<Operand<'_>>
    ensures { result ≡ operand_of bytes.now }
{
    if bytes.starts_with(b"[") {
        let memory = read_memory(bracketed(bytes)?)?;
        return Some(Operand::Place(Place::Memory(memory)));
    }
    if bytes.starts_with(b"$") {
        let number = Number::read(&bytes[1..])?;
        return Some(Operand::Relative(number));
    }
    if let Some(reg) = register(bytes) {
        return Some(Operand::Place(Place::Reg(reg)));
    }
    if let Some(constant) = read_constant(bytes) {
        return Some(Operand::Constant(constant));
    }
    let name = Name::read(bytes)?;
    Some(Operand::Name(name))
}
