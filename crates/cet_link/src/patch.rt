//! The bytes of sections after their relocations (psABI, "Relocation Types").

ghost use Rattle.std.specs.Prelude.{◌≡◌, ◌+◌, ◌-◌, ◌*◌, ◌<◌, ◌≤◌, ℕ, List, All, IsTrue, OnOk, if◌then◌else◌, ◌++◌, length, slice_index, vec_len};
ghost use Rattle.byteorder.specs.Endian.{little_bytes};
ghost use Rattle.cet_elf.specs.ObjectRelocations.{field_size as field_size_of, is_field_inside};
ghost use Rattle.cet_elf.specs.Consistent.{IsConsistentSection};
ghost use Rattle.cet_elf.specs.declared.object.Object.{Object as ObjectOf};
ghost use Rattle.cet_elf.specs.declared.object.Section.{Section as SectionOf};
ghost use Rattle.cet_link.specs.Patched.{is_relative as is_relative_in, sum_of as sum_of_in, sum_fits as sum_fits_in, relocated as relocated_in, residue, covers, patched};
ghost use Rattle.cet_link.specs.Laid.{AreTables};

use crate::values::{Tables, cell};
use byteorder::{ByteOrder, LittleEndian};
use cet_base::NoMemory;
use cet_elf::put::{SIZE_LIMIT, put};
use cet_elf::{Rela, Section};

// R_X86_64_PC32, R_X86_64_PLT32 and R_X86_64_PC64.
fn is_relative(kind: u32) -> bool
    ensures { result ≡ is_relative_in kind }
{
    kind == 2 || kind == 4 || kind == 24
}

// The exact sum of a relocation whose field stands at this offset of a section at `place`.
fn sum_of(kind: u32, symbol: u64, addend: i64, place: u64, offset: u64) -> i128
    ensures { result ≡ sum_of_in kind symbol addend (place + offset) }
{
    let sum = i128::from(symbol) + i128::from(addend);
    if is_relative(kind) {
        sum - (i128::from(place) + i128::from(offset))
    } else {
        sum
    }
}

/// The exact sum of a relocation of the section of this number.
pub(crate) fn relocated(tables: &Tables, input: u32, number: u32, rela: &Rela) -> i128
    ensures { (inputs : List ObjectOf) → (note : List ℕ) → AreTables inputs note tables.now → (section : SectionOf) → result ≡ relocated_in inputs note (record { input = input; number = number; section = section }) rela.now }
{
    let symbol = cell(&tables.values, input, rela.symbol);
    let place = cell(&tables.places, input, number);
    sum_of(rela.kind, symbol, rela.addend, place, rela.offset)
}

/// The sum fits the field of a relocation of this type.
pub(crate) fn sum_fits(kind: u32, sum: i128) -> bool
    ensures { result ≡ sum_fits_in kind sum }
{
    match kind {
        10 => 0 <= sum && sum < 1 << 32,
        2 | 4 | 11 => -(1 << 31) <= sum && sum < 1 << 31,
        _ => true,
    }
}

// How many bytes the field of a relocation of this type has.
fn field_size(kind: u32) -> usize
    ensures { result ≡ field_size_of kind }
{
    match kind {
        0 => 0,
        1 | 24 => 8,
        _ => 4,
    }
}

// The sum modulo 2^64.
fn low_word(sum: i128) -> u64
    ensures { result ≡ residue 64 sum }
{
    (sum.cast_unsigned() % (1 << 64)) as u64
}

// The sum modulo 2^32.
fn low_half(sum: i128) -> u32
    ensures { result ≡ residue 32 sum }
{
    (sum.cast_unsigned() % (1 << 32)) as u32
}

// Writes the field of a relocation of this type.
fn put_field(kind: u32, field: &mut [u8], sum: i128)
    requires { length field.old ≡ field_size_of kind }
    ensures { field.new ≡ little_bytes (field_size_of kind) (residue (8 * field_size_of kind) sum) }
{
    match kind {
        0 => {}
        1 | 24 => LittleEndian::write_u64(field, low_word(sum)),
        _ => LittleEndian::write_u32(field, low_half(sum)),
    }
}

// Writes the field of a relocation over the bytes of its section.
fn patch_field(bytes: &mut [u8], rela: &Rela, sum: i128)
    requires { IsTrue (is_field_inside rela.now.kind rela.now.offset (length bytes.old)) }
    ensures { (at : ℕ) → slice_index bytes.new at ≡ (if covers at rela.now then slice_index (little_bytes (field_size_of rela.now.kind) (residue (8 * field_size_of rela.now.kind) sum)) (at - rela.now.offset) else slice_index bytes.old at) }
{
    if rela.kind == 0 {
        return;
    }
    let start = rela.offset as usize;
    let end = start + field_size(rela.kind);
    put_field(rela.kind, &mut bytes[start..end], sum);
}

// Writes the fields of relocations, one after another, over the bytes of the section of this number.
fn patch(tables: &Tables, input: u32, number: u32, bytes: &mut [u8], relocations: &[Rela])
    requires { All (λ r. IsTrue (is_field_inside r.kind r.offset (length bytes.old))) relocations.now }
    ensures { (inputs : List ObjectOf) → (note : List ℕ) → AreTables inputs note tables.now → (section : SectionOf) → section.relocations ≡ relocations.now → section.bytes ≡ bytes.old → bytes.new ≡ patched inputs note (record { input = input; number = number; section = section }) }
{
    for rela in relocations {
        patch_field(bytes, rela, relocated(tables, input, number, rela));
    }
}

/// Adds the bytes of the section of this number, as its relocations leave them.
pub(crate) fn put_patched(
    out: &mut Vec<u8>,
    tables: &Tables,
    input: u32,
    number: u32,
    section: &Section,
) -> Result<(), NoMemory>
    requires { (symbols : ℕ) × IsConsistentSection symbols section.now }
    ensures bytes { OnOk result ((inputs : List ObjectOf) → (note : List ℕ) → AreTables inputs note tables.now → out.new.items ≡ out.old.items ++ patched inputs note (record { input = input; number = number; section = section.now })) }
    ensures limit { OnOk result (vec_len out.new ≤ SIZE_LIMIT) }
{
    let start = out.len();
    put(out, section.bytes.as_slice())?;
    patch(
        tables,
        input,
        number,
        &mut out[start..],
        section.relocations.as_slice(),
    );
    Ok(())
}
