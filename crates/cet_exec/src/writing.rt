//! Writing an executable.

ghost use Rattle.std.specs.Prelude.{◌≡◌, ◌≤◌, ◌<◌, ◌^◌, ◌+◌, ◌*◌, ◌++◌, [], if◌then◌else◌, IfOk, OnOk, length, drop, replicate};
ghost use Rattle.std.specs.List.{flat_map};
ghost use Rattle.cet_elf.specs.Written.{identification};
ghost use Rattle.cet_exec.specs.ExecFile.{IsExecFile};
ghost use Rattle.cet_exec.specs.Programs.{is_load as is_load_in};
ghost use Rattle.cet_exec.specs.Regular.{IsRegularExec};
ghost use Rattle.cet_exec.specs.Written.{written, gap, aligned, program_bytes, note_count, exec_kind, exec_tables, exec_header};

use crate::layout::{Layout, put_at};
use crate::programs::{ProgramHeader, is_load};
use crate::segments::{add_notes, add_segments};
use crate::tables::{add_names, add_symbols};
use cet_base::NoMemory;
use cet_elf::put::{SIZE_LIMIT, put, put_front, put_u16, put_u32, put_u64};
use cet_elf::{Exec, ExecSymbol};
use std::alloc::Global;

// e_ident, e_type, e_machine, e_version, e_entry and e_phoff.
fn put_kind(out: &mut Vec<u8>, entry: u64) -> Result<(), NoMemory>
    ensures { OnOk result (out.new.items ≡ out.old.items ++ (identification ++ exec_kind entry)) }
{
    put(
        out,
        &[0x7f, b'E', b'L', b'F', 2, 1, 1, 0, 0, 0, 0, 0, 0, 0, 0, 0],
    )?;
    put_u16(out, 2)?;
    put_u16(out, 62)?;
    put_u32(out, 1)?;
    put_u64(out, entry)?;
    put_u64(out, 64)?;
    Ok(())
}

// What the ELF header says of its tables: the section headers stand at `place`, and there are so many program and section headers.
fn put_tables(out: &mut Vec<u8>, place: u64, programs: u16, sections: u16) -> Result<(), NoMemory>
    requires { 0 < sections }
    ensures { OnOk result (out.new.items ≡ out.old.items ++ exec_tables place programs sections) }
{
    put_u64(out, place)?;
    put_u32(out, 0)?;
    put_u16(out, 64)?;
    put_u16(out, 56)?;
    put_u16(out, programs)?;
    put_u16(out, 64)?;
    put_u16(out, sections)?;
    put_u16(out, sections - 1)?;
    Ok(())
}

// p_align: a page for a PT_LOAD.
fn alignment(program: ProgramHeader) -> u64
    ensures { result ≡ (if is_load_in program then 4096 else 8) }
{
    if is_load(program) { 4096 } else { 8 }
}

// A program header.
fn put_program(out: &mut Vec<u8>, program: ProgramHeader) -> Result<(), NoMemory>
    ensures { OnOk result (out.new.items ≡ out.old.items ++ program_bytes program) }
{
    put_u32(out, program.kind)?;
    put_u32(out, program.flags)?;
    put_u64(out, program.offset)?;
    put_u64(out, program.start)?;
    put_u64(out, program.start)?;
    put_u64(out, program.stored_size)?;
    put_u64(out, program.size)?;
    put_u64(out, alignment(program))?;
    Ok(())
}

fn put_programs(out: &mut Vec<u8>, programs: &[ProgramHeader]) -> Result<(), NoMemory>
    ensures { OnOk result (out.new.items ≡ out.old.items ++ flat_map program_bytes programs.now) }
{
    for program in programs {
        put_program(out, *program)?;
    }
    Ok(())
}

// The ELF header of a file with these program headers, and these. Besides their sections there are four: the null one, the symbol table, and two
// string tables.
fn front(
    alloc: Global,
    entry: u64,
    place: u64,
    programs: &[ProgramHeader],
) -> Result<Vec<u8>, NoMemory>
    requires { length programs.now ≤ 17 }
    ensures bytes { IfOk result (λ front. front.items ≡ exec_header entry place (length programs.now) (length programs.now + 4) ++ flat_map program_bytes programs.now) }
    ensures len { IfOk result (λ front. length front.items ≡ 64 + 56 * length programs.now) }
{
    let mut out = Vec::new(alloc);
    put_kind(&mut out, entry)?;
    let count = programs.len() as u16;
    put_tables(&mut out, place, count, count + 4)?;
    put_programs(&mut out, programs)?;
    Ok(out)
}

// The file: the headers in the room that stands before the other bytes, those, and the section headers.
fn finish(alloc: Global, layout: Layout, entry: u64) -> Result<Vec<u8>, NoMemory>
    requires few { length layout.programs.items ≤ 17 }
    requires room { 64 + 56 * length layout.programs.items ≤ length layout.bytes.items }
    ensures entry { entry < 2 ^ 64 }
    ensures bytes { IfOk result (λ file. file.items ≡ (exec_header entry (aligned 8 (length layout.bytes.items)) (length layout.programs.items) (length layout.programs.items + 4) ++ flat_map program_bytes layout.programs.items) ++ drop (64 + 56 * length layout.programs.items) (layout.bytes.items ++ (replicate (gap 8 (length layout.bytes.items)) 0 ++ layout.headers.items))) }
{
    let mut bytes = layout.bytes;
    let place = put_at(&mut bytes, 8, &layout.headers)?;
    let front = front(alloc, entry, place, &layout.programs)?;
    put_front(&mut bytes, &front);
    Ok(bytes)
}

// What a symbol takes in the file: its entry and its name.
fn symbol_size(symbol: &ExecSymbol) -> u64 {
    (symbol.name.len() as u64).saturating_add(24)
}

// Whether the bytes, the table and the names of the file pass the limit.
fn passes_limit(exec: &Exec) -> bool {
    let mut size = exec.notes.as_ref().map_or(0, |note| note.len() as u64);
    for segment in exec.segments.as_slice() {
        size = size.saturating_add(segment.bytes.len() as u64);
    }
    for symbol in exec.symbols.as_slice() {
        size = size.saturating_add(symbol_size(symbol));
    }
    size > SIZE_LIMIT as u64
}

// The number of program headers.
fn program_count(exec: &Exec) -> usize
    requires { length exec.now.segments ≤ 16 }
    ensures { result ≡ length exec.now.segments + note_count exec.now }
{
    let notes = if exec.notes.is_some() { 1 } else { 0 };
    exec.segments.len() + notes
}

/// The file of an executable (gABI, "Object Files"): the ELF header, the program headers, the bytes of the segments, each at a multiple of 4,096,
/// and, each at a multiple of 8, the note, where it does not stand first in a segment that is read alone, the symbol table, the names of symbols and
/// of sections, and the section headers.
///
/// Each segment is a PT_LOAD and a section, `.text`, `.rodata` or `.data` where there is at most one of each in this order, and else `.seg0` and so
/// on. The note is a PT_GNU_PROPERTY and the section `.note.gnu.property`. A symbol counts from the section of the first segment that stores a byte
/// at its value, and is absolute where there is none.
///
/// Bytes, tables and names that together pass 1 GiB (1,073,741,824 bytes) are answered as want of memory before that memory is taken. The time
/// grows with the file.
pub fn write_exec(alloc: Global, exec: &Exec) -> Result<Vec<u8>, NoMemory>
    requires { IsRegularExec exec.now }
    ensures bytes { IfOk result (λ bytes. bytes.items ≡ written exec.now) }
    // The bytes are a file of this executable.
    ensures read_back { IfOk result (λ bytes. IsExecFile bytes.items exec.now) }
{
    if passes_limit(exec) {
        return Err(NoMemory);
    }
    let programs = program_count(exec);
    let segments = exec.segments.as_slice();
    let mut layout = Layout::new(alloc, 64 + 56 * programs)?;
    add_segments(&mut layout, segments)?;
    add_notes(&mut layout, segments, &exec.notes)?;
    add_symbols(alloc, &mut layout, programs as u32 + 1, exec)?;
    add_names(&mut layout)?;
    let file = finish(alloc, layout, exec.entry)?;
    Ok(file)
}
