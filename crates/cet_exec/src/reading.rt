//! Reading an executable.

ghost use Rattle.std.specs.Prelude.{◌≡◌, [], ◌++◌, IfOk, IfErr};
ghost use Rattle.cet_elf.specs.Below.{first_below};
ghost use Rattle.cet_elf.specs.Faults.{IsFirst, Reads};
ghost use Rattle.cet_elf.specs.Header.{program_count};
ghost use Rattle.cet_elf.specs.Sections.{HasSections};
ghost use Rattle.cet_elf.specs.ObjectSymbols.{symbol_table};
ghost use Rattle.cet_exec.specs.Programs.{programs_faults, is_note, HasProgramTable};
ghost use Rattle.cet_exec.specs.ExecFile.{exec_faults, exec_of, IsExecFile};

use crate::programs::{check_programs, read_note, read_segments};
use crate::symbols::{check_symbols, find_table, read_symbols};
use cet_base::NoMemory;
use cet_elf::fields::xword;
use cet_elf::header::check_header;
use cet_elf::room::Room;
use cet_elf::sections::check_sections;
use cet_elf::{ElfError, Exec};
use std::alloc::Global;

// The e_type of executables, ET_EXEC.
const EXECUTABLE: u16 = 2;

// The executable of a file that has no fault.
#[tactic(auto, unfolding(crate::specs::ExecFile::exec_of))]
fn read_parts(
    alloc: Global,
    bytes: &[u8],
    note: Option<u32>,
    table: Option<u32>,
) -> Result<Exec, NoMemory>
    requires sections { HasSections bytes.now }
    requires headers { HasProgramTable bytes.now }
    requires programs { programs_faults bytes.now ≡ [] }
    requires note { note ≡ first_below (program_count bytes.now) (is_note bytes.now) }
    requires table { symbol_table bytes.now ≡ table }
    ensures { IfOk result (λ e. e ≡ exec_of bytes.now) }
{
    let mut room = Room::new(alloc);
    Ok(Exec {
        entry: xword(bytes, 24),
        segments: read_segments(&mut room, bytes)?,
        symbols: read_symbols(&mut room, bytes, table)?,
        notes: read_note(&mut room, bytes, note)?,
    })
}

// The executable that the bytes are, or the first fault.
#[tactic(auto, using(cet_elf::proofs::FaultLemmas::checks, crate::proofs::ProgramLemmas::headers), unfolding(crate::specs::ExecFile::exec_faults))]
fn read_whole(alloc: Global, bytes: &[u8]) -> Result<Exec, ElfError>
    ensures { Reads (λ e. e) result (exec_faults bytes.now) (exec_of bytes.now) }
{
    check_header(bytes, EXECUTABLE)?;
    check_sections(bytes)?;
    let note = check_programs(bytes)?;
    let table = find_table(bytes);
    check_symbols(bytes, table)?;
    let exec = read_parts(alloc, bytes, note, table)?;
    Ok(exec)
}

/// Reads a static executable (gABI, "Object Files", "Program Header").
///
/// What is no executable is refused with the first fault and the offset in the file of its field, in the order of
/// `exec_faults`: the header, the places and names of all sections, program headers, names of symbols. `NoMemory` may come at
/// any time, and comes where the names and bytes of the executable would together pass 1 GiB, since a small file can name one
/// part many times.
///
/// The segments are those of the headers of type PT_LOAD that have memory, the note is that of the header of type
/// PT_GNU_PROPERTY, and the symbols are those of the first symbol table that have a name, are defined, and are a function, an
/// object or of no type. The time grows with the file and with what is given.
pub fn read_exec(alloc: Global, bytes: &[u8]) -> Result<Exec, ElfError>
    // The bytes are the executable.
    ensures exec { IfOk result (λ e. IsExecFile bytes.now e) }
    // What is refused is the first fault, unless memory ran out.
    ensures fault { IfErr result (λ e. IsFirst e (exec_faults bytes.now)) }
{
    read_whole(alloc, bytes)
}
