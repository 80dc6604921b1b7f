//! The parts of an executable's file as they grow.

ghost use Rattle.std.specs.Prelude.{◌≡◌, ◌≤◌, ◌<◌, ◌^◌, ℕ, List, [], ◌∷◌, ◌++◌, IfOk, OnOk, length, replicate};
ghost use Rattle.cet_elf.specs.Layout.{part_with};
ghost use Rattle.cet_exec.specs.Written.{gap, aligned, Laid};
ghost use Rattle.cet_exec.specs.Layout.{Adds, AddsPiece, IsStart, end_of};

use crate::programs::ProgramHeader;
use cet_base::NoMemory;
use cet_elf::layout::{Fields, put_section_header};
use cet_elf::put::{name_place, put, put_name};
use std::alloc::Global;

/// The size of a page in bytes: the bytes of each segment stand at a multiple of it.
pub const PAGE: usize = 4096;

/// The parts of a file that grow with each section.
#[derive(Drop)]
pub struct Layout {
    /// The file: room for the ELF header and the program headers, and what stands behind them.
    pub bytes: Vec<u8>,
    pub programs: Vec<ProgramHeader>,
    /// The section headers.
    pub headers: Vec<u8>,
    /// The names of the sections.
    pub names: Vec<u8>,
}

// Zeros.
fn put_zeros(out: &mut Vec<u8>, count: usize) -> Result<(), NoMemory>
    requires { count ≤ 4096 }
    ensures { OnOk result (out.new.items ≡ out.old.items ++ replicate count 0) }
{
    let zeros = [0; PAGE];
    put(out, &zeros[..count])?;
    Ok(())
}

// Zeros up to the next multiple of `align`, and then the piece; where that stands.
pub fn put_at(out: &mut Vec<u8>, align: usize, piece: &[u8]) -> Result<u64, NoMemory>
    requires some { 0 < align }
    requires few { align ≤ 4096 }
    ensures place { IfOk result (λ place. place ≡ aligned align (length out.old.items)) }
    ensures bytes { OnOk result (out.new.items ≡ out.old.items ++ (replicate (gap align (length out.old.items)) 0 ++ piece.now)) }
{
    let gap = (align - out.len() % align) % align;
    put_zeros(out, gap)?;
    let place = out.len() as u64;
    put(out, piece)?;
    Ok(place)
}

impl Layout {
    /// No section yet but the null one. The ELF header and the program headers have `front` bytes.
    pub fn new(alloc: Global, front: usize) -> Result<Layout, NoMemory>
        requires { front ≤ 4096 }
        ensures { IfOk result (λ new. IsStart front new) }
    {
        let mut bytes = Vec::new(alloc);
        put_zeros(&mut bytes, front)?;
        let mut headers = Vec::new(alloc);
        put_zeros(&mut headers, 64)?;
        let mut names = Vec::new(alloc);
        put(&mut names, b"\0")?;
        Ok(Layout {
            bytes,
            programs: Vec::new(alloc),
            headers,
            names,
        })
    }

    /// Adds bytes at the next multiple of `align`, which is 4,096 at most; where they stand.
    pub fn put(&mut self, align: usize, content: &[u8]) -> Result<u64, NoMemory>
        requires some { 0 < align }
        requires few { align ≤ 4096 }
        ensures place { IfOk result (λ place. place ≡ aligned align (end_of self.old)) }
        ensures adds { OnOk result (AddsPiece align self.old self.new content.now) }
    {
        put_at(&mut self.bytes, align, content)
    }

    /// Adds a program header.
    pub fn add_program(&mut self, program: ProgramHeader) -> Result<(), NoMemory>
        ensures adds { OnOk result (Adds self.old self.new [] (program ∷ []) []) }
        ensures fits { (program.start < 2 ^ 64) × (program.size < 2 ^ 64) }
    {
        self.programs.push(program)?;
        Ok(())
    }

    /// Adds the header and the name of a section whose bytes stand at `place`.
    pub fn add(&mut self, name: &[u8], place: u64, fields: Fields) -> Result<(), NoMemory>
        ensures { OnOk result ((content : List ℕ) → Adds self.old self.new [] [] (record { part = part_with name.now content fields; place = place } ∷ [])) }
    {
        let name_at = name_place(&self.names, name)?;
        put_section_header(&mut self.headers, name_at, place, &fields)?;
        put_name(&mut self.names, name)?;
        Ok(())
    }
}
