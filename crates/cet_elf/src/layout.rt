//! The sections of a file as they are laid out one after another.

ghost use Rattle.std.specs.Prelude.{◌≡◌, ◌≤◌, ◌<◌, ◌+◌, ◌∷◌, [], ◌++◌, IfOk, OnOk, vec_len, replicate, length};
ghost use Rattle.cet_elf.specs.Written.{section_header, object_header, name_offset};
ghost use Rattle.cet_elf.specs.Layout.{Adds, IsStart, part_with, header_bytes};

use crate::put::{name_place, put, put_name, put_padded, put_u16, put_u32, put_u64};
use cet_base::NoMemory;
use std::alloc::Global;

/// What a section header has beside the places of the name and of the bytes (gABI, "Sections", Elf64_Shdr).
#[derive(Clone, Copy)]
pub struct Fields {
    /// sh_type.
    pub kind: u32,
    pub flags: u64,
    /// sh_addr.
    pub address: u64,
    /// In bytes.
    pub size: u64,
    pub link: u32,
    pub info: u32,
    /// sh_addralign.
    pub align: u64,
    /// In bytes.
    pub entry_size: u64,
}

/// The parts of a file that grow with each section.
#[derive(Drop)]
pub struct Layout {
    /// Room for the ELF header, and the stored bytes of the sections.
    pub bytes: Vec<u8>,
    /// The section headers.
    pub headers: Vec<u8>,
    /// The names of the sections.
    pub names: Vec<u8>,
}

/// The section header of a section whose bytes stand at `place` in the file and whose name stands at `name` in the names of
/// sections.
pub fn put_section_header(
    out: &mut Vec<u8>,
    name: u32,
    place: u64,
    fields: &Fields,
) -> Result<(), NoMemory>
    ensures { OnOk result (out.new.items ≡ out.old.items ++ header_bytes name place fields.now) }
{
    put_u32(out, name)?;
    put_u32(out, fields.kind)?;
    put_u64(out, fields.flags)?;
    put_u64(out, fields.address)?;
    put_u64(out, place)?;
    put_u64(out, fields.size)?;
    put_u32(out, fields.link)?;
    put_u32(out, fields.info)?;
    put_u64(out, fields.align)?;
    put_u64(out, fields.entry_size)?;
    Ok(())
}

impl Layout {
    /// No section yet but the null one.
    pub fn new(alloc: Global) -> Result<Layout, NoMemory>
        ensures { IfOk result (λ new. IsStart new) }
    {
        let mut bytes = Vec::new(alloc);
        put(&mut bytes, &[0; 64])?;
        let mut headers = Vec::new(alloc);
        put(&mut headers, &[0; 64])?;
        let mut names = Vec::new(alloc);
        put(&mut names, b"\0")?;
        Ok(Layout {
            bytes,
            headers,
            names,
        })
    }

    /// Adds a section: its bytes at the next multiple of 8, its header and its name.
    pub fn add(&mut self, name: &[u8], content: &[u8], fields: Fields) -> Result<(), NoMemory>
        ensures { OnOk result (Adds self.old self.new (part_with name.now content.now fields ∷ [])) }
    {
        let name_at = name_place(&self.names, name)?;
        let place = self.bytes.len() as u64;
        put_section_header(&mut self.headers, name_at, place, &fields)?;
        put_padded(&mut self.bytes, content)?;
        put_name(&mut self.names, name)?;
        Ok(())
    }
}
