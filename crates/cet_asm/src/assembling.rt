//! Texts to objects.
ghost use Rattle.std.specs.Prelude.{◌≢◌, IfOk, IfErr};
ghost use Rattle.cet_elf.specs.Regular.{IsRegular};
ghost use Rattle.cet_asm.specs.declared.error.AsmKind.TheVariants as fault;
ghost use Rattle.cet_asm.specs.Assembled.{Assembles, HasLine, IsAsmFault};

use crate::assembly::place;
use crate::error::AsmError;
use crate::object::object;
use cet_elf::Object;
use std::alloc::Global;

/// The relocatable object of an assembly text (gABI, "Sections", "Symbol Table", "Relocation"; psABI, "Relocation Types"), or the first
/// thing wrong with the text and its line: the faults of statements in their order, then those that show when the whole text is known.
/// `NoMemory`, with line 0, also where the sections would store more than 1 GiB together.
pub fn assemble(alloc: Global, text: &[u8]) -> Result<Object, AsmError>
    ensures assembled { IfOk result (Assembles text.now) }
    ensures fault { IfErr result (λ e. e.kind ≢ fault.NoMemory → IsAsmFault text.now e) }
    ensures memory { IfErr result HasLine }
    // The object can be written, and is read back as it is.
    ensures regular { IfOk result IsRegular }
{
    match place(alloc, text) {
        Ok(placement) => object(alloc, placement.statements.as_slice(), placement.sizes),
        Err(fault) => Err(fault),
    }
}
