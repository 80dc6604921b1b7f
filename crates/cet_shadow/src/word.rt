//! The words of a shadow stack, as its operations load and store them.
ghost use Rattle.std.specs.Prelude.{◌≡◌, OnErr};
ghost use Rattle.cet_machine.specs.Shadow.{word_at, with_word};
ghost use Rattle.cet_shadow.specs.Answer.{stored};

use cet_machine::ShadowFault;
use cet_mem::Memory;

/// The word at `a`. A page fault where no Shadow region holds it.
pub fn word_at(mem: &Memory, a: u64) -> Result<u64, ShadowFault>
    ensures { result ≡ word_at mem.now a }
{
    match mem.shadow_load(a) {
        Ok(word) => Ok(word),
        Err(_) => Err(ShadowFault::Pf { addr: a }),
    }
}

/// Writes a word at `a`. A page fault where no Shadow region holds it.
pub fn put_word(mem: &mut Memory, a: u64, word: u64) -> Result<(), ShadowFault>
    ensures answer { stored result mem.new ≡ with_word mem.old a word }
    ensures unchanged { OnErr result (mem.new ≡ mem.old) }
{
    match mem.shadow_store(a, word) {
        Ok(()) => Ok(()),
        Err(_) => Err(ShadowFault::Pf { addr: a }),
    }
}
