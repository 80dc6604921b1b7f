//! Push, pop, and INCSSP.
ghost use Rattle.std.specs.Prelude.{◌≡◌, ◌%◌, OnErr};
ghost use Rattle.cet_machine.specs.Shadow.{push, pop, incssp};
ghost use Rattle.cet_shadow.specs.Answer.{stack, taken, moved};

use crate::word::{put_word, word_at};
use cet_machine::ShadowFault;
use cet_mem::Memory;

/// Lowers SSP by 8 and writes the word there. A page fault where no Shadow region holds it.
#[tactic(auto, unfolding(cet_machine::specs::Shadow::push))]
pub fn push(mem: &mut Memory, ssp: &mut u64, word: u64) -> Result<(), ShadowFault>
    requires { ssp.old % 8 ≡ 0 }
    ensures answer { stack result mem.new ssp.new ≡ push mem.old ssp.old word }
    ensures unchanged { OnErr result (mem.new ≡ mem.old) }
    ensures ssp_unchanged { OnErr result (ssp.new ≡ ssp.old) }
    ensures aligned { ssp.new % 8 ≡ 0 }
{
    let top = ssp.wrapping_sub(8);
    put_word(mem, top, word)?;
    *ssp = top;
    Ok(())
}

/// The word at SSP, which rises by 8. A page fault where no Shadow region holds it.
#[tactic(auto, unfolding(cet_machine::specs::Shadow::pop))]
pub fn pop(mem: &Memory, ssp: &mut u64) -> Result<u64, ShadowFault>
    requires { ssp.old % 8 ≡ 0 }
    ensures answer { taken result ssp.new ≡ pop mem.now ssp.old }
    ensures unchanged { OnErr result (ssp.new ≡ ssp.old) }
    ensures aligned { ssp.new % 8 ≡ 0 }
{
    let word = word_at(mem, *ssp)?;
    *ssp = ssp.wrapping_add(8);
    Ok(word)
}

/// Raises SSP above `count` words (SDM volume 2, "INCSSPD/INCSSPQ"). It loads the first and the last of them: a page fault where no Shadow
/// region holds one.
#[tactic(auto, unfolding(cet_machine::specs::Shadow::incssp))]
pub fn incssp(mem: &Memory, ssp: &mut u64, count: u8) -> Result<(), ShadowFault>
    requires { ssp.old % 8 ≡ 0 }
    ensures answer { moved result ssp.new ≡ incssp mem.now ssp.old count }
    ensures unchanged { OnErr result (ssp.new ≡ ssp.old) }
    ensures aligned { ssp.new % 8 ≡ 0 }
{
    if count == 0 {
        return Ok(());
    }
    let _first = word_at(mem, *ssp)?;
    let _last = word_at(mem, ssp.wrapping_add(8 * (u64::from(count) - 1)))?;
    *ssp = ssp.wrapping_add(8 * u64::from(count));
    Ok(())
}
