//! Restore tokens and previous-SSP tokens.
ghost use Rattle.std.specs.Prelude.{◌≡◌, ◌%◌, OnErr};
ghost use Rattle.cet_machine.specs.Shadow.{is_restore_token, rstorssp, saveprevssp, set_token};
ghost use Rattle.cet_shadow.specs.Answer.{stored, stack, restored};

use crate::word::{put_word, word_at};
use cet_machine::ShadowFault;
use cet_mem::Memory;

// Whether the word, which stands at `a`, is a restore token of its place.
fn is_restore_token(a: u64, word: u64) -> bool
    ensures { result ≡ is_restore_token a word }
{
    word % 4 == 1 && (word - word % 2).wrapping_sub(8) / 8 * 8 == a
}

/// Turns to the stack whose restore token stands at `at`: the token becomes a previous-SSP token, and SSP is `at` (SDM volume 2, "RSTORSSP"). It
/// answers bit 2 of the token, for CF. A general fault where `at` is no multiple of 8, a page fault where no Shadow region holds the word,
/// and a control-protection fault where it is no restore token of its place.
#[tactic(auto, unfolding(cet_machine::specs::Shadow::rstorssp))]
pub fn rstorssp(mem: &mut Memory, ssp: &mut u64, at: u64) -> Result<bool, ShadowFault>
    requires { ssp.old % 8 ≡ 0 }
    ensures answer { restored result mem.new ssp.new ≡ rstorssp mem.old ssp.old at }
    ensures unchanged { OnErr result (mem.new ≡ mem.old) }
    ensures ssp_unchanged { OnErr result (ssp.new ≡ ssp.old) }
    ensures aligned { ssp.new % 8 ≡ 0 }
{
    if at % 8 != 0 {
        return Err(ShadowFault::Gp);
    }
    let word = word_at(mem, at)?;
    if !is_restore_token(at, word) {
        return Err(ShadowFault::Cp4 { word });
    }
    put_word(mem, at, *ssp + 3)?;
    *ssp = at;
    Ok((word >> 2) & 1 == 1)
}

/// Pops a previous-SSP token, and writes a restore token on the stack that it names (SDM volume 2, "SAVEPREVSSP"). `cf` is CF before it. A page
/// fault where no Shadow region holds a word, a general fault where CF is set or the popped word is no token of an SSP that is a
/// multiple of 8.
#[tactic(auto, unfolding(cet_machine::specs::Shadow::saveprevssp))]
pub fn saveprevssp(mem: &mut Memory, ssp: &mut u64, cf: bool) -> Result<(), ShadowFault>
    requires { ssp.old % 8 ≡ 0 }
    ensures answer { stack result mem.new ssp.new ≡ saveprevssp mem.old ssp.old cf }
    ensures unchanged { OnErr result (mem.new ≡ mem.old) }
    ensures ssp_unchanged { OnErr result (ssp.new ≡ ssp.old) }
    ensures aligned { ssp.new % 8 ≡ 0 }
{
    let word = word_at(mem, *ssp)?;
    if cf {
        return Err(ShadowFault::Gp);
    }
    if (word >> 1) & 1 == 0 || (word >> 2) & 1 == 1 {
        return Err(ShadowFault::Gp);
    }
    let old = word - word % 4;
    put_word(mem, old.wrapping_sub(8), old + 1)?;
    *ssp = ssp.wrapping_add(8);
    Ok(())
}

/// Writes a restore token in the top word of a stack that ends at `top` (Linux, "CET Shadow Stack": SHADOW_STACK_SET_TOKEN). A page fault
/// where no Shadow region holds it.
#[tactic(auto, unfolding(cet_machine::specs::Shadow::set_token))]
pub fn set_token(mem: &mut Memory, top: u64) -> Result<(), ShadowFault>
    requires { top % 8 ≡ 0 }
    ensures answer { stored result mem.new ≡ set_token mem.old top }
    ensures unchanged { OnErr result (mem.new ≡ mem.old) }
{
    put_word(mem, top.wrapping_sub(8), top + 1)
}
