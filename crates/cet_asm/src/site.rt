//! The bytes of a site: those of the parts of its sequence.
ghost use Rattle.std.specs.Prelude.{◌≡◌, ◌+◌, ◌++◌, ◌≤◌, ◌*◌, length, IfOk, OnOk, pos, ◌-ℤ◌};
ghost use Rattle.cet_isa.specs.declared.instruction.Insn.TheVariants as insn;
ghost use Rattle.cet_isa.specs.declared.operand.Rel.TheVariants as rel;
ghost use Rattle.cet_isa.specs.declared.register.Reg.TheVariants.{Rcx};
ghost use Rattle.cet_isa.specs.declared.operand.Width.TheVariants.{B4};
ghost use Rattle.cet_syntax.specs.Instruction.{stand_in};
ghost use Rattle.cet_asm.specs.Emitted.{code_of, zeroed, mark_place as mark_place_of, part_emitted, parts_emitted, site_emitted, resumption_use};
ghost use Rattle.cet_asm.specs.Placing.{IsSite};

use crate::bytes::{append, append_template, code, zero_where};
use crate::part::{Mark, Part};
use crate::parts::{PART_LIMIT, mark_place, part_size, parts};
use crate::placed::{Around, Spot};
use crate::sequence::STAND_IN;
use cet_base::{Bytes, NoMemory};
use cet_encode::{CODE_LIMIT, Code};
use cet_isa::{Cond, Insn, Reg, Rel, Width};
use cet_syntax::Site;
use std::alloc::Global;

/// How far `to` is from `from`, where that has 32 bits with its sign.
pub(crate) fn distance(to: u64, from: u64) -> Result<i32, NoMemory>
    ensures { IfOk result (λ distance. distance ≡ pos to -ℤ pos from) }
{
    i32::try_from(i128::from(to) - i128::from(from)).map_err(|_| NoMemory)
}

// A branch at this place of a site to a mark.
fn branch(parts: &[Part<'_>], place: u64, cond: Cond, mark: Mark) -> Result<Code, NoMemory>
    requires few { length parts.now ≤ PART_LIMIT }
    requires near { place ≤ 1000 }
    ensures { IfOk result (λ code. code ≡ code_of (insn.Jcc cond (rel.L (pos (mark_place_of mark parts.now) -ℤ pos (place + 6))))) }
{
    let rel = Rel::L(distance(mark_place(mark, parts), place + 6)?);
    code(Insn::Jcc { cond, rel })
}

// `movabs.4 rcx, R`: its field waits, where a function stands around.
fn fill_resumption(
    bytes: &mut [u8],
    code: &[u8],
    around: &Option<Around<'_>>,
) -> Result<(), NoMemory>
    requires whole { code.now ≡ code_of (insn.MovAbs B4 Rcx stand_in) }
    requires fits { length bytes.old ≡ length code.now }
    ensures { OnOk result (bytes.new ≡ zeroed (code_of (insn.MovAbs B4 Rcx stand_in)) (resumption_use around.now 0)) }
{
    bytes.copy_from_slice(code);
    zero_where(bytes, around.is_some(), 1, 4)
}

fn append_resumption(out: &mut Bytes, around: &Option<Around<'_>>) -> Result<(), NoMemory>
    ensures { OnOk result (out.new ≡ out.old ++ zeroed (code_of (insn.MovAbs B4 Rcx stand_in)) (resumption_use around.now 0)) }
{
    let code = code(Insn::MovAbs {
        width: Width::B4,
        dst: Reg::Rcx,
        imm: STAND_IN as u64,
    })?;
    let mut buffer = [0; CODE_LIMIT];
    let bytes = &mut buffer[..code.len()];
    fill_resumption(bytes, code.as_bytes(), around)?;
    append(out, bytes)
}

// Adds the part at this place of a site.
fn append_part(
    out: &mut Bytes,
    spot: &Spot<'_>,
    parts: &[Part<'_>],
    place: u64,
    part: &Part<'_>,
) -> Result<(), NoMemory>
    requires few { length parts.now ≤ PART_LIMIT }
    requires near { place ≤ 1000 }
    ensures { OnOk result (out.new ≡ out.old ++ (part_emitted parts.now spot.now place part.now).bytes) }
{
    match part {
        Part::Whole(template) => append_template(out, template),
        Part::Branch(cond, mark) => { append(out, branch(parts, place, *cond, *mark)?.as_bytes()) }
        Part::Resumption => append_resumption(out, &spot.around),
        Part::Here(_) => Ok(()),
    }
}

// Adds the parts of a site.
fn append_parts(out: &mut Bytes, spot: &Spot<'_>, parts: &[Part<'_>]) -> Result<(), NoMemory>
    requires { length parts.now ≤ PART_LIMIT }
    ensures { OnOk result (out.new ≡ out.old ++ (parts_emitted parts.now spot.now 0 parts.now).bytes) }
{
    let mut place = 0;
    for part in parts {
        append_part(out, spot, parts, place, part)?;
        place += part_size(part);
    }
    Ok(())
}

/// Adds the sequence of a site.
pub(crate) fn append_site(
    alloc: Global,
    out: &mut Bytes,
    spot: &Spot<'_>,
    site: &Site<'_>,
) -> Result<(), NoMemory>
    requires { IsSite site.now }
    ensures { OnOk result (out.new ≡ out.old ++ (site_emitted spot.now site.now).bytes) }
{
    let parts = parts(alloc, site)?;
    append_parts(out, spot, &parts)
}
