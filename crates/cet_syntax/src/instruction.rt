//! Instruction statements: a word and the operands that it takes.
ghost use Rattle.std.specs.Prelude.{◌≡◌, ℕ, ℤ, Some, None};
ghost use Rattle.cet_isa.specs.declared.instruction.Insn.TheVariants as insn;
ghost use Rattle.cet_isa.specs.declared.operand.Rel.TheVariants as rel;
ghost use Rattle.cet_syntax.specs.Instruction.{bare as bare_of, of_place, of_register, of_memory, of_place_register, of_register_place, of_register_memory, of_memory_register, of_register_constant, of_place_source, into_place, shift_place as shift_place_of, shifts as shifts_of, products as products_of, pushes as pushes_of, branches as branches_of, long_branches as long_branches_of, short_branches as short_branches_of, short_branch as short_branch_of, instruction as instruction_of};
ghost use Rattle.cet_syntax.specs.Loading.{loading as loading_of, from_register as from_register_of, from_constant as from_constant_of, on_place as on_place_of, exchanging as exchanging_of, on_register as on_register_of};

use crate::error::SyntaxError;
use crate::fields::{STAND_IN, branch_to, count, memory, place, signed, template, unsigned};
use crate::operand::{Operand, Place};
use crate::operands::Operands;
use crate::template::Code;
use crate::word::{Word, is};
use cet_isa::{Cond, Insn, Mem, Reg, Rel, Rm, ShiftCount, ShiftOp, Width};

type Read<'a> = Result<Code<'a>, SyntaxError>;

// An instruction without operands.
fn bare(insn: Insn, operands: Operands<'_>) -> Read<'_>
    ensures { result ≡ bare_of insn operands.entry }
{
    match operands {
        Operands::Zero => template(insn, None, None),
        _ => Err(SyntaxError::Operand),
    }
}

// The instruction of a word that loads a register from a place.
fn loading(word: Word, dst: Reg, src: Rm) -> Insn
    ensures { result ≡ loading_of word dst src }
{
    match word {
        Word::Load(width) => Insn::MovLoad { width, dst, src },
        Word::MovZx(width) => Insn::MovZx { width, dst, src },
        Word::MovSx(width) => Insn::MovSx { width, dst, src },
        Word::AluLoad(op, width) => Insn::AluLoad {
            op,
            width,
            dst,
            src,
        },
        Word::CMov(cond, width) => Insn::CMov {
            cond,
            width,
            dst,
            src,
        },
        _ => Insn::MovSxd { dst, src },
    }
}

// `r, D`.
fn loads<'a>(word: Word, operands: Operands<'a>) -> Read<'a>
    ensures { result ≡ of_register_place (loading_of word) operands.entry }
{
    match operands {
        Operands::Two(Operand::Place(Place::Reg(dst)), Operand::Place(operand)) => {
            let (src, at) = place(operand)?;
            template(loading(word, dst, src), at, None)
        }
        _ => Err(SyntaxError::Operand),
    }
}

// The instruction of a word that stores a register.
fn from_register(word: Word, dst: Rm, src: Reg) -> Insn
    ensures { result ≡ from_register_of word dst src }
{
    match word {
        Word::Alu(op, width) => Insn::Alu {
            op,
            width,
            dst,
            src,
        },
        Word::Test(width) => Insn::Test { width, dst, src },
        Word::Mov(width) => Insn::Mov { width, dst, src },
        _ => Insn::Nop,
    }
}

// The instruction of a word that stores a constant.
fn from_constant(word: Word, dst: Rm, imm: i32) -> Insn
    ensures { result ≡ from_constant_of word dst imm }
{
    match word {
        Word::Alu(op, width) => Insn::AluImm {
            op,
            width,
            dst,
            imm,
        },
        Word::Test(width) => Insn::TestImm { width, dst, imm },
        Word::Mov(width) => Insn::MovImm { width, dst, imm },
        _ => Insn::Nop,
    }
}

// A register or a constant into a place.
fn store<'a>(word: Word, target: Place<'a>, source: Operand<'a>) -> Read<'a>
    ensures { result ≡ into_place (from_register_of word) (from_constant_of word) target.entry source.entry }
{
    match source {
        Operand::Place(Place::Reg(src)) => {
            let (dst, at) = place(target)?;
            template(from_register(word, dst, src), at, None)
        }
        Operand::Constant(constant) => {
            let (dst, at) = place(target)?;
            let (imm, reference) = signed(constant)?;
            template(from_constant(word, dst, imm), at, reference)
        }
        _ => Err(SyntaxError::Operand),
    }
}

// `D, r` or `D, n`.
fn stores<'a>(word: Word, operands: Operands<'a>) -> Read<'a>
    ensures { result ≡ of_place_source (from_register_of word) (from_constant_of word) operands.entry }
{
    match operands {
        Operands::Two(target, source) => match target {
            Operand::Place(target) => store(word, target, source),
            _ => Err(SyntaxError::Operand),
        },
        _ => Err(SyntaxError::Operand),
    }
}

// `D, r`.
fn swaps<'a>(width: Width, operands: Operands<'a>) -> Read<'a>
    ensures { result ≡ of_place_register (insn.Xchg width) operands.entry }
{
    match operands {
        Operands::Two(target, source) => match target {
            Operand::Place(target) => match source {
                Operand::Place(Place::Reg(src)) => {
                    let (dst, at) = place(target)?;
                    template(Insn::Xchg { width, dst, src }, at, None)
                }
                _ => Err(SyntaxError::Operand),
            },
            _ => Err(SyntaxError::Operand),
        },
        _ => Err(SyntaxError::Operand),
    }
}

// The instruction of a word that changes a place.
fn on_place(word: Word, dst: Rm) -> Insn
    ensures { result ≡ on_place_of word dst }
{
    match word {
        Word::Unary(op, width) => Insn::Unary { op, width, dst },
        Word::MulDiv(op, width) => Insn::MulDiv {
            op,
            width,
            src: dst,
        },
        Word::SetCc(cond) => Insn::SetCc { cond, dst },
        _ => Insn::Nop,
    }
}

// `D`.
fn changes<'a>(word: Word, operands: Operands<'a>) -> Read<'a>
    ensures { result ≡ of_place (on_place_of word) operands.entry }
{
    match operands {
        Operands::One(Operand::Place(operand)) => {
            let (dst, at) = place(operand)?;
            template(on_place(word, dst), at, None)
        }
        _ => Err(SyntaxError::Operand),
    }
}

// The instruction of a word that exchanges memory and a register.
fn exchanging(word: Word, dst: Mem, src: Reg) -> Insn
    ensures { result ≡ exchanging_of word dst src }
{
    match word {
        Word::CmpXchg { width, lock } => Insn::CmpXchg {
            width,
            dst,
            src,
            lock,
        },
        Word::XAdd { width, lock } => Insn::XAdd {
            width,
            dst,
            src,
            lock,
        },
        _ => Insn::WrSs { mem: dst, src },
    }
}

// `M, r`.
fn exchanges<'a>(word: Word, operands: Operands<'a>) -> Read<'a>
    ensures { result ≡ of_memory_register (exchanging_of word) operands.entry }
{
    match operands {
        Operands::Two(target, source) => match target {
            Operand::Place(Place::Memory(target)) => match source {
                Operand::Place(Place::Reg(src)) => {
                    let (dst, at) = memory(target)?;
                    template(exchanging(word, dst, src), at, None)
                }
                _ => Err(SyntaxError::Operand),
            },
            _ => Err(SyntaxError::Operand),
        },
        _ => Err(SyntaxError::Operand),
    }
}

// The instruction of a word on a register alone.
fn on_register(word: Word, reg: Reg) -> Insn
    ensures { result ≡ on_register_of word reg }
{
    match word {
        Word::RdSsp => Insn::RdSsp { dst: reg },
        Word::IncSsp => Insn::IncSsp { src: reg },
        _ => Insn::Pop { dst: reg },
    }
}

// `r`.
fn of_one_register<'a>(word: Word, operands: Operands<'a>) -> Read<'a>
    ensures { result ≡ of_register (on_register_of word) operands.entry }
{
    match operands {
        Operands::One(Operand::Place(Place::Reg(reg))) => {
            template(on_register(word, reg), None, None)
        }
        _ => Err(SyntaxError::Operand),
    }
}

// `M`, of RSTORSSP.
fn restores(operands: Operands<'_>) -> Read<'_>
    ensures { result ≡ of_memory insn.RstorSsp operands.entry }
{
    match operands {
        Operands::One(Operand::Place(Place::Memory(operand))) => {
            let (mem, at) = memory(operand)?;
            template(Insn::RstorSsp { mem }, at, None)
        }
        _ => Err(SyntaxError::Operand),
    }
}

// `r, M`, of LEA.
fn addresses(width: Width, operands: Operands<'_>) -> Read<'_>
    ensures { result ≡ of_register_memory (insn.Lea width) operands.entry }
{
    match operands {
        Operands::Two(Operand::Place(Place::Reg(dst)), Operand::Place(Place::Memory(operand))) => {
            let (mem, at) = memory(operand)?;
            template(Insn::Lea { width, dst, mem }, at, None)
        }
        _ => Err(SyntaxError::Operand),
    }
}

// `r, n`, of the long MOV.
fn sets(width: Width, operands: Operands<'_>) -> Read<'_>
    ensures { result ≡ of_register_constant (insn.MovAbs width) operands.entry }
{
    match operands {
        Operands::Two(Operand::Place(Place::Reg(dst)), Operand::Constant(constant)) => {
            let (imm, reference) = unsigned(constant)?;
            template(Insn::MovAbs { width, dst, imm }, None, reference)
        }
        _ => Err(SyntaxError::Operand),
    }
}

fn shift_place<'a>(op: ShiftOp, width: Width, target: Place<'a>, amount: Operand<'a>) -> Read<'a>
    ensures { result ≡ shift_place_of op width target.entry amount.entry }
{
    match amount {
        Operand::Constant(constant) => {
            let (dst, at) = place(target)?;
            let count = count(constant)?;
            template(
                Insn::Shift {
                    op,
                    width,
                    dst,
                    count,
                },
                at,
                None,
            )
        }
        Operand::Name(name) => {
            if !is(name.as_bytes(), b"cl") {
                return Err(SyntaxError::Operand);
            }
            let (dst, at) = place(target)?;
            let count = ShiftCount::Cl;
            template(
                Insn::Shift {
                    op,
                    width,
                    dst,
                    count,
                },
                at,
                None,
            )
        }
        _ => Err(SyntaxError::Operand),
    }
}

// `D, n` or `D, cl`.
fn shifts(op: ShiftOp, width: Width, operands: Operands<'_>) -> Read<'_>
    ensures { result ≡ shifts_of op width operands.entry }
{
    match operands {
        Operands::Two(target, amount) => match target {
            Operand::Place(target) => shift_place(op, width, target, amount),
            _ => Err(SyntaxError::Operand),
        },
        _ => Err(SyntaxError::Operand),
    }
}

// `r, D` or `r, D, n`.
fn products(width: Width, operands: Operands<'_>) -> Read<'_>
    ensures { result ≡ products_of width operands.entry }
{
    match operands {
        Operands::Two(Operand::Place(Place::Reg(dst)), Operand::Place(operand)) => {
            let (src, at) = place(operand)?;
            template(Insn::IMul2 { width, dst, src }, at, None)
        }
        Operands::Three(Operand::Place(Place::Reg(dst)), second, third) => match second {
            Operand::Place(operand) => match third {
                Operand::Constant(constant) => {
                    let (src, at) = place(operand)?;
                    let (imm, reference) = signed(constant)?;
                    template(
                        Insn::IMul3 {
                            width,
                            dst,
                            src,
                            imm,
                        },
                        at,
                        reference,
                    )
                }
                _ => Err(SyntaxError::Operand),
            },
            _ => Err(SyntaxError::Operand),
        },
        _ => Err(SyntaxError::Operand),
    }
}

// `r`, `M` or `n`.
fn pushes(operands: Operands<'_>) -> Read<'_>
    ensures { result ≡ pushes_of operands.entry }
{
    match operands {
        Operands::One(Operand::Place(Place::Reg(src))) => template(Insn::Push { src }, None, None),
        Operands::One(Operand::Place(Place::Memory(operand))) => {
            let (mem, at) = memory(operand)?;
            template(Insn::PushMem { mem }, at, None)
        }
        Operands::One(Operand::Constant(constant)) => {
            let (imm, reference) = signed(constant)?;
            template(Insn::PushImm { imm }, None, reference)
        }
        _ => Err(SyntaxError::Operand),
    }
}

// CALL: `D`, `$n` or a name; behind NOTRACK `D` alone.
fn calls(notrack: bool, operands: Operands<'_>) -> Read<'_>
    ensures { result ≡ branches_of (λ target. insn.CallInd target notrack) insn.Call notrack operands.entry }
{
    match operands {
        Operands::One(Operand::Place(operand)) => {
            let (target, at) = place(operand)?;
            template(Insn::CallInd { target, notrack }, at, None)
        }
        Operands::One(Operand::Relative(number)) if !notrack => {
            let rel = number.as_i32().ok_or(SyntaxError::Range)?;
            template(Insn::Call { rel }, None, None)
        }
        Operands::One(Operand::Name(name)) if !notrack => {
            branch_to(Insn::Call { rel: STAND_IN }, name)
        }
        _ => Err(SyntaxError::Operand),
    }
}

// JMP: `D`, `$n` or a name; behind NOTRACK `D` alone.
fn jumps(notrack: bool, operands: Operands<'_>) -> Read<'_>
    ensures { result ≡ branches_of (λ target. insn.JmpInd target notrack) (λ d. insn.Jmp (rel.L d)) notrack operands.entry }
{
    match operands {
        Operands::One(Operand::Place(operand)) => {
            let (target, at) = place(operand)?;
            template(Insn::JmpInd { target, notrack }, at, None)
        }
        Operands::One(Operand::Relative(number)) if !notrack => {
            let rel = Rel::L(number.as_i32().ok_or(SyntaxError::Range)?);
            template(Insn::Jmp { rel }, None, None)
        }
        Operands::One(Operand::Name(name)) if !notrack => {
            let rel = Rel::L(STAND_IN);
            branch_to(Insn::Jmp { rel }, name)
        }
        _ => Err(SyntaxError::Operand),
    }
}

// A conditional branch of 32 bits: `$n` or a name.
fn long_branches(cond: Cond, operands: Operands<'_>) -> Read<'_>
    ensures { result ≡ long_branches_of (λ d. insn.Jcc cond (rel.L d)) operands.entry }
{
    match operands {
        Operands::One(Operand::Relative(number)) => {
            let rel = Rel::L(number.as_i32().ok_or(SyntaxError::Range)?);
            template(Insn::Jcc { cond, rel }, None, None)
        }
        Operands::One(Operand::Name(name)) => {
            let rel = Rel::L(STAND_IN);
            branch_to(Insn::Jcc { cond, rel }, name)
        }
        _ => Err(SyntaxError::Operand),
    }
}

/// A branch of 8 bits: JMP, or a conditional one.
pub(crate) fn short_branch(cond: Option<Cond>, distance: i8) -> Insn
    ensures { result ≡ short_branch_of cond distance }
{
    let rel = Rel::S(distance);
    match cond {
        None => Insn::Jmp { rel },
        Some(cond) => Insn::Jcc { cond, rel },
    }
}

// A branch of 8 bits: `$n` or a name.
fn short_branches(cond: Option<Cond>, operands: Operands<'_>) -> Read<'_>
    ensures { result ≡ short_branches_of (short_branch_of cond) cond operands.entry }
{
    match operands {
        Operands::One(Operand::Relative(number)) => {
            let distance = number.as_i8().ok_or(SyntaxError::Range)?;
            template(short_branch(cond, distance), None, None)
        }
        Operands::One(Operand::Name(name)) => Ok(Code::Short(cond, name)),
        _ => Err(SyntaxError::Operand),
    }
}

/// What the statement of this word with these operands stands for.
pub(crate) fn instruction<'a>(word: Word, operands: Operands<'a>) -> Read<'a>
    ensures { result ≡ instruction_of word operands.entry }
{
    match word {
        Word::Whole(insn) => bare(insn, operands),
        Word::Load(_) | Word::MovZx(_) | Word::MovSx(_) | Word::MovSxd => loads(word, operands),
        Word::AluLoad(_, _) | Word::CMov(_, _) => loads(word, operands),
        Word::Mov(_) | Word::Alu(_, _) | Word::Test(_) => stores(word, operands),
        Word::Unary(_, _) => changes(word, operands),
        Word::MulDiv(_, _) => changes(word, operands),
        Word::SetCc(_) => changes(word, operands),
        Word::CmpXchg { .. } => exchanges(word, operands),
        Word::XAdd { .. } => exchanges(word, operands),
        Word::WrSs => exchanges(word, operands),
        Word::Pop | Word::RdSsp | Word::IncSsp => of_one_register(word, operands),
        Word::MovAbs(width) => sets(width, operands),
        Word::Lea(width) => addresses(width, operands),
        Word::Shift(op, width) => shifts(op, width, operands),
        Word::IMul(width) => products(width, operands),
        Word::Push => pushes(operands),
        Word::Call { notrack } => calls(notrack, operands),
        Word::Jmp { notrack } => jumps(notrack, operands),
        Word::ShortJmp => short_branches(None, operands),
        Word::Jcc(cond) => long_branches(cond, operands),
        Word::ShortJcc(cond) => short_branches(Some(cond), operands),
        Word::Xchg(width) => swaps(width, operands),
        Word::RstorSsp => restores(operands),
    }
}
