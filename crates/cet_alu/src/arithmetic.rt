ghost use Rattle.std.specs.Prelude.{◌≡◌, ◌<◌, ◌^◌};
ghost use Rattle.cet_machine.specs.Arithmetic.{bits, outcome, logical, with_carry, alu, unary};

use crate::word::{bits, cut_signed, fits_signed, fits_unsigned, mask, signed, top_bit};
use cet_isa::{AluOp, Flags, UnOp, Width};

/// The result and the flags for the exact whole number of the operands, read as unsigned and as signed numbers.
fn outcome(w: Width, unsigned: i128, signed: i128) -> (u64, Flags)
    ensures { result ≡ outcome w unsigned signed }
{
    let result = cut_signed(w, unsigned);
    let flags = Flags {
        cf: !fits_unsigned(w, unsigned),
        zf: result == 0,
        sf: top_bit(w, result),
        of: !fits_signed(w, signed),
    };
    (result, flags)
}

fn logical(w: Width, word: u64) -> (u64, Flags)
    ensures { result ≡ logical w word }
{
    (
        word,
        Flags {
            cf: false,
            zf: word == 0,
            sf: top_bit(w, word),
            of: false,
        },
    )
}

/// The result of an operation on two operands, and the flags after it (SDM volume 1, 3.4.3.1); `old` are the flags before it. CMP
/// gives the difference. Operands are below 2 to the power of their bits.
#[tactic(auto, unfolding(cet_machine::specs::Arithmetic::alu))]
pub fn alu(op: AluOp, w: Width, x: u64, y: u64, old: Flags) -> (u64, Flags)
    requires left { x < 2 ^ bits w }
    requires right { y < 2 ^ bits w }
    ensures { result ≡ alu op w x y old }
{
    let (ux, uy) = (i128::from(x), i128::from(y));
    let (sx, sy) = (signed(w, x), signed(w, y));
    let carry = i128::from(u8::from(old.cf));
    match op {
        AluOp::Add => outcome(w, ux + uy, sx + sy),
        AluOp::Or => logical(w, x | y),
        AluOp::Adc => outcome(w, ux + uy + carry, sx + sy + carry),
        AluOp::Sbb => outcome(w, ux - uy - carry, sx - sy - carry),
        AluOp::And => logical(w, x & y),
        AluOp::Sub | AluOp::Cmp => outcome(w, ux - uy, sx - sy),
        AluOp::Xor => logical(w, x ^ y),
    }
}

/// The result of an operation on one operand, and the flags after it; `old` are the flags before it. INC and DEC keep CF, NOT keeps
/// every flag. The operand is below 2 to the power of its bits.
#[tactic(auto, unfolding(cet_machine::specs::Arithmetic::unary))]
pub fn unary(op: UnOp, w: Width, x: u64, old: Flags) -> (u64, Flags)
    requires { x < 2 ^ bits w }
    ensures { result ≡ unary op w x old }
{
    let (ux, sx) = (i128::from(x), signed(w, x));
    match op {
        UnOp::Inc => with_carry(old.cf, outcome(w, ux + 1, sx + 1)),
        UnOp::Dec => with_carry(old.cf, outcome(w, ux - 1, sx - 1)),
        UnOp::Not => (mask(w) - x, old),
        UnOp::Neg => outcome(w, -ux, -sx),
    }
}

fn with_carry(cf: bool, r: (u64, Flags)) -> (u64, Flags)
    ensures { result ≡ with_carry cf r }
{
    (r.0, Flags { cf, ..r.1 })
}
