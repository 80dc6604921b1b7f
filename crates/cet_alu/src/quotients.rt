ghost use Rattle.std.specs.Prelude.{◌≡◌, ◌<◌, ◌^◌, ◌*◌, pos, true, false};
ghost use Rattle.cet_machine.specs.Arithmetic.{bits};
ghost use Rattle.cet_machine.specs.Products.{double_value_of, quotient, div};

use crate::word::{bits, cut_signed, fits_signed, mask, moved_up, signed as signed_value};
use cet_isa::Width;

/// The quotient, rounded toward 0, and the remainder (SDM volume 2, "DIV", "IDIV") of `high` and `low` by `by`. None exactly where `by` is
/// 0 or the quotient does not fit: a divide error. The operands are below 2 to the power of their bits; the
/// instructions have B4 and B8.
#[tactic(auto, unfolding(cet_machine::specs::Products::div))]
pub fn div(signed: bool, w: Width, high: u64, low: u64, by: u64) -> Option<(u64, u64)>
    requires high { high < 2 ^ bits w }
    requires low { low < 2 ^ bits w }
    requires by { by < 2 ^ bits w }
    ensures { result ≡ div signed w high low by }
{
    let dividend = moved_up(high, bits(w)) + u128::from(low);
    if signed {
        signed_quotient(w, signed_double(w, dividend), signed_value(w, by))
    } else {
        unsigned_quotient(w, dividend, by)
    }
}

/// A number of twice an operand's bits in two's complement.
fn signed_double(w: Width, n: u128) -> i128
    requires { n < 2 ^ (2 * bits w) }
    ensures { result ≡ double_value_of true w n }
{
    match w {
        Width::B1 => i128::from((n as u16).cast_signed()),
        Width::B4 => i128::from((n as u64).cast_signed()),
        Width::B8 => n.cast_signed(),
    }
}

fn signed_quotient(w: Width, dividend: i128, divisor: i128) -> Option<(u64, u64)>
    ensures { result ≡ quotient true w dividend divisor }
{
    let quotient = dividend.checked_div(divisor)?;
    if fits_signed(w, quotient) {
        Some((cut_signed(w, quotient), cut_signed(w, dividend % divisor)))
    } else {
        None
    }
}

fn unsigned_quotient(w: Width, dividend: u128, by: u64) -> Option<(u64, u64)>
    requires { by < 2 ^ bits w }
    ensures { result ≡ quotient false w (pos dividend) (pos by) }
{
    let divisor = u128::from(by);
    if divisor == 0 || dividend / divisor > u128::from(mask(w)) {
        None
    } else {
        Some(((dividend / divisor) as u64, (dividend % divisor) as u64))
    }
}
