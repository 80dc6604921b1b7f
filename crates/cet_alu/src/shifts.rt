ghost use Rattle.std.specs.Prelude.{◌≡◌, ◌<◌, ◌≤◌, ◌^◌, ◌*◌, ◌/◌, ◌%◌, ◌+◌};
ghost use Rattle.cet_machine.specs.Arithmetic.{bits};
ghost use Rattle.cet_machine.specs.Shifts.{masked_count, rotation, shift_result, rol, ror, shl, shr, sar, shift};

use crate::word::{bit, bits, cut, cut_signed, free_flags, moved_down, moved_up, signed, top_bit};
use cet_isa::{Flags, ShiftOp, Width};

/// The bits of the count that count.
fn masked_count(w: Width, count: u8) -> u32
    ensures value { result ≡ masked_count w count }
    ensures small { result < 64 }
{
    match w {
        Width::B1 | Width::B4 => u32::from(count % 32),
        Width::B8 => u32::from(count % 64),
    }
}

/// `x` moved up, with what leaves at the top moved in at the bottom.
fn rotated(w: Width, x: u64, by: u32) -> u64
    requires operand { x < 2 ^ bits w }
    requires whole { by ≤ bits w }
    ensures { result ≡ x * 2 ^ by % 2 ^ bits w + x * 2 ^ by / 2 ^ bits w }
{
    let moved = moved_up(x, by);
    cut(w, moved) | cut(w, moved >> bits(w))
}

fn rotation(count: u32, word: u64, cf: bool, of: bool, old: Flags, free: Flags) -> (u64, Flags)
    ensures { result ≡ rotation count word cf of old free }
{
    (
        word,
        Flags {
            cf,
            of: if count == 1 { of } else { free.of },
            ..old
        },
    )
}

fn shift_result(w: Width, count: u32, word: u64, cf: bool, of: bool, free: Flags) -> (u64, Flags)
    ensures { result ≡ shift_result w count word cf of free }
{
    let of = if count == 1 { of } else { free.of };
    (
        word,
        Flags {
            cf,
            zf: word == 0,
            sf: top_bit(w, word),
            of,
        },
    )
}

fn rol(w: Width, x: u64, count: u32, old: Flags, free: Flags) -> (u64, Flags)
    requires operand { x < 2 ^ bits w }
    requires some { 0 < count }
    requires few { count < 64 }
    ensures { result ≡ rol w x count old free }
{
    let word = rotated(w, x, count % bits(w));
    let cf = bit(word, 0);
    rotation(count, word, cf, top_bit(w, word) != cf, old, free)
}

fn ror(w: Width, x: u64, count: u32, old: Flags, free: Flags) -> (u64, Flags)
    requires operand { x < 2 ^ bits w }
    requires some { 0 < count }
    requires few { count < 64 }
    ensures { result ≡ ror w x count old free }
{
    let word = rotated(w, x, bits(w) - count % bits(w));
    let cf = top_bit(w, word);
    rotation(count, word, cf, cf != bit(word, bits(w) - 2), old, free)
}

fn shl(w: Width, x: u64, count: u32, free: Flags) -> (u64, Flags)
    requires operand { x < 2 ^ bits w }
    requires some { 0 < count }
    requires few { count < 64 }
    ensures { result ≡ shl w x count free }
{
    let word = cut(w, moved_up(x, count));
    let cf = if count < bits(w) {
        bit(x, bits(w) - count)
    } else {
        free.cf
    };
    shift_result(w, count, word, cf, top_bit(w, word) != cf, free)
}

fn shr(w: Width, x: u64, count: u32, free: Flags) -> (u64, Flags)
    requires operand { x < 2 ^ bits w }
    requires some { 0 < count }
    requires few { count < 64 }
    ensures { result ≡ shr w x count free }
{
    let last = if count < bits(w) {
        bit(x, count - 1)
    } else {
        free.cf
    };
    shift_result(w, count, x >> count, last, top_bit(w, x), free)
}

fn sar(w: Width, x: u64, count: u32, free: Flags) -> (u64, Flags)
    requires operand { x < 2 ^ bits w }
    requires some { 0 < count }
    requires few { count < 64 }
    ensures { result ≡ sar w x count free }
{
    let value = signed(w, x);
    let cf = bit(cut_signed(w, moved_down(value, count - 1)), 0);
    shift_result(
        w,
        count,
        cut_signed(w, moved_down(value, count)),
        cf,
        false,
        free,
    )
}

/// The result and the flags of a rotate or a shift by the lower five bits of `count`, or six for B8 (SDM volume 2, "RCL/RCR/ROL/ROR" and
/// "SAL/SAR/SHL/SHR"). `old` are the flags before it, and `free` has those that are undefined: CF at bit 0, OF at bit 3. The
/// operand is below 2 to the power of its bits.
#[tactic(auto, unfolding(cet_machine::specs::Shifts::shift))]
pub fn shift(op: ShiftOp, w: Width, x: u64, count: u8, old: Flags, free: u8) -> (u64, Flags)
    requires { x < 2 ^ bits w }
    ensures { result ≡ shift op w x count old free }
{
    let count = masked_count(w, count);
    if count == 0 {
        return (x, old);
    }
    let free = free_flags(free);
    match op {
        ShiftOp::Rol => rol(w, x, count, old, free),
        ShiftOp::Ror => ror(w, x, count, old, free),
        ShiftOp::Shl => shl(w, x, count, free),
        ShiftOp::Shr => shr(w, x, count, free),
        ShiftOp::Sar => sar(w, x, count, free),
    }
}
