//! What a processor answers, at the bounds of operands and counts. Flags, before and after, are CF 1, ZF 2, SF 4 and OF 8, as `free` has them.
ghost use Rattle.std.specs.Prelude.{◌<◌, ◌^◌};
ghost use Rattle.cet_machine.specs.Arithmetic.{bits};

mod products;
mod shifts;
mod sums;

use crate::word::{cut, free_flags};
use crate::{alu, div, holds, imul, mul, shift, unary};
use cet_isa::AluOp::{Adc, Add, And, Cmp, Or, Sbb, Sub, Xor};
use cet_isa::ShiftOp::{Rol, Ror, Sar, Shl, Shr};
use cet_isa::UnOp::{Dec, Inc, Neg, Not};
use cet_isa::Width::{B1, B4, B8};
use cet_isa::{AluOp, Cond, ShiftOp, UnOp, Width};

const MAX: u64 = 0xffff_ffff_ffff_ffff;
/// The top bit of 64.
const TOP: u64 = 0x8000_0000_0000_0000;

const BELOW: u64 = 0x7fff_ffff_ffff_ffff;

const WIDTHS: [Width; 3] = [B1, B4, B8];

/// x, y, the flags before; the result, the flags after.
fn alu_rows() -> &'static [(AluOp, Width, u64, u64, u8, u64, u8)] {
    &[
        (Add, B1, 0x7f, 0x1, 1, 0x80, 12),
        (Add, B4, 0x7fffffff, 0x1, 1, 0x80000000, 12),
        (Add, B8, BELOW, 0x1, 1, TOP, 12),
        (Add, B1, 0xff, 0x1, 0, 0x0, 3),
        (Add, B4, 0xffffffff, 0x1, 0, 0x0, 3),
        (Add, B8, MAX, 0x1, 0, 0x0, 3),
        (Or, B1, 0x55, 0xaa, 9, 0xff, 4),
        (Or, B4, 0x55555555, 0xaaaaaaaa, 9, 0xffffffff, 4),
        (Or, B8, 0x5555555555555555, 0xaaaaaaaaaaaaaaaa, 9, MAX, 4),
        (Adc, B1, 0xff, 0x0, 1, 0x0, 3),
        (Adc, B4, 0xffffffff, 0x0, 1, 0x0, 3),
        (Adc, B8, MAX, 0x0, 1, 0x0, 3),
        (Adc, B1, 0x7f, 0x0, 1, 0x80, 12),
        (Adc, B4, 0x7fffffff, 0x0, 1, 0x80000000, 12),
        (Adc, B8, BELOW, 0x0, 1, TOP, 12),
        (Sbb, B1, 0x0, 0x0, 1, 0xff, 5),
        (Sbb, B4, 0x0, 0x0, 1, 0xffffffff, 5),
        (Sbb, B8, 0x0, 0x0, 1, MAX, 5),
        (Sbb, B1, 0x80, 0x0, 1, 0x7f, 8),
        (Sbb, B4, 0x80000000, 0x0, 1, 0x7fffffff, 8),
        (Sbb, B8, TOP, 0x0, 1, BELOW, 8),
        (Sbb, B1, 0x0, 0xff, 1, 0x0, 3),
        (Sbb, B4, 0x0, 0xffffffff, 1, 0x0, 3),
        (Sbb, B8, 0x0, MAX, 1, 0x0, 3),
        (And, B1, 0x55, 0xaa, 9, 0x0, 2),
        (And, B4, 0x55555555, 0xaaaaaaaa, 9, 0x0, 2),
        (And, B8, 0x5555555555555555, 0xaaaaaaaaaaaaaaaa, 9, 0x0, 2),
        (And, B1, 0xff, 0x80, 9, 0x80, 4),
        (And, B4, 0xffffffff, 0x80000000, 9, 0x80000000, 4),
        (And, B8, MAX, TOP, 9, TOP, 4),
        (Sub, B1, 0x80, 0x1, 0, 0x7f, 8),
        (Sub, B4, 0x80000000, 0x1, 0, 0x7fffffff, 8),
        (Sub, B8, TOP, 0x1, 0, BELOW, 8),
        (Sub, B1, 0x0, 0x1, 1, 0xff, 5),
        (Sub, B4, 0x0, 0x1, 1, 0xffffffff, 5),
        (Sub, B8, 0x0, 0x1, 1, MAX, 5),
        (Xor, B1, 0x55, 0xff, 9, 0xaa, 4),
        (Xor, B4, 0x55555555, 0xffffffff, 9, 0xaaaaaaaa, 4),
        (Xor, B8, 0x5555555555555555, MAX, 9, 0xaaaaaaaaaaaaaaaa, 4),
        (Cmp, B1, 0xff, 0xff, 9, 0x0, 2),
        (Cmp, B4, 0xffffffff, 0xffffffff, 9, 0x0, 2),
        (Cmp, B8, MAX, MAX, 9, 0x0, 2),
        (Cmp, B1, 0x7f, 0xff, 0, 0x80, 13),
        (Cmp, B4, 0x7fffffff, 0xffffffff, 0, 0x80000000, 13),
        (Cmp, B8, BELOW, MAX, 0, TOP, 13),
    ]
}

/// x, the flags before; the result, the flags after.
fn unary_rows() -> &'static [(UnOp, Width, u64, u8, u64, u8)] {
    &[
        (Inc, B1, 0x7f, 0, 0x80, 12),
        (Inc, B4, 0x7fffffff, 0, 0x80000000, 12),
        (Inc, B8, BELOW, 0, TOP, 12),
        (Inc, B1, 0xff, 1, 0x0, 3),
        (Inc, B4, 0xffffffff, 1, 0x0, 3),
        (Inc, B8, MAX, 1, 0x0, 3),
        (Dec, B1, 0x0, 0, 0xff, 4),
        (Dec, B4, 0x0, 0, 0xffffffff, 4),
        (Dec, B8, 0x0, 0, MAX, 4),
        (Dec, B1, 0x80, 1, 0x7f, 9),
        (Dec, B4, 0x80000000, 1, 0x7fffffff, 9),
        (Dec, B8, TOP, 1, BELOW, 9),
        (Not, B1, 0x0, 15, 0xff, 15),
        (Not, B4, 0x0, 15, 0xffffffff, 15),
        (Not, B8, 0x0, 15, MAX, 15),
        (Neg, B1, 0x0, 1, 0x0, 2),
        (Neg, B4, 0x0, 1, 0x0, 2),
        (Neg, B8, 0x0, 1, 0x0, 2),
        (Neg, B1, 0x1, 0, 0xff, 5),
        (Neg, B4, 0x1, 0, 0xffffffff, 5),
        (Neg, B8, 0x1, 0, MAX, 5),
        (Neg, B1, 0x80, 0, 0x80, 13),
        (Neg, B4, 0x80000000, 0, 0x80000000, 13),
        (Neg, B8, TOP, 0, TOP, 13),
    ]
}

/// x, the count, the flags before; the result, the flags after it with each free flag 0, and with each one 1.
fn shift_rows() -> &'static [(ShiftOp, Width, u64, u8, u8, u64, u8, u8)] {
    &[
        (Rol, B1, 0x81, 0, 2, 0x81, 2, 2),
        (Rol, B1, 0x81, 1, 2, 0x3, 11, 11),
        (Rol, B1, 0x81, 7, 2, 0xc0, 2, 10),
        (Rol, B1, 0x81, 8, 2, 0x81, 3, 11),
        (Rol, B1, 0x81, 31, 2, 0xc0, 2, 10),
        (Rol, B1, 0x81, 32, 2, 0x81, 2, 2),
        (Rol, B1, 0x81, 63, 2, 0xc0, 2, 10),
        (Rol, B1, 0x81, 64, 2, 0x81, 2, 2),
        (Rol, B1, 0x81, 255, 2, 0xc0, 2, 10),
        (Rol, B4, 0x80000001, 0, 2, 0x80000001, 2, 2),
        (Rol, B4, 0x80000001, 1, 2, 0x3, 11, 11),
        (Rol, B4, 0x80000001, 31, 2, 0xc0000000, 2, 10),
        (Rol, B4, 0x80000001, 32, 2, 0x80000001, 2, 2),
        (Rol, B4, 0x80000001, 63, 2, 0xc0000000, 2, 10),
        (Rol, B4, 0x80000001, 64, 2, 0x80000001, 2, 2),
        (Rol, B4, 0x80000001, 255, 2, 0xc0000000, 2, 10),
        (Rol, B8, 0x8000000000000001, 0, 2, 0x8000000000000001, 2, 2),
        (Rol, B8, 0x8000000000000001, 1, 2, 0x3, 11, 11),
        (
            Rol,
            B8,
            0x8000000000000001,
            63,
            2,
            0xc000000000000000,
            2,
            10,
        ),
        (Rol, B8, 0x8000000000000001, 64, 2, 0x8000000000000001, 2, 2),
        (Rol, B8, 0x8000000000000001, 31, 2, 0xc0000000, 2, 10),
        (Rol, B8, 0x8000000000000001, 32, 2, 0x180000000, 2, 10),
        (
            Rol,
            B8,
            0x8000000000000001,
            255,
            2,
            0xc000000000000000,
            2,
            10,
        ),
        (Ror, B1, 0x3, 0, 6, 0x3, 6, 6),
        (Ror, B1, 0x3, 1, 6, 0x81, 15, 15),
        (Ror, B1, 0x3, 7, 6, 0x6, 6, 14),
        (Ror, B1, 0x3, 8, 6, 0x3, 6, 14),
        (Ror, B1, 0x3, 31, 6, 0x6, 6, 14),
        (Ror, B1, 0x3, 32, 6, 0x3, 6, 6),
        (Ror, B1, 0x3, 63, 6, 0x6, 6, 14),
        (Ror, B1, 0x3, 64, 6, 0x3, 6, 6),
        (Ror, B1, 0x3, 255, 6, 0x6, 6, 14),
        (Ror, B4, 0x3, 0, 6, 0x3, 6, 6),
        (Ror, B4, 0x3, 1, 6, 0x80000001, 15, 15),
        (Ror, B4, 0x3, 31, 6, 0x6, 6, 14),
        (Ror, B4, 0x3, 32, 6, 0x3, 6, 6),
        (Ror, B4, 0x3, 63, 6, 0x6, 6, 14),
        (Ror, B4, 0x3, 64, 6, 0x3, 6, 6),
        (Ror, B4, 0x3, 255, 6, 0x6, 6, 14),
        (Ror, B8, 0x3, 0, 6, 0x3, 6, 6),
        (Ror, B8, 0x3, 1, 6, 0x8000000000000001, 15, 15),
        (Ror, B8, 0x3, 63, 6, 0x6, 6, 14),
        (Ror, B8, 0x3, 64, 6, 0x3, 6, 6),
        (Ror, B8, 0x3, 31, 6, 0x600000000, 6, 14),
        (Ror, B8, 0x3, 32, 6, 0x300000000, 6, 14),
        (Ror, B8, 0x3, 255, 6, 0x6, 6, 14),
        (Shl, B1, 0x81, 0, 6, 0x81, 6, 6),
        (Shl, B1, 0x81, 1, 6, 0x2, 9, 9),
        (Shl, B1, 0x81, 7, 6, 0x80, 4, 12),
        (Shl, B1, 0x81, 8, 6, 0x0, 2, 11),
        (Shl, B1, 0x81, 31, 6, 0x0, 2, 11),
        (Shl, B1, 0x81, 32, 6, 0x81, 6, 6),
        (Shl, B1, 0x81, 63, 6, 0x0, 2, 11),
        (Shl, B1, 0x81, 64, 6, 0x81, 6, 6),
        (Shl, B1, 0x81, 255, 6, 0x0, 2, 11),
        (Shl, B4, 0x80000001, 0, 6, 0x80000001, 6, 6),
        (Shl, B4, 0x80000001, 1, 6, 0x2, 9, 9),
        (Shl, B4, 0x80000001, 31, 6, 0x80000000, 4, 12),
        (Shl, B4, 0x80000001, 32, 6, 0x80000001, 6, 6),
        (Shl, B4, 0x80000001, 63, 6, 0x80000000, 4, 12),
        (Shl, B4, 0x80000001, 64, 6, 0x80000001, 6, 6),
        (Shl, B4, 0x80000001, 255, 6, 0x80000000, 4, 12),
        (Shl, B8, 0x8000000000000001, 0, 6, 0x8000000000000001, 6, 6),
        (Shl, B8, 0x8000000000000001, 1, 6, 0x2, 9, 9),
        (Shl, B8, 0x8000000000000001, 63, 6, TOP, 4, 12),
        (Shl, B8, 0x8000000000000001, 64, 6, 0x8000000000000001, 6, 6),
        (Shl, B8, 0x8000000000000001, 31, 6, 0x80000000, 0, 8),
        (Shl, B8, 0x8000000000000001, 32, 6, 0x100000000, 0, 8),
        (Shl, B8, 0x8000000000000001, 255, 6, TOP, 4, 12),
        (Shr, B1, 0x81, 0, 6, 0x81, 6, 6),
        (Shr, B1, 0x81, 1, 6, 0x40, 9, 9),
        (Shr, B1, 0x81, 7, 6, 0x1, 0, 8),
        (Shr, B1, 0x81, 8, 6, 0x0, 2, 11),
        (Shr, B1, 0x81, 31, 6, 0x0, 2, 11),
        (Shr, B1, 0x81, 32, 6, 0x81, 6, 6),
        (Shr, B1, 0x81, 63, 6, 0x0, 2, 11),
        (Shr, B1, 0x81, 64, 6, 0x81, 6, 6),
        (Shr, B1, 0x81, 255, 6, 0x0, 2, 11),
        (Shr, B4, 0x80000001, 0, 6, 0x80000001, 6, 6),
        (Shr, B4, 0x80000001, 1, 6, 0x40000000, 9, 9),
        (Shr, B4, 0x80000001, 31, 6, 0x1, 0, 8),
        (Shr, B4, 0x80000001, 32, 6, 0x80000001, 6, 6),
        (Shr, B4, 0x80000001, 63, 6, 0x1, 0, 8),
        (Shr, B4, 0x80000001, 64, 6, 0x80000001, 6, 6),
        (Shr, B4, 0x80000001, 255, 6, 0x1, 0, 8),
        (Shr, B8, 0x8000000000000001, 0, 6, 0x8000000000000001, 6, 6),
        (Shr, B8, 0x8000000000000001, 1, 6, 0x4000000000000000, 9, 9),
        (Shr, B8, 0x8000000000000001, 63, 6, 0x1, 0, 8),
        (Shr, B8, 0x8000000000000001, 64, 6, 0x8000000000000001, 6, 6),
        (Shr, B8, 0x8000000000000001, 31, 6, 0x100000000, 0, 8),
        (Shr, B8, 0x8000000000000001, 32, 6, 0x80000000, 0, 8),
        (Shr, B8, 0x8000000000000001, 255, 6, 0x1, 0, 8),
        (Sar, B1, 0x81, 0, 10, 0x81, 10, 10),
        (Sar, B1, 0x81, 1, 10, 0xc0, 5, 5),
        (Sar, B1, 0x81, 7, 10, 0xff, 4, 12),
        (Sar, B1, 0x81, 8, 10, 0xff, 5, 13),
        (Sar, B1, 0x81, 31, 10, 0xff, 5, 13),
        (Sar, B1, 0x81, 32, 10, 0x81, 10, 10),
        (Sar, B1, 0x81, 63, 10, 0xff, 5, 13),
        (Sar, B1, 0x81, 64, 10, 0x81, 10, 10),
        (Sar, B1, 0x81, 255, 10, 0xff, 5, 13),
        (Sar, B4, 0x80000001, 0, 10, 0x80000001, 10, 10),
        (Sar, B4, 0x80000001, 1, 10, 0xc0000000, 5, 5),
        (Sar, B4, 0x80000001, 31, 10, 0xffffffff, 4, 12),
        (Sar, B4, 0x80000001, 32, 10, 0x80000001, 10, 10),
        (Sar, B4, 0x80000001, 63, 10, 0xffffffff, 4, 12),
        (Sar, B4, 0x80000001, 64, 10, 0x80000001, 10, 10),
        (Sar, B4, 0x80000001, 255, 10, 0xffffffff, 4, 12),
        (
            Sar,
            B8,
            0x8000000000000001,
            0,
            10,
            0x8000000000000001,
            10,
            10,
        ),
        (Sar, B8, 0x8000000000000001, 1, 10, 0xc000000000000000, 5, 5),
        (Sar, B8, 0x8000000000000001, 63, 10, MAX, 4, 12),
        (
            Sar,
            B8,
            0x8000000000000001,
            64,
            10,
            0x8000000000000001,
            10,
            10,
        ),
        (
            Sar,
            B8,
            0x8000000000000001,
            31,
            10,
            0xffffffff00000000,
            4,
            12,
        ),
        (
            Sar,
            B8,
            0x8000000000000001,
            32,
            10,
            0xffffffff80000000,
            4,
            12,
        ),
        (Sar, B8, 0x8000000000000001, 255, 10, MAX, 4, 12),
    ]
}

/// signed, x, y; the low half, the high half, and the flags.
fn mul_rows() -> &'static [(bool, Width, u64, u64, u64, u64, u8, u8)] {
    &[
        (false, B4, 0xffffffff, 0xffffffff, 0x1, 0xfffffffe, 9, 15),
        (false, B8, MAX, MAX, 0x1, 0xfffffffffffffffe, 9, 15),
        (false, B4, 0x10000, 0xffff, 0xffff0000, 0x0, 0, 6),
        (
            false,
            B8,
            0x100000000,
            0xffffffff,
            0xffffffff00000000,
            0x0,
            0,
            6,
        ),
        (false, B4, 0x10000, 0x10000, 0x0, 0x1, 9, 15),
        (false, B8, 0x100000000, 0x100000000, 0x0, 0x1, 9, 15),
        (true, B4, 0xffffffff, 0xffffffff, 0x1, 0x0, 0, 6),
        (true, B8, MAX, MAX, 0x1, 0x0, 0, 6),
        (true, B4, 0x80000000, 0xffffffff, 0x80000000, 0x0, 9, 15),
        (true, B8, TOP, MAX, TOP, 0x0, 9, 15),
        (true, B4, 0x80000000, 0x80000000, 0x0, 0x40000000, 9, 15),
        (true, B8, TOP, TOP, 0x0, 0x4000000000000000, 9, 15),
        (true, B4, 0x10000, 0x8000, 0x80000000, 0x0, 9, 15),
        (true, B8, 0x100000000, 0x80000000, TOP, 0x0, 9, 15),
        (true, B4, 0x10000, 0xffff, 0xffff0000, 0x0, 9, 15),
        (
            true,
            B8,
            0x100000000,
            0xffffffff,
            0xffffffff00000000,
            0x0,
            9,
            15,
        ),
    ]
}

/// signed, high, low, the divisor; the quotient and the remainder.
fn div_rows() -> &'static [(bool, Width, u64, u64, u64, Option<(u64, u64)>)] {
    &[
        (false, B4, 0x6, 0xffffffff, 0x7, Some((0xffffffff, 0x6))),
        (false, B4, 0x7, 0x0, 0x7, None),
        (false, B4, 0x0, 0x5, 0x0, None),
        (
            false,
            B4,
            0xfffffffe,
            0xffffffff,
            0xffffffff,
            Some((0xffffffff, 0xfffffffe)),
        ),
        (true, B4, 0x1, 0xffffffff, 0x3, None),
        (true, B4, 0x0, 0xffffffff, 0x2, Some((0x7fffffff, 0x1))),
        (true, B4, 0x1, 0x0, 0x2, None),
        (
            true,
            B4,
            0xfffffffe,
            0xffffffff,
            0x2,
            Some((0x80000000, 0xffffffff)),
        ),
        (true, B4, 0xfffffffe, 0xfffffffe, 0x2, None),
        (true, B4, 0xffffffff, 0x80000000, 0xffffffff, None),
        (
            true,
            B4,
            0xffffffff,
            0xfffffff9,
            0x2,
            Some((0xfffffffd, 0xffffffff)),
        ),
        (true, B4, 0x0, 0x7, 0xfffffffe, Some((0xfffffffd, 0x1))),
        (true, B4, 0x80000000, 0x0, 0xffffffff, None),
        (true, B4, 0xffffffff, 0xffffffff, 0x0, None),
        (false, B8, 0x6, MAX, 0x7, Some((MAX, 0x6))),
        (false, B8, 0x7, 0x0, 0x7, None),
        (false, B8, 0x0, 0x5, 0x0, None),
        (
            false,
            B8,
            0xfffffffffffffffe,
            MAX,
            MAX,
            Some((MAX, 0xfffffffffffffffe)),
        ),
        (true, B8, 0x1, MAX, 0x3, None),
        (true, B8, 0x0, MAX, 0x2, Some((BELOW, 0x1))),
        (true, B8, 0x1, 0x0, 0x2, None),
        (true, B8, 0xfffffffffffffffe, MAX, 0x2, Some((TOP, MAX))),
        (true, B8, 0xfffffffffffffffe, 0xfffffffffffffffe, 0x2, None),
        (true, B8, MAX, TOP, MAX, None),
        (
            true,
            B8,
            MAX,
            0xfffffffffffffff9,
            0x2,
            Some((0xfffffffffffffffd, MAX)),
        ),
        (
            true,
            B8,
            0x0,
            0x7,
            0xfffffffffffffffe,
            Some((0xfffffffffffffffd, 0x1)),
        ),
        (true, B8, TOP, 0x0, MAX, None),
        (true, B8, MAX, MAX, 0x0, None),
    ]
}

fn operand(w: Width, x: u64) -> u64
    ensures { result < 2 ^ bits w }
{
    cut(w, u128::from(x))
}

/// The operand that is written like `x`: with its first hexadecimal digit, and with as many of its last ones as there is room for. At each width a
/// bound is like the one of 64 bits, and a processor answers alike.
fn alike(w: Width, x: u64) -> u64
    ensures { result < 2 ^ bits w }
{
    let first = x >> 60;
    let n = match w {
        B1 => first << 4 | x & 0xf,
        B4 => first << 28 | x & 0xfff_ffff,
        B8 => x,
    };
    operand(w, n)
}

#[test]
fn alu_as_a_processor(rt: HostRuntime) {
    for &(op, w, x, y, old, want, flags) in alu_rows() {
        let answer = alu(op, w, operand(w, x), operand(w, y), free_flags(old));
        assert_eq!(rt; answer, (want, free_flags(flags)), "{op:?} {x} {y}");
    }
}

#[test]
fn unary_as_a_processor(rt: HostRuntime) {
    for &(op, w, x, old, want, flags) in unary_rows() {
        let answer = unary(op, w, operand(w, x), free_flags(old));
        assert_eq!(rt; answer, (want, free_flags(flags)), "{op:?} {x}");
    }
}

#[test]
fn shifts_as_a_processor(rt: HostRuntime) {
    for &(op, w, x, count, old, want, flags_0, flags_1) in shift_rows() {
        let x = operand(w, x);
        let (result, with_0) = shift(op, w, x, count, free_flags(old), 0);
        let (_, with_1) = shift(op, w, x, count, free_flags(old), 15);
        assert_eq!(rt;
            (result, with_0, with_1),
            (want, free_flags(flags_0), free_flags(flags_1)),
            "{op:?} {x} {count}"
        );
    }
}

#[test]
fn multiplies_as_a_processor(rt: HostRuntime) {
    for &(signed, w, x, y, low, high, flags_0, flags_1) in mul_rows() {
        let (x, y) = (operand(w, x), operand(w, y));
        let (a, b, with_0) = mul(signed, w, x, y, 0);
        let (_, _, with_1) = mul(signed, w, x, y, 15);
        assert_eq!(rt;
            (a, b, with_0, with_1),
            (low, high, free_flags(flags_0), free_flags(flags_1)),
            "{signed} {x} {y}"
        );
        if signed {
            assert_eq!(rt; imul(w, x, y, 15), (low, free_flags(flags_1)), "{x} {y}");
        }
    }
}

#[test]
fn divides_as_a_processor(rt: HostRuntime) {
    for &(signed, w, high, low, by, want) in div_rows() {
        let answer = div(signed, w, operand(w, high), operand(w, low), operand(w, by));
        assert_eq!(rt; answer, want, "{signed} {high} {low} {by}");
    }
}

#[test]
fn conditions_hold(rt: HostRuntime) {
    let flags = free_flags(0b0101);
    let held = [
        Cond::B,
        Cond::Be,
        Cond::S,
        Cond::L,
        Cond::Le,
        Cond::No,
        Cond::Ne,
    ];
    assert!(rt; held.iter().all(|c| holds(*c, flags)));
}
