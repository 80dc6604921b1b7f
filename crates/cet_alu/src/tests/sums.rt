//! Sums, differences and operations on bits of all pairs of bounds, and the conditions at all flags.
use crate::tests::{BELOW, MAX, TOP, WIDTHS, alike};
use crate::word::free_flags;
use crate::{alu, holds, unary};
use cet_isa::AluOp::{Adc, Add, And, Cmp, Or, Sbb, Sub, Xor};
use cet_isa::UnOp::{Dec, Inc, Neg, Not};
use cet_isa::{AluOp, Cond, UnOp};

/// x, y; the result, the flags after, whatever they were before. Where the order makes no difference, one of the two stands here.
fn alu_rows() -> &'static [(AluOp, u64, u64, u64, u8)] {
    &[
        (Add, 0, 0, 0, 2),
        (Add, 0, 1, 1, 0),
        (Add, 0, BELOW, BELOW, 0),
        (Add, 0, TOP, TOP, 4),
        (Add, 0, MAX, MAX, 4),
        (Add, 1, 1, 2, 0),
        (Add, 1, BELOW, TOP, 12),
        (Add, 1, TOP, 0x8000000000000001, 4),
        (Add, 1, MAX, 0, 3),
        (Add, BELOW, BELOW, 0xfffffffffffffffe, 12),
        (Add, BELOW, TOP, MAX, 4),
        (Add, BELOW, MAX, 0x7ffffffffffffffe, 1),
        (Add, TOP, TOP, 0, 11),
        (Add, TOP, MAX, BELOW, 9),
        (Add, MAX, MAX, 0xfffffffffffffffe, 5),
        (Or, 0, 0, 0, 2),
        (Or, 0, 1, 1, 0),
        (Or, 0, BELOW, BELOW, 0),
        (Or, 0, TOP, TOP, 4),
        (Or, 0, MAX, MAX, 4),
        (Or, 1, 1, 1, 0),
        (Or, 1, BELOW, BELOW, 0),
        (Or, 1, TOP, 0x8000000000000001, 4),
        (Or, 1, MAX, MAX, 4),
        (Or, BELOW, BELOW, BELOW, 0),
        (Or, BELOW, TOP, MAX, 4),
        (Or, BELOW, MAX, MAX, 4),
        (Or, TOP, TOP, TOP, 4),
        (Or, TOP, MAX, MAX, 4),
        (Or, MAX, MAX, MAX, 4),
        (And, 0, 0, 0, 2),
        (And, 0, 1, 0, 2),
        (And, 0, BELOW, 0, 2),
        (And, 0, TOP, 0, 2),
        (And, 0, MAX, 0, 2),
        (And, 1, 1, 1, 0),
        (And, 1, BELOW, 1, 0),
        (And, 1, TOP, 0, 2),
        (And, 1, MAX, 1, 0),
        (And, BELOW, BELOW, BELOW, 0),
        (And, BELOW, TOP, 0, 2),
        (And, BELOW, MAX, BELOW, 0),
        (And, TOP, TOP, TOP, 4),
        (And, TOP, MAX, TOP, 4),
        (And, MAX, MAX, MAX, 4),
        (Xor, 0, 0, 0, 2),
        (Xor, 0, 1, 1, 0),
        (Xor, 0, BELOW, BELOW, 0),
        (Xor, 0, TOP, TOP, 4),
        (Xor, 0, MAX, MAX, 4),
        (Xor, 1, 1, 0, 2),
        (Xor, 1, BELOW, 0x7ffffffffffffffe, 0),
        (Xor, 1, TOP, 0x8000000000000001, 4),
        (Xor, 1, MAX, 0xfffffffffffffffe, 4),
        (Xor, BELOW, BELOW, 0, 2),
        (Xor, BELOW, TOP, MAX, 4),
        (Xor, BELOW, MAX, TOP, 4),
        (Xor, TOP, TOP, 0, 2),
        (Xor, TOP, MAX, BELOW, 0),
        (Xor, MAX, MAX, 0, 2),
        (Sub, 0, 0, 0, 2),
        (Sub, 0, 1, MAX, 5),
        (Sub, 0, BELOW, 0x8000000000000001, 5),
        (Sub, 0, TOP, TOP, 13),
        (Sub, 0, MAX, 1, 1),
        (Sub, 1, 0, 1, 0),
        (Sub, 1, 1, 0, 2),
        (Sub, 1, BELOW, 0x8000000000000002, 5),
        (Sub, 1, TOP, 0x8000000000000001, 13),
        (Sub, 1, MAX, 2, 1),
        (Sub, BELOW, 0, BELOW, 0),
        (Sub, BELOW, 1, 0x7ffffffffffffffe, 0),
        (Sub, BELOW, BELOW, 0, 2),
        (Sub, BELOW, TOP, MAX, 13),
        (Sub, BELOW, MAX, TOP, 13),
        (Sub, TOP, 0, TOP, 4),
        (Sub, TOP, 1, BELOW, 8),
        (Sub, TOP, BELOW, 1, 8),
        (Sub, TOP, TOP, 0, 2),
        (Sub, TOP, MAX, 0x8000000000000001, 5),
        (Sub, MAX, 0, MAX, 4),
        (Sub, MAX, 1, 0xfffffffffffffffe, 4),
        (Sub, MAX, BELOW, TOP, 4),
        (Sub, MAX, TOP, BELOW, 0),
        (Sub, MAX, MAX, 0, 2),
        (Cmp, 0, 0, 0, 2),
        (Cmp, 0, 1, MAX, 5),
        (Cmp, 0, BELOW, 0x8000000000000001, 5),
        (Cmp, 0, TOP, TOP, 13),
        (Cmp, 0, MAX, 1, 1),
        (Cmp, 1, 0, 1, 0),
        (Cmp, 1, 1, 0, 2),
        (Cmp, 1, BELOW, 0x8000000000000002, 5),
        (Cmp, 1, TOP, 0x8000000000000001, 13),
        (Cmp, 1, MAX, 2, 1),
        (Cmp, BELOW, 0, BELOW, 0),
        (Cmp, BELOW, 1, 0x7ffffffffffffffe, 0),
        (Cmp, BELOW, BELOW, 0, 2),
        (Cmp, BELOW, TOP, MAX, 13),
        (Cmp, BELOW, MAX, TOP, 13),
        (Cmp, TOP, 0, TOP, 4),
        (Cmp, TOP, 1, BELOW, 8),
        (Cmp, TOP, BELOW, 1, 8),
        (Cmp, TOP, TOP, 0, 2),
        (Cmp, TOP, MAX, 0x8000000000000001, 5),
        (Cmp, MAX, 0, MAX, 4),
        (Cmp, MAX, 1, 0xfffffffffffffffe, 4),
        (Cmp, MAX, BELOW, TOP, 4),
        (Cmp, MAX, TOP, BELOW, 0),
        (Cmp, MAX, MAX, 0, 2),
    ]
}

/// x, y, CF before; the result, the flags after, whatever the other ones were before.
fn carry_rows() -> &'static [(AluOp, u64, u64, u8, u64, u8)] {
    &[
        (Adc, 0, 0, 0, 0, 2),
        (Adc, 0, 0, 1, 1, 0),
        (Adc, 0, 1, 0, 1, 0),
        (Adc, 0, 1, 1, 2, 0),
        (Adc, 0, BELOW, 0, BELOW, 0),
        (Adc, 0, BELOW, 1, TOP, 12),
        (Adc, 0, TOP, 0, TOP, 4),
        (Adc, 0, TOP, 1, 0x8000000000000001, 4),
        (Adc, 0, MAX, 0, MAX, 4),
        (Adc, 0, MAX, 1, 0, 3),
        (Adc, 1, 1, 0, 2, 0),
        (Adc, 1, 1, 1, 3, 0),
        (Adc, 1, BELOW, 0, TOP, 12),
        (Adc, 1, BELOW, 1, 0x8000000000000001, 12),
        (Adc, 1, TOP, 0, 0x8000000000000001, 4),
        (Adc, 1, TOP, 1, 0x8000000000000002, 4),
        (Adc, 1, MAX, 0, 0, 3),
        (Adc, 1, MAX, 1, 1, 1),
        (Adc, BELOW, BELOW, 0, 0xfffffffffffffffe, 12),
        (Adc, BELOW, BELOW, 1, MAX, 12),
        (Adc, BELOW, TOP, 0, MAX, 4),
        (Adc, BELOW, TOP, 1, 0, 3),
        (Adc, BELOW, MAX, 0, 0x7ffffffffffffffe, 1),
        (Adc, BELOW, MAX, 1, BELOW, 1),
        (Adc, TOP, TOP, 0, 0, 11),
        (Adc, TOP, TOP, 1, 1, 9),
        (Adc, TOP, MAX, 0, BELOW, 9),
        (Adc, TOP, MAX, 1, TOP, 5),
        (Adc, MAX, MAX, 0, 0xfffffffffffffffe, 5),
        (Adc, MAX, MAX, 1, MAX, 5),
        (Sbb, 0, 0, 0, 0, 2),
        (Sbb, 0, 0, 1, MAX, 5),
        (Sbb, 0, 1, 0, MAX, 5),
        (Sbb, 0, 1, 1, 0xfffffffffffffffe, 5),
        (Sbb, 0, BELOW, 0, 0x8000000000000001, 5),
        (Sbb, 0, BELOW, 1, TOP, 5),
        (Sbb, 0, TOP, 0, TOP, 13),
        (Sbb, 0, TOP, 1, BELOW, 1),
        (Sbb, 0, MAX, 0, 1, 1),
        (Sbb, 0, MAX, 1, 0, 3),
        (Sbb, 1, 0, 0, 1, 0),
        (Sbb, 1, 0, 1, 0, 2),
        (Sbb, 1, 1, 0, 0, 2),
        (Sbb, 1, 1, 1, MAX, 5),
        (Sbb, 1, BELOW, 0, 0x8000000000000002, 5),
        (Sbb, 1, BELOW, 1, 0x8000000000000001, 5),
        (Sbb, 1, TOP, 0, 0x8000000000000001, 13),
        (Sbb, 1, TOP, 1, TOP, 13),
        (Sbb, 1, MAX, 0, 2, 1),
        (Sbb, 1, MAX, 1, 1, 1),
        (Sbb, BELOW, 0, 0, BELOW, 0),
        (Sbb, BELOW, 0, 1, 0x7ffffffffffffffe, 0),
        (Sbb, BELOW, 1, 0, 0x7ffffffffffffffe, 0),
        (Sbb, BELOW, 1, 1, 0x7ffffffffffffffd, 0),
        (Sbb, BELOW, BELOW, 0, 0, 2),
        (Sbb, BELOW, BELOW, 1, MAX, 5),
        (Sbb, BELOW, TOP, 0, MAX, 13),
        (Sbb, BELOW, TOP, 1, 0xfffffffffffffffe, 13),
        (Sbb, BELOW, MAX, 0, TOP, 13),
        (Sbb, BELOW, MAX, 1, BELOW, 1),
        (Sbb, TOP, 0, 0, TOP, 4),
        (Sbb, TOP, 0, 1, BELOW, 8),
        (Sbb, TOP, 1, 0, BELOW, 8),
        (Sbb, TOP, 1, 1, 0x7ffffffffffffffe, 8),
        (Sbb, TOP, BELOW, 0, 1, 8),
        (Sbb, TOP, BELOW, 1, 0, 10),
        (Sbb, TOP, TOP, 0, 0, 2),
        (Sbb, TOP, TOP, 1, MAX, 5),
        (Sbb, TOP, MAX, 0, 0x8000000000000001, 5),
        (Sbb, TOP, MAX, 1, TOP, 5),
        (Sbb, MAX, 0, 0, MAX, 4),
        (Sbb, MAX, 0, 1, 0xfffffffffffffffe, 4),
        (Sbb, MAX, 1, 0, 0xfffffffffffffffe, 4),
        (Sbb, MAX, 1, 1, 0xfffffffffffffffd, 4),
        (Sbb, MAX, BELOW, 0, TOP, 4),
        (Sbb, MAX, BELOW, 1, BELOW, 8),
        (Sbb, MAX, TOP, 0, BELOW, 0),
        (Sbb, MAX, TOP, 1, 0x7ffffffffffffffe, 0),
        (Sbb, MAX, MAX, 0, 0, 2),
        (Sbb, MAX, MAX, 1, MAX, 5),
    ]
}

/// x, the flags before; the result, the flags after.
fn unary_rows() -> &'static [(UnOp, u64, u8, u64, u8)] {
    &[
        (Inc, 0, 0, 1, 0),
        (Inc, 0, 15, 1, 1),
        (Inc, 1, 0, 2, 0),
        (Inc, 1, 15, 2, 1),
        (Inc, BELOW, 0, TOP, 12),
        (Inc, BELOW, 15, TOP, 13),
        (Inc, TOP, 0, 0x8000000000000001, 4),
        (Inc, TOP, 15, 0x8000000000000001, 5),
        (Inc, MAX, 0, 0, 2),
        (Inc, MAX, 15, 0, 3),
        (Dec, 0, 0, MAX, 4),
        (Dec, 0, 15, MAX, 5),
        (Dec, 1, 0, 0, 2),
        (Dec, 1, 15, 0, 3),
        (Dec, BELOW, 0, 0x7ffffffffffffffe, 0),
        (Dec, BELOW, 15, 0x7ffffffffffffffe, 1),
        (Dec, TOP, 0, BELOW, 8),
        (Dec, TOP, 15, BELOW, 9),
        (Dec, MAX, 0, 0xfffffffffffffffe, 4),
        (Dec, MAX, 15, 0xfffffffffffffffe, 5),
        (Not, 0, 0, MAX, 0),
        (Not, 0, 15, MAX, 15),
        (Not, 1, 0, 0xfffffffffffffffe, 0),
        (Not, 1, 15, 0xfffffffffffffffe, 15),
        (Not, BELOW, 0, TOP, 0),
        (Not, BELOW, 15, TOP, 15),
        (Not, TOP, 0, BELOW, 0),
        (Not, TOP, 15, BELOW, 15),
        (Not, MAX, 0, 0, 0),
        (Not, MAX, 15, 0, 15),
        (Neg, 0, 0, 0, 2),
        (Neg, 0, 15, 0, 2),
        (Neg, 1, 0, MAX, 5),
        (Neg, 1, 15, MAX, 5),
        (Neg, BELOW, 0, 0x8000000000000001, 5),
        (Neg, BELOW, 15, 0x8000000000000001, 5),
        (Neg, TOP, 0, TOP, 13),
        (Neg, TOP, 15, TOP, 13),
        (Neg, MAX, 0, 1, 1),
        (Neg, MAX, 15, 1, 1),
    ]
}

/// Bit `n` says whether the condition holds at the flags `n`.
fn condition_rows() -> &'static [(Cond, u16)] {
    &[
        (Cond::O, 0b1111111100000000),
        (Cond::No, 0b0000000011111111),
        (Cond::B, 0b1010101010101010),
        (Cond::Ae, 0b0101010101010101),
        (Cond::E, 0b1100110011001100),
        (Cond::Ne, 0b0011001100110011),
        (Cond::Be, 0b1110111011101110),
        (Cond::A, 0b0001000100010001),
        (Cond::S, 0b1111000011110000),
        (Cond::Ns, 0b0000111100001111),
        (Cond::L, 0b0000111111110000),
        (Cond::Ge, 0b1111000000001111),
        (Cond::Le, 0b1100111111111100),
        (Cond::G, 0b0011000000000011),
    ]
}

fn is_commutative(op: AluOp) -> bool {
    !matches!(op, Sbb | Sub | Cmp)
}

#[test]
fn alu_at_the_bounds(rt: HostRuntime) {
    for &(op, x, y, want, flags) in alu_rows() {
        for w in WIDTHS {
            let (x, y) = (alike(w, x), alike(w, y));
            let answer = (alike(w, want), free_flags(flags));
            for old in [0, 15] {
                let found = alu(op, w, x, y, free_flags(old));
                assert_eq!(rt; found, answer, "{op:?} {w:?} {x} {y}");
                if is_commutative(op) {
                    let turned = alu(op, w, y, x, free_flags(old));
                    assert_eq!(rt; turned, answer, "{op:?} {w:?} {y} {x}");
                }
            }
        }
    }
}

#[test]
fn carries_at_the_bounds(rt: HostRuntime) {
    for &(op, x, y, carry, want, flags) in carry_rows() {
        for w in WIDTHS {
            let (x, y) = (alike(w, x), alike(w, y));
            let answer = (alike(w, want), free_flags(flags));
            for old in [carry, carry | 14] {
                let found = alu(op, w, x, y, free_flags(old));
                assert_eq!(rt; found, answer, "{op:?} {w:?} {x} {y} {old}");
                if is_commutative(op) {
                    let turned = alu(op, w, y, x, free_flags(old));
                    assert_eq!(rt; turned, answer, "{op:?} {w:?} {y} {x} {old}");
                }
            }
        }
    }
}

#[test]
fn unary_at_the_bounds(rt: HostRuntime) {
    for &(op, x, old, want, flags) in unary_rows() {
        for w in WIDTHS {
            let found = unary(op, w, alike(w, x), free_flags(old));
            let answer = (alike(w, want), free_flags(flags));
            assert_eq!(rt; found, answer, "{op:?} {w:?} {x} {old}");
        }
    }
}

#[test]
fn conditions_at_all_flags(rt: HostRuntime) {
    for &(cond, at) in condition_rows() {
        for flags in 0..16u8 {
            let found = holds(cond, free_flags(flags));
            assert_eq!(rt; found, (at >> flags) & 1 == 1, "{cond:?} {flags}");
        }
    }
}
