//! Rotates and shifts of each bound, by each count at which they change their ways. A row's two numbers of flags are those after it where each flag
//! before it and each free one is 0, and where each one is 1.
use crate::shift;
use crate::tests::{BELOW, MAX, TOP, WIDTHS, alike, operand};
use crate::word::{bits, free_flags};
use cet_isa::ShiftOp::{Rol, Ror, Sar, Shl, Shr};
use cet_isa::Width::{B1, B8};
use cet_isa::{Flags, ShiftOp, Width};

/// All flags 0, and all flags 1, before an instruction and of the free ones.
const ENDS: [(u8, u8); 4] = [(0, 0), (0, 15), (15, 0), (15, 15)];

/// x; the result, the flags after a count of 1.
fn by_one() -> &'static [(ShiftOp, u64, u64, u8, u8)] {
    &[
        (Rol, 0, 0, 0, 6),
        (Rol, 1, 2, 0, 6),
        (Rol, BELOW, 0xfffffffffffffffe, 8, 14),
        (Rol, TOP, 1, 9, 15),
        (Rol, MAX, MAX, 1, 7),
        (Ror, 0, 0, 0, 6),
        (Ror, 1, TOP, 9, 15),
        (Ror, BELOW, 0xbfffffffffffffff, 9, 15),
        (Ror, TOP, 0x4000000000000000, 8, 14),
        (Ror, MAX, MAX, 1, 7),
        (Shl, 0, 0, 2, 2),
        (Shl, 1, 2, 0, 0),
        (Shl, BELOW, 0xfffffffffffffffe, 12, 12),
        (Shl, TOP, 0, 11, 11),
        (Shl, MAX, 0xfffffffffffffffe, 5, 5),
        (Shr, 0, 0, 2, 2),
        (Shr, 1, 0, 3, 3),
        (Shr, BELOW, 0x3fffffffffffffff, 1, 1),
        (Shr, TOP, 0x4000000000000000, 8, 8),
        (Shr, MAX, BELOW, 9, 9),
        (Sar, 0, 0, 2, 2),
        (Sar, 1, 0, 3, 3),
        (Sar, BELOW, 0x3fffffffffffffff, 1, 1),
        (Sar, TOP, 0xc000000000000000, 4, 4),
        (Sar, MAX, MAX, 5, 5),
    ]
}

/// x; the result, the flags after a count of the width's bits less 1.
fn by_most() -> &'static [(ShiftOp, u64, u64, u8, u8)] {
    &[
        (Rol, 0, 0, 0, 14),
        (Rol, 1, TOP, 0, 14),
        (Rol, BELOW, 0xbfffffffffffffff, 1, 15),
        (Rol, TOP, 0x4000000000000000, 0, 14),
        (Rol, MAX, MAX, 1, 15),
        (Ror, 0, 0, 0, 14),
        (Ror, 1, 2, 0, 14),
        (Ror, BELOW, 0xfffffffffffffffe, 1, 15),
        (Ror, TOP, 1, 0, 14),
        (Ror, MAX, MAX, 1, 15),
        (Shl, 0, 0, 2, 10),
        (Shl, 1, TOP, 4, 12),
        (Shl, BELOW, TOP, 5, 13),
        (Shl, TOP, 0, 2, 10),
        (Shl, MAX, TOP, 5, 13),
        (Shr, 0, 0, 2, 10),
        (Shr, 1, 0, 2, 10),
        (Shr, BELOW, 0, 3, 11),
        (Shr, TOP, 1, 0, 8),
        (Shr, MAX, 1, 1, 9),
        (Sar, 0, 0, 2, 10),
        (Sar, 1, 0, 2, 10),
        (Sar, BELOW, 0, 3, 11),
        (Sar, TOP, MAX, 4, 12),
        (Sar, MAX, MAX, 5, 13),
    ]
}

/// The count, x; the result, the flags after it: a byte by all its bits and more, and 64 bits about the middle.
fn by_others() -> &'static [(ShiftOp, Width, u8, u64, u64, u8, u8)] {
    &[
        (Rol, B1, 8, 0, 0, 0, 14),
        (Rol, B1, 8, 1, 1, 1, 15),
        (Rol, B1, 8, 0x7f, 0x7f, 1, 15),
        (Rol, B1, 8, 0x80, 0x80, 0, 14),
        (Rol, B1, 8, 0xff, 0xff, 1, 15),
        (Rol, B1, 31, 0, 0, 0, 14),
        (Rol, B1, 31, 1, 0x80, 0, 14),
        (Rol, B1, 31, 0x7f, 0xbf, 1, 15),
        (Rol, B1, 31, 0x80, 0x40, 0, 14),
        (Rol, B1, 31, 0xff, 0xff, 1, 15),
        (Rol, B8, 31, 0, 0, 0, 14),
        (Rol, B8, 31, 1, 0x80000000, 0, 14),
        (Rol, B8, 31, BELOW, 0xffffffffbfffffff, 1, 15),
        (Rol, B8, 31, TOP, 0x40000000, 0, 14),
        (Rol, B8, 31, MAX, MAX, 1, 15),
        (Rol, B8, 32, 0, 0, 0, 14),
        (Rol, B8, 32, 1, 0x100000000, 0, 14),
        (Rol, B8, 32, BELOW, 0xffffffff7fffffff, 1, 15),
        (Rol, B8, 32, TOP, 0x80000000, 0, 14),
        (Rol, B8, 32, MAX, MAX, 1, 15),
        (Ror, B1, 8, 0, 0, 0, 14),
        (Ror, B1, 8, 1, 1, 0, 14),
        (Ror, B1, 8, 0x7f, 0x7f, 0, 14),
        (Ror, B1, 8, 0x80, 0x80, 1, 15),
        (Ror, B1, 8, 0xff, 0xff, 1, 15),
        (Ror, B1, 31, 0, 0, 0, 14),
        (Ror, B1, 31, 1, 2, 0, 14),
        (Ror, B1, 31, 0x7f, 0xfe, 1, 15),
        (Ror, B1, 31, 0x80, 1, 0, 14),
        (Ror, B1, 31, 0xff, 0xff, 1, 15),
        (Ror, B8, 31, 0, 0, 0, 14),
        (Ror, B8, 31, 1, 0x200000000, 0, 14),
        (Ror, B8, 31, BELOW, 0xfffffffeffffffff, 1, 15),
        (Ror, B8, 31, TOP, 0x100000000, 0, 14),
        (Ror, B8, 31, MAX, MAX, 1, 15),
        (Ror, B8, 32, 0, 0, 0, 14),
        (Ror, B8, 32, 1, 0x100000000, 0, 14),
        (Ror, B8, 32, BELOW, 0xffffffff7fffffff, 1, 15),
        (Ror, B8, 32, TOP, 0x80000000, 0, 14),
        (Ror, B8, 32, MAX, MAX, 1, 15),
        (Shl, B1, 8, 0, 0, 2, 11),
        (Shl, B1, 8, 1, 0, 2, 11),
        (Shl, B1, 8, 0x7f, 0, 2, 11),
        (Shl, B1, 8, 0x80, 0, 2, 11),
        (Shl, B1, 8, 0xff, 0, 2, 11),
        (Shl, B1, 31, 0, 0, 2, 11),
        (Shl, B1, 31, 1, 0, 2, 11),
        (Shl, B1, 31, 0x7f, 0, 2, 11),
        (Shl, B1, 31, 0x80, 0, 2, 11),
        (Shl, B1, 31, 0xff, 0, 2, 11),
        (Shl, B8, 31, 0, 0, 2, 10),
        (Shl, B8, 31, 1, 0x80000000, 0, 8),
        (Shl, B8, 31, BELOW, 0xffffffff80000000, 5, 13),
        (Shl, B8, 31, TOP, 0, 2, 10),
        (Shl, B8, 31, MAX, 0xffffffff80000000, 5, 13),
        (Shl, B8, 32, 0, 0, 2, 10),
        (Shl, B8, 32, 1, 0x100000000, 0, 8),
        (Shl, B8, 32, BELOW, 0xffffffff00000000, 5, 13),
        (Shl, B8, 32, TOP, 0, 2, 10),
        (Shl, B8, 32, MAX, 0xffffffff00000000, 5, 13),
        (Shr, B1, 8, 0, 0, 2, 11),
        (Shr, B1, 8, 1, 0, 2, 11),
        (Shr, B1, 8, 0x7f, 0, 2, 11),
        (Shr, B1, 8, 0x80, 0, 2, 11),
        (Shr, B1, 8, 0xff, 0, 2, 11),
        (Shr, B1, 31, 0, 0, 2, 11),
        (Shr, B1, 31, 1, 0, 2, 11),
        (Shr, B1, 31, 0x7f, 0, 2, 11),
        (Shr, B1, 31, 0x80, 0, 2, 11),
        (Shr, B1, 31, 0xff, 0, 2, 11),
        (Shr, B8, 31, 0, 0, 2, 10),
        (Shr, B8, 31, 1, 0, 2, 10),
        (Shr, B8, 31, BELOW, 0xffffffff, 1, 9),
        (Shr, B8, 31, TOP, 0x100000000, 0, 8),
        (Shr, B8, 31, MAX, 0x1ffffffff, 1, 9),
        (Shr, B8, 32, 0, 0, 2, 10),
        (Shr, B8, 32, 1, 0, 2, 10),
        (Shr, B8, 32, BELOW, 0x7fffffff, 1, 9),
        (Shr, B8, 32, TOP, 0x80000000, 0, 8),
        (Shr, B8, 32, MAX, 0xffffffff, 1, 9),
        (Sar, B1, 8, 0, 0, 2, 10),
        (Sar, B1, 8, 1, 0, 2, 10),
        (Sar, B1, 8, 0x7f, 0, 2, 10),
        (Sar, B1, 8, 0x80, 0xff, 5, 13),
        (Sar, B1, 8, 0xff, 0xff, 5, 13),
        (Sar, B1, 31, 0, 0, 2, 10),
        (Sar, B1, 31, 1, 0, 2, 10),
        (Sar, B1, 31, 0x7f, 0, 2, 10),
        (Sar, B1, 31, 0x80, 0xff, 5, 13),
        (Sar, B1, 31, 0xff, 0xff, 5, 13),
        (Sar, B8, 31, 0, 0, 2, 10),
        (Sar, B8, 31, 1, 0, 2, 10),
        (Sar, B8, 31, BELOW, 0xffffffff, 1, 9),
        (Sar, B8, 31, TOP, 0xffffffff00000000, 4, 12),
        (Sar, B8, 31, MAX, MAX, 5, 13),
        (Sar, B8, 32, 0, 0, 2, 10),
        (Sar, B8, 32, 1, 0, 2, 10),
        (Sar, B8, 32, BELOW, 0x7fffffff, 1, 9),
        (Sar, B8, 32, TOP, 0xffffffff80000000, 4, 12),
        (Sar, B8, 32, MAX, MAX, 5, 13),
    ]
}

/// Counts that are taken as 0.
fn turns(w: Width) -> &'static [u8] {
    match w {
        Width::B1 | Width::B4 => &[0, 32, 64, 224],
        Width::B8 => &[0, 64, 192],
    }
}

/// The flags of a row. A rotate keeps ZF and SF; what else is not told is free.
fn flags_of(op: ShiftOp, clear: u8, set: u8, old: u8, free: u8) -> Flags {
    let chosen = match op {
        Rol | Ror => old & 6 | free & 9,
        Shl | Shr | Sar => free,
    };
    free_flags(clear | set & chosen)
}

#[test]
fn shifts_at_the_bounds(rt: HostRuntime) {
    for (rows, is_one) in [(by_one(), true), (by_most(), false)] {
        for &(op, x, want, clear, set) in rows {
            for w in WIDTHS {
                let count = if is_one { 1 } else { bits(w) as u8 - 1 };
                for turn in turns(w) {
                    let count = count | *turn;
                    for (old, free) in ENDS {
                        let found = shift(op, w, alike(w, x), count, free_flags(old), free);
                        let answer = (alike(w, want), flags_of(op, clear, set, old, free));
                        assert_eq!(rt; found, answer, "{op:?} {w:?} {x} {count} {old} {free}");
                    }
                }
            }
        }
    }
}

#[test]
fn shifts_by_other_counts(rt: HostRuntime) {
    for &(op, w, count, x, want, clear, set) in by_others() {
        for turn in turns(w) {
            let count = count | *turn;
            for (old, free) in ENDS {
                let found = shift(op, w, operand(w, x), count, free_flags(old), free);
                let answer = (want, flags_of(op, clear, set, old, free));
                assert_eq!(rt; found, answer, "{op:?} {w:?} {x} {count} {old} {free}");
            }
        }
    }
}

#[test]
fn counts_of_0_change_nothing(rt: HostRuntime) {
    for op in [Rol, Ror, Shl, Shr, Sar] {
        for w in WIDTHS {
            for x in [0, 1, BELOW, TOP, MAX] {
                let x = alike(w, x);
                for count in turns(w) {
                    for (old, free) in ENDS {
                        let found = shift(op, w, x, *count, free_flags(old), free);
                        assert_eq!(rt; found, (x, free_flags(old)), "{op:?} {w:?} {x} {count}");
                    }
                }
            }
        }
    }
}
