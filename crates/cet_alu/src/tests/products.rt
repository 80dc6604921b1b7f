//! Products of all pairs of bounds, and quotients at each of their own bounds and one past it.
use crate::tests::{BELOW, MAX, TOP, WIDTHS, alike};
use crate::word::free_flags;
use crate::{div, imul, mul};

/// signed, x, y, in either order; the low half, the high half, and the flags after them where the free ones are 0, and where they are 1.
fn mul_rows() -> &'static [(bool, u64, u64, u64, u64, u8, u8)] {
    &[
        (false, 0, 0, 0, 0, 0, 6),
        (false, 0, 1, 0, 0, 0, 6),
        (false, 0, BELOW, 0, 0, 0, 6),
        (false, 0, TOP, 0, 0, 0, 6),
        (false, 0, MAX, 0, 0, 0, 6),
        (false, 1, 1, 1, 0, 0, 6),
        (false, 1, BELOW, BELOW, 0, 0, 6),
        (false, 1, TOP, TOP, 0, 0, 6),
        (false, 1, MAX, MAX, 0, 0, 6),
        (false, BELOW, BELOW, 1, 0x3fffffffffffffff, 9, 15),
        (false, BELOW, TOP, TOP, 0x3fffffffffffffff, 9, 15),
        (
            false,
            BELOW,
            MAX,
            0x8000000000000001,
            0x7ffffffffffffffe,
            9,
            15,
        ),
        (false, TOP, TOP, 0, 0x4000000000000000, 9, 15),
        (false, TOP, MAX, TOP, BELOW, 9, 15),
        (false, MAX, MAX, 1, 0xfffffffffffffffe, 9, 15),
        (true, 0, 0, 0, 0, 0, 6),
        (true, 0, 1, 0, 0, 0, 6),
        (true, 0, BELOW, 0, 0, 0, 6),
        (true, 0, TOP, 0, 0, 0, 6),
        (true, 0, MAX, 0, 0, 0, 6),
        (true, 1, 1, 1, 0, 0, 6),
        (true, 1, BELOW, BELOW, 0, 0, 6),
        (true, 1, TOP, TOP, MAX, 0, 6),
        (true, 1, MAX, MAX, MAX, 0, 6),
        (true, BELOW, BELOW, 1, 0x3fffffffffffffff, 9, 15),
        (true, BELOW, TOP, TOP, 0xc000000000000000, 9, 15),
        (true, BELOW, MAX, 0x8000000000000001, MAX, 0, 6),
        (true, TOP, TOP, 0, 0x4000000000000000, 9, 15),
        (true, TOP, MAX, TOP, 0, 9, 15),
        (true, MAX, MAX, 1, 0, 0, 6),
    ]
}

/// high, low, the divisor; the quotient and the remainder.
fn unsigned_rows() -> &'static [(u64, u64, u64, Option<(u64, u64)>)] {
    &[
        (0, MAX, 1, Some((MAX, 0))),
        (1, 0, 1, None),
        (0, 0, 1, Some((0, 0))),
        (0, 1, 1, Some((1, 0))),
        (
            0x7ffffffffffffffe,
            MAX,
            BELOW,
            Some((MAX, 0x7ffffffffffffffe)),
        ),
        (BELOW, 0, BELOW, None),
        (0, 0, BELOW, Some((0, 0))),
        (0, 0x7ffffffffffffffe, BELOW, Some((0, 0x7ffffffffffffffe))),
        (0, BELOW, BELOW, Some((1, 0))),
        (BELOW, MAX, TOP, Some((MAX, BELOW))),
        (TOP, 0, TOP, None),
        (0, 0, TOP, Some((0, 0))),
        (0, BELOW, TOP, Some((0, BELOW))),
        (0, TOP, TOP, Some((1, 0))),
        (
            0xfffffffffffffffe,
            MAX,
            MAX,
            Some((MAX, 0xfffffffffffffffe)),
        ),
        (MAX, 0, MAX, None),
        (0, 0, MAX, Some((0, 0))),
        (0, 0xfffffffffffffffe, MAX, Some((0, 0xfffffffffffffffe))),
        (0, MAX, MAX, Some((1, 0))),
        (MAX, MAX, MAX, None),
        (0, 0, 0, None),
        (0, 1, 0, None),
        (MAX, MAX, 0, None),
    ]
}

/// The same with signs.
fn signed_rows() -> &'static [(u64, u64, u64, Option<(u64, u64)>)] {
    &[
        (0, BELOW, 1, Some((BELOW, 0))),
        (0, TOP, 1, None),
        (MAX, TOP, 1, Some((TOP, 0))),
        (MAX, BELOW, 1, None),
        (0, 0, 1, Some((0, 0))),
        (0, 1, 1, Some((1, 0))),
        (MAX, MAX, 1, Some((MAX, 0))),
        (MAX, 0x8000000000000001, MAX, Some((BELOW, 0))),
        (MAX, TOP, MAX, None),
        (0, TOP, MAX, Some((TOP, 0))),
        (0, 0x8000000000000001, MAX, None),
        (0, 0, MAX, Some((0, 0))),
        (0, 1, MAX, Some((MAX, 0))),
        (MAX, MAX, MAX, Some((1, 0))),
        (
            0x3fffffffffffffff,
            BELOW,
            BELOW,
            Some((BELOW, 0x7ffffffffffffffe)),
        ),
        (0x3fffffffffffffff, TOP, BELOW, None),
        (
            0xc000000000000000,
            2,
            BELOW,
            Some((TOP, 0x8000000000000002)),
        ),
        (0xc000000000000000, 1, BELOW, None),
        (0, 0, BELOW, Some((0, 0))),
        (0, 0x7ffffffffffffffe, BELOW, Some((0, 0x7ffffffffffffffe))),
        (
            MAX,
            0x8000000000000002,
            BELOW,
            Some((0, 0x8000000000000002)),
        ),
        (0, BELOW, BELOW, Some((1, 0))),
        (MAX, 0x8000000000000001, BELOW, Some((MAX, 0))),
        (
            0xc000000000000000,
            1,
            TOP,
            Some((BELOW, 0x8000000000000001)),
        ),
        (0xc000000000000000, 0, TOP, None),
        (0x4000000000000000, BELOW, TOP, Some((TOP, BELOW))),
        (0x4000000000000000, TOP, TOP, None),
        (0, 0, TOP, Some((0, 0))),
        (0, BELOW, TOP, Some((0, BELOW))),
        (MAX, 0x8000000000000001, TOP, Some((0, 0x8000000000000001))),
        (0, TOP, TOP, Some((MAX, 0))),
        (MAX, TOP, TOP, Some((1, 0))),
        (TOP, 0, 1, None),
        (BELOW, MAX, 1, None),
        (TOP, 0, MAX, None),
        (BELOW, MAX, MAX, None),
        (TOP, 0, BELOW, None),
        (BELOW, MAX, BELOW, None),
        (TOP, 0, TOP, None),
        (BELOW, MAX, TOP, None),
        (TOP, 0, 0, None),
        (BELOW, MAX, 0, None),
        (0, 0, 0, None),
        (MAX, MAX, 0, None),
    ]
}

#[test]
fn multiplies_at_the_bounds(rt: HostRuntime) {
    for &(signed, x, y, low, high, clear, set) in mul_rows() {
        for w in WIDTHS {
            let (low, high) = (alike(w, low), alike(w, high));
            for (x, y) in [(x, y), (y, x)] {
                let (x, y) = (alike(w, x), alike(w, y));
                for (free, flags) in [(0, clear), (15, set)] {
                    let flags = free_flags(flags);
                    let found = mul(signed, w, x, y, free);
                    assert_eq!(rt; found, (low, high, flags), "{signed} {w:?} {x} {y}");
                    if signed {
                        let found = imul(w, x, y, free);
                        assert_eq!(rt; found, (low, flags), "{w:?} {x} {y}");
                    }
                }
            }
        }
    }
}

#[test]
fn divides_at_the_bounds(rt: HostRuntime) {
    for (signed, rows) in [(false, unsigned_rows()), (true, signed_rows())] {
        for &(high, low, by, want) in rows {
            for w in WIDTHS {
                let found = div(signed, w, alike(w, high), alike(w, low), alike(w, by));
                let answer = want.map(|(quotient, rest)| (alike(w, quotient), alike(w, rest)));
                assert_eq!(rt; found, answer, "{signed} {w:?} {high} {low} {by}");
            }
        }
    }
}
