//! Each public call with ample memory, at verdicts that the rules give by hand.
use crate::{
    Covered, Piece, PieceKind, Verdict, certify, instruction_at, piece_at, prologue_end,
    write_report,
};
use cet_base::{MemSink, NoMemory};
use cet_image::{ImageError, raw_image};
use std::alloc::Global;
use std::test::Fail;

#[derive(Debug, Drop)]
enum Stop {
    Image(ImageError),
    NoMemory,
}

impl From<ImageError> for Stop {
    fn from(error: ImageError) -> Stop {
        Stop::Image(error)
    }
}

impl From<NoMemory> for Stop {
    fn from(_error: NoMemory) -> Stop {
        Stop::NoMemory
    }
}

fn verdict(alloc: Global, code: &[u8]) -> Result<Verdict, Stop> {
    let image = raw_image(alloc, code)?;
    Ok(certify(alloc, &image)?)
}

const fn refused(rule: u8, at: u64) -> Verdict {
    Verdict::Refused { rule, at }
}

const OK: Verdict = Verdict::Accepted;

// Raw code, and the verdict on it.
#[test]
fn verdicts(rt: HostRuntime) -> Result<(), Fail> {
    let rows: [(&[u8], Verdict); 37] = [
        // a constant jump to an ENDBR64, and to what is none
        (
            b"\xb8\x09\x10\x40\x00\xff\xe0\x90\x90\xf3\x0f\x1e\xfa\x0f\x0b",
            OK,
        ),
        (
            b"\xb8\x09\x10\x40\x00\xff\xe0\x90\x90\xf3\x0f\x1e\xfb\x0f\x0b",
            refused(18, 0x401005),
        ),
        (
            b"\xb8\x08\x10\x40\x00\xff\xe0\x90\x90\xf3\x0f\x1e\xfa\x0f\x0b",
            refused(18, 0x401005),
        ),
        (
            b"\xb8\x09\x10\x40\x80\xff\xe0\x90\x90\xf3\x0f\x1e\xfa\x0f\x0b",
            refused(18, 0x401005),
        ),
        (
            b"\xb8\x0f\x10\x40\x00\xff\xe0\x90\x90\xf3\x0f\x1e\xfa\x0f\x0b",
            refused(18, 0x401005),
        ),
        (
            b"\xf3\x0f\x1e\xfa\xb8\x00\x10\x40\x00\xff\xe0",
            refused(18, 0x401009),
        ),
        (
            b"\xf3\x0f\x1e\xfa\xf3\x0f\x1e\xfa\xb8\x04\x10\x40\x00\xff\xe0",
            OK,
        ),
        // the other pieces
        (b"\x0f\x0b", OK),
        (b"\xf3\x0f\x1e\xfa\x0f\x0b", OK),
        (b"\xb8\x01\x00\x00\x00\x0f\x0b", OK),
        (b"\xff\xe0", refused(19, 0x401000)),
        (b"\x0f\x0b\xff\xe0", refused(19, 0x401002)),
        (b"\x90\xff\xe0\x00", refused(19, 0x401001)),
        // jumps to a piece start, into a form, into a piece, to the prologue, and out
        (b"\xeb\xfe", OK),
        (b"\x90\xeb\xfd", OK),
        (b"\xeb\x01\x90\x0f\x0b", OK),
        (b"\xeb\x01\x0f\x0b", refused(8, 0x401000)),
        (b"\xb8\x00\x00\x00\x00\xeb\xfa", refused(8, 0x401005)),
        (
            b"\xb8\x07\x10\x40\x00\xff\xe0\xf3\x0f\x1e\xfa\xeb\xf8",
            refused(8, 0x40100b),
        ),
        (b"\xf3\x0f\x1e\xfa\xeb\xfa", refused(8, 0x401004)),
        (b"\xeb\x00", refused(5, 0x401000)),
        (b"\x0f\x0b\xeb\x00", refused(5, 0x401000)),
        (b"\xeb\x80", refused(5, 0x401000)),
        (b"\xeb\x01\x0f\x0b\xeb\x00", refused(5, 0x401000)),
        // the end is run off
        (b"\x90", refused(11, 0x401000)),
        (b"\xf3\x0f\x1e\xfa", refused(11, 0x401000)),
        (b"\x0f\x0b\xf3\x0f\x1e\xfa", refused(11, 0x401002)),
        (b"\xb8\x01\x00\x00\x00", refused(11, 0x401000)),
        // no form, and less than a form
        (b"\x00", refused(6, 0x401000)),
        (b"\x90\xf3", refused(6, 0x401001)),
        (b"\xf3\x0f\x1e", refused(6, 0x401000)),
        (b"\xb8\x01\x00\x00", refused(6, 0x401000)),
        (b"\xeb", refused(6, 0x401000)),
        (b"\x0f", refused(6, 0x401000)),
        (b"\xff", refused(6, 0x401000)),
        (b"\xf3\x0f\x1e\xfa\x90\xff", refused(6, 0x401005)),
        (b"\x0f\x0b\xcc\x90", refused(6, 0x401002)),
    ];
    for (code, expected) in rows {
        assert_eq!(rt; verdict(rt.alloc(), code)?, expected, "{code:?}");
    }
    Ok(())
}

#[test]
fn pieces_of_a_function(rt: HostRuntime) -> Result<(), Fail> {
    let image = raw_image(
        rt.alloc(),
        b"\xf3\x0f\x1e\xfa\xb8\x00\x10\x40\x00\xff\xe0\x0f\x0b",
    )?;
    let functions = image.functions.as_slice();
    assert_eq!(rt; functions.len(), 1);
    let function = &functions[0];
    assert_eq!(rt; prologue_end(&image, function), 0x401004);
    assert_eq!(rt;
        instruction_at(&image, function, 0x401009),
        Some((Covered::JmpRax, 2))
    );
    let jump = PieceKind::ConstJump {
        entry: 0x401000,
        branch: 0x401009,
    };
    let ud2 = PieceKind::Single(Covered::Ud2);
    for (at, piece) in [
        (
            0x401004,
            Some(Piece {
                at: 0x401004,
                next: 0x40100b,
                kind: jump,
            }),
        ),
        (
            0x40100b,
            Some(Piece {
                at: 0x40100b,
                next: 0x40100d,
                kind: ud2,
            }),
        ),
        (0x40100d, None),
    ] {
        assert_eq!(rt; piece_at(&image, function, at), piece);
    }
    Ok(())
}

#[test]
fn reports(rt: HostRuntime) -> Result<(), Fail> {
    let rows: [(Verdict, &[u8]); 4] = [
        (OK, b"accepted\n"),
        (refused(18, 0x401005), b"refused rule 18 at 0x401005\n"),
        (refused(0, 0), b"refused rule 0 at 0x0\n"),
        (
            refused(255, u64::MAX),
            b"refused rule 255 at 0xffffffffffffffff\n",
        ),
    ];
    for (verdict, text) in rows {
        let mut out = MemSink::new(rt.alloc(), 3, 64)?;
        assert!(rt; write_report(verdict, &mut out).is_ok());
        assert_eq!(rt; out.bytes(), text);
    }
    let mut full = MemSink::new(rt.alloc(), 3, 8)?;
    assert!(rt; write_report(OK, &mut full).is_err());
    assert_eq!(rt; full.bytes(), b"accepted".as_slice());
    Ok(())
}
