//! Worked listings, and where and why they stop.
mod texts;

ghost use Rattle.std.specs.Prelude.{◌≢◌, ◌≤◌, length};

use crate::{DecodeError, ListingError, Page, check_listing, write_listing};
use cet_base::{Failed, MemSink, NoMemory};
use std::alloc::Global;
use std::test::Fail;

#[derive(Debug, Drop)]
enum Stop {
    Listing(ListingError),
    NoMemory,
    Failed,
}

impl From<ListingError> for Stop {
    fn from(error: ListingError) -> Stop {
        Stop::Listing(error)
    }
}

impl From<NoMemory> for Stop {
    fn from(_error: NoMemory) -> Stop {
        Stop::NoMemory
    }
}

impl From<Failed> for Stop {
    fn from(_error: Failed) -> Stop {
        Stop::Failed
    }
}

const START: u64 = 0x401000;

// The listing, written to an output that takes at most so many bytes in a write.
fn listing(alloc: Global, bytes: &[u8], most: u64) -> Result<MemSink, Stop>
    requires some { most ≢ 0 }
    requires few { length bytes.now ≤ 65536 }
{
    let mut page = Page::new(alloc)?;
    let mut out = MemSink::new(alloc, most, 131072)?;
    check_listing(bytes, START)?;
    write_listing(&mut page, bytes, START, &mut out)?;
    Ok(out)
}

const WORKED: &[u8] = b"\xb8\x09\x10\x40\x00\xff\xe0\x90\x90\xf3\x0f\x1e\xfa\x0f\x0b";

const WORKED_LISTING: &str = "0x401000 b809104000 movabs.4 rax, 4198409
0x401005 ffe0 jmp rax
0x401007 90 nop
0x401008 90 nop
0x401009 f30f1efa endbr64
0x40100d 0f0b ud2
";

#[test]
fn worked(rt: HostRuntime) -> Result<(), Fail> {
    let whole = listing(rt.alloc(), WORKED, 65536)?;
    assert_eq!(rt; whole.bytes(), WORKED_LISTING.as_bytes());
    let by_bytes = listing(rt.alloc(), WORKED, 1)?;
    assert_eq!(rt; by_bytes.bytes(), WORKED_LISTING.as_bytes());
    let none = listing(rt.alloc(), &[], 1)?;
    assert!(rt; none.bytes().is_empty());
    Ok(())
}

// The longest form, and the highest addresses.
#[test]
fn last_address(rt: HostRuntime) -> Result<(), Fail> {
    let bytes = b"\x66\x66\x66\x66\x66\x66\x2e\x0f\x1f\x84\x00\x00\x00\x00\x00\xf4";
    let mut page = Page::new(rt.alloc())?;
    let mut out = MemSink::new(rt.alloc(), 100, 100)?;
    assert!(rt; check_listing(bytes, 0xffff_ffff_ffff_fff0).is_ok());
    write_listing(&mut page, bytes, 0xffff_ffff_ffff_fff0, &mut out)?;
    assert_eq!(rt;
        out.bytes(),
        b"0xfffffffffffffff0 6666666666662e0f1f840000000000 nop\n0xffffffffffffffff f4 hlt\n".as_slice()
    );
    Ok(())
}

#[test]
fn stops(rt: HostRuntime) {
    let rows: [(&[u8], u64, DecodeError); 5] = [
        // a form that is cut at the end
        (b"\xb8\x09\x10\x40\x00\xff", 0x401005, DecodeError::Short),
        (b"\xb8\x09\x10\x40", 0x401000, DecodeError::Short),
        // bytes that are no form
        (b"\x90\x06\x90", 0x401001, DecodeError::Outside),
        (b"\x06", 0x401000, DecodeError::Outside),
        // the first of two
        (b"\x06\xb8", 0x401000, DecodeError::Outside),
    ];
    for (bytes, at, why) in rows {
        let expected = ListingError { at, why };
        assert_eq!(rt; check_listing(bytes, START), Err(expected), "{bytes:?}");
    }
}

// More text than a page holds.
#[test]
fn pages(rt: HostRuntime) -> Result<(), Fail> {
    let bytes = [0x90; 5000];
    let out = listing(rt.alloc(), &bytes, 65536)?;
    assert_eq!(rt; out.bytes().len(), 80000);
    let seam = out.bytes().get(65520..65552).ok_or("no seam")?;
    assert_eq!(rt; seam, b"0x401fff 90 nop\n0x402000 90 nop\n".as_slice());
    let end = out.bytes().get(79984..).ok_or("no end")?;
    assert_eq!(rt; end, b"0x402387 90 nop\n".as_slice());
    Ok(())
}

// A page that was used before, and an output that is full.
#[test]
fn output_full(rt: HostRuntime) -> Result<(), Fail> {
    let mut page = Page::new(rt.alloc())?;
    assert!(rt; check_listing(WORKED, START).is_ok());
    let mut full = MemSink::new(rt.alloc(), 100, 20)?;
    assert!(rt; write_listing(&mut page, WORKED, START, &mut full).is_err());
    assert_eq!(rt; full.bytes(), b"0x401000 b809104000 ".as_slice());
    let mut out = MemSink::new(rt.alloc(), 100, 400)?;
    write_listing(&mut page, WORKED, START, &mut out)?;
    assert_eq!(rt; out.bytes(), WORKED_LISTING.as_bytes());
    Ok(())
}
