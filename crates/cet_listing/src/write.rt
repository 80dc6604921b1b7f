//! The writing of a listing.
ghost use Rattle.std.specs.Prelude.{◌≡◌, ℕ, ◌+◌, ◌≤◌, ◌^◌, List, length, OnOk, OnErr};
ghost use Rattle.cet_base.specs.Faults.{Rose};
ghost use Rattle.cet_base.specs.Sink.{Gains, GainsPart};
ghost use Rattle.cet_listing.specs.Listing.{IsListing, IsListed};

use crate::line::instruction_line;
use crate::page::Page;
use cet_base::{Failed, Sink};
use cet_decode::decode;

/// Writes the listing of the bytes, the first of them at the address `at`, in pieces of a page, and nothing else. It takes no
/// memory, and what the page held before is not written. After `Failed` some first part of the listing was taken.
pub fn write_listing<O: Sink>(
    page: &mut Page,
    bytes: &[u8],
    at: u64,
    out: &mut O,
) -> Result<(), Failed>
    requires listed { IsListed at bytes.now }
    requires addresses { at + length bytes.now ≤ 2 ^ 64 }
    ensures faults { O.faults out.old ≤ O.faults out.new }
    ensures taken { (lines : List ℕ) → IsListing at bytes.now lines → OnOk result (Gains (O.bytes out.old) (O.bytes out.new) lines) }
    ensures failed { OnErr result (Rose (O.faults out.old) (O.faults out.new)) }
    ensures part { (lines : List ℕ) → IsListing at bytes.now lines → OnErr result (GainsPart (O.bytes out.old) (O.bytes out.new) lines) }
{
    page.clear();
    let mut offset = 0;
    while offset < bytes.len() {
        let rest = &bytes[offset..];
        let Ok((insn, length)) = decode(rest) else {
            unreachable!()
        };
        let length = usize::from(length);
        let line = instruction_line(at + offset as u64, &rest[..length], insn);
        page.put(line.as_bytes(), out)?;
        offset += length;
    }
    page.flush(out)
}
