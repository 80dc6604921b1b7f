//! One region as it is kept.
ghost use Rattle.std.specs.Prelude.{◌≡◌, ◌<◌, ◌^◌, IsTrue, MatchOption, length, take};
ghost use Rattle.cet_base.specs.Field.{field, little_endian};
ghost use Rattle.cet_machine.specs.Memory.{holds, bytes_from, is_code, is_shadow, is_write, written};
ghost use Rattle.cet_mem.specs.Access.{IsWidth};

use cet_base::{field_u32, field_u64};
use cet_machine::Kind;
use std::marker::Model;

/// A region: its first address, its kind, and a byte for each address.
#[derive(Drop)]
pub struct Block {
    start: u64,
    kind: Kind,
    bytes: Vec<u8>,
}

impl Model for Block {
    ghost use Rattle.cet_machine.specs.declared.memory.Region.{Region};

    ghost Value = { Region };

    ghost use Rattle.cet_mem.specs.Block.{region_of};

    ghost view = { region_of };
}

impl Block {
    /// The region of these bytes from `start` on.
    pub fn new(start: u64, kind: Kind, bytes: Vec<u8>) -> Block
        ensures { result ≡ record { start = start; kind = kind; bytes = bytes.items } }
    {
        Block { start, kind, bytes }
    }

    /// The first address.
    pub fn start(&self) -> u64
        ensures { result ≡ self.now.start }
    {
        self.start
    }

    /// What the region may be used for.
    pub fn kind(&self) -> Kind
        ensures { result ≡ self.now.kind }
    {
        self.kind
    }

    /// Whether instructions are fetched from the region.
    pub fn is_code(&self) -> bool
        ensures { result ≡ is_code self.now.kind }
    {
        matches!(self.kind, Kind::Code)
    }

    /// Whether data is stored to the region.
    pub fn is_write(&self) -> bool
        ensures { result ≡ is_write self.now.kind }
    {
        matches!(self.kind, Kind::Write)
    }

    /// Whether the region is a shadow stack.
    pub fn is_shadow(&self) -> bool
        ensures { result ≡ is_shadow self.now.kind }
    {
        matches!(self.kind, Kind::Shadow)
    }

    /// The number of addresses.
    pub fn len(&self) -> u64
        ensures { result ≡ length self.now.bytes }
    {
        self.bytes.len() as u64
    }

    /// Whether the `n` addresses from `a` on all lie in the region.
    pub fn holds(&self, a: u64, n: u64) -> bool
        ensures { result ≡ holds a n self.now }
    {
        if a < self.start {
            return false;
        }
        let before = a - self.start;
        let len = self.bytes.len() as u64;
        before <= len && n <= len - before
    }

    /// The bytes from `a` on, to the region's end.
    pub fn bytes_from(&self, a: u64) -> &[u8]
        requires { IsTrue (holds a 1 self.now) }
        ensures { result.now ≡ bytes_from self.now a }
    {
        let at = (a - self.start) as usize;
        &self.bytes.as_slice()[at..]
    }

    /// The number in the `n` bytes from `a` on.
    pub fn number(&self, a: u64, n: u8) -> Option<u64>
        requires width { IsWidth n }
        requires held { IsTrue (holds a n self.now) }
        ensures value { result ≡ Some (little_endian (take n (bytes_from self.now a))) }
        ensures fits { MatchOption result (Unit {0}) (λ v. v < 256 ^ n) }
    {
        number(self.bytes.as_slice(), a - self.start, n)
    }

    /// Writes `new` from `a` on.
    pub fn write(&mut self, a: u64, new: &[u8])
        requires { IsTrue (holds a (length new.now) self.old) }
        ensures { self.new ≡ written a new.now self.old }
    {
        let at = (a - self.start) as usize;
        let end = at + new.len();
        self.bytes.as_mut_slice()[at..end].copy_from_slice(new);
    }
}

/// The number in the `n` bytes at `at`. None exactly where they pass the end.
fn number(bytes: &[u8], at: u64, n: u8) -> Option<u64>
    requires { IsWidth n }
    ensures value { result ≡ field n bytes.now at }
    ensures fits { MatchOption result (Unit {0}) (λ v. v < 256 ^ n) }
{
    match n {
        1 => bytes.get(at as usize).map(|byte| u64::from(*byte)),
        4 => field_u32(bytes, at).map(u64::from),
        _ => field_u64(bytes, at),
    }
}
