//! The memory of a process.
ghost use Rattle.std.specs.Prelude.{◌≡◌, ℕ, ◌<◌, ◌≤◌, ◌^◌, ◌++◌, ◌↔◌, [], false, length, drop, replicate, IsTrue, OnOk, OnErr, IfOk, IfErr, IfSome, MatchOption};
ghost use Rattle.std.specs.Option.{ok_or};
ghost use Rattle.cet_machine.specs.Memory.{load, store, shadow_load, shadow_store, fetched, code_at, held, fill, place, legal, bytes_at, stored, is_any, is_write, is_range_of_pages, AreDisjoint};
ghost use Rattle.cet_mem.specs.Access.{IsWidth};

use crate::block::Block;
use crate::blocks::{count_up_to, holder, is_free, write};
use cet_base::NoMemory;
use cet_machine::Kind;
use std::alloc::Global;
use std::marker::Model;

/// A region of more bytes is answered as `NoMemory` before any are taken: 1 GiB.
pub const REGION_LIMIT: u64 = 1 << 30;

/// User addresses lie below this one (SDM volume 1, 3.3.7.1).
const USER_END: u64 = 1 << 47;

/// The bytes of a page.
const PAGE: u64 = 4096;

/// System calls map regions from here on, and each so far from all others that no store near one's end reaches the next: this project's own.
const LEGAL_START: u64 = 1 << 32;

const GAP: u64 = 65536;

/// A page fault: the first address of an access that no one region of an allowed kind holds.
#[derive(Clone, Copy, Debug, PartialEq, Eq)]
pub struct Pf {
    pub addr: u64,
}

/// Why a region was not added.
#[derive(Clone, Copy, Debug, PartialEq, Eq)]
pub enum MapError {
    /// No region may be placed, or mapped, in the range.
    Illegal,
    /// There was no memory for it.
    NoMemory,
}

/// The memory of a process, seen as a list of regions.
#[derive(Drop)]
pub struct Memory {
    alloc: Global,
    blocks: Vec<Block>,
}

impl Model for Memory {
    ghost use Rattle.std.specs.Prelude.{List};
    ghost use Rattle.cet_machine.specs.declared.memory.Region.{Region};
    ghost use Rattle.cet_mem.specs.Order.{AreInOrder};

    ghost Value = { List Region };

    ghost view = { λ m. m.blocks.items };

    ghost invariant = { λ m. AreInOrder m.blocks.items };
}

impl Memory {
    /// Memory without a region. It takes none.
    pub fn new(alloc: Global) -> Memory
        ensures { result ≡ [] }
    {
        Memory {
            alloc,
            blocks: Vec::new(alloc),
        }
    }

    /// No address lies in two regions.
    pub fn regions_are_disjoint(&self)
        ensures { AreDisjoint self.now }
    {
        let _ = &self.blocks;
    }

    /// The number in the `n` bytes from `a` on, lowest byte first, in a region of any kind. `n` is 1, 4 or 8.
    pub fn load(&self, a: u64, n: u8) -> Result<u64, Pf>
        requires { IsWidth n }
        ensures value { result ≡ ok_or (load self.now a n) (record { addr = a }) }
        ensures fits { IfOk result (λ v. v < 256 ^ n) }
    {
        let fault = Pf { addr: a };
        let Some(i) = holder(self.blocks.as_slice(), a, u64::from(n)) else {
            return Err(fault);
        };
        let block = &self.blocks[i];
        block.number(a, n).ok_or(fault)
    }

    /// Writes the low `n` bytes of `v`, lowest byte first, from `a` on, in a Write region. `n` is 1, 4 or 8.
    pub fn store(&mut self, a: u64, n: u8, v: u64) -> Result<(), Pf>
        requires { IsWidth n }
        ensures ok { OnOk result (store self.old a n v ≡ Some self.new) }
        ensures err { IfErr result (λ e. (e.addr ≡ a) × (store self.old a n v ≡ None)) }
        ensures unchanged { OnErr result (self.new ≡ self.old) }
    {
        let fault = Pf { addr: a };
        let Some(i) = holder(self.blocks.as_slice(), a, u64::from(n)) else {
            return Err(fault);
        };
        let block = &self.blocks[i];
        if !block.is_write() {
            return Err(fault);
        }
        let low = v.to_le_bytes();
        write(&mut self.blocks, i, a, &low[..n as usize]);
        Ok(())
    }

    /// The 8-byte word at `a`, lowest byte first, in a Shadow region (SDM volume 1, "Shadow Stacks").
    pub fn shadow_load(&self, a: u64) -> Result<u64, Pf>
        ensures { result ≡ ok_or (shadow_load self.now a) (record { addr = a }) }
    {
        let fault = Pf { addr: a };
        let Some(i) = holder(self.blocks.as_slice(), a, 8) else {
            return Err(fault);
        };
        let block = &self.blocks[i];
        if !block.is_shadow() {
            return Err(fault);
        }
        block.number(a, 8).ok_or(fault)
    }

    /// Writes the word `v`, lowest byte first, at `a`, in a Shadow region (SDM volume 1, "Shadow Stacks").
    pub fn shadow_store(&mut self, a: u64, v: u64) -> Result<(), Pf>
        ensures ok { OnOk result (shadow_store self.old a v ≡ Some self.new) }
        ensures err { IfErr result (λ e. (e.addr ≡ a) × (shadow_store self.old a v ≡ None)) }
        ensures unchanged { OnErr result (self.new ≡ self.old) }
    {
        let fault = Pf { addr: a };
        let Some(i) = holder(self.blocks.as_slice(), a, 8) else {
            return Err(fault);
        };
        let block = &self.blocks[i];
        if !block.is_shadow() {
            return Err(fault);
        }
        let word = v.to_le_bytes();
        write(&mut self.blocks, i, a, &word);
        Ok(())
    }

    // The bytes from `a` to the end of the Code region that holds `a`, and none where no such region does.
    fn code(&self, a: u64) -> &[u8]
        ensures { result.now ≡ code_at self.now a }
    {
        let Some(i) = holder(self.blocks.as_slice(), a, 1) else {
            return &[];
        };
        let block = &self.blocks[i];
        if !block.is_code() {
            return &[];
        }
        block.bytes_from(a)
    }

    /// Copies the first bytes of code from `a` on to the start of `buf`: as many as the Code region that holds `a` has from
    /// there, and 15 at most. It answers how many; 0 where no Code region holds `a`.
    pub fn fetch(&self, a: u64, buf: &mut [u8; 15]) -> u8
        ensures count { result ≡ length (fetched self.now a) }
        ensures bytes { buf.new ≡ fetched self.now a ++ drop result buf.old }
    {
        let code = self.code(a);
        let count = code.len().min(15);
        buf[..count].copy_from_slice(&code[..count]);
        count as u8
    }

    /// Writes `bytes`, of which there is one at least, from `a` on, in one region of any kind.
    pub fn fill(&mut self, a: u64, bytes: &[u8]) -> Result<(), Pf>
        requires { 0 < length bytes.now }
        ensures ok { OnOk result (fill self.old a bytes.now ≡ Some self.new) }
        ensures err { IfErr result (λ e. (e.addr ≡ a) × (fill self.old a bytes.now ≡ None)) }
        ensures unchanged { OnErr result (self.new ≡ self.old) }
    {
        let Some(i) = holder(self.blocks.as_slice(), a, bytes.len() as u64) else {
            return Err(Pf { addr: a });
        };
        write(&mut self.blocks, i, a, bytes);
        Ok(())
    }

    /// The bytes from `a` to the end of the one region that holds the `n` bytes there. None exactly where no one region holds them. `n` is
    /// not 0.
    pub fn bytes_at(&self, a: u64, n: u64) -> Option<&[u8]>
        requires { 0 < n }
        ensures bytes { MatchOption result (bytes_at is_any self.now a n ≡ None) (λ bytes. bytes_at is_any self.now a n ≡ Some bytes.now) }
        ensures enough { IfSome result (λ bytes. n ≤ length bytes.now) }
    {
        let i = holder(self.blocks.as_slice(), a, n)?;
        let block = &self.blocks[i];
        Some(block.bytes_from(a))
    }

    /// Writes `bytes`, of which there is one at least, from `a` on, in a Write region.
    pub fn store_bytes(&mut self, a: u64, bytes: &[u8]) -> Result<(), Pf>
        requires { 0 < length bytes.now }
        ensures ok { OnOk result (stored is_write self.old a bytes.now ≡ Some self.new) }
        ensures err { IfErr result (λ e. (e.addr ≡ a) × (stored is_write self.old a bytes.now ≡ None)) }
        ensures unchanged { OnErr result (self.new ≡ self.old) }
    {
        let fault = Pf { addr: a };
        let Some(i) = holder(self.blocks.as_slice(), a, bytes.len() as u64) else {
            return Err(fault);
        };
        let block = &self.blocks[i];
        if !block.is_write() {
            return Err(fault);
        }
        write(&mut self.blocks, i, a, bytes);
        Ok(())
    }

    /// The kind of the one region that holds all `len` bytes from `a` on. None exactly where no one region holds them. `len`
    /// is not 0.
    pub fn held(&self, a: u64, len: u64) -> Option<Kind>
        requires { 0 < len }
        ensures { result ≡ held self.now a len }
    {
        let i = holder(self.blocks.as_slice(), a, len)?;
        let block = &self.blocks[i];
        Some(block.kind())
    }

    /// Whether one region of this kind holds all `len` bytes from `a` on. `len` is not 0.
    pub fn is_held(&self, a: u64, len: u64, kind: Kind) -> bool
        requires { 0 < len }
        ensures { IsTrue result ↔ (held self.now a len ≡ Some kind) }
    {
        match self.held(a, len) {
            Some(found) => found == kind,
            None => false,
        }
    }

    /// Whether a system call may map the `len` bytes from `at`: whole pages, one at least, from 2^32 to 2^47, where no region has an address
    /// in them or in the 65,536 bytes on either side.
    pub fn legal(&self, at: u64, len: u64) -> bool
        ensures { result ≡ legal self.now at len }
    {
        if !is_range_of_pages(at, len) || at < LEGAL_START {
            return false;
        }
        is_free(self.blocks.as_slice(), at - GAP, at + len + GAP)
    }

    /// Adds a region of `len` bytes 0 from `at` on. `Illegal` exactly where `at` or `len` is no multiple of 4,096, `len` is 0,
    /// the sum passes 2^47, or a region has an address in the range. An error leaves the memory as it was.
    pub fn place(&mut self, at: u64, len: u64, kind: Kind) -> Result<(), MapError>
        ensures ok { OnOk result (place self.old at len kind ≡ Some self.new) }
        ensures illegal { (result ≡ Err MapError.Illegal) ↔ (place self.old at len kind ≡ None) }
        ensures unchanged { OnErr result (self.new ≡ self.old) }
    {
        if !is_range_of_pages(at, len) || !is_free(self.blocks.as_slice(), at, at + len) {
            return Err(MapError::Illegal);
        }
        let Ok(bytes) = zeros(self.alloc, len) else {
            return Err(MapError::NoMemory);
        };
        let i = count_up_to(self.blocks.as_slice(), at);
        let Ok(()) = self.blocks.insert(i, Block::new(at, kind, bytes)) else {
            return Err(MapError::NoMemory);
        };
        Ok(())
    }

    /// Adds a region of `len` bytes 0 from `at` on, where a system call may map one. `Illegal` exactly where that is not `legal`. An error
    /// leaves the memory as it was.
    pub fn map(&mut self, at: u64, len: u64, kind: Kind) -> Result<(), MapError>
        ensures ok { OnOk result (place self.old at len kind ≡ Some self.new) }
        ensures illegal { (result ≡ Err MapError.Illegal) ↔ (legal self.old at len ≡ false) }
        ensures unchanged { OnErr result (self.new ≡ self.old) }
    {
        if !self.legal(at, len) {
            return Err(MapError::Illegal);
        }
        self.place(at, len, kind)
    }
}

// Whether `at` and `len` are whole pages, one at least, that end within the user addresses.
fn is_range_of_pages(at: u64, len: u64) -> bool
    ensures { result ≡ is_range_of_pages at len }
{
    at % PAGE == 0 && len % PAGE == 0 && len > 0 && at <= USER_END && len <= USER_END - at
}

// `len` bytes 0, where there is memory for them and the limit is kept.
fn zeros(alloc: Global, len: u64) -> Result<Vec<u8>, NoMemory>
    ensures { IfOk result (λ v. v.items ≡ replicate len 0) }
{
    if len > REGION_LIMIT {
        return Err(NoMemory);
    }
    Ok(vec![in alloc; 0; len as usize]?)
}
