//! String tables and the names in them (gABI, "String Table").

ghost use Rattle.std.specs.Prelude.{◌≡◌, ℕ, nat_lt};
ghost use Rattle.cet_elf.specs.StringTable.{has_name, name_at};

use memchr::{memchr, memrchr};

/// A string table, with the offset behind its last zero byte: there is a name at each lower offset, and at no other one.
/// That offset is found once for a table, so that no name has to be gone through to see that it ends.
#[derive(Clone, Copy)]
pub struct Names<'a> {
    /// The bytes of the table.
    pub table: &'a [u8],
    end: usize,
    ghost ends: { (at : ℕ) → has_name table.now at ≡ nat_lt at end },
}

impl<'a> Names<'a> {
    pub fn new(table: &'a [u8]) -> Self
        ensures { result.table.now ≡ table.now }
    {
        let end = names_end(table);
        Names { table, end }
    }

    /// Whether there is a name at this offset.
    pub fn has(self, at: u32) -> bool
        ensures { result ≡ has_name self.entry.table.now at }
    {
        (at as usize) < self.end
    }

    /// The name at this offset: the bytes before the zero byte. It takes the time of the name.
    pub fn name(self, at: u32) -> &'a [u8]
        ensures { result.now ≡ name_at self.entry.table.now at }
    {
        name(self.table, at)
    }
}

// The name at an offset of a string table: the bytes before the zero byte. It takes the time of the name.
fn name(table: &[u8], at: u32) -> &[u8]
    ensures { result.now ≡ name_at table.now at }
{
    let start = table.len().min(at as usize);
    let rest = &table[start..];
    match memchr(0, rest) {
        Some(end) => &rest[..end],
        None => rest,
    }
}

// The offset behind the last zero byte of a string table: there is a name at each lower offset, and at no other one.
// It is found once for a table, so that no name has to be gone through to see that it ends.
fn names_end(table: &[u8]) -> usize
    ensures { (at : ℕ) → has_name table.now at ≡ nat_lt at result }
{
    match memrchr(0, table) {
        Some(last) => last + 1,
        None => 0,
    }
}
