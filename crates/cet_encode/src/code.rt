//! The bytes of one instruction.
ghost use Rattle.std.specs.Prelude.{◌≡◌, ◌+◌, ◌<◌, ◌≤◌, [], ◌∷◌, ◌++◌, length};

use std::fmt;
use std::marker::Model;

/// The most bytes that an instruction has (SDM volume 2, 2.3.11).
pub const CODE_LIMIT: usize = 15;

/// The bytes of one instruction, at most 15. Contracts see a list. It takes no memory.
#[derive(Drop)]
pub struct Code {
    bytes: [u8; CODE_LIMIT],
    len: usize,
}

impl Model for Code {
    ghost use Rattle.std.specs.Prelude.{ℕ, List, ◌≤◌, take};
    ghost use Rattle.cet_encode.specs.declared.code.TheConstants.{CODE_LIMIT};

    ghost Value = { List ℕ };

    ghost view = { λ code. take code.len code.bytes };

    ghost invariant = { λ code. code.len ≤ CODE_LIMIT };
}

impl Code {
    /// No byte yet.
    pub(crate) fn empty() -> Code
        ensures { result ≡ [] }
    {
        Code {
            bytes: [0; CODE_LIMIT],
            len: 0,
        }
    }

    /// These bytes.
    pub(crate) fn of(bytes: &[u8]) -> Code
        requires { length bytes.now ≤ CODE_LIMIT }
        ensures { result ≡ bytes.now }
    {
        let mut code = Code::empty();
        code.append(bytes);
        code
    }

    /// Adds a byte at the end.
    pub(crate) fn push(&mut self, byte: u8)
        requires { length self.old < CODE_LIMIT }
        ensures { self.new ≡ self.old ++ byte ∷ [] }
    {
        self.bytes[self.len] = byte;
        self.len += 1;
    }

    /// Adds bytes at the end.
    pub(crate) fn append(&mut self, bytes: &[u8])
        requires { length self.old + length bytes.now ≤ CODE_LIMIT }
        ensures { self.new ≡ self.old ++ bytes.now }
    {
        for byte in bytes {
            self.push(*byte);
        }
    }

    /// The number of bytes, at most 15.
    pub fn len(&self) -> usize
        ensures length { result ≡ length self.now }
        ensures bound { result ≤ CODE_LIMIT }
    {
        self.len
    }

    /// The bytes as a slice, of length 15 at most.
    pub fn as_bytes(&self) -> &[u8]
        ensures bytes { result.now ≡ self.now }
        ensures bound { length result.now ≤ CODE_LIMIT }
    {
        &self.bytes[..self.len]
    }
}

impl fmt::Debug for Code {
    fn fmt<W: fmt::Write>(&self, f: &mut fmt::Formatter<W>) -> fmt::Result {
        f.debug_list().entries(self.as_bytes()).finish()
    }
}
