//! Names of symbols and of registers.
ghost use Rattle.std.specs.Prelude.{◌≡◌, List};
ghost use Rattle.std.specs.List.{list_all};
ghost use Rattle.cet_syntax.specs.Name.{begins_name as begins, continues_name as continues, register_of, is_spelled_as_name as is_spelled, is_name as is_name_text, name_of};

use cet_isa::Reg;
use std::marker::Model;

/// The most bytes of a name.
pub const NAME_LIMIT: usize = 255;

/// The name of a symbol. Contracts see its bytes.
#[derive(Drop)]
pub struct Name<'a> {
    bytes: &'a [u8],
}

impl<'a> Model for Name<'a> {
    ghost use Rattle.std.specs.Prelude.{ℕ, List};

    ghost Value = { List ℕ };

    ghost view = { λ name. name.bytes.now };
}

impl<'a> Name<'a> {
    /// The name that the bytes are: a letter or `_`, then letters, digits and `_`, at most 255 bytes in all, and no register.
    pub fn read(bytes: &'a [u8]) -> Option<Name<'a>>
        ensures { result ≡ name_of bytes.now }
    {
        if is_name(bytes) {
            Some(Name { bytes })
        } else {
            None
        }
    }

    /// Its bytes, 1 to 255.
    pub fn as_bytes(&self) -> &'a [u8]
        ensures { result.now ≡ self.now }
    {
        self.bytes
    }

    /// The same name once more. It takes no memory.
    pub fn copied(&self) -> Name<'a>
        ensures { result ≡ self.now }
    {
        Name { bytes: self.bytes }
    }
}

/// The register of this name.
pub(crate) fn register(name: &[u8]) -> Option<Reg>
    ensures { result ≡ register_of name.now }
{
    match name {
        b"rax" => Some(Reg::Rax),
        b"rcx" => Some(Reg::Rcx),
        b"rdx" => Some(Reg::Rdx),
        b"rbx" => Some(Reg::Rbx),
        b"rsp" => Some(Reg::Rsp),
        b"rbp" => Some(Reg::Rbp),
        b"rsi" => Some(Reg::Rsi),
        b"rdi" => Some(Reg::Rdi),
        b"r8" => Some(Reg::R8),
        b"r9" => Some(Reg::R9),
        b"r10" => Some(Reg::R10),
        b"r11" => Some(Reg::R11),
        b"r12" => Some(Reg::R12),
        b"r13" => Some(Reg::R13),
        b"r14" => Some(Reg::R14),
        b"r15" => Some(Reg::R15),
        _ => None,
    }
}

fn begins_name(byte: u8) -> bool
    ensures { result ≡ begins byte }
{
    matches!(byte, b'A'..=b'Z' | b'a'..=b'z' | b'_')
}

/// Whether the byte is a letter, a digit or `_`.
pub(crate) fn continues_name(byte: u8) -> bool
    ensures { result ≡ continues byte }
{
    begins_name(byte) || byte.is_ascii_digit()
}

fn is_spelled_as_name(bytes: &[u8]) -> bool
    ensures { result ≡ is_spelled bytes.now }
{
    match bytes {
        [] => false,
        [first, rest @ ..] => begins_name(*first) && continue_name(rest),
    }
}

fn continue_name(bytes: &[u8]) -> bool
    ensures { result ≡ list_all continues bytes.now }
{
    bytes.iter().all(|byte| continues_name(*byte))
}

fn is_name(bytes: &[u8]) -> bool
    ensures { result ≡ is_name_text bytes.now }
{
    is_spelled_as_name(bytes) && bytes.len() <= NAME_LIMIT && register(bytes).is_none()
}
