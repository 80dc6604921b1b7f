//! Files to read and to replace, and the reading of a whole file.
ghost use Rattle.std.specs.Prelude.{◌≡◌, ◌+◌, ◌-◌, ◌<◌, ◌≤◌, ◌⊎◌, ◌++◌, List, ℕ, Option, length, take, drop, vec_len, IfOk, IfErr, OnOk, OnErr, IsErrOf, min};
ghost use Rattle.cet_base.specs.Faults.{Rose};
ghost use Rattle.cet_base.specs.Files.{Contents, FileMeets, IsToldAbsent, IsPart, OthersStay, Replaces};

use crate::outcomes::Failed;
use std::alloc::{AllocError, Global};

/// Files by name.
pub trait Files {
    // What the files hold, where it is told.
    ghost contents: { Self → Option Contents };

    // How many calls failed: a count that never falls.
    ghost faults: { Self → ℕ };

    /// Reads bytes of the file `name` from the offset `at` on, and answers how many there are now at the start of `buf`.
    /// 0 into a buffer that is not empty is the end of the file. `Failed` counts as a fault, but for a file that is not there.
    fn read(&mut self, name: &str, at: u64, buf: &mut [u8]) -> Result<usize, Failed>
        ensures contents { contents self.new ≡ contents self.old }
        ensures faults { faults self.old ≤ faults self.new }
        ensures bound { IfOk result (λ n. n ≤ length buf.old) }
        ensures part { IfOk result (λ n. FileMeets (contents self.old) name.now (λ bytes. IsPart bytes at n buf.new)) }
        ensures failed { OnErr result (Rose (faults self.old) (faults self.new) ⊎ IsToldAbsent (contents self.old) name.now) };

    /// Makes `bytes` the whole contents of the file `name`, whether it was there or not. After `Failed`, which counts as a fault, it may
    /// hold anything or be gone. No other file changes.
    fn replace(&mut self, name: &str, bytes: &[u8]) -> Result<(), Failed>
        ensures faults { faults self.old ≤ faults self.new }
        ensures replaced { OnOk result (Replaces (contents self.old) (contents self.new) name.now bytes.now) }
        ensures failed { OnErr result (Rose (faults self.old) (faults self.new)) }
        ensures others { OnErr result (OthersStay (contents self.old) (contents self.new) name.now) };
}

/// The length in bytes of the longest file that `read_all` gives.
pub const FILE_LIMIT: usize = 16_777_216;

// How many bytes are asked of the file at once.
const PART: usize = 65_536;

/// Why a file was not read.
#[derive(Debug, Clone, Copy, PartialEq, Eq)]
pub enum ReadError {
    /// The file failed, or is not there.
    Failed,
    /// The file is longer than `FILE_LIMIT` bytes.
    TooLarge,
    /// There was no memory.
    NoMemory,
}

impl From<Failed> for ReadError {
    ghost use Rattle.cet_base.specs.declared.reading.ReadError.TheVariants.{Failed as FailedRead};

    ghost from_gives = { λ _ e. e ≡ FailedRead };

    fn from(_failed: Failed) -> ReadError {
        ReadError::Failed
    }
}

impl From<AllocError> for ReadError {
    ghost use Rattle.cet_base.specs.declared.reading.ReadError.TheVariants.{NoMemory};

    ghost from_gives = { λ _ e. e ≡ NoMemory };

    fn from(_refused: AllocError) -> ReadError {
        ReadError::NoMemory
    }
}

// Room for the bytes that are asked of the file at once.
fn buffer(alloc: Global) -> Result<Vec<u8>, AllocError>
    ensures { IfOk result (λ v. vec_len v ≡ PART) }
{
    vec![in alloc; 0u8; PART]
}

// Adds the next bytes of the file to `bytes`, as many as `part` has room for or fewer, and answers how many they are.
fn read_part<F: Files>(
    files: &mut F,
    name: &str,
    part: &mut [u8],
    bytes: &mut Vec<u8>,
) -> Result<usize, ReadError>
    requires room { 0 < length part.old }
    requires below { vec_len bytes.old ≤ FILE_LIMIT }
    ensures contents { F.contents files.new ≡ F.contents files.old }
    ensures faults { F.faults files.old ≤ F.faults files.new }
    ensures count { IfOk result (λ n. vec_len bytes.new ≡ vec_len bytes.old + n) }
    ensures limit { IfOk result (λ n. vec_len bytes.old + n ≤ FILE_LIMIT + 1) }
    ensures added { IfOk result (λ n. FileMeets (F.contents files.old) name.now (λ whole. bytes.new.items ≡ bytes.old.items ++ take n (drop (vec_len bytes.old) whole))) }
    ensures some { IfOk result (λ n. FileMeets (F.contents files.old) name.now (λ whole. vec_len bytes.old < length whole → 0 < n)) }
    ensures failed { IsErrOf result ReadError.Failed → (Rose (F.faults files.old) (F.faults files.new) ⊎ IsToldAbsent (F.contents files.old) name.now) }
    ensures small { IsErrOf result ReadError.TooLarge → ⊥ }
{
    // One byte more than the limit shows that the file is longer.
    let room = part.len().min(FILE_LIMIT + 1 - bytes.len());
    let n = files.read(name, bytes.len() as u64, &mut part[..room])?;
    bytes.extend_from_slice(&part[..n])?;
    Ok(n)
}

// The bytes of the file to its end, by way of `part`.
fn read_parts<F: Files>(
    alloc: Global,
    files: &mut F,
    name: &str,
    part: &mut [u8],
) -> Result<Vec<u8>, ReadError>
    requires { 0 < length part.old }
    ensures contents { F.contents files.new ≡ F.contents files.old }
    ensures faults { F.faults files.old ≤ F.faults files.new }
    ensures limit { IfOk result (λ bytes. vec_len bytes ≤ FILE_LIMIT) }
    ensures whole { IfOk result (λ bytes. FileMeets (F.contents files.old) name.now (λ whole. bytes.items ≡ whole)) }
    ensures failed { IsErrOf result ReadError.Failed → (Rose (F.faults files.old) (F.faults files.new) ⊎ IsToldAbsent (F.contents files.old) name.now) }
    ensures too_large { IsErrOf result ReadError.TooLarge → FileMeets (F.contents files.old) name.now (λ whole. FILE_LIMIT < length whole) }
{
    let mut bytes = Vec::new(alloc);
    'parts: while bytes.len() <= FILE_LIMIT {
        if read_part(files, name, part, &mut bytes)? == 0 {
            return Ok(bytes);
        }
    }
    Err(ReadError::TooLarge)
}

/// The bytes of the file `name` to its end.
///
/// It ends after at most one byte more than `FILE_LIMIT` is read, since each part asks for no more than is left to that number.
/// `NoMemory` may come at any time.
pub fn read_all<F: Files>(alloc: Global, files: &mut F, name: &str) -> Result<Vec<u8>, ReadError>
    ensures contents { F.contents files.new ≡ F.contents files.old }
    ensures faults { F.faults files.old ≤ F.faults files.new }
    ensures limit { IfOk result (λ bytes. vec_len bytes ≤ FILE_LIMIT) }
    ensures whole { IfOk result (λ bytes. FileMeets (F.contents files.old) name.now (λ whole. bytes.items ≡ whole)) }
    ensures failed { IsErrOf result ReadError.Failed → (Rose (F.faults files.old) (F.faults files.new) ⊎ IsToldAbsent (F.contents files.old) name.now) }
    ensures too_large { IsErrOf result ReadError.TooLarge → FileMeets (F.contents files.old) name.now (λ whole. FILE_LIMIT < length whole) }
{
    let mut part = buffer(alloc)?;
    read_parts(alloc, files, name, &mut part)
}
