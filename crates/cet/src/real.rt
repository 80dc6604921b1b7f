//! The real files and outputs, as the traits of `cet_base` have them. They tell nothing of what they hold, and count their
//! failures.

ghost use Rattle.std.specs.Prelude.{◌≤◌, None, IfOk, length};

use cet_base::{Failed, Files, Sink};
use std::fs::{File, OpenFile, Permissions};
use std::io::{self, ErrorKind, Read, Seek, SeekFrom, Write};
use std::os::unix::fs::PermissionsExt;
use std::path::{Path, PathBuf};
use std::{fs, rt};

/// The files of the system.
#[derive(Drop)]
pub struct RealFiles<'a, R: rt::Files> {
    pub rt: &'a R,
    pub faults: u64,
}

// Reads what `buf` has room for from the offset `at` on.
fn read_at<R: rt::Files>(rt: &R, name: &str, at: u64, buf: &mut [u8]) -> io::Result<usize>
    ensures { IfOk result (λ n. n ≤ length buf.old) }
{
    let mut file = fs::open(rt, name)?;
    file.seek(SeekFrom::Start(at))?;
    file.read(buf)
}

// How many names are tried for a file that is to be written.
const NAMES: u32 = 1000;

// Makes a new file in the folder of `path`, under the first of some names that no file has.
fn create_beside<R: rt::Files + AllocGlobal>(
    rt: &R,
    path: Path<'_>,
) -> io::Result<(R::File, PathBuf)> {
    for n in 0..NAMES {
        let name = format!(in rt.alloc(); ".cet-{n}.tmp")?;
        let beside = path.with_file_name(rt.alloc(), &name)?;
        match File::create_new(rt, &beside) {
            Ok(file) => return Ok((file, beside)),
            Err(e) if e.kind() == ErrorKind::AlreadyExists => {}
            Err(e) => return Err(e),
        }
    }
    Err(io::Error::from(ErrorKind::AlreadyExists))
}

// Whether the bytes are an ELF file whose e_type, the two bytes at 16, is ET_EXEC.
fn is_program(bytes: &[u8]) -> bool {
    bytes.starts_with(b"\x7fELF") && bytes.get(16) == Some(&2) && bytes.get(17) == Some(&0)
}

// Gives a new file its bytes and these permissions, or keeps its own, and waits until the disk has them. Those who may read an executable may run it.
fn fill<F: Write + OpenFile>(
    file: &mut F,
    bytes: &[u8],
    permissions: Option<Permissions>,
) -> io::Result<()> {
    let mut permissions = match permissions {
        Some(permissions) => permissions,
        None => file.metadata()?.permissions(),
    };
    if is_program(bytes) {
        let mode = permissions.mode();
        permissions.set_mode(mode | (mode & 0o444) >> 2);
    }
    file.set_permissions(permissions)?;
    file.write_all(bytes)?;
    file.sync_all()
}

// Writes the bytes to a new file beside `path` and puts that in its place, so that at each moment the old bytes or the new ones are there
// as a whole. Where it fails, the new file is removed.
fn renew<R: rt::Files + AllocGlobal>(
    rt: &R,
    path: Path<'_>,
    bytes: &[u8],
    permissions: Option<Permissions>,
) -> io::Result<()> {
    let (mut file, beside) = create_beside(rt, path)?;
    let mut done = fill(&mut file, bytes, permissions);
    if done.is_ok() {
        done = fs::rename(rt, &beside, path);
    }
    if done.is_err() {
        let _ = fs::remove_file(rt, &beside);
    }
    done
}

// Makes `bytes` the contents of the file `name`, which keeps its permissions if it was there. A link is followed. What is no regular file, as
// a terminal or a pipe, is written in place.
fn replace_file<R: rt::Files + AllocGlobal>(rt: &R, name: &str, bytes: &[u8]) -> io::Result<()> {
    let old = match fs::metadata(rt, name) {
        Ok(old) => old,
        Err(e) if e.kind() == ErrorKind::NotFound => {
            return renew(rt, Path::new(name), bytes, None);
        }
        Err(e) => return Err(e),
    };
    if !old.is_file() {
        return fs::write(rt, name, bytes);
    }
    let path = fs::canonicalize(rt, name)?;
    renew(rt, path.as_path(), bytes, Some(old.permissions()))
}

impl<R: rt::Files + AllocGlobal> Files for RealFiles<'_, R> {
    ghost contents = { λ _. None };

    ghost faults = { λ files. files.faults };

    fn read(&mut self, name: &str, at: u64, buf: &mut [u8]) -> Result<usize, Failed> {
        match read_at(self.rt, name, at, buf) {
            Ok(n) => Ok(n),
            Err(_) => {
                self.faults = self.faults.saturating_add(1);
                Err(Failed)
            }
        }
    }

    /// The new bytes are written beside the file and renamed over it: after a failure the old file stands.
    fn replace(&mut self, name: &str, bytes: &[u8]) -> Result<(), Failed> {
        match replace_file(self.rt, name, bytes) {
            Ok(()) => Ok(()),
            Err(_) => {
                self.faults = self.faults.saturating_add(1);
                Err(Failed)
            }
        }
    }
}

/// An output of the system.
#[derive(Drop)]
pub struct RealSink<W: Write + Drop> {
    pub to: W,
    pub faults: u64,
}

impl<W: Write + Drop> Sink for RealSink<W> {
    ghost bytes = { λ _. None };

    ghost faults = { λ sink. sink.faults };

    fn write(&mut self, piece: &[u8]) -> Result<usize, Failed> {
        match self.to.write(piece) {
            Ok(n) if n != 0 || piece.is_empty() => Ok(n),
            _ => {
                self.faults = self.faults.saturating_add(1);
                Err(Failed)
            }
        }
    }
}
