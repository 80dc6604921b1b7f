//! Files in memory.
ghost use Rattle.std.specs.Prelude.{◌≡◌, ◌≢◌, ◌<◌, ◌≤◌, ◌⊎◌, ◌↔◌, List, ℕ, Some, None, IsNone, IsOk, length, take, drop, min, IfOk, OnOk, OnErr};
ghost use Rattle.std.specs.Option.{option_copied};
ghost use Rattle.cet_base.specs.Faults.{Rose, raised};
ghost use Rattle.cet_base.specs.Files.{FileMeets, IsToldAbsent, IsPart, OthersStay, Replaces};
ghost use Rattle.cet_base.specs.MemFiles.{contents_of, rooms_of, room_at, HasRoom, faults_of};

use crate::lists::Bytes;
use crate::outcomes::{Failed, NoMemory};
use crate::reading::Files;
use std::alloc::Global;
use std::collections::BTreeMap;

// A name: its file, if there is one, and as many bytes as its next replacement may have, if room was taken for it.
#[derive(Drop)]
struct Place {
    held: Option<Bytes>,
    room: Option<Vec<u8>>,
}

impl Place {
    // Makes `bytes` the contents, in the memory of the room, which is used up whether they fit or not.
    fn replace(&mut self, bytes: &[u8]) -> Result<(), Failed>
        ensures when { IsOk result ↔ HasRoom (room_at self.old) (length bytes.now) }
        ensures replaced { OnOk result (self.new.held ≡ Some bytes.now) }
        ensures err { OnErr result (self.new.held ≡ self.old.held) }
        ensures used { self.new.room ≡ None }
    {
        let Some(mut room) = self.room.take() else {
            return Err(Failed);
        };
        if room.len() < bytes.len() {
            return Err(Failed);
        }
        room.truncate(bytes.len());
        room.copy_from_slice(bytes);
        self.held = Some(Bytes::from_vec(room));
        Ok(())
    }
}

/// Files in memory, which tell what they hold. A file is replaced only where `room` took the memory for it before.
#[derive(Drop)]
pub struct MemFiles {
    alloc: Global,
    files: BTreeMap<String, Place>,
    faults: u64,
}

impl MemFiles {
    /// No file, no room and no fault.
    pub fn new(alloc: Global) -> MemFiles
        ensures empty { (name : List ℕ) → contents_of result name ≡ None }
        ensures no_room { (name : List ℕ) → rooms_of result name ≡ None }
        ensures faults { faults_of result ≡ 0 }
    {
        MemFiles {
            alloc,
            files: BTreeMap::new(alloc),
            faults: 0,
        }
    }

    /// Makes `bytes` the contents of the file `name`, whether it was there or not. `NoMemory` leaves all as before.
    pub fn put(&mut self, name: &str, bytes: &[u8]) -> Result<(), NoMemory>
        ensures put { OnOk result (contents_of self.new name.now ≡ Some bytes.now) }
        ensures others { OnOk result ((other : List ℕ) → other ≢ name.now → contents_of self.new other ≡ contents_of self.old other) }
        ensures err { OnErr result (contents_of self.new ≡ contents_of self.old) }
        ensures rooms { rooms_of self.new ≡ rooms_of self.old }
        ensures faults { faults_of self.new ≡ faults_of self.old }
    {
        let bytes = Bytes::from_slice(self.alloc, bytes)?;
        match self.files.get_mut(name) {
            Some(place) => place.held = Some(bytes),
            None => {
                let place = Place {
                    held: Some(bytes),
                    room: None,
                };
                self.files
                    .insert(String::from_str(self.alloc, name)?, place)?;
            }
        }
        Ok(())
    }

    /// Takes the memory for the next `replace` of the file `name`, of at most `len` bytes, which uses it up. It stands in place of room
    /// that was taken for this name before. `NoMemory` leaves all as before.
    pub fn room(&mut self, name: &str, len: u64) -> Result<(), NoMemory>
        ensures room { OnOk result (rooms_of self.new name.now ≡ Some len) }
        ensures others { OnOk result ((other : List ℕ) → other ≢ name.now → rooms_of self.new other ≡ rooms_of self.old other) }
        ensures err { OnErr result (rooms_of self.new ≡ rooms_of self.old) }
        ensures contents { contents_of self.new ≡ contents_of self.old }
        ensures faults { faults_of self.new ≡ faults_of self.old }
    {
        let room = vec![in self.alloc; 0u8; len as usize]?;
        match self.files.get_mut(name) {
            Some(place) => place.room = Some(room),
            None => {
                let place = Place {
                    held: None,
                    room: Some(room),
                };
                self.files
                    .insert(String::from_str(self.alloc, name)?, place)?;
            }
        }
        Ok(())
    }

    // Replaces the file in the memory that was taken for it, and counts no fault.
    fn use_room(&mut self, name: &str, bytes: &[u8]) -> Result<(), Failed>
        ensures when { IsOk result ↔ HasRoom (rooms_of self.old name.now) (length bytes.now) }
        ensures replaced { OnOk result (Replaces (Some (contents_of self.old)) (Some (contents_of self.new)) name.now bytes.now) }
        ensures err { OnErr result (contents_of self.new ≡ contents_of self.old) }
        ensures used { rooms_of self.new name.now ≡ None }
        ensures other_rooms { (other : List ℕ) → other ≢ name.now → rooms_of self.new other ≡ rooms_of self.old other }
        ensures faults { faults_of self.new ≡ faults_of self.old }
    {
        match self.files.get_mut(name) {
            Some(place) => place.replace(bytes),
            None => Err(Failed),
        }
    }

    /// The contents of the file `name`. None exactly where it is absent.
    pub fn get(&self, name: &str) -> Option<&[u8]>
        ensures { option_copied result ≡ contents_of self.now name.now }
    {
        let place = self.files.get(name)?;
        match &place.held {
            Some(bytes) => Some(bytes.as_slice()),
            None => None,
        }
    }
}

// Copies the bytes from `at` on to the start of `buf`, as many as there are and as it has room for, and answers how many.
fn copy_part(bytes: &[u8], at: u64, buf: &mut [u8]) -> usize
    ensures bound { result ≤ length buf.old }
    ensures part { IsPart bytes.now at result buf.new }
{
    let start = (at as usize).min(bytes.len());
    let rest = &bytes[start..];
    let n = rest.len().min(buf.len());
    buf[..n].copy_from_slice(&rest[..n]);
    n
}

impl Files for MemFiles {
    ghost contents = { λ files. Some (contents_of files) };

    ghost faults = { λ files. faults_of files };

    /// Takes no memory. The count of faults stands, and `Failed` comes exactly for an absent file.
    fn read(&mut self, name: &str, at: u64, buf: &mut [u8]) -> Result<usize, Failed>
        ensures contents { Some (contents_of self.new) ≡ Some (contents_of self.old) }
        ensures faults { faults_of self.old ≤ faults_of self.new }
        ensures bound { IfOk result (λ n. n ≤ length buf.old) }
        ensures part { IfOk result (λ n. FileMeets (Some (contents_of self.old)) name.now (λ bytes. IsPart bytes at n buf.new)) }
        ensures failed { OnErr result (Rose (faults_of self.old) (faults_of self.new) ⊎ IsToldAbsent (Some (contents_of self.old)) name.now) }
        ensures absent { OnErr result (contents_of self.old name.now ≡ None) }
        ensures rooms { rooms_of self.new ≡ rooms_of self.old }
        ensures count { faults_of self.new ≡ faults_of self.old }
    {
        match self.get(name) {
            Some(bytes) => Ok(copy_part(bytes, at, buf)),
            None => Err(Failed),
        }
    }

    /// Takes no memory. `Failed` comes exactly where there is no room for so many bytes, and leaves the contents as they were. The room of the
    /// name is used up.
    fn replace(&mut self, name: &str, bytes: &[u8]) -> Result<(), Failed>
        ensures faults { faults_of self.old ≤ faults_of self.new }
        ensures replaced { OnOk result (Replaces (Some (contents_of self.old)) (Some (contents_of self.new)) name.now bytes.now) }
        ensures failed { OnErr result (Rose (faults_of self.old) (faults_of self.new)) }
        ensures others { OnErr result (OthersStay (Some (contents_of self.old)) (Some (contents_of self.new)) name.now) }

        // When it fails, and what becomes of the count and the rooms.
        ensures when { IsOk result ↔ HasRoom (rooms_of self.old name.now) (length bytes.now) }
        ensures count { OnOk result (faults_of self.new ≡ faults_of self.old) }
        ensures raised { OnErr result (faults_of self.new ≡ raised (faults_of self.old)) }
        ensures err { OnErr result (contents_of self.new ≡ contents_of self.old) }
        ensures used { rooms_of self.new name.now ≡ None }
        ensures other_rooms { (other : List ℕ) → other ≢ name.now → rooms_of self.new other ≡ rooms_of self.old other }
    {
        let replaced = self.use_room(name, bytes);
        if replaced.is_err() {
            self.faults = self.faults.saturating_add(1);
        }
        replaced
    }
}
