//! The text that waits to be written in one piece.
ghost use Rattle.std.specs.Prelude.{◌≡◌, ◌+◌, ◌≤◌, List, ℕ, [], ◌++◌, length, IfOk, OnOk, OnErr, vec_len, vec_capacity};
ghost use Rattle.cet_base.specs.Faults.{Rose};
ghost use Rattle.cet_base.specs.Sink.{Gains, GainsPart};
ghost use Rattle.cet_listing.specs.declared.page.TheConstants.{PAGE_CAPACITY};

use cet_base::{Failed, NoMemory, Sink, write_all};
use std::alloc::Global;
use std::marker::Model;

/// The bytes that a page has room for.
const PAGE_CAPACITY: usize = 65536;

/// Room for the text that waits to be written. Contracts see the text that is in it.
#[derive(Drop)]
pub struct Page {
    text: Vec<u8>,
}

impl Model for Page {
    ghost Value = { List ℕ };

    ghost view = { λ page. page.text.items };

    ghost invariant = { λ page. (vec_len page.text ≤ PAGE_CAPACITY) × (PAGE_CAPACITY ≤ vec_capacity page.text) };
}

impl Page {
    /// An empty page. It takes the memory that a listing needs, and nothing else does.
    pub fn new(alloc: Global) -> Result<Page, NoMemory>
        ensures { IfOk result (λ page. page ≡ []) }
    {
        Ok(Page {
            text: Vec::with_capacity(alloc, PAGE_CAPACITY)?,
        })
    }

    /// Drops the text.
    pub(crate) fn clear(&mut self)
        ensures { self.new ≡ [] }
    {
        self.text.clear();
    }

    /// Adds the piece; where it has no room for it, it first writes the text that it has.
    pub(crate) fn put<O: Sink>(&mut self, piece: &[u8], out: &mut O) -> Result<(), Failed>
        requires { length piece.now ≤ PAGE_CAPACITY }
        ensures faults { O.faults out.old ≤ O.faults out.new }
        ensures taken { OnOk result ((written : List ℕ) × Gains (O.bytes out.old) (O.bytes out.new) written × (self.old ++ piece.now ≡ written ++ self.new)) }
        ensures failed { OnErr result (Rose (O.faults out.old) (O.faults out.new)) }
        ensures part { OnErr result (GainsPart (O.bytes out.old) (O.bytes out.new) self.old) }
    {
        if PAGE_CAPACITY - self.text.len() < piece.len() {
            self.flush(out)?;
        }
        self.text.extend_from_slice(piece).unwrap();
        Ok(())
    }

    /// Writes the text that it has, which leaves it empty.
    pub(crate) fn flush<O: Sink>(&mut self, out: &mut O) -> Result<(), Failed>
        ensures faults { O.faults out.old ≤ O.faults out.new }
        ensures taken { OnOk result (Gains (O.bytes out.old) (O.bytes out.new) self.old) }
        ensures empty { OnOk result (self.new ≡ []) }
        ensures failed { OnErr result (Rose (O.faults out.old) (O.faults out.new)) }
        ensures part { OnErr result (GainsPart (O.bytes out.old) (O.bytes out.new) self.old) }
    {
        write_all(out, self.text.as_slice())?;
        self.text.clear();
        Ok(())
    }
}
