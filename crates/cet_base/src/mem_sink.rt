//! An output in memory.
ghost use Rattle.std.specs.Prelude.{◌≡◌, ◌≢◌, ◌+◌, ◌-◌, ◌<◌, ◌≤◌, ◌⊎◌, ◌++◌, ◌↔◌, List, [], ℕ, Some, length, take, min, IfOk, OnOk, OnErr, IsOk};
ghost use Rattle.cet_base.specs.Faults.{Rose, raised};
ghost use Rattle.cet_base.specs.Sink.{Gains, GainsPart};

use crate::outcomes::{Failed, NoMemory};
use crate::writing::Sink;
use std::alloc::Global;
use std::marker::Model;

/// An output in memory, which tells what it took, and has room for a number of bytes that is set when it is made.
#[derive(Drop)]
pub struct MemSink {
    taken: Vec<u8>,
    room: u64,
    most: u64,
    faults: u64,
}

impl Model for MemSink {
    ghost use Rattle.std.specs.Prelude.{◌+◌, ◌<◌, ◌≤◌, vec_len, vec_capacity};
    ghost use Rattle.cet_base.specs.MemSink.{SinkState};

    ghost Value = { SinkState };

    ghost view = { λ sink. record { bytes = sink.taken.items; room = sink.room; most = sink.most; faults = sink.faults } };

    ghost invariant = { λ sink. (vec_len sink.taken + sink.room ≤ vec_capacity sink.taken) × (0 < sink.most) };
}

impl MemSink {
    /// An output that has taken nothing, with room for `room` bytes, of which one write takes at most `most`.
    pub fn new(alloc: Global, most: u64, room: u64) -> Result<MemSink, NoMemory>
        requires { most ≢ 0 }
        ensures { IfOk result (λ sink. sink ≡ record { bytes = []; room = room; most = most; faults = 0 }) }
    {
        Ok(MemSink {
            taken: Vec::with_capacity(alloc, room as usize)?,
            room,
            most,
            faults: 0,
        })
    }

    /// The bytes taken so far.
    pub fn bytes(&self) -> &[u8]
        ensures { result.now ≡ self.now.bytes }
    {
        self.taken.as_slice()
    }
}

impl Sink for MemSink {
    ghost bytes = { λ sink. Some sink.bytes };

    ghost faults = { λ sink. sink.faults };

    /// Takes no memory, and at most as many bytes as one write may and as there is room for. A piece that is not empty fails exactly
    /// where the output is full, and nothing is taken then.
    fn write(&mut self, piece: &[u8]) -> Result<usize, Failed>
        ensures faults { self.old.faults ≤ self.new.faults }
        ensures bound { IfOk result (λ n. n ≤ length piece.now) }
        ensures some { IfOk result (λ n. 0 < length piece.now → 0 < n) }
        ensures taken { IfOk result (λ n. Gains (Some self.old.bytes) (Some self.new.bytes) (take n piece.now)) }
        ensures failed { OnErr result (Rose self.old.faults self.new.faults) }
        ensures part { OnErr result (GainsPart (Some self.old.bytes) (Some self.new.bytes) piece.now) }

        // What is taken, and when a write fails.
        ensures count { IfOk result (λ n. n ≡ min (min (length piece.now) self.old.most) self.old.room) }
        ensures ok { IfOk result (λ n. self.new ≡ record self.old { bytes = self.old.bytes ++ take n piece.now; room = self.old.room - n }) }
        ensures full { OnErr result ((self.old.room ≡ 0) × (0 < length piece.now)) }
        ensures err { OnErr result (self.new ≡ record self.old { faults = raised self.old.faults }) }
    {
        let n = (piece.len() as u64).min(self.most).min(self.room);
        if n == 0 && !piece.is_empty() {
            self.faults = self.faults.saturating_add(1);
            return Err(Failed);
        }
        self.taken.extend_from_slice(&piece[..n as usize]).unwrap();
        self.room -= n;
        Ok(n as usize)
    }
}
