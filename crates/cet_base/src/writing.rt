//! Outputs to write, and the writing of a whole piece.
ghost use Rattle.std.specs.Prelude.{◌≡◌, ◌<◌, ◌≤◌, List, ℕ, Option, length, take, IfOk, OnOk, OnErr};
ghost use Rattle.cet_base.specs.Faults.{Rose};
ghost use Rattle.cet_base.specs.Sink.{Gains, GainsPart};

use crate::outcomes::Failed;

/// An output that takes bytes.
pub trait Sink {
    // The bytes that were taken so far, where they are told.
    ghost bytes: { Self → Option (List ℕ) };

    // How many writes failed: a count that never falls.
    ghost faults: { Self → ℕ };

    /// Takes the first bytes of `piece`, and answers how many: one at least where the piece is not empty.
    /// `Failed` counts as a fault, and some first part of the piece may have been taken then.
    fn write(&mut self, piece: &[u8]) -> Result<usize, Failed>
        ensures faults { faults self.old ≤ faults self.new }
        ensures bound { IfOk result (λ n. n ≤ length piece.now) }
        ensures some { IfOk result (λ n. 0 < length piece.now → 0 < n) }
        ensures taken { IfOk result (λ n. Gains (bytes self.old) (bytes self.new) (take n piece.now)) }
        ensures failed { OnErr result (Rose (faults self.old) (faults self.new)) }
        ensures part { OnErr result (GainsPart (bytes self.old) (bytes self.new) piece.now) };
}

/// Writes the whole `piece`, in as many writes as the output asks for. After `Failed` some first part of it was taken.
pub fn write_all<O: Sink>(out: &mut O, piece: &[u8]) -> Result<(), Failed>
    ensures faults { O.faults out.old ≤ O.faults out.new }
    ensures taken { OnOk result (Gains (O.bytes out.old) (O.bytes out.new) piece.now) }
    ensures failed { OnErr result (Rose (O.faults out.old) (O.faults out.new)) }
    ensures part { OnErr result (GainsPart (O.bytes out.old) (O.bytes out.new) piece.now) }
{
    let mut done = 0;
    while done < piece.len() {
        done += out.write(&piece[done..])?;
    }
    Ok(())
}
