//! Spans of addresses.
ghost use Rattle.std.specs.Prelude.{◌↔◌, IsTrue};

/// An address: a place in the memory of a process or in a file.
pub type Addr = u64;

/// The `len` addresses from `start` on. Its end may lie past the last address, and every sum of it is exact.
#[derive(Debug, Clone, Copy, PartialEq, Eq)]
pub struct Span {
    pub start: u64,
    pub len: u64,
}

impl Span {
    ghost use Rattle.cet_base.specs.Span.{EndsBefore, Meets, Holds};

    /// Whether this span ends at or before the start of `other`.
    pub fn ends_before(self, other: Span) -> bool
        ensures { IsTrue result ↔ EndsBefore self other }
    {
        self.start <= other.start && self.len <= other.start - self.start
    }

    /// Whether some address lies in both spans. An empty span meets nothing.
    #[tactic(auto, using(crate::proofs::SpanLemmas::meets_at_second, crate::proofs::SpanLemmas::meets_at_first))]
    pub fn meets(self, other: Span) -> bool
        ensures { IsTrue result ↔ Meets self other }
    {
        if self.start <= other.start {
            other.len != 0 && other.start - self.start < self.len
        } else {
            self.len != 0 && self.start - other.start < other.len
        }
    }

    /// Whether `other` starts and ends within this span.
    pub fn holds(self, other: Span) -> bool
        ensures { IsTrue result ↔ Holds self other }
    {
        if other.start < self.start {
            return false;
        }
        let before = other.start - self.start;
        before <= self.len && other.len <= self.len - before
    }
}
