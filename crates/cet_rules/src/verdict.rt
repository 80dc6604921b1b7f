/// What the certifier says of an image.
#[derive(Clone, Copy, Debug, PartialEq, Eq)]
pub enum Verdict {
    /// No rule is broken.
    Accepted,
    /// This rule is broken at this address, and none at a lower address, nor a lower one there.
    Refused { rule: u8, at: u64 },
}
