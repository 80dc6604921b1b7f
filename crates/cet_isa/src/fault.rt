/// A fault that ends a process (SDM volume 3, 6.15). The first three are control protection, vector 21.
#[derive(Clone, Copy, Debug, PartialEq, Eq)]
pub enum Fault {
    /// Control protection, error code 1 (NEAR-RET): a return address differs from the word of the shadow stack.
    NearRet { popped: u64, shadow: u64 },
    /// Control protection, error code 3 (ENDBRANCH): an indirect branch landed on no ENDBR64.
    EndBranch,
    /// Control protection, error code 4 (RSTORSSP): the word is no restore token of its place.
    Rstor { word: u64 },
    /// Page fault: the first address of an access that no one region with the right kind holds.
    Page { addr: u64 },
    /// Undefined instruction.
    Undefined,
    /// General protection.
    General,
    /// The divisor is 0, or the quotient does not fit.
    Divide,
}
