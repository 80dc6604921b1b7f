/// Why a shadow stack operation is refused.
#[derive(Clone, Copy, Debug, PartialEq, Eq)]
pub enum ShadowFault {
    /// Page fault: no Shadow region holds the word at this address.
    Pf { addr: u64 },
    /// General protection.
    Gp,
    /// Control protection, error code 4 (RSTORSSP): the word is no restore token of its place.
    Cp4 { word: u64 },
}
