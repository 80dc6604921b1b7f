use cet_base::Items;

/// The `size` addresses from `start` on that one function symbol names (gABI, "Symbol Table", STT_FUNC).
#[derive(Clone, Copy, Debug, PartialEq, Eq)]
pub struct Function {
    pub start: u64,
    pub size: u64,
}

pub type FunctionList = Items<Function>;
