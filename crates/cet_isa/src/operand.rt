use crate::register::Reg;

/// The width of an operand in bytes: 1, 4 or 8.
#[derive(Clone, Copy, Debug, PartialEq, Eq)]
pub enum Width {
    B1,
    B4,
    B8,
}

/// A memory operand: the address is base + index * scale + disp, or with `rip` the next instruction's address + disp
/// (SDM volume 2, 2.1.5 and 2.2.1.6). Without an index the scale is 1.
#[derive(Clone, Copy, Debug, PartialEq, Eq)]
pub struct Mem {
    pub base: Option<Reg>,
    pub index: Option<Reg>,
    pub scale: u8,
    pub disp: i32,
    pub rip: bool,
}

/// An operand that is a register or memory, as the ModRM byte gives it.
#[derive(Clone, Copy, Debug, PartialEq, Eq)]
pub enum Rm {
    Reg(Reg),
    Mem(Mem),
}

/// A branch's displacement from the next instruction: short (8 bits) or long (32 bits).
#[derive(Clone, Copy, Debug, PartialEq, Eq)]
pub enum Rel {
    S(i8),
    L(i32),
}
