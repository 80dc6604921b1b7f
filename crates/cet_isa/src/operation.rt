/// An operation on two operands, in the order of its number in the opcode (SDM volume 2, B.1.4.2).
#[derive(Clone, Copy, Debug, PartialEq, Eq)]
pub enum AluOp {
    Add,
    Or,
    Adc,
    Sbb,
    And,
    Sub,
    Xor,
    Cmp,
}

/// An operation on one operand.
#[derive(Clone, Copy, Debug, PartialEq, Eq)]
pub enum UnOp {
    Inc,
    Dec,
    Not,
    Neg,
}

/// A rotate or a shift.
#[derive(Clone, Copy, Debug, PartialEq, Eq)]
pub enum ShiftOp {
    Rol,
    Ror,
    Shl,
    Shr,
    Sar,
}

/// By how many bits a rotate or a shift goes.
#[derive(Clone, Copy, Debug, PartialEq, Eq)]
pub enum ShiftCount {
    /// A constant, 0 to 255.
    Imm(u8),
    /// The register CL.
    Cl,
}

/// A product or a quotient by way of rax and rdx.
#[derive(Clone, Copy, Debug, PartialEq, Eq)]
pub enum MulDivOp {
    Mul,
    /// IMUL with one operand.
    IMul1,
    Div,
    IDiv,
}

/// A condition on the flags (SDM volume 2, B.1.4.7); the two on parity are left out.
#[derive(Clone, Copy, Debug, PartialEq, Eq)]
pub enum Cond {
    O,
    No,
    B,
    Ae,
    E,
    Ne,
    Be,
    A,
    S,
    Ns,
    L,
    Ge,
    Le,
    G,
}
