//! The 46 instruction values, the whole table of their forms as bytes, their texts, the registers of a thread, and the faults that end it.
//! The definitions `Form` (bytes of a value, by the opcode maps), `decoded` (the form at the head of a list), `canonical` (the form that an
//! encoder writes) and `text` stand in `specs/`. The laws of `law` say that they agree, that no form begins another and that no two values
//! have one text. `write_text` writes `text`.
#![tactic(auto)]

mod decode_error;
mod fault;
mod instruction;
pub mod law;
mod operand;
mod operation;
mod register;
mod registers;
mod text;

pub use decode_error::DecodeError;
pub use fault::Fault;
pub use instruction::Insn;
pub use operand::{Mem, Rel, Rm, Width};
pub use operation::{AluOp, Cond, MulDivOp, ShiftCount, ShiftOp, UnOp};
pub use register::Reg;
pub use registers::{Flags, Mode, Regs};
pub use text::{TEXT_LIMIT, put_text, write_text};
