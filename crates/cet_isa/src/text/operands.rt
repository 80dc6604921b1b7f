//! Operands: registers, memory, constants, counts and displacements.
ghost use Rattle.std.specs.Prelude.{◌≡◌, ℕ, ◌+◌, ◌≤◌, List, ◌++◌, length};
ghost use Rattle.std.specs.Fmt.{decimal, signed_decimal};
ghost use Rattle.cet_base.specs.declared.line.TheConstants.{LINE_CAPACITY};
ghost use Rattle.cet_isa.specs.Text.{register_text, memory_text, operand_text, count_text, displacement_text, terms_text, index_text, added_text, added_unless_0};

use crate::operand::{Mem, Rm};
use crate::operation::ShiftCount;
use crate::register::Reg;
use crate::text::names::register_name;
use cet_base::Line;

/// An operand that has a text.
pub(crate) trait Operand: Copy {
    // The text.
    ghost text: { Self → List ℕ };

    // No text has more bytes.
    ghost limit: { ℕ };

    /// Adds the text to the line.
    fn put_on(self, line: &mut Line)
        requires { length line.old + limit ≤ LINE_CAPACITY }
        ensures text { line.new ≡ line.old ++ text self }
        ensures room { length line.new ≤ length line.old + limit };
}

impl Operand for Reg {
    ghost text = { register_text };

    ghost limit = { 3 };

    fn put_on(self, line: &mut Line) {
        line.put(register_name(self));
    }
}

/// A constant that is sign-extended.
impl Operand for i32 {
    ghost text = { signed_decimal };

    ghost limit = { 11 };

    fn put_on(self, line: &mut Line) {
        line.put_number(self);
    }
}

/// A constant of the operand's whole width.
impl Operand for u64 {
    ghost text = { decimal };

    ghost limit = { 20 };

    fn put_on(self, line: &mut Line) {
        line.put_number(self);
    }
}

impl Operand for ShiftCount {
    ghost text = { count_text };

    ghost limit = { 3 };

    fn put_on(self, line: &mut Line) {
        match self {
            ShiftCount::Imm(bits) => line.put_number(bits),
            ShiftCount::Cl => line.put(b"cl"),
        }
    }
}

/// A branch's displacement from the next instruction.
#[derive(Clone, Copy)]
pub(crate) struct Displacement(pub(crate) i32);

impl Operand for Displacement {
    ghost text = { λ d. displacement_text d.0 };

    ghost limit = { 12 };

    fn put_on(self, line: &mut Line) {
        line.put(b"$");
        line.put_number(self.0);
    }
}

impl Operand for Mem {
    ghost text = { memory_text };

    ghost limit = { 25 };

    fn put_on(self, line: &mut Line) {
        line.put(b"[");
        if self.rip {
            line.put(b"rip");
            put_added(line, self.disp);
        } else {
            put_terms(line, self);
        }
        line.put(b"]");
    }
}

impl Operand for Rm {
    ghost text = { operand_text };

    ghost limit = { 25 };

    fn put_on(self, line: &mut Line) {
        match self {
            Rm::Reg(reg) => reg.put_on(line),
            Rm::Mem(mem) => mem.put_on(line),
        }
    }
}

/// Adds the terms of an address that is not counted from the next instruction.
fn put_terms(line: &mut Line, mem: Mem)
    requires { length line.old + 23 ≤ LINE_CAPACITY }
    ensures text { line.new ≡ line.old ++ terms_text mem.base mem.index mem.scale mem.disp }
    ensures room { length line.new ≤ length line.old + 23 }
{
    match (mem.base, mem.index) {
        (None, None) => line.put_number(mem.disp),
        (Some(base), None) => {
            base.put_on(line);
            put_added_unless_0(line, mem.disp);
        }
        (None, Some(index)) => {
            put_index(line, index, mem.scale);
            put_added_unless_0(line, mem.disp);
        }
        (Some(base), Some(index)) => {
            base.put_on(line);
            line.put(b"+");
            put_index(line, index, mem.scale);
            put_added_unless_0(line, mem.disp);
        }
    }
}

fn put_index(line: &mut Line, index: Reg, scale: u8)
    requires { length line.old + 7 ≤ LINE_CAPACITY }
    ensures text { line.new ≡ line.old ++ index_text index scale }
    ensures room { length line.new ≤ length line.old + 7 }
{
    index.put_on(line);
    line.put(b"*");
    line.put_number(scale);
}

/// Adds a displacement after another term, with its sign.
fn put_added(line: &mut Line, disp: i32)
    requires { length line.old + 12 ≤ LINE_CAPACITY }
    ensures text { line.new ≡ line.old ++ added_text disp }
    ensures room { length line.new ≤ length line.old + 12 }
{
    if disp >= 0 {
        line.put(b"+");
    }
    line.put_number(disp);
}

fn put_added_unless_0(line: &mut Line, disp: i32)
    requires { length line.old + 12 ≤ LINE_CAPACITY }
    ensures text { line.new ≡ line.old ++ added_unless_0 disp }
    ensures room { length line.new ≤ length line.old + 12 }
{
    if disp != 0 {
        put_added(line, disp);
    }
}
