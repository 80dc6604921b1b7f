//! The sequences of the sites.
ghost use Rattle.std.specs.Prelude.{◌≡◌, pos, negsuc, ◌+ℤ◌, ◌≤ℤ◌, false};
ghost use Rattle.cet_isa.specs.declared.instruction.Insn.TheVariants as insn;
ghost use Rattle.cet_isa.specs.declared.register.Reg.TheVariants.{Rax, Rcx, R8};
ghost use Rattle.cet_isa.specs.declared.operand.Width.TheVariants.{B8};
ghost use Rattle.cet_isa.specs.declared.operand.Rm.TheVariants as rm;
ghost use Rattle.cet_isa.specs.declared.operation.AluOp.TheVariants.{Cmp};
ghost use Rattle.cet_isa.specs.declared.operation.ShiftOp.TheVariants.{Shr};
ghost use Rattle.cet_isa.specs.declared.operation.ShiftCount.TheVariants as count;
ghost use Rattle.cet_isa.specs.declared.operation.Cond.TheVariants as cond;
ghost use Rattle.cet_asm.specs.Sequence.{plain as plain_of, at as at_of, absolute as absolute_of, store as store_of, load as load_of, lea as lea_of, copy as copy_of, subtract as subtract_of, set as set_of, set_to as set_to_of, publish as publish_of, test_rax as test_rax_of, push as push_of, pop as pop_of, syscall as syscall_of, read_shadow as read_shadow_of, land as land_of, release as release_of, throw as throw_of, switch as switch_of, take as take_of, jump_to as jump_to_of, fiber_make as fiber_make_of, spawn as spawn_of, action as action_of, read as read_of};

use crate::part::{Mark, Part};
use cet_isa::{AluOp, Cond, Insn, Mem, Reg, Rel, Rm, ShiftCount, ShiftOp, Width};
use cet_syntax::{Name, Reference, Template};

/// What a name stands for until it is linked, so that its field has 32 bits.
pub(crate) const STAND_IN: i32 = i32::MAX;

fn plain<'a>(insn: Insn) -> Part<'a>
    ensures { result ≡ plain_of insn }
{
    Part::Whole(Template {
        insn,
        memory: None,
        immediate: None,
    })
}

fn at(base: Reg, disp: i32) -> Mem
    ensures { result ≡ at_of base disp }
{
    Mem {
        base: Some(base),
        index: None,
        scale: 1,
        disp,
        rip: false,
    }
}

fn absolute() -> Mem
    ensures { result ≡ absolute_of }
{
    Mem {
        base: None,
        index: None,
        scale: 1,
        disp: STAND_IN,
        rip: false,
    }
}

fn store<'a>(base: Reg, disp: i32, src: Reg) -> Part<'a>
    ensures { result ≡ store_of base disp src }
{
    let dst = Rm::Mem(at(base, disp));
    plain(Insn::Mov {
        width: Width::B8,
        dst,
        src,
    })
}

fn load<'a>(dst: Reg, base: Reg, disp: i32) -> Part<'a>
    ensures { result ≡ load_of dst base disp }
{
    let src = Rm::Mem(at(base, disp));
    plain(Insn::MovLoad {
        width: Width::B8,
        dst,
        src,
    })
}

fn lea<'a>(dst: Reg, base: Reg, disp: i32) -> Part<'a>
    ensures { result ≡ lea_of dst base disp }
{
    plain(Insn::Lea {
        width: Width::B8,
        dst,
        mem: at(base, disp),
    })
}

fn copy<'a>(dst: Reg, src: Reg) -> Part<'a>
    ensures { result ≡ copy_of dst src }
{
    plain(Insn::Mov {
        width: Width::B8,
        dst: Rm::Reg(dst),
        src,
    })
}

fn subtract<'a>(dst: Reg, src: Reg) -> Part<'a>
    ensures { result ≡ subtract_of dst src }
{
    plain(Insn::Alu {
        op: AluOp::Sub,
        width: Width::B8,
        dst: Rm::Reg(dst),
        src,
    })
}

fn set<'a>(dst: Reg, imm: u32) -> Part<'a>
    ensures { result ≡ set_of dst imm }
{
    plain(Insn::MovAbs {
        width: Width::B4,
        dst,
        imm: u64::from(imm),
    })
}

fn set_to<'a>(dst: Reg, reference: Reference<'a>) -> Part<'a>
    ensures { result ≡ set_to_of dst reference.entry }
{
    Part::Whole(Template {
        insn: Insn::MovAbs {
            width: Width::B4,
            dst,
            imm: STAND_IN as u64,
        },
        memory: None,
        immediate: Some(reference),
    })
}

fn publish<'a>(reference: Reference<'a>, src: Reg) -> Part<'a>
    ensures { result ≡ publish_of reference.entry src }
{
    Part::Whole(Template {
        insn: Insn::Mov {
            width: Width::B8,
            dst: Rm::Mem(absolute()),
            src,
        },
        memory: Some(reference),
        immediate: None,
    })
}

fn test_rax<'a>() -> Part<'a>
    ensures { result ≡ test_rax_of }
{
    plain(Insn::Test {
        width: Width::B8,
        dst: Rm::Reg(Reg::Rax),
        src: Reg::Rax,
    })
}

fn push<'a>(src: Reg) -> Part<'a>
    ensures { result ≡ push_of src }
{
    plain(Insn::Push { src })
}

fn pop<'a>(dst: Reg) -> Part<'a>
    ensures { result ≡ pop_of dst }
{
    plain(Insn::Pop { dst })
}

fn syscall<'a>() -> Part<'a>
    ensures { result ≡ syscall_of }
{
    plain(Insn::Syscall)
}

fn read_shadow<'a>(dst: Reg) -> Part<'a>
    ensures { result ≡ read_shadow_of dst }
{
    plain(Insn::RdSsp { dst })
}

// A word of a record, this many bytes above its start.
fn above(place: i32, by: i32) -> i32
    requires forward { pos 0 ≤ℤ by }
    requires room { (place +ℤ by) ≤ℤ pos 2147483647 }
    ensures { result ≡ place +ℤ by }
{
    place + by
}

/// Land: the record of 40 bytes, at `place` above rsp, has its last word at 32.
pub(crate) fn land<'a>(place: i32, landing: Reference<'a>) -> [Part<'a>; 8]
    requires { (place +ℤ pos 32) ≤ℤ pos 2147483647 }
    ensures { result ≡ land_of place landing.entry }
{
    [
        store(Reg::Rsp, place, Reg::R15),
        read_shadow(Reg::Rax),
        store(Reg::Rsp, above(place, 8), Reg::Rax),
        set_to(Reg::Rax, landing),
        store(Reg::Rsp, above(place, 16), Reg::Rax),
        store(Reg::Rsp, above(place, 24), Reg::Rsp),
        store(Reg::Rsp, above(place, 32), Reg::Rbp),
        lea(Reg::R15, Reg::Rsp, place),
    ]
}

/// Release.
pub(crate) fn release<'a>(place: i32) -> [Part<'a>; 1]
    ensures { result ≡ release_of place }
{
    [load(Reg::R15, Reg::Rsp, place)]
}

fn shift_right_3<'a>() -> Part<'a>
    ensures { result ≡ plain_of (insn.Shift Shr B8 (rm.Reg Rcx) (count.Imm 3)) }
{
    plain(Insn::Shift {
        op: ShiftOp::Shr,
        width: Width::B8,
        dst: Rm::Reg(Reg::Rcx),
        count: ShiftCount::Imm(3),
    })
}

fn compare<'a>() -> Part<'a>
    ensures { result ≡ plain_of (insn.Alu Cmp B8 (rm.Reg Rcx) Rax) }
{
    plain(Insn::Alu {
        op: AluOp::Cmp,
        width: Width::B8,
        dst: Rm::Reg(Reg::Rcx),
        src: Reg::Rax,
    })
}

fn lesser<'a>() -> Part<'a>
    ensures { result ≡ plain_of (insn.CMov cond.B B8 Rax (rm.Reg Rcx)) }
{
    plain(Insn::CMov {
        cond: Cond::B,
        width: Width::B8,
        dst: Reg::Rax,
        src: Rm::Reg(Reg::Rcx),
    })
}

fn jump<'a>(target: Reg) -> Part<'a>
    ensures { result ≡ plain_of (insn.JmpInd (rm.Reg target) false) }
{
    plain(Insn::JmpInd {
        target: Rm::Reg(target),
        notrack: false,
    })
}

/// Throw.
pub(crate) fn throw<'a>() -> [Part<'a>; 16]
    ensures { result ≡ throw_of }
{
    [
        load(Reg::Rcx, Reg::R15, 8),
        read_shadow(Reg::Rax),
        subtract(Reg::Rcx, Reg::Rax),
        shift_right_3(),
        Part::Here(Mark::Again),
        set(Reg::Rax, 255),
        compare(),
        lesser(),
        plain(Insn::IncSsp { src: Reg::Rax }),
        subtract(Reg::Rcx, Reg::Rax),
        Part::Branch(Cond::Ne, Mark::Again),
        load(Reg::Rdx, Reg::R15, 16),
        load(Reg::Rbp, Reg::R15, 32),
        load(Reg::Rsp, Reg::R15, 24),
        load(Reg::R15, Reg::R15, 0),
        jump(Reg::Rdx),
    ]
}

fn take<'a>(taken: Reference<'a>) -> Part<'a>
    ensures { result ≡ take_of taken.entry }
{
    Part::Whole(Template {
        insn: Insn::Xchg {
            width: Width::B8,
            dst: Rm::Mem(absolute()),
            src: Reg::Rax,
        },
        memory: Some(taken),
        immediate: None,
    })
}

fn add<'a>(op: AluOp, dst: Reg, imm: i32) -> Part<'a>
    ensures { result ≡ plain_of (insn.AluImm op B8 (rm.Reg dst) imm) }
{
    plain(Insn::AluImm {
        op,
        width: Width::B8,
        dst: Rm::Reg(dst),
        imm,
    })
}

/// Switch.
pub(crate) fn switch<'a>(taken: Reference<'a>, published: Reference<'a>) -> [Part<'a>; 25]
    ensures { result ≡ switch_of taken.entry published.entry }
{
    [
        set(Reg::Rax, 0),
        take(taken),
        test_rax(),
        Part::Branch(Cond::E, Mark::Past),
        push(Reg::Rbp),
        push(Reg::R15),
        Part::Resumption,
        push(Reg::Rcx),
        read_shadow(Reg::Rcx),
        add(AluOp::Sub, Reg::Rcx, 8),
        push(Reg::Rcx),
        load(Reg::Rcx, Reg::Rax, 0),
        plain(Insn::RstorSsp {
            mem: at(Reg::Rcx, 0),
        }),
        plain(Insn::SavePrevSsp),
        copy(Reg::Rdx, Reg::Rsp),
        copy(Reg::Rsp, Reg::Rax),
        publish(published, Reg::Rdx),
        pop(Reg::Rcx),
        pop(Reg::Rcx),
        pop(Reg::R15),
        pop(Reg::Rbp),
        jump(Reg::Rcx),
        Part::Here(Mark::Resumed),
        plain(Insn::EndBr64),
        Part::Here(Mark::Past),
    ]
}

fn no_file<'a>() -> Part<'a>
    ensures { result ≡ plain_of (insn.MovImm B8 (rm.Reg R8) (negsuc 0)) }
{
    plain(Insn::MovImm {
        width: Width::B8,
        dst: Rm::Reg(Reg::R8),
        imm: -1,
    })
}

/// FiberMake.
pub(crate) fn fiber_make<'a>(published: Reference<'a>, function: Reference<'a>) -> [Part<'a>; 27]
    ensures { result ≡ fiber_make_of published.entry function.entry }
{
    [
        set(Reg::Rdi, 0),
        set(Reg::Rsi, 65_536),
        set(Reg::Rdx, 3),
        set(Reg::R10, 131_106),
        no_file(),
        set(Reg::R9, 0),
        set(Reg::Rax, 9),
        syscall(),
        test_rax(),
        Part::Branch(Cond::S, Mark::Past),
        lea(Reg::R8, Reg::Rax, 65_504),
        set(Reg::Rdi, 0),
        set(Reg::Rsi, 65_536),
        set(Reg::Rdx, 1),
        set(Reg::Rax, 453),
        syscall(),
        test_rax(),
        Part::Branch(Cond::S, Mark::Past),
        add(AluOp::Add, Reg::Rax, 65_528),
        store(Reg::R8, 0, Reg::Rax),
        set_to(Reg::Rcx, function),
        store(Reg::R8, 8, Reg::Rcx),
        set(Reg::Rcx, 0),
        store(Reg::R8, 16, Reg::Rcx),
        store(Reg::R8, 24, Reg::Rcx),
        publish(published, Reg::R8),
        Part::Here(Mark::Past),
    ]
}

fn jump_to<'a>(function: Name<'a>) -> Part<'a>
    ensures { result ≡ jump_to_of function.entry }
{
    Part::Whole(Template {
        insn: Insn::Jmp {
            rel: Rel::L(STAND_IN),
        },
        memory: None,
        immediate: Some(Reference {
            name: function,
            addend: 0,
        }),
    })
}

/// Spawn.
pub(crate) fn spawn<'a>(function: Name<'a>) -> [Part<'a>; 23]
    ensures { result ≡ spawn_of function.entry }
{
    [
        set(Reg::Rdi, 0),
        set(Reg::Rsi, 65_536),
        set(Reg::Rdx, 3),
        set(Reg::R10, 131_106),
        no_file(),
        set(Reg::R9, 0),
        set(Reg::Rax, 9),
        syscall(),
        test_rax(),
        Part::Branch(Cond::S, Mark::Past),
        lea(Reg::Rsi, Reg::Rax, 65_536),
        set(Reg::Rdi, 331_520),
        set(Reg::Rdx, 0),
        set(Reg::R10, 0),
        set(Reg::R8, 0),
        set(Reg::Rax, 56),
        syscall(),
        test_rax(),
        Part::Branch(Cond::Ne, Mark::Past),
        set(Reg::Rbp, 0),
        set(Reg::R15, 0),
        jump_to(function),
        Part::Here(Mark::Past),
    ]
}

/// Action.
pub(crate) fn action<'a>(signal: u32, action: Reference<'a>) -> [Part<'a>; 6]
    ensures { result ≡ action_of signal action.entry }
{
    [
        set(Reg::Rdi, signal),
        set_to(Reg::Rsi, action),
        set(Reg::Rdx, 0),
        set(Reg::R10, 8),
        set(Reg::Rax, 13),
        syscall(),
    ]
}

/// Read.
pub(crate) fn read<'a>(buffer: Reference<'a>, size: u32) -> [Part<'a>; 4]
    ensures { result ≡ read_of buffer.entry size }
{
    [
        set_to(Reg::Rsi, buffer),
        set(Reg::Rdx, size),
        set(Reg::Rax, 0),
        syscall(),
    ]
}
