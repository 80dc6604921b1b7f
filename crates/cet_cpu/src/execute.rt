//! What each instruction does.
ghost use Rattle.std.specs.Prelude.{◌≡◌, ◌%◌, OnErr};
ghost use Rattle.cet_machine.specs.Meaning.{meaning};
ghost use Rattle.cet_cpu.specs.Answer.{machine, after};

use crate::arithmetic::{
    alu, alu_imm, alu_load, imul2, imul3, mul_div, shift, test, test_imm, unary,
};
use crate::control::{call, call_ind, endbr64, jcc, jmp, jmp_ind, ret};
use crate::moves::{
    cdq, cdqe, cmov, cmp_xchg, lea, mov, mov_abs, mov_imm, mov_load, mov_sx, mov_sxd, mov_zx,
    set_cc, xadd, xchg,
};
use crate::shadow::{inc_ssp, rd_ssp, rstor_ssp, save_prev_ssp};
use crate::stack::{leave, pop, push, push_imm, push_mem};
use crate::system::syscall;
use cet_isa::{Fault, Insn, Mode, Regs};
use cet_mem::Memory;

/// What an instruction does, where rip already is the address of the next one.
#[tactic(auto, unfolding(cet_machine::specs::SystemInstructions::nop, cet_machine::specs::SystemInstructions::ud2, cet_machine::specs::SystemInstructions::hlt, cet_machine::specs::CetInstructions::wr_ss))]
pub fn execute(
    mem: &mut Memory,
    regs: Regs,
    insn: Insn,
    mode: Mode,
    free: u8,
) -> Result<Regs, Fault>
    requires { regs.ssp % 8 ≡ 0 }
    ensures does { after mem.new result ≡ meaning insn mode free (machine mem.old regs) }
    ensures unchanged { OnErr result (mem.new ≡ mem.old) }
{
    match insn {
        Insn::EndBr64 => Ok(endbr64(regs)),
        Insn::Nop => Ok(regs),
        Insn::Mov { width, dst, src } => mov(mem, regs, width, dst, src),
        Insn::MovLoad { width, dst, src } => mov_load(mem, regs, width, dst, src),
        Insn::MovImm { width, dst, imm } => mov_imm(mem, regs, width, dst, imm),
        Insn::MovAbs { width, dst, imm } => Ok(mov_abs(regs, width, dst, imm)),
        Insn::MovZx { width, dst, src } => mov_zx(mem, regs, width, dst, src),
        Insn::MovSx { width, dst, src } => mov_sx(mem, regs, width, dst, src),
        Insn::MovSxd { dst, src } => mov_sxd(mem, regs, dst, src),
        Insn::Lea {
            width,
            dst,
            mem: place,
        } => Ok(lea(regs, width, dst, place)),
        Insn::Alu {
            op,
            width,
            dst,
            src,
        } => alu(mem, regs, op, width, dst, src),
        Insn::AluLoad {
            op,
            width,
            dst,
            src,
        } => alu_load(mem, regs, op, width, dst, src),
        Insn::AluImm {
            op,
            width,
            dst,
            imm,
        } => alu_imm(mem, regs, op, width, dst, imm),
        Insn::Test { width, dst, src } => test(mem, regs, width, dst, src),
        Insn::TestImm { width, dst, imm } => test_imm(mem, regs, width, dst, imm),
        Insn::Unary { op, width, dst } => unary(mem, regs, op, width, dst),
        Insn::Shift {
            op,
            width,
            dst,
            count,
        } => shift(mem, regs, op, width, dst, count, free),
        Insn::IMul2 { width, dst, src } => imul2(mem, regs, width, dst, src, free),
        Insn::IMul3 {
            width,
            dst,
            src,
            imm,
        } => imul3(mem, regs, width, dst, src, imm, free),
        Insn::MulDiv { op, width, src } => mul_div(mem, regs, op, width, src, free),
        Insn::Cdq { width } => Ok(cdq(regs, width)),
        Insn::Cdqe { width } => Ok(cdqe(regs, width)),
        Insn::Push { src } => push(mem, regs, src),
        Insn::Pop { dst } => pop(mem, regs, dst),
        Insn::PushImm { imm } => push_imm(mem, regs, imm),
        Insn::PushMem { mem: place } => push_mem(mem, regs, place),
        Insn::Call { rel } => call(mem, regs, rel, mode),
        Insn::CallInd { target, notrack } => call_ind(mem, regs, target, notrack, mode),
        Insn::JmpInd { target, notrack } => jmp_ind(mem, regs, target, notrack, mode),
        Insn::Jmp { rel } => Ok(jmp(regs, rel)),
        Insn::Jcc { cond, rel } => Ok(jcc(regs, cond, rel)),
        Insn::SetCc { cond, dst } => set_cc(mem, regs, cond, dst),
        Insn::CMov {
            cond,
            width,
            dst,
            src,
        } => cmov(mem, regs, cond, width, dst, src),
        Insn::Ret => ret(mem, regs, mode),
        Insn::Leave => leave(mem, regs),
        Insn::Xchg { width, dst, src } => xchg(mem, regs, width, dst, src),
        Insn::CmpXchg {
            width,
            dst,
            src,
            ..
        } => cmp_xchg(mem, regs, width, dst, src),
        Insn::XAdd {
            width,
            dst,
            src,
            ..
        } => xadd(mem, regs, width, dst, src),
        Insn::RdSsp { dst } => Ok(rd_ssp(regs, dst, mode)),
        Insn::IncSsp { src } => inc_ssp(mem, regs, src, mode),
        Insn::RstorSsp { mem: place } => rstor_ssp(mem, regs, place, mode),
        Insn::SavePrevSsp => save_prev_ssp(mem, regs, mode),
        Insn::WrSs { .. } => Err(Fault::Undefined),
        Insn::Syscall => Ok(syscall(regs)),
        Insn::Ud2 => Err(Fault::Undefined),
        Insn::Hlt => Err(Fault::General),
    }
}
