//! The system calls (Linux for x86-64, arch/x86/entry/syscalls/syscall_64.tbl), in this project's profile of their arguments. A call sees the
//! registers as SYSCALL left them, and answers what goes to rax.
ghost use Rattle.std.specs.Prelude.{◌≡◌, ◌-◌, ◌^◌, ◌≤◌, true, false, length, take, slice_index, MatchOption, IfOk, OnErr};
ghost use Rattle.cet_machine.specs.Signal.{are_action_flags, words_of_bytes};
ghost use Rattle.cet_process.specs.Call.{read, write, mmap, maps_private_memory, map_shadow_stack, maps_shadow_stack, rt_sigaction, takes_action, registered, action_at, is_readable, clone, child_regs, arch_prctl};
ghost use Rattle.cet_signal.specs.Aligned.{IsAligned};
ghost use Rattle.cet_kernel.specs.Errors.{number_of};
ghost use Rattle.cet_kernel.specs.Mapped.{AddsRegion};
ghost use Rattle.cet_kernel.specs.Parts.{answer_of};

use crate::layout::{SHADOW_STACK_SIZE, page_above};
use crate::process::{Process, SIGNALS, THREAD_LIMIT};
use cet_base::NoMemory;
use cet_cpu::{value, with_value};
use cet_isa::{Reg, Regs};
use cet_machine::Action;
use cet_mem::Kind;
use cet_signal::word_of;

/// Why a call is refused (Linux, include/uapi/asm-generic/errno-base.h and errno.h).
#[derive(Clone, Copy, Debug, PartialEq, Eq)]
pub enum Error {
    /// EPERM
    Permission,
    /// EBADF
    BadFile,
    /// EAGAIN
    Again,
    /// ENOMEM
    NoMemory,
    /// EFAULT
    Fault,
    /// EINVAL
    Invalid,
    /// ENOSPC
    NoSpace,
    /// ENOSYS
    NoCall,
    /// EOPNOTSUPP
    NotSupported,
}

impl Error {
    fn number(self) -> u64
        ensures { result ≡ number_of self }
    {
        match self {
            Error::Permission => 1,
            Error::BadFile => 9,
            Error::Again => 11,
            Error::NoMemory => 12,
            Error::Fault => 14,
            Error::Invalid => 22,
            Error::NoSpace => 28,
            Error::NoCall => 38,
            Error::NotSupported => 95,
        }
    }
}

/// An error is answered as its negative, in two's complement.
pub fn refused(error: Error) -> u64
    ensures { result ≡ 2 ^ 64 - number_of error }
{
    error.number().wrapping_neg()
}

/// The largest length of an mmap, in bytes.
const MMAP_LIMIT: u64 = 16_777_216;

/// The largest shadow stack of a map_shadow_stack, in bytes.
const SHADOW_STACK_LIMIT: u64 = 1_048_576;

/// PROT_READ | PROT_WRITE (Linux, include/uapi/asm-generic/mman-common.h).
const READ_WRITE: u64 = 3;

/// MAP_PRIVATE | MAP_ANONYMOUS, and the same with MAP_STACK (Linux, include/uapi/linux/mman.h and asm-generic/mman.h).
const PRIVATE_MEMORY: u64 = 0x22;

const PRIVATE_STACK: u64 = 0x2_0022;

/// CLONE_VM, CLONE_FS, CLONE_FILES, CLONE_SIGHAND, CLONE_THREAD and CLONE_SYSVSEM (Linux, include/uapi/linux/sched.h).
const CLONE_FLAGS: u64 = 0x5_0f00;

/// The size of a signal set, in bytes.
const SIGNAL_SET_SIZE: u64 = 8;

const SIGKILL: u64 = 9;

const SIGSTOP: u64 = 19;

/// The bytes of the record that rt_sigaction reads: handler, flags, restorer and mask.
const ACTION_SIZE: u64 = 32;

/// SA_SIGINFO, SA_RESTART and SA_NODEFER (Linux, include/uapi/asm-generic/signal-defs.h).
const FREE_ACTION_FLAGS: u64 = 0x4 + 0x1000_0000 + 0x4000_0000;

/// SA_RESTORER (Linux, arch/x86/include/uapi/asm/signal.h).
const SA_RESTORER: u64 = 0x400_0000;

/// Whether mmap's arguments ask for private memory that can be read and written.
fn maps_private_memory(regs: &Regs) -> bool
    ensures { result ≡ maps_private_memory regs.now }
{
    let length = value(regs, Reg::Rsi);
    let flags = value(regs, Reg::R10);
    value(regs, Reg::Rdi) == 0
        && length >= 1
        && length <= MMAP_LIMIT
        && value(regs, Reg::Rdx) == READ_WRITE
        && (flags == PRIVATE_MEMORY || flags == PRIVATE_STACK)
        && value(regs, Reg::R8) == u64::MAX
        && value(regs, Reg::R9) == 0
}

/// Whether map_shadow_stack's arguments ask for a shadow stack.
fn maps_shadow_stack(regs: &Regs) -> bool
    ensures { result ≡ maps_shadow_stack regs.now }
{
    let length = value(regs, Reg::Rsi);
    let flags = value(regs, Reg::Rdx);
    value(regs, Reg::Rdi) == 0
        && length % 4096 == 0
        && length >= 4096
        && length <= SHADOW_STACK_LIMIT
        && (flags == 0 || flags == 1)
}

/// Whether a signal can have an action.
fn takes_action(signo: u64) -> bool
    ensures { result ≡ takes_action signo }
{
    signo >= 1 && signo <= SIGNALS as u64 && !(signo == SIGKILL || signo == SIGSTOP)
}

/// SA_RESTORER, and else nothing but SA_SIGINFO, SA_RESTART and SA_NODEFER.
fn are_action_flags(flags: u64) -> bool
    ensures { result ≡ are_action_flags flags }
{
    flags | FREE_ACTION_FLAGS == SA_RESTORER + FREE_ACTION_FLAGS
}

/// The record of 32 bytes at the head of `bytes`.
fn action_in(bytes: &[u8]) -> Action
    requires { 32 ≤ length bytes.now }
    ensures { let words = words_of_bytes 4 (take 32 bytes.now) in result ≡ record { handler = slice_index words 0; flags = slice_index words 1; restorer = slice_index words 2; mask = slice_index words 3 } }
{
    Action {
        handler: word_of(bytes, 0),
        flags: word_of(bytes, 1),
        restorer: word_of(bytes, 2),
        mask: word_of(bytes, 3),
    }
}

/// A handler 0 or 1, SIG_DFL or SIG_IGN, is none.
fn registered(action: Action) -> Option<Action>
    ensures { result ≡ registered action }
{
    if action.handler <= 1 {
        None
    } else {
        Some(action)
    }
}

/// What a thread begins with that a clone makes.
fn child_regs(regs: &Regs) -> Regs
    ensures { result ≡ child_regs regs.now }
{
    let stack = value(regs, Reg::Rsi);
    Regs {
        waiting: false,
        ..with_value(with_value(*regs, Reg::Rax, 0), Reg::Rsp, stack)
    }
}

impl Process {
    /// 0: as many bytes as are asked for and left, and no more than `most`, from the input to the buffer.
    #[tactic(auto, unfolding(cet_process::specs::Call::read))]
    fn read(&mut self, most: u64, regs: &Regs) -> u64
        ensures { (self.new, result) ≡ read most regs.now self.old }
    {
        let (a, size) = (value(regs, Reg::Rsi), value(regs, Reg::Rdx));
        if value(regs, Reg::Rdi) != 0 {
            return refused(Error::BadFile);
        }
        if size == 0 {
            return 0;
        }
        if !self.is_writable(a, size) {
            return refused(Error::Fault);
        }
        self.take_input(a, size.min(most))
    }

    /// 1: as many bytes as are given and have room, from the buffer to the output.
    #[tactic(auto, unfolding(cet_process::specs::Call::write))]
    fn write(&mut self, regs: &Regs) -> u64
        ensures { (self.new, result) ≡ write regs.now self.old }
    {
        let (a, size) = (value(regs, Reg::Rsi), value(regs, Reg::Rdx));
        let file = value(regs, Reg::Rdi);
        if file != 1 && file != 2 {
            return refused(Error::BadFile);
        }
        if size == 0 {
            return 0;
        }
        self.append_output(a, size)
    }

    /// 9: private memory at `at`.
    #[tactic(auto, unfolding(cet_process::specs::Call::mmap), using(crate::proofs::Mapped::mapping_adds))]
    fn mmap(&mut self, at: u64, regs: &Regs) -> Result<u64, NoMemory>
        ensures done { IfOk result (λ rax. (self.new, rax) ≡ mmap at regs.now self.old) }
        ensures maps { OnErr result (AddsRegion self.old (mmap at regs.now self.old).0) }
        ensures unchanged { OnErr result (self.new ≡ self.old) }
    {
        if !maps_private_memory(regs) {
            return Ok(refused(Error::Invalid));
        }
        let len = page_above(value(regs, Reg::Rsi));
        if self.map(at, len, Kind::Write)? {
            Ok(at)
        } else {
            Ok(refused(Error::NoMemory))
        }
    }

    /// 453: a shadow stack at `at`, with a restore token in its top word where that is asked for.
    #[tactic(auto, unfolding(cet_process::specs::Call::map_shadow_stack), using(crate::proofs::Mapped::shadow_stack_adds))]
    fn map_shadow_stack(&mut self, at: u64, regs: &Regs) -> Result<u64, NoMemory>
        ensures done { IfOk result (λ rax. (self.new, rax) ≡ map_shadow_stack at regs.now self.old) }
        ensures maps { OnErr result (AddsRegion self.old (map_shadow_stack at regs.now self.old).0) }
        ensures unchanged { OnErr result (self.new ≡ self.old) }
    {
        let len = value(regs, Reg::Rsi);
        if !self.mode().shstk {
            return Ok(refused(Error::NotSupported));
        }
        if !maps_shadow_stack(regs) {
            return Ok(refused(Error::Invalid));
        }
        if !self.map(at, len, Kind::Shadow)? {
            return Ok(refused(Error::NoMemory));
        }
        if value(regs, Reg::Rdx) == 1 {
            self.put_token(at + len);
        }
        Ok(at)
    }

    /// 13: what is done at a signal.
    #[tactic(auto, unfolding(cet_process::specs::Call::rt_sigaction))]
    fn rt_sigaction(&mut self, regs: &Regs) -> u64
        ensures { (self.new, result) ≡ rt_sigaction regs.now self.old }
    {
        let (signo, a) = (value(regs, Reg::Rdi), value(regs, Reg::Rsi));
        if value(regs, Reg::R10) != SIGNAL_SET_SIZE {
            return refused(Error::Invalid);
        }
        if !takes_action(signo) {
            return refused(Error::Invalid);
        }
        if value(regs, Reg::Rdx) != 0 {
            return refused(Error::Invalid);
        }
        if a == 0 {
            return 0;
        }
        let Some(action) = self.action_at(a) else {
            return refused(Error::Fault);
        };
        if !are_action_flags(action.flags) {
            return refused(Error::Invalid);
        }
        self.set_action(signo, registered(action));
        0
    }

    /// The record of 32 bytes at `a`. None exactly where no one region holds them.
    fn action_at(&self, a: u64) -> Option<Action>
        ensures { MatchOption result (is_readable self.now a 32 ≡ false) (λ action. (is_readable self.now a 32 ≡ true) × (action ≡ action_at self.now a)) }
    {
        let bytes = self.memory().bytes_at(a, ACTION_SIZE)?;
        Some(action_in(bytes))
    }

    /// 56: one more thread, with SHSTK a shadow stack for it at `at`.
    #[tactic(auto, unfolding(cet_process::specs::Call::clone, cet_process::specs::Start::shadow_stack_size), using(crate::proofs::Mapped::mapping_adds))]
    fn clone_thread(&mut self, at: u64, regs: &Regs) -> Result<u64, NoMemory>
        requires { IsAligned regs.now }
        ensures done { IfOk result (λ rax. (self.new, rax) ≡ clone at regs.now self.old) }
        ensures maps { OnErr result (AddsRegion self.old (clone at regs.now self.old).0) }
        ensures unchanged { OnErr result (self.new ≡ self.old) }
    {
        if value(regs, Reg::Rdi) != CLONE_FLAGS || value(regs, Reg::Rsi) == 0 {
            return Ok(refused(Error::Invalid));
        }
        if self.thread_count() >= THREAD_LIMIT {
            return Ok(refused(Error::Again));
        }
        let child = child_regs(regs);
        if !self.mode().shstk {
            return Ok(self.add_thread(&child));
        }
        if !self.map(at, SHADOW_STACK_SIZE, Kind::Shadow)? {
            return Ok(refused(Error::NoMemory));
        }
        let ssp = at + SHADOW_STACK_SIZE;
        Ok(self.add_thread(&Regs { ssp, ..child }))
    }

    /// 158: the features are locked, and can be looked at (Linux, arch/x86/include/uapi/asm/prctl.h: ARCH_SHSTK_ENABLE, ARCH_SHSTK_DISABLE,
    /// ARCH_SHSTK_LOCK, ARCH_SHSTK_UNLOCK and ARCH_SHSTK_STATUS).
    #[tactic(auto, unfolding(cet_process::specs::Call::arch_prctl))]
    fn arch_prctl(&mut self, regs: &Regs) -> u64
        ensures { (self.new, result) ≡ arch_prctl regs.now self.old }
    {
        let a = value(regs, Reg::Rsi);
        match value(regs, Reg::Rdi) {
            0x5001 | 0x5002 | 0x5004 => {
                if a == 0 || a > 3 {
                    refused(Error::Invalid)
                } else {
                    refused(Error::Permission)
                }
            }
            0x5003 => 0,
            0x5005 => self.store_status(a),
            _ => refused(Error::Invalid),
        }
    }

    /// What the call of this number answers to a thread, where it is not rt_sigreturn, exit or exit_group.
    #[tactic(auto, unfolding(cet_process::specs::Call::gettid, cet_process::specs::Call::sched_yield))]
    pub(crate) fn answer_of(
        &mut self,
        number: u64,
        thread: u32,
        answer: u64,
        regs: &Regs,
    ) -> Result<u64, NoMemory>
        requires { IsAligned regs.now }
        ensures done { IfOk result (λ rax. (self.new, rax) ≡ answer_of number thread answer regs.now self.old) }
        ensures maps { OnErr result (AddsRegion self.old (answer_of number thread answer regs.now self.old).0) }
        ensures unchanged { OnErr result (self.new ≡ self.old) }
    {
        match number {
            0 => Ok(self.read(answer, regs)),
            1 => Ok(self.write(regs)),
            9 => self.mmap(answer, regs),
            13 => Ok(self.rt_sigaction(regs)),
            24 => Ok(0),
            56 => self.clone_thread(answer, regs),
            158 => Ok(self.arch_prctl(regs)),
            186 => Ok(u64::from(thread) + 1),
            453 => self.map_shadow_stack(answer, regs),
            _ => Ok(refused(Error::NoCall)),
        }
    }
}
