//! A process: its memory, its threads, and what the kernel keeps of it. What changes it changes one part, and stands for one part of a definition.
ghost use Rattle.std.specs.Prelude.{◌≡◌, ℕ, ◌+◌, ◌-◌, ◌%◌, ◌^◌, ◌<◌, ◌≤◌, ◌++◌, ◌∷◌, [], length, replicate, slice_set, IsSome, OnSome, IfSome, IfOk, OnErr, IsTrue, Some, None, true, if◌then◌else◌};
ghost use Rattle.std.specs.List.{list_all};
ghost use Rattle.std.specs.Option.{is_none};
ghost use Rattle.cet_machine.specs.Memory.{legal};
ghost use Rattle.cet_machine.specs.Step.{step};
ghost use Rattle.cet_machine.specs.Signal.{deliver};
ghost use Rattle.cet_cpu.specs.Answer.{machine, ended as ended_step, OnFault, OnSyscall};
ghost use Rattle.cet_process.specs.State.{view, regs_of, action_of, with_thread};
ghost use Rattle.cet_process.specs.Call.{is_writable, with_mapping, with_child, with_token, thread_limit};
ghost use Rattle.cet_process.specs.After.{ended};
ghost use Rattle.cet_signal.specs.Aligned.{IsAligned};
ghost use Rattle.cet_signal.specs.Answer.{delivered};
ghost use Rattle.cet_kernel.specs.Parts.{taken, appended, status_stored};

use crate::calls::{Error, refused};
use crate::layout::{FIRST_FRESH, GAP};
use cet_base::NoMemory;
use cet_cpu::{StepEnd, step};
use cet_isa::{Fault, Mode, Regs};
use cet_machine::Action;
use cet_mem::{Kind, MapError, Memory};
use cet_process::{Outcome, View};
use cet_shadow::set_token;
use cet_signal::deliver;
use std::alloc::Global;
use std::marker::Model;

/// The most bytes that the output of a process has.
const OUTPUT_LIMIT: u64 = 1_048_576;

/// The most threads that a process makes.
pub const THREAD_LIMIT: usize = 64;

/// Signals are numbered from 1 to this.
pub const SIGNALS: usize = 64;

/// A process, seen as a `State`.
#[derive(Drop)]
pub struct Process {
    memory: Memory,
    mode: Mode,
    // by number; none where it has ended
    threads: Vec<Option<Regs>>,
    // bit n is 1 where thread n lives
    live: u64,
    // by signal number, from 1
    actions: Vec<Option<Action>>,
    input: Vec<u8>,
    // how much of the input has been read
    read: usize,
    output: Vec<u8>,
    fresh: u64,
    end: Option<Outcome>,
}

impl Model for Process {
    ghost use Rattle.cet_process.specs.State.{State};

    ghost Value = { State };

    ghost use Rattle.cet_kernel.specs.Inside.{state_of, IsSound};

    ghost view = { state_of };

    ghost invariant = { IsSound };
}

impl Process {
    /// A process at its start: one thread, no action, no output, and all of the input left. It takes the memory that events need which map nothing.
    pub(crate) fn new(
        alloc: Global,
        memory: Memory,
        mode: Mode,
        regs: Regs,
        input: &[u8],
    ) -> Result<Process, NoMemory>
        requires { IsAligned regs }
        ensures { IfOk result (λ process. process ≡ record { memory = memory; mode = mode; threads = Some regs ∷ []; actions = replicate 64 None; input = input.now; output = []; fresh = 0x100000000; end = None }) }
    {
        let mut threads = Vec::with_capacity(alloc, THREAD_LIMIT)?;
        threads.push(Some(regs))?;
        let actions = Vec::from_slice(alloc, &[None; SIGNALS])?;
        let input = Vec::from_slice(alloc, input)?;
        let output = Vec::with_capacity(alloc, OUTPUT_LIMIT as usize)?;
        Ok(Process {
            memory,
            mode,
            threads,
            live: 1,
            actions,
            input,
            read: 0,
            output,
            fresh: FIRST_FRESH,
            end: None,
        })
    }

    /// What those see who choose events.
    pub fn view(&self) -> View
        ensures { result ≡ view self.now }
    {
        View {
            threads: self.threads.len() as u32,
            live: self.live,
            fresh: self.fresh,
        }
    }

    /// The memory.
    pub fn memory(&self) -> &Memory
        ensures { result.now ≡ self.now.memory }
    {
        &self.memory
    }

    /// The registers of a thread. None exactly where it never lived or has ended. The threads of a process that ended count as they stood then.
    /// SSP is a multiple of 8.
    pub fn regs_of(&self, thread: u32) -> Option<Regs>
        ensures value { result ≡ regs_of self.now thread }
        ensures aligned { IfSome result IsAligned }
    {
        self.threads.get(thread as usize).copied().flatten()
    }

    /// The output so far, at most 1,048,576 bytes.
    pub fn output(&self) -> &[u8]
        ensures { result.now ≡ self.now.output }
    {
        self.output.as_slice()
    }

    /// How the process ended: `Ended` or `Died`. None exactly while it lives.
    pub fn ended(&self) -> Option<Outcome>
        ensures { result ≡ self.now.end }
    {
        self.end
    }

    /// What of CET is on.
    pub(crate) fn mode(&self) -> Mode
        ensures { result ≡ self.now.mode }
    {
        self.mode
    }

    /// How many threads were ever made.
    pub(crate) fn thread_count(&self) -> usize
        ensures count { result ≡ length self.now.threads }
        ensures few { result ≤ thread_limit }
    {
        self.threads.len()
    }

    /// What is done at a signal. None where the number is not 1 to 64, or no action is registered.
    pub(crate) fn action_of(&self, signo: u32) -> Option<Action>
        ensures value { result ≡ action_of self.now signo }
        ensures from { OnSome result (1 ≤ signo) }
        ensures to { OnSome result (signo ≤ 64) }
    {
        if signo == 0 {
            return None;
        }
        self.actions.get(signo as usize - 1).copied().flatten()
    }

    /// Registers what is done at a signal, or nothing.
    pub(crate) fn set_action(&mut self, signo: u64, action: Option<Action>)
        requires from { 1 ≤ signo }
        requires to { signo ≤ 64 }
        ensures { self.new ≡ record self.old { actions = slice_set self.old.actions (signo - 1) action } }
    {
        self.actions[signo as usize - 1] = action;
    }

    /// A thread that lives goes on with these registers.
    pub(crate) fn set_regs(&mut self, thread: u32, regs: &Regs)
        requires lives { IsSome (regs_of self.old thread) }
        requires aligned { IsAligned regs.now }
        ensures { self.new ≡ with_thread thread (Some regs.now) self.old }
    {
        self.threads[thread as usize] = Some(*regs);
    }

    /// A thread that lives ends. It answers whether none is left.
    pub(crate) fn end_thread(&mut self, thread: u32) -> bool
        requires { IsSome (regs_of self.old thread) }
        ensures thread { self.new ≡ with_thread thread None self.old }
        ensures last { result ≡ list_all is_none self.new.threads }
    {
        self.threads[thread as usize] = None;
        self.live -= 1 << thread;
        self.live == 0
    }

    /// One more thread, with these registers. It is answered by its id, which is its number and 1.
    pub(crate) fn add_thread(&mut self, regs: &Regs) -> u64
        requires few { length self.old.threads < thread_limit }
        requires aligned { IsAligned regs.now }
        ensures { (self.new, result) ≡ with_child regs.now self.old }
    {
        self.live += 1 << self.threads.len();
        self.threads.push(Some(*regs)).unwrap();
        self.threads.len() as u64
    }

    /// The process ends.
    pub(crate) fn end_by(&mut self, outcome: Outcome) -> Outcome
        ensures { (self.new, result) ≡ ended outcome self.old }
    {
        self.end = Some(outcome);
        outcome
    }

    /// One step of a thread with these registers.
    pub(crate) fn step(&mut self, regs: &mut Regs, free: u8) -> StepEnd
        requires { IsAligned regs.old }
        ensures does { ended_step self.new.memory regs.new result ≡ step self.old.mode free (machine self.old.memory regs.old) }
        ensures others { self.new ≡ record self.old { memory = self.new.memory } }
        ensures fault_keeps_memory { OnFault result (self.new ≡ self.old) }
        ensures fault_keeps_registers { OnFault result (regs.new ≡ regs.old) }
        ensures syscall_keeps_memory { OnSyscall result (self.new ≡ self.old) }
        ensures aligned { IsAligned regs.new }
    {
        step(&mut self.memory, regs, self.mode, free)
    }

    /// Puts the frame of a signal on the stacks of a thread with these registers.
    pub(crate) fn deliver(
        &mut self,
        regs: &mut Regs,
        action: Action,
        signo: u32,
    ) -> Result<(), Fault>
        requires aligned { IsAligned regs.old }
        requires from { 1 ≤ signo }
        requires to { signo ≤ 64 }
        ensures does { delivered result self.new.memory regs.new ≡ deliver self.old.mode action signo (machine self.old.memory regs.old) }
        ensures others { self.new ≡ record self.old { memory = self.new.memory } }
        ensures fault_keeps_memory { OnErr result (self.new ≡ self.old) }
        ensures fault_keeps_registers { OnErr result (regs.new ≡ regs.old) }
        ensures aligned { IsAligned regs.new }
    {
        deliver(&mut self.memory, regs, self.mode, action, signo)
    }

    /// Whether one Write region holds the `n` bytes from `a` on. `n` is not 0.
    pub(crate) fn is_writable(&self, a: u64, n: u64) -> bool
        requires { 0 < n }
        ensures { result ≡ is_writable self.now a n }
    {
        self.memory.held(a, n) == Some(Kind::Write)
    }

    /// Moves as much of the input as is left, and `most` bytes at most, to `a`, where a Write region holds them. It answers how many.
    pub(crate) fn take_input(&mut self, a: u64, most: u64) -> u64
        ensures { (self.new, result) ≡ taken a most self.old }
    {
        let left = &self.input.as_slice()[self.read..];
        let count = (left.len() as u64).min(most);
        if count > 0 {
            let _stored = self.memory.store_bytes(a, &left[..count as usize]);
        }
        self.read += count as usize;
        count
    }

    /// Appends the `size` bytes from `a` on to the output, or as many as have room. It answers how many, or an error.
    pub(crate) fn append_output(&mut self, a: u64, size: u64) -> u64
        requires { 0 < size }
        ensures { (self.new, result) ≡ appended a size self.old }
    {
        let Some(bytes) = self.memory.bytes_at(a, size) else {
            return refused(Error::Fault);
        };
        let room = OUTPUT_LIMIT - self.output.len() as u64;
        if room == 0 {
            return refused(Error::NoSpace);
        }
        let count = size.min(room);
        self.output
            .extend_from_slice(&bytes[..count as usize])
            .unwrap();
        count
    }

    /// Stores at `a` whether shadow stacks are on: ARCH_SHSTK_STATUS. It answers 0 or an error.
    pub(crate) fn store_status(&mut self, a: u64) -> u64
        ensures { (self.new, result) ≡ status_stored a self.old }
    {
        match self.memory.store(a, 8, u64::from(self.mode.shstk)) {
            Ok(()) => 0,
            Err(_) => refused(Error::Fault),
        }
    }

    /// Maps a region of zeros, where that is legal. It answers whether it is.
    pub(crate) fn map(&mut self, at: u64, len: u64, kind: Kind) -> Result<bool, NoMemory>
        ensures legal { IfOk result (λ mapped. mapped ≡ legal self.old.memory at len) }
        ensures done { IfOk result (λ mapped. self.new ≡ (if mapped then with_mapping at len kind self.old else self.old)) }
        ensures maps { OnErr result (legal self.old.memory at len ≡ true) }
        ensures unchanged { OnErr result (self.new ≡ self.old) }
        ensures end { IfOk result (λ mapped. IsTrue mapped → at + len ≤ 2 ^ 47) }
        ensures aligned { IfOk result (λ mapped. IsTrue mapped → (at + len) % 8 ≡ 0) }
    {
        match self.memory.map(at, len, kind) {
            Ok(()) => {
                self.fresh = self.fresh.max(at + len + GAP);
                Ok(true)
            }
            Err(MapError::Illegal) => Ok(false),
            Err(MapError::NoMemory) => Err(NoMemory),
        }
    }

    /// Writes a restore token in the top word of the shadow stack that ends at `top`, where a Shadow region holds it.
    pub(crate) fn put_token(&mut self, top: u64)
        requires { top % 8 ≡ 0 }
        ensures { self.new ≡ with_token top self.old }
    {
        let _stored = set_token(&mut self.memory, top);
    }
}
