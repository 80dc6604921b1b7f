//! What one event does to a process. A fault ends the process as its default action does (Linux, signal(7), SIGSEGV, SIGILL and SIGFPE), exit(2)
//! a thread, exit_group(2) all of them; a signal is delivered as sigaction(2) says, and where it would not be, the event is ignored: this
//! project's own.
ghost use Rattle.std.specs.Prelude.{◌≡◌, IfOk, OnErr, IsSome};
ghost use Rattle.cet_process.specs.State.{regs_of};
ghost use Rattle.cet_machine.specs.Signal.{sigreturn};
ghost use Rattle.cet_cpu.specs.Answer.{machine};
ghost use Rattle.cet_process.specs.State.{action_of};
ghost use Rattle.cet_process.specs.After.{after, after_step, after_signal, called, died, exited, exit, exit_group, rt_sigreturn};
ghost use Rattle.cet_signal.specs.Aligned.{IsAligned};
ghost use Rattle.cet_kernel.specs.Mapped.{AddsRegion};

use crate::process::Process;
use cet_base::NoMemory;
use cet_cpu::{StepEnd, value, with_value};
use cet_isa::{Fault, Reg, Regs};
use cet_process::{Event, Outcome};
use cet_signal::sigreturn;

/// The call numbers that do not answer in rax.
const RT_SIGRETURN: u64 = 15;

const EXIT: u64 = 60;

const EXIT_GROUP: u64 = 231;

impl Process {
    /// What an event does, and what it comes to. After the process has ended, every event is `Ignored`. Only an event that adds a region takes
    /// memory. Where it is short, nothing has changed.
    #[tactic(auto, unfolding(cet_process::specs::After::after))]
    pub fn apply(&mut self, event: Event) -> Result<Outcome, NoMemory>
        ensures done { IfOk result (λ outcome. (self.new, outcome) ≡ after self.old event) }
        ensures maps { OnErr result (AddsRegion self.old (after self.old event).0) }
        ensures unchanged { OnErr result (self.new ≡ self.old) }
    {
        if self.ended().is_some() {
            return Ok(Outcome::Ignored);
        }
        match event {
            Event::Step {
                thread,
                free,
                answer,
            } => self.step_event(thread, free, answer),
            Event::Signal { thread, signo } => Ok(self.signal_event(thread, signo)),
        }
    }

    // Thread t, which stands at `regs`, meets a fault.
    fn die(&mut self, thread: u32, regs: &Regs, fault: Fault) -> Outcome
        ensures { (self.new, result) ≡ died thread regs.now fault self.old }
    {
        self.end_by(Outcome::Died {
            thread,
            fault,
            rip: regs.rip,
        })
    }

    fn exit_with(&mut self, status: u64) -> Outcome
        ensures { (self.new, result) ≡ exited status self.old }
    {
        self.end_by(Outcome::Ended {
            status: (status % 256) as u8,
        })
    }

    // A thread ends, and with the last one the process.
    fn exit(&mut self, thread: u32, status: u64) -> Outcome
        requires { IsSome (regs_of self.old thread) }
        ensures { (self.new, result) ≡ exit thread status self.old }
    {
        if self.end_thread(thread) {
            self.exit_with(status)
        } else {
            Outcome::Ran
        }
    }

    fn exit_group(&mut self, thread: u32, regs: &Regs, status: u64) -> Outcome
        requires lives { IsSome (regs_of self.old thread) }
        requires aligned { IsAligned regs.now }
        ensures { (self.new, result) ≡ exit_group thread regs.now status self.old }
    {
        self.set_regs(thread, regs);
        self.exit_with(status)
    }

    fn rt_sigreturn(&mut self, thread: u32, before: &Regs, regs: &Regs) -> Outcome
        requires lives { IsSome (regs_of self.old thread) }
        requires aligned { IsAligned regs.now }
        ensures { (self.new, result) ≡ rt_sigreturn thread before.now (sigreturn self.old.mode (machine self.old.memory regs.now)) self.old }
    {
        let mut restored = *regs;
        match sigreturn(self.memory(), &mut restored, self.mode()) {
            Ok(()) => {
                self.set_regs(thread, &restored);
                Outcome::Ran
            }
            Err(fault) => self.die(thread, before, fault),
        }
    }

    // The call whose number is in rax. `before` are the registers before the SYSCALL, `regs` those after it.
    fn call(
        &mut self,
        thread: u32,
        answer: u64,
        before: &Regs,
        regs: &Regs,
    ) -> Result<Outcome, NoMemory>
        requires lives { IsSome (regs_of self.old thread) }
        requires aligned { IsAligned regs.now }
        ensures done { IfOk result (λ outcome. (self.new, outcome) ≡ called thread answer before.now regs.now self.old) }
        ensures maps { OnErr result (AddsRegion self.old (called thread answer before.now regs.now self.old).0) }
        ensures unchanged { OnErr result (self.new ≡ self.old) }
    {
        let number = value(regs, Reg::Rax);
        if number == RT_SIGRETURN {
            return Ok(self.rt_sigreturn(thread, before, regs));
        }
        if number == EXIT {
            return Ok(self.exit(thread, value(regs, Reg::Rdi)));
        }
        if number == EXIT_GROUP {
            return Ok(self.exit_group(thread, regs, value(regs, Reg::Rdi)));
        }
        let rax = self.answer_of(number, thread, answer, regs)?;
        self.set_regs(thread, &with_value(*regs, Reg::Rax, rax));
        Ok(Outcome::Ran)
    }

    fn step_event(&mut self, thread: u32, free: u8, answer: u64) -> Result<Outcome, NoMemory>
        ensures done { IfOk result (λ outcome. (self.new, outcome) ≡ after_step thread free answer (regs_of self.old thread) self.old) }
        ensures maps { OnErr result (AddsRegion self.old (after_step thread free answer (regs_of self.old thread) self.old).0) }
        ensures unchanged { OnErr result (self.new ≡ self.old) }
    {
        let Some(before) = self.regs_of(thread) else {
            return Ok(Outcome::Ignored);
        };
        if free > 15 {
            return Ok(Outcome::Ignored);
        }
        let mut regs = before;
        match self.step(&mut regs, free) {
            StepEnd::Next => {
                self.set_regs(thread, &regs);
                Ok(Outcome::Ran)
            }
            StepEnd::Syscall => self.call(thread, answer, &before, &regs),
            StepEnd::Fault(fault) => Ok(self.die(thread, &before, fault)),
        }
    }

    fn signal_event(&mut self, thread: u32, signo: u32) -> Outcome
        ensures { (self.new, result) ≡ after_signal thread signo (regs_of self.old thread) (action_of self.old signo) self.old }
    {
        let Some(before) = self.regs_of(thread) else {
            return Outcome::Ignored;
        };
        let Some(action) = self.action_of(signo) else {
            return Outcome::Ignored;
        };
        if (before.mask >> (signo - 1)) & 1 == 1 {
            return Outcome::Ignored;
        }
        let mut regs = before;
        match self.deliver(&mut regs, action, signo) {
            Ok(()) => {
                self.set_regs(thread, &regs);
                Outcome::Ran
            }
            Err(fault) => self.die(thread, &before, fault),
        }
    }
}
