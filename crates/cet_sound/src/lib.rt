//! The soundness laws: no process of an image that keeps the rules dies by a control-protection fault, whatever its input and whatever happens to it.
//! Each is the contract of a function without a body, over the definitions of `cet_rules` (`KeepsRules`), `cet_process` (`start`, `after`,
//! `CpFree`) and `cet_invariant` (`IsSound`).
#![tactic(auto)]

ghost use Rattle.std.specs.Prelude.{◌≡◌, ℕ, List, Some};
ghost use Rattle.cet_rules.specs.First.{KeepsRules};
ghost use Rattle.cet_rules.specs.Raw.{IsRaw};
ghost use Rattle.cet_process.specs.declared.event.Event.TheVariants.{Step, Signal};
ghost use Rattle.cet_process.specs.State.{State};
ghost use Rattle.cet_process.specs.Start.{start};
ghost use Rattle.cet_process.specs.After.{after};
ghost use Rattle.cet_process.specs.Run.{CpFree};
ghost use Rattle.cet_invariant.specs.Contexts.{IsSound};
ghost use Rattle.cet_sound.specs.Laws.{RawIsLoaded, StartIsSound, IsNoCpDeath, EventIsSound, RunIsCpFree};

use cet_kernel::Process;
use cet_process::Event;
use cet_rules::Image;

/// The start of a process is sound; raw code has one.
pub fn accepted_start(image: &Image, input: &[u8])
    requires { KeepsRules image.now }
    ensures loaded { (bytes : List ℕ) → IsRaw image.now bytes → (S : State) × (start image.now input.now ≡ Some S) }
    ensures sound { (S : State) → start image.now input.now ≡ Some S → IsSound image.now S }
{}

/// A step of any thread keeps a sound process sound, and is no death by a control-protection fault. `free` has the flags that the instruction
/// leaves undefined, and `answer` what a system call may choose.
pub fn accepted_step(image: &Image, process: &Process, thread: u32, free: u8, answer: u64)
    requires keeps_rules { KeepsRules image.now }
    requires sound { IsSound image.now process.now }
    ensures sound { IsSound image.now (after process.now (Step thread free answer)).0 }
    ensures no_death { IsNoCpDeath (after process.now (Step thread free answer)).1 }
{}

/// So does a signal to any thread.
pub fn accepted_signal(image: &Image, process: &Process, thread: u32, signo: u32)
    requires keeps_rules { KeepsRules image.now }
    requires sound { IsSound image.now process.now }
    ensures sound { IsSound image.now (after process.now (Signal thread signo)).0 }
    ensures no_death { IsNoCpDeath (after process.now (Signal thread signo)).1 }
{}

/// Whatever the input and the events, no front of them ends the process by a control-protection fault.
pub fn accepted_run(image: &Image, input: &[u8], events: &[Event])
    requires { KeepsRules image.now }
    ensures { CpFree image.now input.now events.now }
{}

/// The laws, over every image, input, state, event and list of events.
pub fn soundness()
    ensures loaded { RawIsLoaded }
    ensures start { StartIsSound }
    ensures event { EventIsSound }
    ensures run { RunIsCpFree }
{}
