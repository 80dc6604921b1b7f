//! Laws of registers, of a step and of a signal, each the contract of a function that does nothing.

ghost use Rattle.cet_machine.specs.MachineLaws.{WrittenIsRead, OthersStay, CountStays, StepKeeps, SyscallKeeps, StepKeepsWords, SyscallKeepsWords, DeliverKeeps};

/// A register that is written has what was written, every other is as before, and there stay as many.
pub fn registers()
    ensures written { WrittenIsRead }
    ensures others { OthersStay }
    ensures count { CountStays }
{}

/// A step keeps the addresses and kinds of regions, and every region that is neither Write nor Shadow. A SYSCALL changes rip, rcx
/// and r11 alone. A fault tells no state.
pub fn step()
    ensures next { StepKeeps }
    ensures syscall { SyscallKeeps }
{}

/// Where memory has bytes, and the registers of the thread are numbers of 64 bits, they stay so.
pub fn words()
    ensures next { StepKeepsWords }
    ensures syscall { SyscallKeepsWords }
{}

/// The frame of a signal keeps them too.
pub fn deliver()
    ensures { DeliverKeeps }
{}
