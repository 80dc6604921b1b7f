/// What happens next to a process. The list of its events is all that a run depends on beside the image and the input.
#[derive(Clone, Copy, Debug, PartialEq, Eq)]
pub enum Event {
    /// A thread makes one step. `free` (0 to 15) has the flags that the instruction leaves undefined, CF at bit 0, ZF, SF and OF at bit 3.
    /// `answer` is what a system call is free to choose: how many bytes a read gets at most, or the address of a new region.
    Step { thread: u32, free: u8, answer: u64 },
    /// A signal is sent to a thread.
    Signal { thread: u32, signo: u32 },
}
