//! What goes on the stacks of a thread at a signal, and where its handler starts. The marked SSP on the shadow stack is Linux's
//! (Documentation/arch/x86/shstk.rst, "Signal").
ghost use Rattle.std.specs.Prelude.{◌≡◌, ◌≤◌, OnOk, OnErr, IfOk, IfErr};
ghost use Rattle.cet_machine.specs.Signal.{at_handler, handler_mask, shadow_frame, deliver};
ghost use Rattle.cet_cpu.specs.Answer.{machine, after};
ghost use Rattle.cet_signal.specs.Aligned.{IsAligned};
ghost use Rattle.cet_signal.specs.Answer.{delivered};
ghost use Rattle.cet_signal.specs.Room.{HasRoom, IsRefused};

use crate::frame::{FRAME_SIZE, bytes_of_words, frame, frame_address};
use cet_cpu::{shadow_pushed, value, with_value};
use cet_isa::{Fault, Flags, Mode, Reg, Regs};
use cet_machine::Action;
use cet_mem::{Kind, Memory};

/// What marks an SSP on the shadow stack, so that no RET goes there.
pub const SSP_MARK: u64 = 1 << 63;

/// The bit of SA_NODEFER, 0x40000000 (Linux, include/uapi/asm-generic/signal-defs.h).
const SA_NODEFER_BIT: u32 = 30;

/// Sends a thread to the handler of signal `signo`, 1 to 64: a page fault where no Write region holds the frame, or with SHSTK no Shadow region
/// the two words. A fault leaves memory and registers as they were, so all of them are looked for before anything is written.
#[tactic(auto, unfolding(cet_machine::specs::Signal::deliver))]
pub fn deliver(
    mem: &mut Memory,
    regs: &mut Regs,
    mode: Mode,
    action: Action,
    signo: u32,
) -> Result<(), Fault>
    requires aligned { IsAligned regs.old }
    requires from { 1 ≤ signo }
    requires to { signo ≤ 64 }
    ensures does { delivered result mem.new regs.new ≡ deliver mode action signo (machine mem.old regs.old) }
    ensures fault_keeps_memory { OnErr result (mem.new ≡ mem.old) }
    ensures fault_keeps_registers { OnErr result (regs.new ≡ regs.old) }
    ensures aligned { IsAligned regs.new }
{
    find_room(mem, regs, mode)?;
    let a = frame_address(value(regs, Reg::Rsp));
    let bytes = bytes_of_words(&frame(&action, signo, regs));
    match mem.store_bytes(a, &bytes) {
        Ok(()) => {}
        Err(_) => return Err(Fault::Page { addr: a }),
    }
    match shadow_frame(mem, *regs, mode, &action) {
        Ok(framed) => {
            *regs = at_handler(mode, &action, signo, a, framed);
            Ok(())
        }
        Err(fault) => Err(fault),
    }
}

// A page fault where no Write region holds the frame, or with SHSTK no Shadow region the two words: whatever the signal.
fn find_room(mem: &Memory, regs: &Regs, mode: Mode) -> Result<(), Fault>
    ensures room { OnOk result (HasRoom mode mem.now regs.now) }
    ensures refused { IfErr result (λ fault. IsRefused mode mem.now regs.now fault) }
{
    let a = frame_address(value(regs, Reg::Rsp));
    if mem.held(a, FRAME_SIZE) != Some(Kind::Write) {
        return Err(Fault::Page { addr: a });
    }
    if !mode.shstk {
        return Ok(());
    }
    let first = regs.ssp.wrapping_sub(8);
    if mem.held(first, 8) != Some(Kind::Shadow) {
        return Err(Fault::Page { addr: first });
    }
    let second = first.wrapping_sub(8);
    if mem.held(second, 8) != Some(Kind::Shadow) {
        return Err(Fault::Page { addr: second });
    }
    Ok(())
}

/// With SHSTK, the marked SSP and above it the restorer's address.
fn shadow_frame(mem: &mut Memory, regs: Regs, mode: Mode, action: &Action) -> Result<Regs, Fault>
    requires { IsAligned regs }
    ensures does { after mem.new result ≡ shadow_frame mode action.now (machine mem.old regs) }
    ensures aligned { IfOk result IsAligned }
{
    if !mode.shstk {
        return Ok(regs);
    }
    let with_ssp = shadow_pushed(mem, regs, regs.ssp % SSP_MARK + SSP_MARK)?;
    shadow_pushed(mem, with_ssp, action.restorer)
}

/// The registers at the handler's first instruction, with the frame at `a`.
fn at_handler(mode: Mode, action: &Action, signo: u32, a: u64, regs: Regs) -> Regs
    requires from { 1 ≤ signo }
    requires to { signo ≤ 64 }
    ensures { result ≡ at_handler mode action.now signo a regs }
{
    let with_frame = with_value(regs, Reg::Rsp, a);
    let cleared = with_value(
        with_value(with_value(with_frame, Reg::Rax, 0), Reg::Rdx, 0),
        Reg::Rsi,
        0,
    );
    Regs {
        rip: action.handler,
        flags: Flags {
            cf: false,
            zf: false,
            sf: false,
            of: false,
        },
        waiting: mode.ibt,
        mask: handler_mask(action, signo, regs.mask),
        ..with_value(cleared, Reg::Rdi, u64::from(signo))
    }
}

/// The signals that are blocked while the handler runs.
fn handler_mask(action: &Action, signo: u32, mask: u64) -> u64
    requires from { 1 ≤ signo }
    requires to { signo ≤ 64 }
    ensures { result ≡ handler_mask action.now signo mask }
{
    let blocked = mask | action.mask;
    if (action.flags >> SA_NODEFER_BIT) & 1 == 1 {
        blocked
    } else {
        blocked | 1 << (signo - 1)
    }
}
