//! How an image is loaded: each segment in whole pages (gABI, "Program Header" and "Program Loading"), the main stack as the psABI has it (System V
//! ABI for AMD64, "Process Initialization"), the main shadow stack as Linux makes one (Documentation/arch/x86/shstk.rst).
ghost use Rattle.std.specs.Prelude.{◌≡◌, ◌⊎◌, ◌++◌, Some, IfOk, IfErr, OnOk};
ghost use Rattle.cet_machine.specs.Memory.{with_region};
ghost use Rattle.cet_rules.specs.Regular.{IsSegment};
ghost use Rattle.cet_process.specs.Start.{start, load_error, first_regs, region_of, loaded_memory, stacks};
ghost use Rattle.cet_signal.specs.Aligned.{IsAligned};
ghost use Rattle.std.specs.List.{fold};

use crate::layout::{
    SHADOW_STACK_SIZE, SHADOW_STACK_START, STACK_SIZE, STACK_START, end_of_pages, first_page,
    kind_of, load_error, mode_of,
};
use crate::process::Process;
use cet_base::NoMemory;
use cet_cpu::with_value;
use cet_isa::{Flags, Mode, Reg, Regs};
use cet_mem::{Kind, Memory};
use cet_process::LoadError;
use cet_rules::{Image, Segment};
use std::alloc::Global;

/// The registers at the entry: rsp 64 below the end of the main stack, SSP at the end of the main shadow stack, and else 0.
#[tactic(auto, unfolding(cet_process::specs::Start::stack_size, cet_process::specs::Start::shadow_stack_size))]
fn first_regs(image: &Image, mode: Mode) -> Regs
    ensures value { result ≡ first_regs image.now mode }
    ensures aligned { IsAligned result }
{
    let regs = Regs {
        r: [0; 16],
        rip: image.entry,
        flags: Flags {
            cf: false,
            zf: false,
            sf: false,
            of: false,
        },
        waiting: false,
        ssp: if mode.shstk {
            SHADOW_STACK_START + SHADOW_STACK_SIZE
        } else {
            0
        },
        mask: 0,
    };
    with_value(regs, Reg::Rsp, STACK_START + STACK_SIZE - 64)
}

/// Puts the pages of a segment into memory.
fn place_segment(memory: &mut Memory, segment: &Segment) -> Result<(), NoMemory>
    requires { IsSegment segment.now }
    ensures { OnOk result (memory.new ≡ with_region memory.old (region_of segment.now)) }
{
    let start = first_page(segment);
    let Ok(()) = memory.place(start, end_of_pages(segment) - start, kind_of(segment)) else {
        return Err(NoMemory);
    };
    if !segment.bytes.is_empty() {
        let _filled = memory.fill(segment.start, segment.bytes.as_slice());
    }
    Ok(())
}

fn loaded_memory(alloc: Global, image: &Image, mode: Mode) -> Result<Memory, NoMemory>
    ensures { IfOk result (λ memory. memory ≡ loaded_memory image.now mode) }
{
    let mut memory = Memory::new(alloc);
    let segments = image.segments.as_slice();
    for segment in segments {
        place_segment(&mut memory, segment)?;
    }
    place_stacks(&mut memory, mode)?;
    Ok(memory)
}

#[tactic(auto, unfolding(cet_process::specs::Start::stack_size, cet_process::specs::Start::shadow_stack_size))]
fn place_stacks(memory: &mut Memory, mode: Mode) -> Result<(), NoMemory>
    ensures { OnOk result (memory.new ≡ fold with_region memory.old (stacks mode)) }
{
    let Ok(()) = memory.place(STACK_START, STACK_SIZE, Kind::Write) else {
        return Err(NoMemory);
    };
    if !mode.shstk {
        return Ok(());
    }
    let Ok(()) = memory.place(SHADOW_STACK_START, SHADOW_STACK_SIZE, Kind::Shadow) else {
        return Err(NoMemory);
    };
    Ok(())
}

/// The process that an image is loaded to, with all of `input` left. `Place` names the first segment whose first page starts below 4,096 or whose last
/// one ends above 2^32 - 65,536, and `Shared`, where no segment is so, the first pair with a page in common; pairs go by their first segment, then by
/// their second.
#[tactic(auto, unfolding(cet_process::specs::Start::start))]
pub fn load(alloc: Global, image: &Image, input: &[u8]) -> Result<Process, LoadError>
    ensures loaded { IfOk result (λ process. start image.now input.now ≡ Some process) }
    ensures refused { IfErr result (λ error. (error ≡ LoadError.NoMemory) ⊎ (load_error image.now ≡ Some error)) }
{
    if let Some(error) = load_error(image) {
        return Err(error);
    }
    let mode = mode_of(image.features);
    let Ok(memory) = loaded_memory(alloc, image, mode) else {
        return Err(LoadError::NoMemory);
    };
    match Process::new(alloc, memory, mode, first_regs(image, mode), input) {
        Ok(process) => Ok(process),
        Err(NoMemory) => Err(LoadError::NoMemory),
    }
}
