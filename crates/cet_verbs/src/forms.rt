//! The refusals of files that are not of the form that a command asks for.

ghost use Rattle.std.specs.Prelude.{◌≢◌, ℕ, Option};
ghost use Rattle.cet_base.specs.Files.{Contents, FileMeets};
ghost use Rattle.cet_verbs.specs.Command.{Command};
ghost use Rattle.cet_verbs.specs.declared.refusal.Unfit.TheVariants.{NoObject, NoExec, NoImage};
ghost use Rattle.cet_verbs.specs.Unfit.{IsUnfitFor};
ghost use Rattle.cet_verbs.specs.Steps.{Form};
ghost use Rattle.cet_verbs.specs.Refused.{IsAtStep};

use crate::refusal::{Refusal, Unfit};
use cet_elf::ElfError;
use cet_image::ImageError;

/// The refusal of the file `name` for the fault of the object that it is not.
pub fn no_object(name: &str, fault: ElfError) -> Refusal<'_>
    ensures { (told : Option Contents) (before after : ℕ) (command : Command)
        → FileMeets told name.now (λ held. fault ≢ ElfError.NoMemory → IsUnfitFor command (NoObject fault) held)
        → IsAtStep told before after command (Form name.now) result }
{
    match fault {
        ElfError::NoMemory => Refusal::NoMemory,
        _ => Refusal::Unfit(name, Unfit::NoObject(fault)),
    }
}

/// The refusal of the file `name` for the fault of the executable that it is not.
pub fn no_exec(name: &str, fault: ElfError) -> Refusal<'_>
    ensures { (told : Option Contents) (before after : ℕ) (command : Command)
        → FileMeets told name.now (λ held. fault ≢ ElfError.NoMemory → IsUnfitFor command (NoExec fault) held)
        → IsAtStep told before after command (Form name.now) result }
{
    match fault {
        ElfError::NoMemory => Refusal::NoMemory,
        _ => Refusal::Unfit(name, Unfit::NoExec(fault)),
    }
}

/// The refusal of the file `name` for why the program that it holds is no image.
pub fn no_image(name: &str, error: ImageError) -> Refusal<'_>
    ensures { (told : Option Contents) (before after : ℕ) (command : Command)
        → FileMeets told name.now (λ held. error ≢ ImageError.NoMemory → IsUnfitFor command (NoImage error) held)
        → IsAtStep told before after command (Form name.now) result }
{
    match error {
        ImageError::NoMemory => Refusal::NoMemory,
        _ => Refusal::Unfit(name, Unfit::NoImage(error)),
    }
}
