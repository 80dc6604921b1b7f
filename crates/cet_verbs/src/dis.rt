//! `dis FILE`: the listing of raw code.

ghost use Rattle.std.specs.Prelude.{◌≡◌, ◌≢◌, ◌≤◌, ℕ, List, [], Option, length, IfOk, IfErr};
ghost use Rattle.cet_base.specs.declared.reading.TheConstants.{FILE_LIMIT};
ghost use Rattle.cet_base.specs.Files.{Contents, FileMeets};
ghost use Rattle.cet_base.specs.Sink.{Gains};
ghost use Rattle.cet_rules.specs.Raw.{raw_start};
ghost use Rattle.cet_listing.specs.Listing.{IsListed};
ghost use Rattle.cet_verbs.specs.Command.{Dis};
ghost use Rattle.cet_verbs.specs.Steps.{Form};
ghost use Rattle.cet_verbs.specs.Answer.{IsReport};
ghost use Rattle.cet_verbs.specs.Refused.{HasCause, IsAtStep};

use crate::reading::read_file;
use crate::refusal::{Refusal, Unfit};
use crate::status;
use cet_base::{Files, NoMemory, Sink};
use cet_image::RAW_START;
use cet_listing::{ListingError, Page, check_listing, write_listing};
use std::alloc::Global;

// Whether the bytes of the file `name` have a listing.
fn check_form<'a>(name: &'a str, bytes: &[u8]) -> Result<(), Refusal<'a>>
    requires { length bytes.now ≤ FILE_LIMIT }
    ensures some { IfOk result (λ unit. bytes.now ≢ []) }
    ensures listed { IfOk result (λ unit. IsListed raw_start bytes.now) }
    ensures refused { IfErr result (λ refusal. (told : Option Contents) (before after : ℕ)
        → FileMeets told name.now (λ held. held ≡ bytes.now) → IsAtStep told before after (Dis name.now) (Form name.now) refusal) }
{
    if bytes.is_empty() {
        return Err(Refusal::Unfit(name, Unfit::Empty));
    }
    match check_listing(bytes, RAW_START) {
        Ok(()) => Ok(()),
        Err(ListingError { at, why }) => Err(Refusal::Unfit(name, Unfit::NoForm { at, why })),
    }
}

/// Reads the file, and writes the listing of its code to the output.
pub fn dis<'a, F: Files, O: Sink>(
    alloc: Global,
    file: &'a str,
    files: &mut F,
    out: &mut O,
) -> Result<u8, Refusal<'a>>
    ensures contents { F.contents files.new ≡ F.contents files.old }
    ensures reported { IfOk result (λ status. (text : List ℕ) × Gains (O.bytes out.old) (O.bytes out.new) text
        × IsReport (F.contents files.old) [] (Dis file.now) status text) }
    ensures refused { IfErr result (HasCause (record {
      files = F.contents files.old;
      plans = [];
      faults_before = F.faults files.old;
      faults_after = F.faults files.new;
      out_before = O.bytes out.old;
      out_after = O.bytes out.new;
      out_faults_before = O.faults out.old;
      out_faults_after = O.faults out.new;
    }) (Dis file.now)) }
{
    let bytes = read_file(alloc, file, files)?;
    check_form(file, &bytes)?;
    let Ok(mut page) = Page::new(alloc) else {
        return Err(Refusal::NoMemory);
    };
    match write_listing(&mut page, &bytes, RAW_START, out) {
        Ok(()) => Ok(status::DONE),
        Err(_) => Err(Refusal::Unwritten),
    }
}
