//! `check --raw FILE`: the verdict on raw code.

ghost use Rattle.std.specs.Prelude.{◌≡◌, ◌≤◌, ℕ, List, [], IfOk, IfErr};
ghost use Rattle.cet_base.specs.Faults.{Rose};
ghost use Rattle.cet_base.specs.Sink.{Gains, GainsPart};
ghost use Rattle.cet_rules.specs.Report.{report as report_of};
ghost use Rattle.cet_verbs.specs.Command.{CheckRaw};
ghost use Rattle.cet_verbs.specs.Answer.{IsReport, status_of};
ghost use Rattle.cet_verbs.specs.Refused.{HasCause};

use crate::forms::no_image;
use crate::refusal::{Refusal, Unfit};
use crate::status;
use cet_base::{Files, NoMemory, ReadError, Sink, read_all};
use cet_cert::{Verdict, certify, write_report};
use cet_image::raw_image;
use std::alloc::Global;

/// Reads the file, and writes the verdict on it to the output.
pub fn check_raw<'a, F: Files, O: Sink>(
    alloc: Global,
    file: &'a str,
    files: &mut F,
    out: &mut O,
) -> Result<u8, Refusal<'a>>
    ensures contents { F.contents files.new ≡ F.contents files.old }
    ensures reported { IfOk result (λ status. (text : List ℕ) × Gains (O.bytes out.old) (O.bytes out.new) text
        × IsReport (F.contents files.old) [] (CheckRaw file.now) status text) }
    ensures refused { IfErr result (HasCause (record {
      files = F.contents files.old;
      plans = [];
      faults_before = F.faults files.old;
      faults_after = F.faults files.new;
      out_before = O.bytes out.old;
      out_after = O.bytes out.new;
      out_faults_before = O.faults out.old;
      out_faults_after = O.faults out.new;
    }) (CheckRaw file.now)) }
{
    let bytes = match read_all(alloc, files, file) {
        Ok(bytes) => bytes,
        Err(ReadError::Failed) => return Err(Refusal::Unread(file)),
        Err(ReadError::TooLarge) => return Err(Refusal::Unfit(file, Unfit::TooLarge)),
        Err(ReadError::NoMemory) => return Err(Refusal::NoMemory),
    };
    let image = match raw_image(alloc, &bytes) {
        Ok(image) => image,
        Err(error) => return Err(no_image(file, error)),
    };
    match certify(alloc, &image) {
        Ok(verdict) => report(verdict, out),
        Err(NoMemory) => Err(Refusal::NoMemory),
    }
}

// Writes the verdict's text, and answers the status for it.
fn report<'a, O: Sink>(verdict: Verdict, out: &mut O) -> Result<u8, Refusal<'a>>
    ensures faults { O.faults out.old ≤ O.faults out.new }
    ensures written { IfOk result (λ status. (status ≡ status_of verdict) × Gains (O.bytes out.old) (O.bytes out.new) (report_of verdict)) }
    ensures unwritten { IfErr result (λ r. (r ≡ Refusal.Unwritten) × Rose (O.faults out.old) (O.faults out.new) × GainsPart (O.bytes out.old) (O.bytes out.new) (report_of verdict)) }
{
    if write_report(verdict, out).is_err() {
        return Err(Refusal::Unwritten);
    }
    match verdict {
        Verdict::Accepted => Ok(status::DONE),
        Verdict::Refused { .. } => Ok(status::REFUSED),
    }
}
