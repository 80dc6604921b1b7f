//! The text of a report.
ghost use Rattle.std.specs.Prelude.{◌≡◌, ◌+◌, ◌<◌, ◌≤◌, ◌++◌, length, take, drop, codes, count_by, OnOk, OnErr};
ghost use Rattle.hex.specs.Hex.{encode_lower};
ghost use Rattle.cet_base.specs.Faults.{Rose};
ghost use Rattle.cet_base.specs.Sink.{Gains, GainsPart};
ghost use Rattle.cet_base.specs.Text.{line as line_of};
ghost use Rattle.cet_base.specs.declared.line.TheConstants.{LINE_CAPACITY};
ghost use Rattle.cet_run.specs.Text.{is_ignored, counts, bytes_text, fault_word, fault_tail, end_text, run_text};
ghost use Rattle.cet_run.specs.declared.report.Done.{Done};

use crate::report::{Done, DoneList, Report, RunEnd};
use cet_base::{Failed, Line, Sink, write_all};
use cet_isa::Fault;
use cet_process::Outcome;

/// The most bytes whose digits are written in one piece.
const PIECE: usize = 2048;

fn is_ignored(outcome: Outcome) -> bool
    ensures { result ≡ is_ignored outcome }
{
    matches!(outcome, Outcome::Ignored)
}

fn count_ignored(events: &[Done]) -> usize
    ensures { result ≡ count_by (λ (d : Done). is_ignored d.outcome) events.now }
{
    events
        .iter()
        .filter(|done| is_ignored(done.outcome))
        .count()
}

fn counts_line(events: &DoneList) -> Line
    ensures { result ≡ line_of (counts events.now) }
{
    let mut line = Line::new();
    line.put(b"events ");
    line.put_number(events.len());
    line.put(b" ignored ");
    line.put_number(count_ignored(events.as_slice()));
    line.put(b"\n");
    line
}

fn fault_word(fault: Fault) -> &'static [u8]
    ensures word { result.now ≡ fault_word fault }
    ensures short { length result.now ≤ 4 }
{
    match fault {
        Fault::NearRet { .. } => b"cp 1",
        Fault::EndBranch => b"cp 3",
        Fault::Rstor { .. } => b"cp 4",
        Fault::Page { .. } => b"pf",
        Fault::Undefined => b"ud",
        Fault::General => b"gp",
        Fault::Divide => b"de",
    }
}

/// Adds what follows the address of the fault.
fn put_tail(line: &mut Line, fault: Fault)
    requires { length line.old + 52 ≤ LINE_CAPACITY }
    ensures text { line.new ≡ line.old ++ fault_tail fault }
    ensures room { length line.new ≤ length line.old + 52 }
{
    match fault {
        Fault::NearRet { popped, shadow } => {
            line.put(b" popped ");
            line.put_hexadecimal(popped);
            line.put(b" shadow ");
            line.put_hexadecimal(shadow);
        }
        Fault::Rstor { word } => {
            line.put(b" word ");
            line.put_hexadecimal(word);
        }
        Fault::Page { addr } => {
            line.put(b" addr ");
            line.put_hexadecimal(addr);
        }
        Fault::EndBranch | Fault::Undefined | Fault::General | Fault::Divide => {}
    }
}

fn died_line(thread: u32, fault: Fault, rip: u64) -> Line
    ensures { result ≡ line_of (end_text (RunEnd.Died thread fault rip)) }
{
    let mut line = Line::new();
    line.put(b"died thread ");
    line.put_number(thread);
    line.put(b" ");
    line.put(fault_word(fault));
    line.put(b" at ");
    line.put_hexadecimal(rip);
    put_tail(&mut line, fault);
    line.put(b"\n");
    line
}

fn end_line(last: RunEnd) -> Line
    ensures { result ≡ line_of (end_text last) }
{
    let mut line = Line::new();
    match last {
        RunEnd::Ended { status } => {
            line.put(b"ended ");
            line.put_number(status);
        }
        RunEnd::Died { thread, fault, rip } => return died_line(thread, fault, rip),
        RunEnd::LimitReached => line.put(b"stopped limit"),
        RunEnd::ChoicesEnded => line.put(b"stopped choices"),
    }
    line.put(b"\n");
    line
}

/// Writes the digits of a few bytes.
fn write_piece<O: Sink>(bytes: &[u8], out: &mut O) -> Result<(), Failed>
    requires { length bytes.now ≤ PIECE }
    ensures faults { O.faults out.old ≤ O.faults out.new }
    ensures taken { OnOk result (Gains (O.bytes out.old) (O.bytes out.new) (encode_lower bytes.now)) }
    ensures failed { OnErr result (Rose (O.faults out.old) (O.faults out.new)) }
    ensures part { OnErr result (GainsPart (O.bytes out.old) (O.bytes out.new) (encode_lower bytes.now)) }
{
    let mut digits = [0; 2 * PIECE];
    let digits = &mut digits[..2 * bytes.len()];
    hex::encode_to_slice(bytes, digits).unwrap();
    write_all(out, digits)
}

/// The bytes from `done` on, or as many as make a piece.
fn piece_from(bytes: &[u8], done: usize) -> &[u8]
    requires { done < length bytes.now }
    ensures piece { result.now ≡ take (length result.now) (drop done bytes.now) }
    ensures some { 0 < length result.now }
    ensures within { done + length result.now ≤ length bytes.now }
    ensures small { length result.now ≤ PIECE }
{
    let end = done + (bytes.len() - done).min(PIECE);
    &bytes[done..end]
}

/// Writes the digits of the bytes, in pieces.
fn write_digits<O: Sink>(bytes: &[u8], out: &mut O) -> Result<(), Failed>
    ensures faults { O.faults out.old ≤ O.faults out.new }
    ensures taken { OnOk result (Gains (O.bytes out.old) (O.bytes out.new) (encode_lower bytes.now)) }
    ensures failed { OnErr result (Rose (O.faults out.old) (O.faults out.new)) }
    ensures part { OnErr result (GainsPart (O.bytes out.old) (O.bytes out.new) (encode_lower bytes.now)) }
{
    let mut done = 0;
    while done < bytes.len() {
        let piece = piece_from(bytes, done);
        write_piece(piece, out)?;
        done += piece.len();
    }
    Ok(())
}

/// Writes the digits of the bytes, or a hyphen where there are none.
fn write_bytes<O: Sink>(bytes: &[u8], out: &mut O) -> Result<(), Failed>
    ensures faults { O.faults out.old ≤ O.faults out.new }
    ensures taken { OnOk result (Gains (O.bytes out.old) (O.bytes out.new) (bytes_text bytes.now)) }
    ensures failed { OnErr result (Rose (O.faults out.old) (O.faults out.new)) }
    ensures part { OnErr result (GainsPart (O.bytes out.old) (O.bytes out.new) (bytes_text bytes.now)) }
{
    if bytes.is_empty() {
        write_all(out, b"-")
    } else {
        write_digits(bytes, out)
    }
}

fn write_counts<O: Sink>(events: &DoneList, out: &mut O) -> Result<(), Failed>
    ensures faults { O.faults out.old ≤ O.faults out.new }
    ensures taken { OnOk result (Gains (O.bytes out.old) (O.bytes out.new) (line_of (counts events.now))) }
    ensures failed { OnErr result (Rose (O.faults out.old) (O.faults out.new)) }
    ensures part { OnErr result (GainsPart (O.bytes out.old) (O.bytes out.new) (line_of (counts events.now))) }
{
    write_all(out, counts_line(events).as_bytes())
}

fn write_output<O: Sink>(bytes: &[u8], out: &mut O) -> Result<(), Failed>
    ensures faults { O.faults out.old ≤ O.faults out.new }
    ensures taken { OnOk result (Gains (O.bytes out.old) (O.bytes out.new) (line_of (codes "output " ++ bytes_text bytes.now))) }
    ensures failed { OnErr result (Rose (O.faults out.old) (O.faults out.new)) }
    ensures part { OnErr result (GainsPart (O.bytes out.old) (O.bytes out.new) (line_of (codes "output " ++ bytes_text bytes.now))) }
{
    write_all(out, b"output ")?;
    write_bytes(bytes, out)?;
    write_all(out, b"\n")
}

fn write_end<O: Sink>(last: RunEnd, out: &mut O) -> Result<(), Failed>
    ensures faults { O.faults out.old ≤ O.faults out.new }
    ensures taken { OnOk result (Gains (O.bytes out.old) (O.bytes out.new) (line_of (end_text last))) }
    ensures failed { OnErr result (Rose (O.faults out.old) (O.faults out.new)) }
    ensures part { OnErr result (GainsPart (O.bytes out.old) (O.bytes out.new) (line_of (end_text last))) }
{
    write_all(out, end_line(last).as_bytes())
}

/// Writes a report: how many events were applied and how many of them were ignored, the output in hexadecimal, or `-` where there is none, and how
/// the run ended, in a line each. It takes no memory. After `Failed` some first part of the text was taken.
pub fn write_run<O: Sink>(report: &Report, out: &mut O) -> Result<(), Failed>
    ensures faults { O.faults out.old ≤ O.faults out.new }
    ensures taken { OnOk result (Gains (O.bytes out.old) (O.bytes out.new) (run_text report.now)) }
    ensures failed { OnErr result (Rose (O.faults out.old) (O.faults out.new)) }
    ensures part { OnErr result (GainsPart (O.bytes out.old) (O.bytes out.new) (run_text report.now)) }
{
    write_counts(&report.events, out)?;
    write_output(report.output.as_slice(), out)?;
    write_end(report.last, out)
}
