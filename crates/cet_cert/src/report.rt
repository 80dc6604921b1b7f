//! The text of a verdict.
ghost use Rattle.std.specs.Prelude.{◌≡◌, ◌≤◌, OnOk, OnErr};
ghost use Rattle.cet_base.specs.Faults.{Rose};
ghost use Rattle.cet_base.specs.Sink.{Gains, GainsPart};
ghost use Rattle.cet_rules.specs.Report.{report};

use cet_base::{Failed, Line, Sink, write_all};
use cet_rules::Verdict;

/// Writes the verdict as a line: `accepted`, or `refused rule R at 0xA`. It takes no memory. After `Failed` some first part of
/// the line was taken.
pub fn write_report<O: Sink>(verdict: Verdict, out: &mut O) -> Result<(), Failed>
    ensures faults { O.faults out.old ≤ O.faults out.new }
    ensures taken { OnOk result (Gains (O.bytes out.old) (O.bytes out.new) (report verdict)) }
    ensures failed { OnErr result (Rose (O.faults out.old) (O.faults out.new)) }
    ensures part { OnErr result (GainsPart (O.bytes out.old) (O.bytes out.new) (report verdict)) }
{
    write_all(out, report_line(verdict).as_bytes())
}

fn report_line(verdict: Verdict) -> Line
    ensures { result ≡ report verdict }
{
    let mut line = Line::new();
    match verdict {
        Verdict::Accepted => line.put(b"accepted"),
        Verdict::Refused { rule, at } => {
            line.put(b"refused rule ");
            line.put_number(rule);
            line.put(b" at ");
            line.put_hexadecimal(at);
        }
    }
    line.put(b"\n");
    line
}
