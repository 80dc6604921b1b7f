//! The line of an instruction.
ghost use Rattle.std.specs.Prelude.{◌≡◌, ◌+◌, ◌*◌, ◌≤◌, ◌++◌, length};
ghost use Rattle.hex.specs.Hex.{encode_lower};
ghost use Rattle.cet_base.specs.declared.line.TheConstants.{LINE_CAPACITY};
ghost use Rattle.cet_listing.specs.Listing.{instruction_line as line_of};

use cet_base::Line;
use cet_isa::{Insn, put_text};

/// The most bytes of a form.
const FORM_LIMIT: usize = 15;

/// The most digits of its bytes.
const FORM_DIGITS: usize = 2 * FORM_LIMIT;

/// The line of an instruction at the address `at`.
pub(crate) fn instruction_line(at: u64, form: &[u8], insn: Insn) -> Line
    requires { length form.now ≤ FORM_LIMIT }
    ensures text { result ≡ line_of at form.now insn }
    ensures room { length result ≤ LINE_CAPACITY }
{
    let mut line = Line::new();
    line.put_hexadecimal(at);
    line.put(b" ");
    put_bytes(&mut line, form);
    line.put(b" ");
    put_text(&mut line, insn);
    line.put(b"\n");
    line
}

/// Adds the bytes of a form, two digits each.
fn put_bytes(line: &mut Line, form: &[u8])
    requires form { length form.now ≤ FORM_LIMIT }
    requires room { length line.old + 2 * length form.now ≤ LINE_CAPACITY }
    ensures text { line.new ≡ line.old ++ encode_lower form.now }
    ensures room { length line.new ≡ length line.old + 2 * length form.now }
{
    let mut digits = [0; FORM_DIGITS];
    let digits = &mut digits[..2 * form.len()];
    hex::encode_to_slice(form, digits).unwrap();
    line.put(digits);
}
