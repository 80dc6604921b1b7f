//! Whether bytes have a listing.
ghost use Rattle.std.specs.Prelude.{◌≡◌, ℕ, ◌+◌, ◌≤◌, ◌^◌, ◌↔◌, length, Err, IsOk, IfErr};
ghost use Rattle.cet_isa.specs.declared.decode_error.DecodeError.{DecodeError};
ghost use Rattle.cet_listing.specs.Listing.{IsListed, StopsAt};

use cet_decode::decode;
use cet_isa::DecodeError;

/// Where no form stands, and why.
#[derive(Clone, Copy, Debug, PartialEq, Eq)]
pub struct ListingError {
    /// The address of the first byte that is in no form.
    pub at: u64,
    pub why: DecodeError,
}

/// Whether the bytes, the first of them at the address `at`, are forms one after the other, and else where they stop being so
/// and why. It takes no memory.
pub fn check_listing(bytes: &[u8], at: u64) -> Result<(), ListingError>
    requires { at + length bytes.now ≤ 2 ^ 64 }
    ensures listed { IsOk result ↔ IsListed at bytes.now }
    ensures stops { IfErr result (λ e. StopsAt at bytes.now e.at e.why) }
    ensures only { (stop : ℕ) (why : DecodeError) → StopsAt at bytes.now stop why → result ≡ Err (record { at = stop; why = why }) }
{
    let mut offset = 0;
    while offset < bytes.len() {
        match decode(&bytes[offset..]) {
            Ok((_insn, length)) => offset += usize::from(length),
            Err(why) => {
                let at = at + offset as u64;
                return Err(ListingError { at, why });
            }
        }
    }
    Ok(())
}
