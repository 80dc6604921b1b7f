ghost use Rattle.std.specs.Prelude.{◌≡◌, ◌<◌, ◌^◌, ◌/◌, ◌%◌, ◌*◌, true, false};
ghost use Rattle.cet_machine.specs.Arithmetic.{bits, low_bits};
ghost use Rattle.cet_machine.specs.Products.{product, product_flags, imul, mul};

use crate::word::{bits, cut, fits_signed, free_flags, mask, signed};
use cet_isa::{Flags, Width};

fn product_flags(over: bool, free: u8) -> Flags
    ensures { result ≡ product_flags over free }
{
    Flags {
        cf: over,
        of: over,
        ..free_flags(free)
    }
}

/// The two halves of a product in two's complement.
fn halves(w: Width, product: u128) -> (u64, u64)
    ensures { result ≡ (product % 2 ^ bits w, product % 2 ^ (2 * bits w) / 2 ^ bits w) }
{
    (cut(w, product), cut(w, product >> bits(w)))
}

/// The same of a product with a sign.
fn signed_halves(w: Width, product: i128) -> (u64, u64)
    ensures { result ≡ (low_bits (bits w) product, low_bits (2 * bits w) product / 2 ^ bits w) }
{
    halves(w, product.cast_unsigned())
}

/// The low half of the signed product and the flags (SDM volume 2, "IMUL"): CF and OF say that the product does not fit. `free` has ZF at
/// bit 1 and SF at bit 2. The operands are below 2 to the power of their bits; the
/// instructions have B4 and B8.
#[tactic(auto, unfolding(cet_machine::specs::Products::imul, cet_machine::specs::Products::mul))]
pub fn imul(w: Width, x: u64, y: u64, free: u8) -> (u64, Flags)
    requires left { x < 2 ^ bits w }
    requires right { y < 2 ^ bits w }
    ensures { result ≡ imul w x y free }
{
    let (low, _, flags) = mul(true, w, x, y, free);
    (low, flags)
}

/// The low half of the product, its high half, and the flags (SDM volume 2, "MUL", "IMUL"): CF and OF say that the product does not fit
/// the low half. `free` has ZF at bit 1 and SF at bit 2. The operands are below 2 to the power of their bits; the
/// instructions have B4 and B8.
pub fn mul(signed: bool, w: Width, x: u64, y: u64, free: u8) -> (u64, u64, Flags)
    requires left { x < 2 ^ bits w }
    requires right { y < 2 ^ bits w }
    ensures { result ≡ mul signed w x y free }
{
    if signed {
        signed_mul(w, x, y, free)
    } else {
        unsigned_mul(w, x, y, free)
    }
}

fn signed_product(w: Width, x: u64, y: u64) -> i128
    requires left { x < 2 ^ bits w }
    requires right { y < 2 ^ bits w }
    ensures { result ≡ product true w x y }
{
    signed(w, x) * signed(w, y)
}

#[tactic(auto, unfolding(cet_machine::specs::Products::mul))]
fn signed_mul(w: Width, x: u64, y: u64, free: u8) -> (u64, u64, Flags)
    requires left { x < 2 ^ bits w }
    requires right { y < 2 ^ bits w }
    ensures { result ≡ mul true w x y free }
{
    let product = signed_product(w, x, y);
    let (low, high) = signed_halves(w, product);
    (low, high, product_flags(!fits_signed(w, product), free))
}

#[tactic(auto, unfolding(cet_machine::specs::Products::mul))]
fn unsigned_mul(w: Width, x: u64, y: u64, free: u8) -> (u64, u64, Flags)
    requires left { x < 2 ^ bits w }
    requires right { y < 2 ^ bits w }
    ensures { result ≡ mul false w x y free }
{
    let product = u128::from(x) * u128::from(y);
    let (low, high) = halves(w, product);
    (
        low,
        high,
        product_flags(product > u128::from(mask(w)), free),
    )
}
