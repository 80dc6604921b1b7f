//! The next living thread, in turn.
ghost use Rattle.std.specs.Prelude.{◌≡◌, ℕ, ◌+◌, ◌%◌, ◌^◌, ◌<◌, IfSome};
ghost use Rattle.cet_process.specs.Chosen.{next_living as next_of_round};
ghost use Rattle.cet_choosers.specs.Lowest.{Lowest};
ghost use Rattle.cet_choosers.specs.Plans.{below};

use cet_process::View;

/// The bits of a word.
const BITS: u32 = 64;

/// The bits below this place.
fn bits_below(bits: u64, count: u32) -> u64
    ensures { result ≡ bits % 2 ^ count }
{
    if count >= BITS {
        bits
    } else {
        bits % (1 << count)
    }
}

/// The place of the lowest bit that is 1 at `from` or above, if there is one.
fn lowest_from(bits: u64, from: u32) -> Option<u32>
    ensures place { Lowest bits from result }
    ensures within { IfSome result (λ t. t < 64) }
{
    if from >= BITS {
        return None;
    }
    let above = bits >> from;
    if above == 0 {
        return None;
    }
    Some(from + above.trailing_zeros())
}

/// The next living thread from this number on, or else the least one.
pub(crate) fn next_living(view: View, from: u32) -> Option<u32>
    ensures thread { result ≡ next_of_round view (below from) }
    ensures within { IfSome result (λ t. t < 64) }
{
    let living = bits_below(view.live, view.threads);
    match lowest_from(living, from) {
        Some(thread) => Some(thread),
        None => lowest_from(living, 0),
    }
}
