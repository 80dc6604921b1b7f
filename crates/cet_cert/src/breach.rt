//! A broken rule with its place, and which of two comes first.
ghost use Rattle.std.specs.Prelude.{◌⊎◌};
ghost use Rattle.cet_cert.specs.Breach.{IsOf, IsFirstOf};

/// A broken rule, and the address where it is broken.
#[derive(Clone, Copy)]
pub struct Breach {
    pub rule: u8,
    pub at: u64,
}

/// The one of the lower address; at one address, of the lower rule.
pub fn first_of(one: Option<Breach>, other: Option<Breach>) -> Option<Breach>
    ensures { IsFirstOf (λ rule a. IsOf one rule a ⊎ IsOf other rule a) result }
{
    let Some(left) = one else {
        return other;
    };
    let Some(right) = other else {
        return one;
    };
    if left.at < right.at || (left.at == right.at && left.rule <= right.rule) {
        one
    } else {
        other
    }
}
