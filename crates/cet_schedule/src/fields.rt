//! How a text is cut into lines, and a line into fields.
ghost use Rattle.std.specs.Prelude.{◌≡◌, ℕ, ◌+◌, ◌<◌, List, [], ◌∷◌, length, MatchOption, IfSome};
ghost use Rattle.std.specs.Option.{option_copied};
ghost use Rattle.cet_schedule.specs.Fields.{parts, two_of, three_of};

const SPACE: u8 = b' ';

/// The bytes before the first one like this, and those behind it. None where there is none like it.
pub(crate) fn cut(byte: u8, bytes: &[u8]) -> Option<(&[u8], &[u8])>
    ensures parts { MatchOption result (parts byte bytes.now ≡ bytes.now ∷ []) (λ cut. parts byte bytes.now ≡ cut.0.now ∷ parts byte cut.1.now) }
    ensures shorter { IfSome result (λ cut. length cut.1.now < length bytes.now) }
{
    for (i, other) in bytes.iter().enumerate() {
        if *other == byte {
            return Some((&bytes[..i], &bytes[i + 1..]));
        }
    }
    None
}

/// The two fields that one space parts, where there are two.
pub(crate) fn two_fields(bytes: &[u8]) -> Option<(&[u8], &[u8])>
    ensures { MatchOption result (two_of (parts 32 bytes.now) ≡ None) (λ two. two_of (parts 32 bytes.now) ≡ Some (two.0.now, two.1.now)) }
{
    let (first, second) = cut(SPACE, bytes)?;
    match cut(SPACE, second) {
        Some(_) => None,
        None => Some((first, second)),
    }
}

/// The three fields that single spaces part, where there are three.
pub(crate) fn three_fields(bytes: &[u8]) -> Option<(&[u8], &[u8], &[u8])>
    ensures { MatchOption result (three_of (parts 32 bytes.now) ≡ None) (λ three. three_of (parts 32 bytes.now) ≡ Some (three.0.now, three.1.now, three.2.now)) }
{
    let (first, others) = cut(SPACE, bytes)?;
    let (second, third) = two_fields(others)?;
    Some((first, second, third))
}
