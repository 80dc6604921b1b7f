//! How statements are cut into words and operands.
ghost use Rattle.std.specs.Prelude.{◌≡◌, ◌≤◌, ◌==◌, length};
ghost use Rattle.std.specs.List.{position_or_len};
ghost use Rattle.std.specs.Option.{option_copied};
ghost use Rattle.cet_syntax.specs.Pieces.{trimmed_front, trimmed_end, trimmed as trimmed_text, before as before_byte, behind as behind_byte, first_word as first_word_of, behind_first_word as behind_first_word_of};

const SPACE: u8 = b' ';

// Where the byte stands first, or the end.
fn place_of(byte: u8, bytes: &[u8]) -> usize
    ensures place { result ≡ position_or_len (λ c. c == byte) bytes.now }
    ensures within { result ≤ length bytes.now }
{
    for (i, other) in bytes.iter().enumerate() {
        if *other == byte {
            return i;
        }
    }
    bytes.len()
}

/// The bytes without the spaces at their start.
pub(crate) fn without_front(bytes: &[u8]) -> &[u8]
    ensures { result.now ≡ trimmed_front bytes.now }
{
    for (i, byte) in bytes.iter().enumerate() {
        if *byte != SPACE {
            return &bytes[i..];
        }
    }
    &[]
}

// The bytes without the spaces at their end.
fn without_end(bytes: &[u8]) -> &[u8]
    ensures { result.now ≡ trimmed_end bytes.now }
{
    let mut end = bytes.len();
    while end > 0 && bytes[end - 1] == SPACE {
        end -= 1;
    }
    &bytes[..end]
}

/// The bytes without the spaces around them.
pub fn trimmed(bytes: &[u8]) -> &[u8]
    ensures { result.now ≡ trimmed_text bytes.now }
{
    without_end(without_front(bytes))
}

/// The bytes up to this one, or all.
pub fn before(byte: u8, bytes: &[u8]) -> &[u8]
    ensures { result.now ≡ before_byte byte bytes.now }
{
    &bytes[..place_of(byte, bytes)]
}

/// The bytes behind the first one like this. None where there is none.
pub fn behind(byte: u8, bytes: &[u8]) -> Option<&[u8]>
    ensures { option_copied result ≡ behind_byte byte bytes.now }
{
    let place = place_of(byte, bytes);
    if place == bytes.len() {
        None
    } else {
        Some(&bytes[place + 1..])
    }
}

/// The bytes up to the first space.
pub(crate) fn first_word(bytes: &[u8]) -> &[u8]
    ensures { result.now ≡ first_word_of bytes.now }
{
    before(SPACE, bytes)
}

/// What stands behind the first word, without the spaces before it.
pub(crate) fn behind_first_word(bytes: &[u8]) -> &[u8]
    ensures { result.now ≡ behind_first_word_of bytes.now }
{
    without_front(&bytes[place_of(SPACE, bytes)..])
}
