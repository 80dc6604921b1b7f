/// Why no form stands at the head of some bytes.
#[derive(Clone, Copy, Debug, PartialEq, Eq)]
pub enum DecodeError {
    /// The bytes are a proper prefix of a form; so is the empty list.
    Short,
    /// Neither a prefix nor an extension of the bytes is a form.
    Outside,
}
