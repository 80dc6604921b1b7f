/// Why an image is not loaded.
#[derive(Clone, Copy, Debug, PartialEq, Eq)]
pub enum LoadError {
    /// The pages of the segment that starts at `at` are not all within 4,096 to 2^32 - 65,536.
    Place { at: u64 },
    /// The segments that start at `a` and `b` share a page.
    Shared { a: u64, b: u64 },
    NoMemory,
}
