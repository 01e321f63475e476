// Texts held by value, with room for a fixed number of bytes.
use stack::ArrayVec;

mod held;

/// A text of at most `N` bytes.
#[derive(Clone, Copy)]
pub struct Text<const N: usize> {
    bytes: ArrayVec<u8, N>,
}
