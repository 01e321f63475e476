// The struct stands alone in its file: the definitions in specs/ name it.
ghost use Rattle.std.specs.Prelude.{◌≡◌, ◌≤◌, ⊤, length};

use std::alloc::AllocError;

mod methods;

// Memory is fixed, by a rule of the project, and rows of labels are copied: the toolchain's list of this name is not `Copy`.
/// Up to `N` items in an array of its own, in the order in which they were added.
#[derive(Drop)]
pub struct ArrayVec<T, const N: usize> {
    slots: [T; N],
    len: usize,
    ghost whole: { length slots ≡ N },
    ghost within: { len ≤ N },
}

impl<T: Copy, const N: usize> Copy for ArrayVec<T, N> {}

// By hand: `Clone` cannot be derived for a struct with a ghost field.
impl<T: Copy, const N: usize> Clone for ArrayVec<T, N> {
    ghost is_clone = { λ v w. w ≡ v };

    ghost is_infallible = { λ _. ⊤ };

    fn clone(&self) -> Result<ArrayVec<T, N>, AllocError> {
        Ok(*self)
    }
}
