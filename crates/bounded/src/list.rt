// A list of at most N items: the first len of the N places are in use.
ghost use Rattle.std.specs.Prelude.{◌≡◌, ◌≤◌, length, ⊤};

use std::alloc::AllocError;

mod methods;

// The places and their number stand side by side, since names and paths are copied and nothing here may allocate: the library's `arrayvec` is no `Copy`.
pub struct ArrayVec<T, const N: usize> {
    items: [T; N],
    len: usize,
    ghost within: { len ≤ N },
    ghost whole: { N ≤ length items },
}

// By hand: at a type with a parameter and ghost fields a derive gets no proof.
impl<T: Copy, const N: usize> Copy for ArrayVec<T, N> {}

impl<T: Copy, const N: usize> Clone for ArrayVec<T, N> {
    ghost is_clone = { λ a b. b ≡ a };

    ghost is_infallible = { λ _. ⊤ };

    fn clone(&self) -> Result<Self, AllocError> {
        Ok(*self)
    }
}
