ghost use Rattle.std.specs.Prelude.{◌≡◌, ◌≤◌, length, ⊤};

use std::alloc::AllocError;

mod list;

pub use list::Full;

// At most N values in fixed memory: the first `size` of `all` are in use. It is an array with a length beside it,
// since nothing below the text layer takes from the heap, and a code is copied, which the kit's `ArrayVec` is not.
pub struct Short<T, const N: usize> {
    all: [T; N],
    size: usize,
    ghost sized: { length all ≡ N },
    ghost few: { size ≤ N },
}

// Written out: a derive was tried, and is refused for a struct with a type parameter and a ghost field.
impl<T: Copy, const N: usize> Clone for Short<T, N> {
    ghost is_clone = { λ x y. y ≡ x };

    ghost is_infallible = { λ _. ⊤ };

    fn clone(&self) -> Result<Self, AllocError> {
        Ok(*self)
    }
}

impl<T: Copy, const N: usize> Copy for Short<T, N> {}
