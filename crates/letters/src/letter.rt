ghost use Rattle.std.specs.Prelude.{◌≡◌, ◌<◌, length, slice_index, ⊤};

use crate::stamp::Stamp;
use std::alloc::AllocError;

mod making;
mod order;

// A message: the seat that posted it, that seat's clock as it was posted (a vector timestamp), and a body.
// Its number is its stamp's entry at its poster.
#[derive(Copy)]
pub struct Letter<B> {
    stamp: Stamp,
    poster: u8,
    body: B,
    ghost sized: { length stamp.entries ≡ 16 },
    ghost seated: { poster < 16 },
    ghost counted: { 0 < slice_index stamp.entries poster },
}

// By hand: a derived `Clone` is refused for a struct of any body that has ghost fields.
impl<B: Copy> Clone for Letter<B> {
    ghost is_clone = { λ s r. r ≡ s };

    ghost is_infallible = { λ _. ⊤ };

    fn clone(&self) -> Result<Letter<B>, AllocError> {
        Ok(*self)
    }
}
