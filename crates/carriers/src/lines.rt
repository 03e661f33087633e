// Lines: a queue for each seat.
ghost use Rattle.std.specs.Prelude.{◌≡◌, ℕ, ◌*◌, ◌≤◌, length, slice_index};

use letters::letter::Letter;

pub mod carrying;

// A queue of `size` places for each of the seats, side by side in one lent row of letters. In fixed memory: sixteen counts,
// of which as many are in use as there are seats.
#[derive(Drop)]
pub struct Lines<'a, B> {
    places: &'a mut [Letter<B>],
    seats: u8,
    size: u32,
    counts: [u32; 16],
    ghost table: { length counts ≡ 16 },
    ghost some: { 1 ≤ seats },
    ghost few: { seats ≤ 16 },
    ghost sized: { 1 ≤ size },
    ghost whole: { seats * size ≤ length places.now },
    ghost within: { (k : ℕ) → slice_index counts k ≤ size },
    ghost beyond: { (k : ℕ) → seats ≤ k → slice_index counts k ≡ 0 },
}
