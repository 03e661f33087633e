// An open room.
ghost use Rattle.std.specs.Prelude.{◌≡◌, ℕ, ◌*◌, ◌<◌, ◌≤◌, length, get_or, slice_index_or};
ghost use Rattle.seats.specs.Invariants.{Nobody, Within};
ghost use Rattle.seats.specs.Seats.{blank};

use crate::terms::Terms;
use seats::seat::Seat;

mod close;
mod dockets;
mod draw_up;
mod make;
mod post;
mod read;
mod send;
mod show;
mod step;
mod table;
mod take;

// A room in which letters are posted: its terms, and what it keeps for each seat. Open, it is one of three types; a draft
// comes before it and a closed room after it.
//
// The two letter tables go with almost every call and are no struct of both: some calls write one and only read the other,
// so a struct would make a caller lend both to be written. The seats stand in a table of sixteen, which is written back
// whole; the names do not change with them, and stand with the terms.
#[derive(Drop)]
pub struct Room {
    terms: Terms,
    seats: [Seat; 16],
    ghost some: { 1 ≤ terms.count },
    ghost table: { length seats ≡ 16 },
    ghost whole: { (s : ℕ) → s < 16 → length (get_or seats s blank).clock.entries ≡ 16 },
    ghost within: { (s : ℕ) → Within terms.quota (slice_index_or seats s blank) },
    ghost nobody: { (s : ℕ) → Nobody terms.count (slice_index_or seats s blank) },
    ghost placed: { (s : ℕ) → (get_or seats s blank).held ≤ terms.count * terms.quota },
}
