// Tables of letters, and parts of them.
ghost use Rattle.std.specs.Prelude.{◌≡◌, ◌+◌, length, take, drop, if◌then◌else◌, nat_lt, slice_set};
ghost use Rattle.seats.specs.Rooms.{table_closed_up};

// The part of a table that begins at a place and has so many elements, as far as the table goes.
pub fn part<T>(table: &[T], start: usize, len: usize) -> &[T]
    ensures { result.now ≡ take len (drop start table.now) }
{
    let rest = &table[start.min(table.len())..];
    &rest[..len.min(rest.len())]
}

// Writes one element into a table; past its end there is no place.
pub fn put<T: Copy>(table: &mut [T], at: usize, element: T)
    ensures { table.new ≡ slice_set table.old at element }
{
    // no `get_mut`: what is written through it is not known of the table afterwards
    if at < table.len() {
        table[at] = element;
    }
}

// Moves the elements behind a place down by one; where so many do not stand behind it, nothing moves.
pub fn close_up<T: Copy>(table: &mut [T], at: usize, behind: usize)
    ensures { table.new ≡ (if nat_lt (at + behind) (length table.old) then table_closed_up table.old at behind else table.old) }
{
    if behind >= table.len() || at >= table.len() - behind {
        return;
    }
    // A turn by one moves whole runs of memory, where `copy_within` goes element by element. The last place keeps what it has.
    let moving = &mut table[at..at + behind + 1];
    let last = moving[behind];
    moving.rotate_left(1);
    moving[behind] = last;
}
