// Rows that stand in an order, and how a new one goes in among them.
ghost use Rattle.std.specs.Prelude.{◌≡◌, ◌+◌, ◌<◌, ◌≤◌, Bool, cond, length, nat_lt};
ghost use Rattle.std.specs.Cmp.{IsStrictWeakOrder};
ghost use Rattle.arrayvec.specs.ArrayVec.{array_vec_len};
ghost use Rattle.sheets.specs.Placing.{place_among, placed_within};

use arrayvec::ArrayVec;

// A type of rows with an order, which is a strict weak order: of two rows that differ, neither need stand after the other.
pub trait OrderedRow: Copy {
    ghost after: { Self → Self → Bool };

    // Whether this row stands after a new one.
    fn is_after(&self, new: &Self) -> bool
        ensures { result ≡ after self.now new.now };

    ghost ordered: { IsStrictWeakOrder after };
}

// The place of the first row that stands after the new one, or the number of rows.
fn place_for<T: OrderedRow>(rows: &[T], new: &T) -> usize
    ensures place { result ≡ place_among T.OrderedRow.after rows.now new.now }
    ensures within { result ≤ length rows.now }
{
    rows.iter()
        .position(|row| row.is_after(new))
        .unwrap_or(rows.len())
}

// Puts a row where it belongs, and says whether a place was free; where none was, the rows stay.
pub fn insert<T: OrderedRow, const N: usize>(rows: &mut ArrayVec<T, N>, new: T) -> bool
    ensures answer { result ≡ nat_lt (array_vec_len rows.old) N }
    ensures rows { rows.new.items ≡ placed_within T.OrderedRow.after N rows.old.items new }
    ensures untouched { N ≤ array_vec_len rows.old → rows.new ≡ rows.old }
    ensures len { array_vec_len rows.new ≡ cond result (array_vec_len rows.old + 1) (array_vec_len rows.old) }
{
    if rows.is_full() {
        return false;
    }
    let at = place_for(rows.as_slice(), &new);
    rows.insert(at, new);
    true
}
