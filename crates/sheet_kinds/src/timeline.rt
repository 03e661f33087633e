ghost use Rattle.std.specs.Prelude.{◌≡◌, ◌≤◌, true};
ghost use Rattle.arrayvec.specs.ArrayVec.{array_vec_len};
ghost use Rattle.sheets.specs.Placing.{in_order};
ghost use Rattle.sheet_kinds.specs.RowOrder.{row_after};
ghost use Rattle.sheet_kinds.specs.declared.timeline.TheConstants.{PLACES};

use crate::row::Row;
use arrayvec::ArrayVec;

pub mod entering;

// How many letters can be entered.
pub const PLACES: usize = 256;

// A sheet of texts: a row for each letter, by rank and, where ranks are equal, by poster.
#[derive(Drop)]
pub struct Timeline {
    rows: ArrayVec<Row, PLACES>,
    ghost fit: { array_vec_len rows ≤ PLACES },
    ghost ordered: { in_order row_after rows.items ≡ true },
}
