// What a timeline shows, and how letters are entered there.
ghost use Rattle.std.specs.Prelude.{◌≡◌, ◌+◌, true, length, refl};
ghost use Rattle.letters.specs.Refusals.{as_answer};
ghost use Rattle.sheets.specs.Pages.{page_count};
ghost use Rattle.sheets.specs.Placing.{in_order};
ghost use Rattle.sheet_kinds.specs.KindLemmas.{row_order, rows_differ};
ghost use Rattle.sheet_kinds.specs.RowOrder.{row_after};
ghost use Rattle.sheets.specs.Sheets.{acceptance, enter_outcome, meaning_left};
ghost use Rattle.sheet_kinds.specs.Timelines.{TimelineMeaning, no_rows, row_of, timeline_kind, timeline_of};
ghost use Rattle.sheets.specs.BesideLemmas.{beside_posters};
ghost use Rattle.sheets.specs.RowLemmas.{placed_swap};
ghost use Rattle.sheet_kinds.specs.declared.timeline.TheConstants.{PLACES};

use crate::row::Row;
use crate::timeline::{self, Timeline};
use arrayvec::ArrayVec;
use letters::letter::Letter;
use letters::refusal::Refusal;
use letters::text::Text;
use sheets::pages::pages;
use sheets::placing::{OrderedRow, insert};
use sheets::sheet::Sheet;

impl OrderedRow for Row {
    ghost after = { row_after };

    fn is_after(&self, new: &Row) -> bool {
        // Spelt out: a comparison of pairs takes three times the instructions.
        self.rank > new.rank || (self.rank == new.rank && self.poster > new.poster)
    }

    ghost ordered = { row_order };
}

// The row of a letter.
impl From<&Letter<Text>> for Row {
    ghost from_gives = { λ letter row. row ≡ row_of letter.now };

    fn from(letter: &Letter<Text>) -> Row {
        Row {
            rank: letter.stamp().sum(),
            poster: letter.poster(),
            number: letter.number(),
            text: *letter.body(),
        }
    }
}

impl Timeline {
    pub fn new() -> Self
        ensures { timeline_of result ≡ no_rows }
    {
        Timeline {
            rows: ArrayVec::new(),
        }
    }

    // The rows from the top, by rank and, where ranks are equal, by poster.
    pub fn rows(&self) -> &[Row]
        ensures rows { result.now ≡ (timeline_of self.now).rows }
        ensures ordered { in_order row_after result.now ≡ true }
    {
        self.rows.as_slice()
    }

    // How many pages the rows take.
    pub fn pages(&self) -> u32
        ensures { result ≡ page_count (length (timeline_of self.now).rows) }
    {
        pages(self.rows.len() as u32)
    }
}

impl Sheet for Timeline {
    type Body = Text;

    const PLACES: u32 = timeline::PLACES as u32;

    ghost PLACES = { PLACES };

    ghost Meaning = { TimelineMeaning };

    ghost meaning = { timeline_of };

    ghost kind = { timeline_kind };

    ghost sized = { refl };

    ghost lawful = { record {
      starts = refl;
      adds = λ m x room. refl;
      commutes = λ m x y room side.
          let differ = rows_differ (row_of x) (row_of y) (beside_posters x y side) in
          let swap = placed_swap row_after row_order m.rows (row_of x) (row_of y) differ in
          λ i. record { count = m.count + 1 + 1; rows = swap i };
    } };

    fn letters(&self) -> u32 {
        self.rows.len() as u32
    }

    fn clear(&mut self) {
        self.rows.clear();
    }

    #[tactic(auto, using(crate::proofs::Showing::timeline_facts))]
    fn enter(&mut self, letter: &Letter<Text>) -> Result<(), Refusal>
        ensures answer { as_answer (λ u. u) result ≡ acceptance (enter_outcome timeline_kind (timeline_of self.old) letter.now) }
        ensures leaves { timeline_of self.new ≡ meaning_left (enter_outcome timeline_kind (timeline_of self.old) letter.now) (timeline_of self.old) }
        ensures untouched { timeline_kind.count (timeline_of self.old) ≡ timeline_kind.places → self.new ≡ self.old }
    {
        if !insert(&mut self.rows, Row::from(letter)) {
            return Err(Refusal::SheetFull);
        }
        Ok(())
    }
}
