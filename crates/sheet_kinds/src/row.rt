// A row of a timeline.
ghost use Rattle.std.specs.Prelude.{◌≡◌, []};
ghost use Rattle.letters.specs.Texts.{text_bytes};

use letters::text::Text;

// A letter as a timeline shows it. Its rank is the sum of its stamp's entries.
#[derive(Clone, Copy)]
pub struct Row {
    pub rank: u32,
    pub poster: u8,
    pub number: u16,
    pub text: Text,
}

// What stands in a place without a row.
impl Default for Row {
    ghost is_default = { λ r. (r.rank ≡ 0) × (r.poster ≡ 0) × (r.number ≡ 0) × (text_bytes r.text ≡ []) };

    fn default() -> Row {
        Row {
            rank: 0,
            poster: 0,
            number: 0,
            text: Text::default(),
        }
    }
}
