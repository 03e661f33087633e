// A stamp: a vector timestamp, one 16-bit number for each of sixteen seats.
// Letters and clocks are stamped with it; the entry for a seat counts that seat's letters.
#[derive(Clone, Copy)]
pub struct Stamp {
    pub entries: [u16; 16],
}
