// A job that is open.

// A job of a job list: the name p.n of the letter that opened it, and its code.
// Any p and n can stand here.
#[derive(Clone, Copy, PartialEq, Eq, Default)]
pub struct OpenJob {
    pub poster: u8,
    pub number: u16,
    pub code: u32,
}
