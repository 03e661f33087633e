// What is wrong with a file of records.
// A fault: the record's index from 0, and its first wrong byte. As a refusal it has the number 20.
#[derive(Clone, Copy, Debug, PartialEq, Eq)]
pub struct Fault {
    pub index: usize,
    pub byte: u8,
}
