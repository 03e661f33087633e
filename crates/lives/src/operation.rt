// What can be asked of a room.

// A step with what it brings, as data, so that steps can be listed and read in. What it brings of a docket, D,
// is the docket itself, which a caller has in hand, or its numbers, as in a list of steps.
#[derive(Clone, Copy)]
pub enum Operation<B, D> {
    Post(u8, B),
    Send(D),
    Park(D),
    Collect(u8),
    Take(u8, u32),
    Show(u8),
}
