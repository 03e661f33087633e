// A room at work.
use letters::job::Job;
use letters::letter::Letter;
use rooms::room::Room;

mod driving;
mod running;

// A room, the two letter tables that are brought to its calls, and the carrier on which its letters go. The rooms check and
// the bench have one of their own: a struct of another crate could have no methods of the program's own.
#[derive(Drop)]
pub struct Session<'l, 'h, C> {
    pub room: Room,
    pub logs: &'l mut [Letter<Job>],
    pub holds: &'h mut [Letter<Job>],
    pub carrier: C,
}
