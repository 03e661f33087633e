// A room before it opens.
use crate::terms::Terms;

mod opening;

// What is fixed of a room before it opens; boxes can still be enrolled.
#[derive(Drop)]
pub struct Draft {
    terms: Terms,
}
