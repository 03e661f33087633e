// Complete delivery, and the places that it needs.
ghost use Rattle.std.specs.Prelude.{◌≡◌, ◌*◌, true};
ghost use Rattle.causality.specs.Theorems.{CompleteDelivery, EnoughPlaces};

// Whether, where nothing is on its way to a seat and nothing held there is ready, its log holds exactly the posted letters.
// It always does.
pub fn complete_delivery_holds<B: Copy>() -> bool
    ensures answer { result ≡ true }
    ensures delivery { CompleteDelivery B }
{
    true
}

// How many places a seat's hold, and its part of the log table, has in a room of so many seats with this quota. There is
// always one for a posted letter, so where nothing is on its way to a seat and nothing held there is ready, its log holds
// exactly the posted letters.
pub fn places<B: Copy>(seats: u8, quota: u16) -> u32
    ensures answer { result ≡ seats * quota }
    ensures enough { EnoughPlaces B seats quota }
    ensures delivery { CompleteDelivery B }
{
    seats as u32 * quota as u32
}
