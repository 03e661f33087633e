// A queue in places that are lent to it, for letters of any body.
ghost use Rattle.std.specs.Prelude.{◌≡◌, ◌+◌, ◌-◌, ◌^◌, ◌<◌, ◌≤◌, [], ◌∷◌, ◌++◌, length, take, slice_index_or, slice_set};
ghost use Rattle.std.specs.List.{copy_within, remove};

use letters::letter::Letter;

// The first `count` of the places hold what waits, in order.
#[derive(Drop)]
pub(crate) struct Queue<'a, B> {
    places: &'a mut [Letter<B>],
    count: u32,
    ghost within: { count ≤ length places.now },
}

impl<'a, B: Copy> Queue<'a, B> {
    // One letter more at the end.
    fn push(&mut self, letter: &Letter<B>)
        requires { (self.old.count < length self.old.places.now) × (self.old.count + 1 < 2 ^ 32) }
        ensures lender { self.new.places.ghost_name ≡ self.old.places.ghost_name }
        ensures count { self.new.count ≡ self.old.count + 1 }
        ensures letters { take self.new.count self.new.places.now ≡ take self.old.count self.old.places.now ++ (letter.now ∷ []) }
        ensures table { self.new.places.now ≡ slice_set self.old.places.now self.old.count letter.now }
    {
        self.places[self.count as usize] = *letter;
        self.count += 1;
    }

    // Takes out what waits at a place, and closes up what waits behind it.
    fn remove(&mut self, place: u32) -> Letter<B>
        requires { place < self.old.count }
        ensures lender { self.new.places.ghost_name ≡ self.old.places.ghost_name }
        ensures count { self.new.count + 1 ≡ self.old.count }
        ensures letters { take self.new.count self.new.places.now ≡ remove (take self.old.count self.old.places.now) place }
        ensures table { self.new.places.now ≡ copy_within self.old.places.now (place + 1) self.old.count place }
        ensures taken { result ≡ slice_index_or self.old.places.now place result }
    {
        let taken = self.places[place as usize];
        self.places
            .copy_within(place as usize + 1..self.count as usize, place as usize);
        self.count -= 1;
        taken
    }
}

// One letter more at the end of the queue that these places are.
pub(crate) fn push_to<B: Copy>(places: &mut [Letter<B>], count: u32, letter: &Letter<B>)
    requires { (count < length places.old) × (count + 1 < 2 ^ 32) }
    ensures letters { take (count + 1) places.new ≡ take count places.old ++ (letter.now ∷ []) }
    ensures table { places.new ≡ slice_set places.old count letter.now }
{
    let mut queue = Queue { places, count };
    queue.push(letter);
}

// Takes out a place of the queue that these places are.
pub(crate) fn remove_from<B: Copy>(places: &mut [Letter<B>], count: u32, place: u32) -> Letter<B>
    requires { (place < count) × (count ≤ length places.old) }
    ensures letters { take (count - 1) places.new ≡ remove (take count places.old) place }
    ensures table { places.new ≡ copy_within places.old (place + 1) count place }
    ensures taken { result ≡ slice_index_or places.old place result }
{
    let mut queue = Queue { places, count };
    queue.remove(place)
}
