// Causal order, what led to what, and the first letter of a run.
ghost use Rattle.std.specs.Prelude.{◌≡◌, true};
ghost use Rattle.letters.specs.Letters.{parts_of};
ghost use Rattle.causality.specs.Sample.{Arrives, first_parts, stamp_of_first};
ghost use Rattle.causality.specs.Theorems.{CausalOrder, OrderForSheets, StampsMeanLedTo, TellsLedTo, stamps_say};

use letters::letter::Letter;
use letters::parts::Parts;
use letters::stamp::Stamp;

// Whether every log is in causal order, and every letter is the very one that was posted. They always are.
pub fn causal_order_holds<B: Copy>() -> bool
    ensures answer { result ≡ true }
    ensures order { CausalOrder B }
{
    true
}

// Whether m led to k (happened before it), by their stamps alone: right wherever both were posted in one room. Every
// log is in causal order, and any two logs of a room, and any beginnings of them, are fit to be drawn up on sheets that agree.
pub fn led_to<B: Copy>(m: &Letter<B>, k: &Letter<B>) -> bool
    ensures answer { result ≡ stamps_say m.now k.now }
    ensures tells { TellsLedTo m.now k.now result }
    ensures law { StampsMeanLedTo B }
    ensures order { CausalOrder B }
    ensures sheets { OrderForSheets B }
{
    was_known(m, k)
}

// Whether k covers m and is another letter.
fn was_known<B: Copy>(m: &Letter<B>, k: &Letter<B>) -> bool
    ensures { result ≡ stamps_say m.now k.now }
{
    k.covers(m.id()) && !m.is_same(k)
}

// The letter 0.1 with this body, stamped as the first post in a room. A run brings it, and a letter that answers it,
// to every seat of three.
pub fn first_letter<B: Copy>(body: B) -> Letter<B>
    ensures parts { parts_of result ≡ first_parts body }
    ensures arrives { Arrives result }
{
    Letter::make(Parts {
        stamp: first_stamp(),
        poster: 0,
        body,
    })
}

// The stamp of the first letter that seat 0 posts.
fn first_stamp() -> Stamp
    ensures { result ≡ stamp_of_first }
{
    Stamp {
        entries: [1, 0, 0, 0, 0, 0, 0, 0, 0, 0, 0, 0, 0, 0, 0, 0],
    }
}
