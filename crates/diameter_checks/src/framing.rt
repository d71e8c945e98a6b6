ghost use Rattle.std.specs.Prelude.{◌≡◌, length, Ok};
ghost use Rattle.diameter.specs.Listing.{listing};
ghost use Rattle.diameter_checks.specs.Order.{Rising};
ghost use Rattle.diameter_checks.specs.Questions.{framing};
ghost use Rattle.diameter_checks.specs.Steps.{Steps};

use diameter::{Entry, Item, Visitor, visit_message};
use diameter_headers::Place;
use refusals::{Fault, Refusal};

// Asks nothing but what the walk itself asks.
#[derive(Clone, Copy)]
struct Frames;

impl<P: Place> Visitor<P> for Frames {
    ghost shows = { λ u _ _ a w. (a ≡ Ok tt) × (w ≡ u) };

    fn show(&mut self, _entry: &Entry<P>, _item: Item<'_>) -> Result<(), Refusal> {
        Ok(())
    }
}

// Whether every AVP of a message is well framed, groups included; else the first that is not. The offsets of the list rise,
// so all that lies before the fault was well framed. `steps` is the law of that list.
pub fn check_framing<P: Place>(message: &[u8], place: P) -> Result<(), Fault>
    ensures value { result ≡ framing (listing P.Place.kinds P.Place.rank place message.now) }
    ensures steps { Steps P.Place.kinds P.Place.rank }
    ensures ordered { Rising 20 (length message.now) (listing P.Place.kinds P.Place.rank place message.now) }
{
    visit_message(message, place, &mut Frames)
}
