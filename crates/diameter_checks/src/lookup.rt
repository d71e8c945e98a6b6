ghost use Rattle.std.specs.Option.{option_or};
ghost use Rattle.std.specs.Prelude.{◌≡◌, if◌then◌else◌, Some, Ok};
ghost use Rattle.diameter.specs.Listing.{listing};
ghost use Rattle.diameter_checks.specs.Questions.{first, named};

use diameter::{Entry, Item, Visitor, visit_message};
use diameter_headers::Place;
use refusals::Refusal;

// Keeps the first AVP with a code and a vendor.
#[derive(Clone, Copy)]
struct First<P> {
    code: u32,
    vendor: u32,
    found: Option<Entry<P>>,
}

impl<P: Place> Visitor<P> for First<P> {
    ghost shows = { λ u e _ a w. (a ≡ Ok tt) × (w ≡ record u { found = (if named u.code u.vendor e then option_or u.found (Some e) else u.found) }) };

    fn show(&mut self, entry: &Entry<P>, _item: Item<'_>) -> Result<(), Refusal> {
        if entry.code == self.code && entry.vendor == self.vendor {
            self.found = self.found.or(Some(*entry));
        }
        Ok(())
    }
}

// The first AVP with this code and vendor, in the message or in a group of it; none also where a fault comes first.
pub fn find<P: Place>(message: &[u8], place: P, code: u32, vendor: u32) -> Option<Entry<P>>
    ensures { result ≡ first code vendor (listing P.Place.kinds P.Place.rank place message.now) }
{
    let mut first = First {
        code,
        vendor,
        found: None,
    };
    let _ = visit_message(message, place, &mut first);
    first.found
}
