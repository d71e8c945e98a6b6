ghost use Rattle.std.specs.Prelude.{Result};
ghost use Rattle.refusals.specs.declared.refusal.Refusal.{Refusal};
ghost use Rattle.diameter.specs.Values.{Value, held};
ghost use Rattle.diameter.specs.declared.entry.Entry.{Entry};

use crate::entry::{Entry, Item};
use refusals::Refusal;

// What is done at each AVP of a message. `shows u e v a w` says that the visitor u, shown the AVP e with the value v,
// answers a and is then w.
pub trait Visitor<P> {
    ghost shows: { Self → Entry P → Value → Result (Unit {0}) Refusal → Self → Type 0 };

    // Looks at an AVP; a refusal ends the walk.
    fn show(&mut self, entry: &Entry<P>, item: Item<'_>) -> Result<(), Refusal>
        ensures { shows self.old entry.now (held item.entry) result self.new };
}
