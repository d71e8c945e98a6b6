ghost use Rattle.std.specs.Prelude.{◌≡◌, ◌≤◌, length, is_ok};
ghost use Rattle.diameter.specs.Listing.{listing};
ghost use Rattle.diameter.specs.Reading.{Read, ahead, opening, rested};
ghost use Rattle.diameter.specs.Visiting.{Shown};

use crate::cursor::Cursor;
use crate::entry::{Entry, Item};
use crate::site::Site;
use crate::visitor::Visitor;
use diameter_headers::{HEADER_LEN, Place};
use refusals::Fault;

// Walks a message in place and copies nothing of it. The cursor always lies in the message.
#[derive(Drop)]
pub struct Reader<'a> {
    message: &'a [u8],
    cursor: Cursor,
    ghost ordered: { cursor.position ≤ cursor.end },
    ghost inside: { cursor.end ≤ length message.now },
}

impl<'a> Reader<'a> {
    // A reader at the first AVP of a message. One that has not even a header has no AVPs.
    pub fn new(message: &'a [u8]) -> Reader<'a>
        ensures message { result.message ≡ message.entry }
        ensures cursor { result.cursor ≡ opening message.now }
    {
        let end = message.len();
        Reader {
            message,
            cursor: Cursor {
                position: HEADER_LEN.min(end),
                end,
            },
        }
    }

    // The AVPs of the message, outside groups.
    fn site<P: Place>(&self, place: P) -> Site<'a, P>
        ensures message { result.message ≡ self.now.message }
        ensures place { result.place ≡ place }
        ensures parent { result.parent ≡ 0 }
    {
        Site {
            message: self.message,
            place,
            parent: 0,
        }
    }

    // The AVP that the reader stands at, which it then stands after; none at the end. The members of a group are passed over.
    pub fn next<P: Place>(&mut self, place: P) -> Result<Option<(Entry<P>, Item<'a>)>, Fault>
        ensures read { Read P.Place.kinds place 0 self.old.message.now self.old.cursor self.new.cursor result }
        ensures message { self.new.message ≡ self.old.message }
    {
        self.site(place).read_avp(&mut self.cursor)
    }

    // Shows a visitor all that is left, members after their groups. Where the visit stops before the end, the reader stays where it was.
    pub fn visit<P: Place, V: Visitor<P>>(&mut self, place: P, visitor: &mut V) -> Result<(), Fault>
        ensures shown { Shown V.Visitor.shows visitor.old (ahead P.Place.kinds P.Place.rank place 0 self.old.message.now self.old.cursor) result visitor.new }
        ensures cursor { self.new.cursor ≡ rested (is_ok result) self.old.cursor }
        ensures message { self.new.message ≡ self.old.message }
    {
        let start = self.cursor;
        let shown = self.site(place).walk(&mut self.cursor, visitor);
        if shown.is_err() {
            self.cursor = start;
        }
        shown
    }
}

// Shows a visitor every AVP of a message, in the order of their offsets.
pub fn visit_message<P: Place, V: Visitor<P>>(
    message: &[u8],
    place: P,
    visitor: &mut V,
) -> Result<(), Fault>
    ensures { Shown V.Visitor.shows visitor.old (listing P.Place.kinds P.Place.rank place message.now) result visitor.new }
{
    Reader::new(message).visit(place, visitor)
}
