ghost use Rattle.std.specs.Prelude.{◌≡◌, OnOk};
ghost use Rattle.diameter.specs.Reading.{Within, ahead};
ghost use Rattle.diameter.specs.Visiting.{Shown};

use crate::cursor::Cursor;
use crate::site::Site;
use crate::visitor::Visitor;
use diameter_headers::{Kind, Place};
use refusals::Fault;

// The cursor while it is inside a group. Dropped, on whatever way out, it puts back the cursor that stood after the group.
struct Inside<'c> {
    cursor: &'c mut Cursor,
    outer: Cursor,
}

impl Drop for Inside<'_> {
    fn drop(self)
        ensures { self.exit.0.now ≡ self.entry.outer }
    {
        *self.cursor = self.outer;
        let Inside {
            cursor: _,
            outer: _,
        } = self;
    }
}

impl<P: Place> Site<'_, P> {
    // Shows the visitor all that is left at the cursor, AVP by AVP, the members of a group after the group.
    pub(crate) fn walk<V: Visitor<P>>(
        &self,
        cursor: &mut Cursor,
        visitor: &mut V,
    ) -> Result<(), Fault>
        requires { Within self.now.message.now cursor.old }
        ensures shown { Shown V.Visitor.shows visitor.old (ahead P.Place.kinds P.Place.rank self.now.place self.now.parent self.now.message.now cursor.old) result visitor.new }
        ensures end { cursor.new.end ≡ cursor.old.end }
        ensures within { Within self.now.message.now cursor.new }
        ensures all { OnOk result (cursor.new.position ≡ cursor.new.end) }
    {
        while let Some((entry, item)) = self.read_avp(cursor)? {
            if let Err(refusal) = visitor.show(&entry, item) {
                return Err(Fault::at(refusal, entry.offset));
            }
            if let Kind::Group(inner) = entry.kind {
                let members = Site {
                    message: self.message,
                    place: inner,
                    parent: entry.offset,
                };
                let outer = *cursor;
                let inside = Inside {
                    cursor: &mut *cursor,
                    outer,
                };
                inside.cursor.position = entry.start;
                inside.cursor.end = entry.end;
                members.walk(inside.cursor, visitor)?;
            }
        }
        Ok(())
    }
}
