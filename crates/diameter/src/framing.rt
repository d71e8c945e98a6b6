ghost use Rattle.std.specs.Prelude.{◌≡◌, true, length, MatchOption};
ghost use Rattle.diameter_headers.specs.Framing.{Framed, fitting};
ghost use Rattle.diameter_headers.specs.Headers.{AvpHeaderOf};
ghost use Rattle.diameter.specs.Listing.{kind_in};
ghost use Rattle.diameter.specs.Reading.{Read, Within};
ghost use Rattle.diameter.specs.Values.{held, value_of};

use crate::cursor::Cursor;
use crate::entry::{Entry, Item};
use crate::site::Site;
use diameter_headers::{AvpHeader, Kind, Place, number4, padding};
use refusals::{Fault, Refusal};

// The header of the AVP that comes first and what the AVP is at the place, where it is well framed.
fn frame<P: Place>(place: P, part: &[u8]) -> Option<(AvpHeader, Kind<P>)>
    ensures { MatchOption result ((Framed (kind_in P.Place.kinds place part.now) part.now → ⊥)) (λ h. Framed (kind_in P.Place.kinds place part.now) part.now × AvpHeaderOf part.now h.0 × (h.1 ≡ kind_in P.Place.kinds place part.now)) }
{
    let header = AvpHeader::read(part)?;
    if header.length < header.header || part.len() < header.length + padding(header.length) {
        return None;
    }
    let kind = place.kind_of(header.code, header.vendor);
    kind.fits(header.length - header.header)
        .then_some((header, kind))
}

// What an AVP's data is: no octet is copied.
fn item_of<P: Copy>(kind: Kind<P>, data: &[u8]) -> Item<'_>
    requires { fitting kind (length «data».now) ≡ true }
    ensures { held result ≡ value_of kind «data».now }
{
    match kind {
        Kind::Number => match data {
            &[a, b, c, d] => Item::Number(number4(a, b, c, d)),
            _ => unreachable!(),
        },
        Kind::Group(_) => Item::Group(data),
        Kind::Unknown | Kind::Octets => Item::Octets(data),
    }
}

impl<'a, P: Place> Site<'a, P> {
    // The AVP at the cursor, which then stands after it; none at the end.
    pub(crate) fn read_avp(
        &self,
        cursor: &mut Cursor,
    ) -> Result<Option<(Entry<P>, Item<'a>)>, Fault>
        requires { Within self.now.message.now cursor.old }
        ensures { Read P.Place.kinds self.now.place self.now.parent self.now.message.now cursor.old cursor.new result }
    {
        let offset = cursor.position;
        if offset == cursor.end {
            return Ok(None);
        }
        let part = &self.message[offset..cursor.end];
        let Some((avp, kind)) = frame(self.place, part) else {
            return Err(Fault::at(Refusal::AvpLength, offset));
        };
        let AvpHeader {
            code,
            flags,
            vendor,
            header,
            length,
        } = avp;
        let item = item_of(kind, &part[header..length]);
        cursor.position = offset + length + padding(length);
        let entry = Entry {
            place: self.place,
            parent: self.parent,
            offset,
            code,
            vendor,
            flags,
            kind,
            start: offset + header,
            end: offset + length,
        };
        Ok(Some((entry, item)))
    }
}
