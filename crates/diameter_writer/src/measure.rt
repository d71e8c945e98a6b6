ghost use Rattle.std.specs.Option.{MatchOption};
ghost use Rattle.diameter_writer.specs.Measures.{Measured, Unmeasured};

use crate::avp::Avp;
use diameter_headers::{HEADER_LEN, Place, padding};

// What three octets cannot hold: a length, or a command.
pub(crate) const THREE_OCTET_LIMIT: usize = 0x100_0000;

// How long the message of these AVPs is, unless it is too long or an AVP's data has not the length of its kind at the place.
pub(crate) fn measure<P: Place>(place: P, avps: &[Avp]) -> Option<usize>
    ensures { MatchOption result (Unmeasured P.Place.kinds place avps.now) (λ n. Measured P.Place.kinds place avps.now n) }
{
    let mut total = HEADER_LEN;
    for avp in avps {
        let length = avp.length();
        total += length + padding(length);
        if !avp.fits_at(place) || total >= THREE_OCTET_LIMIT {
            return None;
        }
    }
    Some(total)
}
