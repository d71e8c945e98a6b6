ghost use Rattle.std.specs.Prelude.{◌≡◌, true, ◌++◌, length, drop, is_some, if◌then◌else◌, Some, None};
ghost use Rattle.diameter_writer.specs.Messages.{encode_message, writable};
ghost use Rattle.diameter_writer.specs.Written.{ReadsAs};

use crate::avp::Avp;
use crate::measure::{THREE_OCTET_LIMIT, measure};
use crate::message::MessageFields;
use crate::output::Output;
use diameter_headers::Place;

// Writes a message for a reader at a place, and answers how many octets it has; the output beyond them stays.
// Nothing is written where command or length do not fit three octets, the message does not fit the output, or a number
// has not four octets.
pub fn write_message<P: Place>(
    place: P,
    fields: MessageFields,
    avps: &[Avp],
    out: &mut [u8],
) -> Option<usize>
    ensures value { result ≡ (if writable P.Place.kinds place fields avps.now (length out.old) then Some (length (encode_message fields avps.now)) else None) }
    ensures after { out.new ≡ (if is_some result then encode_message fields avps.now ++ drop (length (encode_message fields avps.now)) out.old else out.old) }
    ensures reads { is_some result ≡ true → ReadsAs P.Place.kinds P.Place.rank place fields avps.now (encode_message fields avps.now) }
{
    let total = measure(place, avps)?;
    if fields.command >= THREE_OCTET_LIMIT as u32 || total > out.len() {
        return None;
    }
    let mut output = Output::new(out);
    output.put_header(fields, total);
    output.put_avps(avps);
    Some(total)
}
