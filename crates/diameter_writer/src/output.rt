ghost use Rattle.std.specs.Prelude.{◌≡◌, ◌+◌, ◌≤◌, length};
ghost use Rattle.diameter_headers.specs.Framing.{padded};
ghost use Rattle.diameter_writer.specs.Encoding.{encode_avp, encode_avps, length_for, vendor_part};
ghost use Rattle.diameter_writer.specs.Messages.{header_octets};

use crate::avp::Avp;
use crate::message::MessageFields;
use diameter_headers::padding;

// What the caller lends for a message, and where the octets end that were written so far.
#[derive(Drop)]
pub(crate) struct Output<'a> {
    octets: &'a mut [u8],
    end: usize,
    ghost within: { end ≤ length octets.now },
}

impl<'a> Output<'a> {
    ghost use Rattle.diameter_writer.specs.Outputs.{Put};

    // An output with nothing written.
    pub(crate) fn new(octets: &'a mut [u8]) -> Output<'a>
        ensures same { result.octets.ghost_name ≡ octets.entry.ghost_name }
        ensures octets { result.octets.now ≡ octets.entry.now }
        ensures end { result.end ≡ 0 }
    {
        Output { octets, end: 0 }
    }

    // Writes octets at the end: all that is written goes through here.
    fn put(&mut self, part: &[u8])
        requires { self.old.end + length part.now ≤ length self.old.octets.now }
        ensures { Put self.old part.now self.new }
    {
        let end = self.end + part.len();
        let octets = &mut *self.octets;
        octets[self.end..end].copy_from_slice(part);
        self.end = end;
    }

    // Writes the vendor, if there is one.
    fn put_vendor(&mut self, vendor: Option<u32>)
        requires { self.old.end + length (vendor_part vendor) ≤ length self.old.octets.now }
        ensures { Put self.old (vendor_part vendor) self.new }
    {
        if let Some(vendor) = vendor {
            self.put(&vendor.to_be_bytes());
        }
    }

    // Writes an AVP with its padding.
    fn put_avp(&mut self, avp: &Avp)
        requires { self.old.end + padded (length_for avp.now) ≤ length self.old.octets.now }
        ensures { Put self.old (encode_avp avp.now) self.new }
    {
        let length = avp.length();
        let [.., l0, l1, l2] = length.to_be_bytes();
        self.put(&avp.code.to_be_bytes());
        self.put(&[avp.flags(), l0, l1, l2]);
        self.put_vendor(avp.vendor);
        self.put(avp.octets);
        self.put(&[0; 3][..padding(length)]);
    }

    // Writes the header of a message of this length.
    pub(crate) fn put_header(&mut self, fields: MessageFields, total: usize)
        requires { self.old.end + 20 ≤ length self.old.octets.now }
        ensures { Put self.old (header_octets fields total) self.new }
    {
        let [.., l0, l1, l2] = total.to_be_bytes();
        let [_, c0, c1, c2] = fields.command.to_be_bytes();
        self.put(&[fields.version, l0, l1, l2]);
        self.put(&[fields.flags, c0, c1, c2]);
        self.put(&fields.application.to_be_bytes());
        self.put(&fields.hop_by_hop.to_be_bytes());
        self.put(&fields.end_to_end.to_be_bytes());
    }

    // Writes AVPs one after the other.
    pub(crate) fn put_avps(&mut self, avps: &[Avp])
        requires { self.old.end + length (encode_avps avps.now) ≤ length self.old.octets.now }
        ensures { Put self.old (encode_avps avps.now) self.new }
    {
        for avp in avps {
            self.put_avp(avp);
        }
    }
}
