ghost use Rattle.std.specs.Prelude.{◌≡◌, ◌+◌, ◌^◌, ◌<◌};
ghost use Rattle.diameter_writer.specs.Encoding.{fits_at, flags_for, header_len_for, length_for, vendor_for};

use diameter_headers::{MANDATORY_FLAG, PLAIN_HEADER_LEN, Place, VENDOR_FLAG, VENDOR_HEADER_LEN};

// An AVP to be written. The vendor is written, and the flag V set, where there is one.
#[derive(Clone, Copy, Debug, PartialEq, Eq)]
pub struct Avp<'a> {
    pub code: u32,
    pub mandatory: bool,
    pub vendor: Option<u32>,
    pub octets: &'a [u8],
}

impl Avp<'_> {
    // The octet of flags: V (0x80) where there is a vendor, M (0x40) where the AVP is mandatory.
    pub(crate) fn flags(&self) -> u8
        ensures { result ≡ flags_for self.now }
    {
        match (self.vendor, self.mandatory) {
            (None, false) => 0,
            (None, true) => MANDATORY_FLAG,
            (Some(_), false) => VENDOR_FLAG,
            (Some(_), true) => VENDOR_FLAG | MANDATORY_FLAG,
        }
    }

    // The vendor that a reader will see: 0 where there is none.
    fn vendor_or_zero(&self) -> u32
        ensures { result ≡ vendor_for self.now }
    {
        self.vendor.unwrap_or(0)
    }

    // The octets before the data.
    fn header_len(&self) -> usize
        ensures { result ≡ header_len_for self.now }
    {
        match self.vendor {
            None => PLAIN_HEADER_LEN,
            Some(_) => VENDOR_HEADER_LEN,
        }
    }

    // The octets of header and data. (No slice has more than 2 ^ 63 octets; the second clause hands it to the proof.)
    pub(crate) fn length(&self) -> usize
        ensures value { result ≡ length_for self.now }
        ensures bound { result < 2 ^ 63 + 12 }
    {
        self.header_len() + self.octets.len()
    }

    // Whether the data has the length of what the AVP is at the place. (That code and vendor fit four octets is known of any `u32`;
    // the second clause hands it to the proof.)
    pub(crate) fn fits_at<P: Place>(&self, place: P) -> bool
        ensures value { result ≡ fits_at P.Place.kinds place self.now }
        ensures typed { (self.now.code < 2 ^ 32) × (vendor_for self.now < 2 ^ 32) }
    {
        place
            .kind_of(self.code, self.vendor_or_zero())
            .fits(self.octets.len())
    }
}
