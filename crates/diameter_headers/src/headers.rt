ghost use Rattle.std.specs.Prelude.{◌≡◌, ◌-◌, ◌<◌, length, MatchOption};
ghost use Rattle.diameter_headers.specs.Framing.{padded};
ghost use Rattle.diameter_headers.specs.Headers.{AvpHeaderOf, header_len, header_read, length_verdict};

use crate::octets::{number3, number4};
use refusals::{Fault, Refusal};

// The octets of a message's header.
pub const HEADER_LEN: usize = 20;

// The octets of an AVP's header, without a vendor and with one.
pub const PLAIN_HEADER_LEN: usize = 8;

pub const VENDOR_HEADER_LEN: usize = 12;

// The AVP flag V: a vendor follows the length.
pub const VENDOR_FLAG: u8 = 0x80;

// The AVP flag M: who does not know the AVP must not accept the message.
pub const MANDATORY_FLAG: u8 = 0x40;

// The header of a message.
#[derive(Clone, Copy, Debug, PartialEq, Eq)]
pub struct MessageHeader {
    pub version: u8,
    pub length: u32,
    pub flags: u8,
    pub command: u32,
    pub application: u32,
    pub hop_by_hop: u32,
    pub end_to_end: u32,
}

impl MessageHeader {
    // The header that a message begins with, or none where it has less than 20 octets.
    pub fn read(message: &[u8]) -> Option<MessageHeader>
        ensures { result ≡ header_read message.now }
    {
        let &[
            version,
            l0,
            l1,
            l2,
            flags,
            c0,
            c1,
            c2,
            a0,
            a1,
            a2,
            a3,
            h0,
            h1,
            h2,
            h3,
            e0,
            e1,
            e2,
            e3,
            ..
        ] = message
        else {
            return None;
        };
        Some(MessageHeader {
            version,
            length: number3(l0, l1, l2),
            flags,
            command: number3(c0, c1, c2),
            application: number4(a0, a1, a2, a3),
            hop_by_hop: number4(h0, h1, h2, h3),
            end_to_end: number4(e0, e1, e2, e3),
        })
    }
}

// Whether a message has a header, and the length that its header says.
pub fn check_length(message: &[u8]) -> Result<(), Fault>
    ensures { result ≡ length_verdict message.now }
{
    match MessageHeader::read(message) {
        Some(header) if header.length as usize == message.len() => Ok(()),
        _ => Err(Fault::at(Refusal::MessageLength, 0)),
    }
}

// How many octets of padding follow an AVP of this length.
pub fn padding(length: usize) -> usize
    ensures { result ≡ padded length - length }
{
    (4 - length % 4) % 4
}

// The header of an AVP: `header` octets come before the data, and `length` counts both.
#[derive(Clone, Copy, Debug, PartialEq, Eq)]
pub struct AvpHeader {
    pub code: u32,
    pub flags: u8,
    pub vendor: u32,
    pub header: usize,
    pub length: usize,
}

impl AvpHeader {
    // The header of the AVP that comes first, or none where not all of it is there. Without the flag V the vendor is 0.
    pub fn read(part: &[u8]) -> Option<AvpHeader>
        ensures { MatchOption result (length part.now < header_len part.now) (λ h. AvpHeaderOf part.now h) }
    {
        let [c0, c1, c2, c3, flags, l0, l1, l2, rest @ ..] = part else {
            return None;
        };
        let (header, vendor) = if *flags & VENDOR_FLAG == 0 {
            (PLAIN_HEADER_LEN, 0)
        } else {
            let [v0, v1, v2, v3, ..] = rest else {
                return None;
            };
            (VENDOR_HEADER_LEN, number4(*v0, *v1, *v2, *v3))
        };
        Some(AvpHeader {
            code: number4(*c0, *c1, *c2, *c3),
            flags: *flags,
            vendor,
            header,
            length: number3(*l0, *l1, *l2) as usize,
        })
    }
}
