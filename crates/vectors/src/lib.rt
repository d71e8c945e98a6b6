// Messages of another implementation, and small examples, as tests.
#![tactic(auto)]

use diameter_writer::{Avp, MessageFields};

// An update CC-Request as the Diameter codec of Erlang/OTP 25 encodes it.
pub const UPDATE_REQUEST: &[u8] =
    b"\x01\x00\x00\xa8\xc0\x00\x01\x10\x01\x00\x00\x08\x01\x02\x03\x04\x0a\x0b\x0c\x0d\x00\x00\x01\x07\x40\x00\x00\x1b\x67\x61\x74\x65\x77\x61\x79\x2e\x65\x78\x61\x6d\x70\x6c\x65\x3b\x31\x3b\x37\x00\x00\x00\x01\x02\x40\x00\x00\x0c\x01\x00\x00\x08\x00\x00\x01\x08\x40\x00\x00\x17\x67\x61\x74\x65\x77\x61\x79\x2e\x65\x78\x61\x6d\x70\x6c\x65\x00\x00\x00\x01\x28\x40\x00\x00\x0f\x65\x78\x61\x6d\x70\x6c\x65\x00\x00\x00\x01\x1b\x40\x00\x00\x0f\x65\x78\x61\x6d\x70\x6c\x65\x00\x00\x00\x01\xa0\x40\x00\x00\x0c\x00\x00\x00\x02\x00\x00\x01\x9f\x40\x00\x00\x0c\x00\x00\x00\x01\x00\x00\x00\x08\x40\x00\x00\x0c\x0a\x09\x09\x09\x00\x00\x03\xee\xc0\x00\x00\x10\x00\x00\x28\xaf\x00\x00\x00\x02";

pub const UPDATE_FIELDS: MessageFields = MessageFields {
    version: 1,
    flags: 0xc0,
    command: 272,
    application: 16777224,
    hop_by_hop: 0x0102_0304,
    end_to_end: 0x0a0b_0c0d,
};

// The AVPs of that request.
pub const UPDATE_AVPS: [Avp<'static>; 9] = [
    Avp {
        code: 263,
        mandatory: true,
        vendor: None,
        octets: b"gateway.example;1;7",
    },
    Avp {
        code: 258,
        mandatory: true,
        vendor: None,
        octets: &[1, 0, 0, 8],
    },
    Avp {
        code: 264,
        mandatory: true,
        vendor: None,
        octets: b"gateway.example",
    },
    Avp {
        code: 296,
        mandatory: true,
        vendor: None,
        octets: b"example",
    },
    Avp {
        code: 283,
        mandatory: true,
        vendor: None,
        octets: b"example",
    },
    Avp {
        code: 416,
        mandatory: true,
        vendor: None,
        octets: &[0, 0, 0, 2],
    },
    Avp {
        code: 415,
        mandatory: true,
        vendor: None,
        octets: &[0, 0, 0, 1],
    },
    Avp {
        code: 8,
        mandatory: true,
        vendor: None,
        octets: &[10, 9, 9, 9],
    },
    Avp {
        code: 1006,
        mandatory: true,
        vendor: Some(10415),
        octets: &[0, 0, 0, 2],
    },
];

#[cfg(test)]
mod tests {
    use super::*;
    use diameter::{Item, Reader};
    use diameter_checks::{check_framing, find};
    use diameter_headers::check_length;
    use diameter_writer::write_message;
    use dump::message_text;
    use gx_dictionary::Part;
    use hex_text::{HexError, push_hex, read_hex};
    use refusals::{Fault, Refusal};
    use std::test::Fail;

    #[test]
    fn writes_what_another_implementation_writes(rt: HostRuntime) {
        let mut out = [0xffu8; 176];
        let avps = UPDATE_AVPS;
        assert_eq!(rt;
            write_message(Part::Message, UPDATE_FIELDS, &avps, &mut out),
            Some(168)
        );
        assert!(rt; &out[0..168] == UPDATE_REQUEST);
        assert!(rt; &out[168..176] == [0xffu8; 8].as_slice());
    }

    #[test]
    fn reads_what_another_implementation_writes(rt: HostRuntime) -> Result<(), Fail> {
        assert_eq!(rt; check_length(UPDATE_REQUEST), Ok(()));
        assert_eq!(rt; check_framing(UPDATE_REQUEST, Part::Message), Ok(()));
        let entry = find(UPDATE_REQUEST, Part::Message, 1006, 10415).ok_or_else(|| Fail::new(
            "no Event-Trigger",
        ))?;
        assert!(rt; entry.offset == 152 && entry.start == 164 && entry.end == 168);
        assert!(rt; find(UPDATE_REQUEST, Part::Message, 1006, 0).is_none());
        Ok(())
    }

    #[test]
    fn reads_avp_after_avp(rt: HostRuntime) -> Result<(), Fail> {
        let mut reader = Reader::new(UPDATE_REQUEST);
        let Ok(Some((session, Item::Octets(text)))) = reader.next(Part::Message) else {
            return Err(Fail::new("no Session-Id"));
        };
        assert!(rt;
            session.code == 263 && session.offset == 20 && text == b"gateway.example;1;7".as_slice()
        );
        let Ok(Some((application, Item::Number(number)))) = reader.next(Part::Message) else {
            return Err(Fail::new("no Auth-Application-Id"));
        };
        assert!(rt; application.offset == 48 && number == 16777224);
        Ok(())
    }

    #[test]
    fn writes_nothing_without_room(rt: HostRuntime) {
        let mut out = [0xffu8; 167];
        let avps = UPDATE_AVPS;
        assert_eq!(rt;
            write_message(Part::Message, UPDATE_FIELDS, &avps, &mut out),
            None
        );
        assert!(rt; &out[0..167] == [0xffu8; 167].as_slice());
    }

    #[test]
    fn writes_no_number_of_three_octets(rt: HostRuntime) {
        let mut out = [0xffu8; 64];
        let avps = [Avp {
            code: 415,
            mandatory: true,
            vendor: None,
            octets: &[0, 0, 1],
        }];
        assert_eq!(rt;
            write_message(Part::Message, UPDATE_FIELDS, &avps, &mut out),
            None
        );
    }

    #[test]
    fn shows_a_damaged_message(rt: HostRuntime) -> Result<(), Fail> {
        let text = message_text(
            rt.alloc(),
            b"\x01\x00\x00\x24\x40\x00\x01\x10\x01\x00\x00\x08\x00\x00\x00\x01\x00\x00\x00\x02\x00\x00\x01\x07\x40\x00\x00\x0b\x73\x3b\x31\x00\x00\x00\x01",
        )?;
        assert!(rt;
            text.as_slice()
                == b"version 1 length 36 of 35 command 272 flags 0x40\napplication 16777224 hop-by-hop 1 end-to-end 2\nfault at 0: the header says 36 octets, the message has 35 (refusal 7, Diameter code 5015)\n20: code 263 vendor 0 flags 0x40 \"s;1\"\nfault at 32: the AVP does not fit, does not cover its header, or is a number without four octets (refusal 12, Diameter code 5014)\n".as_slice()
        );
        Ok(())
    }

    #[test]
    fn writes_and_reads_hexadecimal(rt: HostRuntime) -> Result<(), Fail> {
        let mut text = Vec::new(rt.alloc());
        push_hex(&mut text, b"\x00\x9f\xe1")?;
        assert!(rt; text.as_slice() == b"009fe1".as_slice());
        let octets = read_hex(rt.alloc(), b"00 9F\te1\n")?;
        assert!(rt; octets.as_slice() == b"\x00\x9f\xe1".as_slice());
        Ok(())
    }

    #[test]
    fn says_what_is_no_hexadecimal(rt: HostRuntime) -> Result<(), Fail> {
        let error = HexError::NotADigit(2);
        assert!(rt; read_hex(rt.alloc(), b"00g0").err() == Some(error));
        assert!(rt;
            error.to_string(rt.alloc())?.as_str()
                == "no hexadecimal digit at character 2 of the input"
        );
        Ok(())
    }
}
