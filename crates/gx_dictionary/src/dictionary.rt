ghost use Rattle.gx_dictionary.specs.Dictionary.{kinds_of, rank_of};
ghost use Rattle.std.proofs.Common.{rules};

use diameter_headers::{Kind, Place};

// Where an AVP can stand in a Gx message: in the message itself, in an Experimental-Result (297), in a Charging-Rule-Remove
// (1002), in a Charging-Rule-Install (1001), or in a Charging-Rule-Definition (1003).
#[derive(Clone, Copy, PartialEq, Eq, Debug)]
pub enum Part {
    Message,
    ExperimentalResult,
    Remove,
    Install,
    Definition,
}

// The vendor of the AVPs from 500 on (3GPP).
const TGPP: u32 = 10415;

impl Place for Part {
    ghost kinds = { kinds_of };

    ghost rank = { rank_of };

    ghost falls = { Prim.search rules };

    fn kind_of(self, code: u32, vendor: u32) -> Kind<Part> {
        match (self, vendor) {
            (Part::Message, 0) => match code {
                258 | 268 | 285 | 415 | 416 => Kind::Number,
                297 => Kind::Group(Part::ExperimentalResult),
                8 | 263 | 264 | 278 | 279 | 281 | 282 | 283 | 284 | 293 | 296 => Kind::Octets,
                _ => Kind::Unknown,
            },
            (Part::Message, TGPP) => match code {
                1001 => Kind::Group(Part::Install),
                1002 => Kind::Group(Part::Remove),
                1006 => Kind::Number,
                618 => Kind::Octets,
                _ => Kind::Unknown,
            },
            (Part::ExperimentalResult, 0) => match code {
                266 | 298 => Kind::Number,
                _ => Kind::Unknown,
            },
            (Part::Remove, TGPP) => match code {
                1004 | 1005 => Kind::Octets,
                _ => Kind::Unknown,
            },
            (Part::Install, TGPP) => match code {
                1003 => Kind::Group(Part::Definition),
                1004 | 1005 => Kind::Octets,
                _ => Kind::Unknown,
            },
            (Part::Definition, 0) => match code {
                432 | 439 => Kind::Number,
                _ => Kind::Unknown,
            },
            (Part::Definition, TGPP) => match code {
                1007..=1011 => Kind::Number,
                505 | 507 | 510 | 1005 => Kind::Octets,
                _ => Kind::Unknown,
            },
            _ => Kind::Unknown,
        }
    }
}
