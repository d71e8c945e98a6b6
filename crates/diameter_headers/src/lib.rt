// The headers of Diameter messages and AVPs, and what an AVP is where.
#![tactic(auto)]

mod headers;
mod octets;
mod place;

pub use headers::{
    AvpHeader, HEADER_LEN, MANDATORY_FLAG, MessageHeader, PLAIN_HEADER_LEN, VENDOR_FLAG,
    VENDOR_HEADER_LEN, check_length, padding,
};
pub use octets::number4;
pub use place::{Kind, Place};
