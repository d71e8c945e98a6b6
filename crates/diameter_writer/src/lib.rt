// Writes Diameter messages: the octets of header and AVPs, into an output that the caller lends.
#![tactic(auto)]

mod avp;
mod measure;
mod message;
mod output;
mod write;

pub use avp::Avp;
pub use message::MessageFields;
pub use write::write_message;
