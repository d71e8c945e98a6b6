// Octets as hexadecimal text, and back.
#![tactic(auto)]

mod hex;

pub use hex::{Hex, HexError, push_hex, read_hex};
