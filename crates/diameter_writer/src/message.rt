// The header fields of a message to be written; its length follows from its AVPs.
#[derive(Clone, Copy, Debug, PartialEq, Eq)]
pub struct MessageFields {
    pub version: u8,
    pub flags: u8,
    pub command: u32,
    pub application: u32,
    pub hop_by_hop: u32,
    pub end_to_end: u32,
}
