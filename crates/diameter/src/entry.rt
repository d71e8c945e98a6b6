use diameter_headers::Kind;

// An AVP by its header and its place in the message: its data lies from `start` to `end`.
// `parent` is the offset of the group that it stands in, 0 outside groups.
#[derive(Clone, Copy, Debug, PartialEq, Eq)]
pub struct Entry<P> {
    pub place: P,
    pub parent: usize,
    pub offset: usize,
    pub code: u32,
    pub vendor: u32,
    pub flags: u8,
    pub kind: Kind<P>,
    pub start: usize,
    pub end: usize,
}

// The data of an AVP: a number, or the part of the message that it is.
#[derive(Clone, Copy, Debug, PartialEq, Eq)]
pub enum Item<'a> {
    Number(u32),
    Octets(&'a [u8]),
    Group(&'a [u8]),
}
