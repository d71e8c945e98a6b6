// Where a reader stands in a message, and where what it may read ends.
#[derive(Clone, Copy, Debug, PartialEq, Eq)]
pub struct Cursor {
    pub position: usize,
    pub end: usize,
}
