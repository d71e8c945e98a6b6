// Where AVPs stand one after the other: in a message, at a place that says what each is, and in the group at the offset `parent`
// (0 outside groups).
#[derive(Clone, Copy)]
pub(crate) struct Site<'a, P> {
    pub(crate) message: &'a [u8],
    pub(crate) place: P,
    pub(crate) parent: usize,
}
