// A key with its record.
#[derive(Clone, Copy)]
pub struct Row<K, R> {
    pub key: K,
    pub value: R,
}
