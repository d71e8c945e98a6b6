ghost use Rattle.std.specs.Prelude.{◌≡◌, ℕ, ◌≤◌, length, slice_index};

// A name of 1 to 32 octets, any octets. Those past its length are 0, so that equal names are equal values.
#[derive(Clone, Copy)]
pub struct Name {
    pub(crate) len: u8,
    pub(crate) octets: [u8; 32],
    ghost some: { 1 ≤ len },
    ghost most: { len ≤ 32 },
    ghost whole: { length octets ≡ 32 },
    ghost tail: { (k : ℕ) → len ≤ k → slice_index octets k ≡ 0 },
}
