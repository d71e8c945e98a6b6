ghost use Rattle.std.specs.Prelude.{◌≡◌, ℕ, Bool, true, Decides};

// What a store asks of its keys.
pub trait Key {
    // Whether two keys are alike, a key's hash, and the bearer it belongs to.
    ghost alike: { Self → Self → Bool };

    ghost digest: { Self → ℕ };

    ghost owner: { Self → ℕ };

    fn is_like(&self, other: &Self) -> bool
        ensures { result ≡ alike self.now other.now };

    fn hash(&self) -> u64
        ensures { result ≡ digest self.now };

    fn bearer(&self) -> u8
        ensures { result ≡ owner self.now };

    // Keys are alike exactly when they are equal, in all their parts.
    ghost equal: { (x y : Self) → Decides (alike x y) (x ≡ y) };

    // Keys that are alike have the same hash.
    ghost hashes: { (x y : Self) → alike x y ≡ true → digest x ≡ digest y };
}
