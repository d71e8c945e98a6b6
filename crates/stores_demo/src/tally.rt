ghost use Rattle.std.specs.Prelude.{◌≡◌, ◌+◌, ◌-◌, ◌^◌, min, true, ◌&&◌, if◌then◌else◌};

// How many of the answers were yes, and whether both stores gave the same each time.
#[derive(Clone, Copy)]
pub struct Tally {
    pub yes: u32,
    pub agree: bool,
}

impl Tally {
    // No answer yet.
    pub fn new() -> Tally
        ensures { result ≡ record { yes = 0; agree = true } }
    {
        Tally {
            yes: 0,
            agree: true,
        }
    }

    // One call more: whether the answer was yes, and whether both stores gave it.
    pub fn with(self, yes: bool, agree: bool) -> Tally
        ensures yes { result.yes ≡ min (self.yes + (if yes then 1 else 0)) (2 ^ 32 - 1) }
        ensures agree { result.agree ≡ (self.agree && agree) }
    {
        Tally {
            yes: self.yes.saturating_add(u32::from(yes)),
            agree: self.agree && agree,
        }
    }

    // The answers to a call at each key; the call tells whether the answer was yes, and whether both stores gave it.
    pub(crate) fn of<K, F: FnMut(&K) -> (bool, bool)>(keys: &[K], mut call: F) -> Tally
        requires callable { F.IsAlwaysCallable call }
        requires same { (f : F) (k : _) (r : _) (g : F) → F.step f k r g → r.1 ≡ true }
        ensures agree { result.agree ≡ true }
    {
        let mut tally = Tally::new();
        for key in keys {
            let (yes, agree) = call(key);
            tally = tally.with(yes, agree);
        }
        tally
    }
}
