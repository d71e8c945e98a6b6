ghost use Rattle.std.specs.Prelude.{◌≡◌, ℕ, suc};
ghost use Rattle.diameter_headers.specs.Framing.{fitting};
ghost use Rattle.diameter_headers.specs.declared.place.Kind.{Kind};
ghost use Rattle.diameter_headers.specs.declared.place.Kind.TheVariants.{Group};

// What an AVP is at a place. A group leads to the place of its members.
#[derive(Clone, Copy, Debug, PartialEq, Eq)]
pub enum Kind<P> {
    Unknown,
    Number,
    Octets,
    Group(P),
}

impl<P: Copy> Kind<P> {
    // Whether an AVP of this kind may have so many octets of data: a number has four.
    pub fn fits(self, length: usize) -> bool
        ensures { result ≡ fitting self length }
    {
        match self {
            Kind::Number => length == 4,
            Kind::Unknown | Kind::Octets | Kind::Group(_) => true,
        }
    }
}

// A dictionary: where an AVP can stand (in the message or in a group), and what each is there.
// The place of a group's members ranks one below the place that the group stands in, so that nesting ends.
pub trait Place: Copy {
    ghost kinds: { Self → ℕ → ℕ → Kind Self };

    ghost rank: { Self → ℕ };

    // What the AVP with this code and vendor is at this place.
    fn kind_of(self, code: u32, vendor: u32) -> Kind<Self>
        ensures { result ≡ kinds self code vendor };

    ghost falls: { (p q : Self) (code vendor : ℕ) → kinds p code vendor ≡ Group q → suc (rank q) ≡ rank p };
}
