ghost use Rattle.std.specs.Prelude.{◌≡◌, ◌<◌, ◌⊎◌, ◌==◌, length, Decides, MatchOption};
ghost use Rattle.names.specs.Spelling.{spelling};
ghost use Rattle.names.specs.Order.{lexical, by_name, TotalOrder};
ghost use Rattle.std.specs.Cmp.Rules.{comparing};
ghost use Rattle.std.specs.Cmp.{partial_order_from_own_ties};
ghost use Rattle.std.specs.Ordering.{on, as_partial_cmp};
ghost use Rattle.std.specs.Cmp.Lexicographic.{pointwise};
ghost use Rattle.std.proofs.Common.{rules};

use crate::name::Name;
use std::cmp::Ordering;

impl Name {
    // The name of the octets; none where there is no octet, or more than 32.
    pub fn new(octets: &[u8]) -> Option<Name>
        ensures { MatchOption result ((length octets.now ≡ 0) ⊎ (32 < length octets.now)) (λ n. spelling n ≡ octets.now) }
    {
        let Ok(len @ 1..=32) = u8::try_from(octets.len()) else {
            return None;
        };
        let mut held = [0; 32];
        held[..octets.len()].copy_from_slice(octets);
        Some(Name { len, octets: held })
    }

    // The octets that the name was made from.
    pub fn octets(&self) -> &[u8]
        ensures { result.now ≡ spelling self.now }
    {
        &self.octets[..usize::from(self.len)]
    }

    // Which of two names comes first. This is a total order: names that tie are equal.
    #[tactic(auto, using(crate::proofs::Laws::names_are_ordered))]
    pub fn compare(&self, other: &Name) -> Ordering
        ensures value { result ≡ by_name self.now other.now }
        ensures total { TotalOrder by_name }
    {
        compare_octets(self.octets(), other.octets())
    }
}

// Octet by octet; of two where one begins the other, the shorter comes first.
#[tactic(auto, using(crate::proofs::Steps::steps))]
fn compare_octets(a: &[u8], b: &[u8]) -> Ordering
    ensures { result ≡ lexical a.now b.now }
{
    for (i, x) in a.iter().enumerate() {
        let Some(y) = b.get(i) else {
            return Ordering::Greater;
        };
        match x.cmp(y) {
            Ordering::Equal => {}
            order => return order,
        }
    }
    a.len().cmp(&b.len())
}

impl PartialEq for Name {
    ghost eq = { on spelling (pointwise ◌==◌) };

    ghost laws = { Prim.search (comparing, rules) };

    #[tactic(auto, using(crate::proofs::Spelled::name_equal))]
    fn eq(&self, other: &Name) -> bool
        ensures value { result ≡ on spelling (pointwise ◌==◌) self.now other.now }
        ensures equal { Decides result (self.now ≡ other.now) }
    {
        self.octets() == other.octets()
    }
}

impl Eq for Name {
    ghost laws = { Prim.search (comparing, rules) };
}

impl Ord for Name {
    ghost cmp = { by_name };

    ghost total = { Prim.search (comparing, rules) };

    ghost matches_partial_cmp = { Prim.search (comparing, rules) };

    ghost matches_eq = { Prim.search (comparing, rules) };

    fn cmp(&self, other: &Name) -> Ordering {
        self.compare(other)
    }
}

impl PartialOrd for Name {
    ghost partial_cmp = { as_partial_cmp by_name };

    ghost laws = { partial_order_from_own_ties (Prim.search (comparing, rules)) (Prim.search (comparing, rules)) };

    fn partial_cmp(&self, other: &Name) -> Option<Ordering> {
        Some(self.cmp(other))
    }
}
