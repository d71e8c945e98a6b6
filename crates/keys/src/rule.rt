ghost use Rattle.keys.specs.Keys.{like_rule};
ghost use Rattle.keys.specs.Hashing.{name_digest};
ghost use Rattle.keys.specs.Laws.{rule_equal, equal_hashes};

use crate::hashing::hash_name;
use crate::key::Key;
use names::Name;

// A rule's key: the bearer at which it stands, and its name.
#[derive(Clone, Copy, PartialEq, Eq)]
pub struct RuleKey {
    pub bearer: u8,
    pub name: Name,
}

impl Key for RuleKey {
    ghost alike = { like_rule };

    ghost digest = { λ k. name_digest k.bearer k.name };

    ghost owner = { λ k. k.bearer };

    ghost equal = { rule_equal };

    ghost hashes = { equal_hashes _ rule_equal };

    fn is_like(&self, other: &RuleKey) -> bool {
        self == other
    }

    fn hash(&self) -> u64 {
        hash_name(self.bearer, &self.name)
    }

    fn bearer(&self) -> u8 {
        self.bearer
    }
}
