ghost use Rattle.keys.specs.Keys.{like_activation};
ghost use Rattle.keys.specs.Hashing.{name_digest};
ghost use Rattle.keys.specs.Laws.{activation_equal, equal_hashes};

use crate::hashing::hash_name;
use crate::key::Key;
use names::Name;

// Whose name it is. A rule's name and a group's are never one name.
#[derive(Clone, Copy, PartialEq, Eq)]
pub enum NameKind {
    Rule,
    Group,
}

// The key of an activation, a predefined rule or a group of them switched on at a bearer: the bearer, and the rule's or the
// group's name.
#[derive(Clone, Copy, PartialEq, Eq)]
pub struct ActivationKey {
    pub bearer: u8,
    pub kind: NameKind,
    pub name: Name,
}

impl Key for ActivationKey {
    ghost alike = { like_activation };

    ghost digest = { λ k. name_digest k.bearer k.name };

    ghost owner = { λ k. k.bearer };

    ghost equal = { activation_equal };

    ghost hashes = { equal_hashes _ activation_equal };

    fn is_like(&self, other: &ActivationKey) -> bool {
        self == other
    }

    fn hash(&self) -> u64 {
        hash_name(self.bearer, &self.name)
    }

    fn bearer(&self) -> u8 {
        self.bearer
    }
}
