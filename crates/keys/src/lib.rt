// The keys of rule stores: what a store asks of a key, and the two kinds of key.
#![tactic(auto)]

mod activation;
mod hashing;
mod key;
mod rule;

pub use activation::{ActivationKey, NameKind};
pub use key::Key;
pub use rule::RuleKey;
