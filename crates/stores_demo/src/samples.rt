ghost use Rattle.std.specs.Option.{MatchOption};
ghost use Rattle.stores_demo.specs.Samples.{RuleSample, ActivationSample, Samples};

use keys::{ActivationKey, NameKind, RuleKey};
use names::Name;

// How many keys the demonstration uses.
pub const KEYS: usize = 12;

// The rule key at a number.
fn rule_key(n: u8) -> Option<RuleKey>
    ensures { MatchOption result ⊥ (λ k. RuleSample n k) }
{
    Some(RuleKey {
        bearer: n % 3,
        name: Name::new(&[b'r', n])?,
    })
}

// The activation key at a number.
fn activation_key(n: u8) -> Option<ActivationKey>
    ensures { MatchOption result ⊥ (λ k. ActivationSample n k) }
{
    let kind = if n % 2 == 0 {
        NameKind::Rule
    } else {
        NameKind::Group
    };
    Some(ActivationKey {
        bearer: n / 2 % 3,
        kind,
        name: Name::new(&[b'r', n / 2])?,
    })
}

// The keys at the numbers from 0.
fn keys<K: Copy, F: Fn(u8) -> Option<K>>(key: F) -> Option<[K; KEYS]>
    requires { F.IsAlwaysCallable key }
    ensures { MatchOption result ((n : _) × F.post key n None) (λ ks. Samples (λ n k. F.post key n (Some k)) ks 12) }
{
    let mut keys = [key(0)?; KEYS];
    for (n, slot) in keys.iter_mut().enumerate() {
        *slot = key(n as u8)?;
    }
    Some(keys)
}

// The rule keys at the numbers from 0.
pub fn rule_keys() -> Option<[RuleKey; KEYS]>
    ensures { MatchOption result ⊥ (λ ks. Samples RuleSample ks 12) }
{
    keys(rule_key)
}

// The activation keys at the numbers from 0.
pub fn activation_keys() -> Option<[ActivationKey; KEYS]>
    ensures { MatchOption result ⊥ (λ ks. Samples ActivationSample ks 12) }
{
    keys(activation_key)
}
