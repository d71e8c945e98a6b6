ghost use Rattle.std.specs.Prelude.{◌≡◌};
ghost use Rattle.keys.specs.Hashing.{name_digest};

use names::Name;

// The hash of a name at a bearer.
pub(crate) fn hash_name(bearer: u8, name: &Name) -> u64
    ensures { result ≡ name_digest bearer name.now }
{
    name.octets().iter().fold(
        u64::from(bearer),
        |hash, octet| hash.wrapping_mul(31).wrapping_add(u64::from(*octet)),
    )
}
