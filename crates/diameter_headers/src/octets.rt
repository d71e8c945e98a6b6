ghost use Rattle.std.specs.Prelude.{◌≡◌, ◌^◌, ◌<◌};
ghost use Rattle.diameter_headers.specs.Octets.{be3, be4};

// Three octets as a number, the first octet the highest.
pub(crate) fn number3(a: u8, b: u8, c: u8) -> u32
    ensures value { result ≡ be3 a b c }
    ensures bound { result < 2 ^ 24 }
{
    number4(0, a, b, c)
}

// Four octets as a number, the first octet the highest.
pub fn number4(a: u8, b: u8, c: u8, d: u8) -> u32
    ensures { result ≡ be4 a b c d }
{
    u32::from_be_bytes([a, b, c, d])
}
