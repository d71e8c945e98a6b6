ghost use Rattle.std.specs.Prelude.{◌≡◌, is_some};
ghost use Rattle.std.specs.Option.{unwrap_or};

// Fills the place that a caller lends with what was found, and answers whether anything was.
pub fn fill<T: Copy>(place: &mut T, found: Option<T>) -> bool
    ensures answer { result ≡ is_some found }
    ensures filled { place.new ≡ unwrap_or found place.old }
{
    match found {
        Some(value) => {
            *place = value;
            true
        }
        None => false,
    }
}
