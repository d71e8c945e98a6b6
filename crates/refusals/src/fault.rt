ghost use Rattle.std.specs.Prelude.{◌≡◌};
ghost use Rattle.refusals.specs.Faults.{fault_at};

use crate::refusal::Refusal;

// A refusal with the offset of the AVP at fault, 0 where it names none.
#[derive(Clone, Copy, PartialEq, Eq, Debug)]
pub struct Fault {
    pub refusal: Refusal,
    pub offset: usize,
}

impl Fault {
    // The refusal at an AVP; the offset is kept only where the refusal names one.
    pub fn at(refusal: Refusal, offset: usize) -> Fault
        ensures { result ≡ fault_at refusal offset }
    {
        if refusal.is_located() {
            Fault { refusal, offset }
        } else {
            Fault { refusal, offset: 0 }
        }
    }
}
