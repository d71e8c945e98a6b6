// Questions that are put to a whole message, whatever it carries: each is a visitor of the walk.
#![tactic(auto)]

mod framing;
mod lookup;

pub use framing::check_framing;
pub use lookup::find;
