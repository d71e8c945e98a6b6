// What can be done over any store by finding, putting, removing and walking alone.
#![tactic(auto)]

mod clearing;
mod counting;

pub use clearing::remove_bearer;
pub use counting::{count, key_at};
