// A store of flat rows, which are looked through one by one.
#![tactic(auto)]

mod flat;

pub use flat::Flat;
