// A store of rows chained by the hash of their keys.
#![tactic(auto)]

mod chained;
mod linked;
mod table;

pub use chained::Chained;
