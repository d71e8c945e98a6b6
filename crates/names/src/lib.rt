// Names of rules and groups, and their order.
#![tactic(auto)]

mod name;
mod spelling;

pub use name::Name;
