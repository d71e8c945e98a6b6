// The interface of rule stores, and the rows that the delivered stores lie in.
#![tactic(auto)]

mod filling;
mod reading;
mod row;
mod store;

pub use filling::fill;
pub use reading::{read_key, read_record};
pub use row::Row;
pub use store::{Store, StoreFull};
