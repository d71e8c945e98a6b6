// Diameter framing: a reader that walks a message in place, and shows every AVP to a visitor.
#![tactic(auto)]

mod cursor;
mod entry;
mod framing;
mod reader;
mod site;
mod visitor;
mod walk;

pub use cursor::Cursor;
pub use entry::{Entry, Item};
pub use reader::{Reader, visit_message};
pub use visitor::Visitor;
