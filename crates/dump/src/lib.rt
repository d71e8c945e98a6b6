// Shows a Diameter message as text.
#![tactic(auto)]

mod line;
mod message;

pub use message::message_text;
