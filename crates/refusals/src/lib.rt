// Why a call is refused: the closed list of reasons, and a reason with its place in the message.
#![tactic(auto)]

mod fault;
mod refusal;

pub use fault::Fault;
pub use refusal::{Layer, Refusal};
