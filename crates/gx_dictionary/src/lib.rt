// What each AVP is where in a Gx message, as far as a message is shown.
#![tactic(auto)]

mod dictionary;

pub use dictionary::Part;
