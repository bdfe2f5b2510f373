//! All of the console but its input and output: from the bytes of an input to the text of its answers.
#![tactic(auto)]

pub mod parts;
pub mod reply;
pub mod response;

pub use parts::{line_and_rest, list_and_commands};
pub use reply::{Answer, Unanswered, execute, reply_to};
pub use response::respond;
