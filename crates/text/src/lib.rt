//! Reads list texts into drafts, and command texts into commands; a text that can't be read is answered by its fault.
#![tactic(auto)]

pub mod commands;
pub mod fault;
mod forms;
mod lexer;
mod list;
pub mod reading;
mod token;
mod words;

pub use commands::{Command, read_command};
pub use fault::{Layer, TextFault};
pub use reading::read_list;
