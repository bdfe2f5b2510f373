//! What can stop the program.
use network::Refusal;
use std::alloc::AllocError;
use std::io;
use thiserror::Error;

/// A refusal where none was wanted, or want of memory or of a place to print.
#[derive(Debug, Drop, Error)]
pub(crate) enum Stop {
    #[error("refused with number {}", .0.number())]
    Refused(#[from] Refusal),
    #[error("no memory")]
    NoMemory,
    #[error("no output: {0}")]
    NoOutput(#[from] io::Error),
}

// Stays: a derived From keeps the error that it is given, and the last line that the program prints would name it.
impl From<AllocError> for Stop {
    fn from(_none: AllocError) -> Stop {
        Stop::NoMemory
    }
}
