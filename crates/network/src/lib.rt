//! Networks of leased lines: what a network is to whoever asks it, and the ways to make one.
#![tactic(auto)]

pub mod draft;
pub mod interface;
pub mod line;
pub mod loaded;
pub mod refusal;
pub mod ring;
pub mod sealed;

pub use draft::Draft;
pub use interface::Network;
pub use line::{Charges, Figure, Line, Terms};
pub use loaded::Loaded;
pub use refusal::Refusal;
pub use ring::Ring;
pub use sealed::SealedList;
