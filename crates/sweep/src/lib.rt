//! The best values of runs, worked out by one sweep for every grading: the least delay, and the largest room.
#![tactic(auto)]

pub mod delay;
pub mod grading;
pub mod room;
pub mod table;
pub mod values;

pub use delay::Delay;
pub use grading::Grading;
pub use room::Room;
pub use table::sweep;
pub use values::{fastest, widest};
