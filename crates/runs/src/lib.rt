//! What a search over a network sees: its lines as arcs, each open or not, copied once into a table of fixed size.
#![tactic(auto)]

pub mod arc;
pub mod arcs;

pub use arc::Arc;
pub use arcs::Arcs;
