//! Tariffs: what a line costs.
#![tactic(auto)]

pub mod balanced;
pub mod interface;
pub mod period;
pub mod rate;

pub use balanced::Balanced;
pub use interface::Tariff;
pub use period::Period;
pub use rate::Rate;
