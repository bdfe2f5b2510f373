//! Tests of the library at the edges of its ranges, on both sides.
#![tactic(auto)]

#[cfg(test)]
mod drafts;
#[cfg(test)]
mod given;
#[cfg(test)]
mod networks;
#[cfg(test)]
mod sweeps;
#[cfg(test)]
mod tariffs;
#[cfg(test)]
mod texts;
