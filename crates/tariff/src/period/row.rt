//! A row of weights.

/// The weights of one period, by class.
// Stays: it is a rule of the project that weights are rows in plain structs, of a fixed size.
#[derive(Clone, Copy)]
pub struct Row {
    pub weights: [u32; 8],
}
