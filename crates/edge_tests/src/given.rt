//! What tests of several files begin with.
use network::{Charges, Ring, Terms};
use std::test::Fail;

/// Charges with each number at the top of its range.
pub(crate) const CHARGES: Charges = Charges {
    rate: 10_000,
    class: 7,
    jitter: 1_000,
    loss: 1_000,
};

/// A ring that must not be refused.
pub(crate) fn ring(points: u32, terms: Terms) -> Result<Ring, Fail> {
    Ring::new(points, terms).map_err(|_| Fail::new("the ring is refused"))
}

/// These charges, with each number in turn just above its range.
pub(crate) fn outside(charges: Charges) -> [Charges; 4] {
    [
        Charges {
            rate: 10_001,
            ..charges
        },
        Charges {
            class: 8,
            ..charges
        },
        Charges {
            jitter: 1_001,
            ..charges
        },
        Charges {
            loss: 1_001,
            ..charges
        },
    ]
}
