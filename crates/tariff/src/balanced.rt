//! The tariff by jitter and loss.
ghost use Rattle.std.specs.Prelude.{◌≡◌, ◌≤◌};
ghost use Rattle.network.specs.Refusals.{numbered, with_value};
ghost use Rattle.tariff.specs.Prices.{balanced_price, bounds_taken};
ghost use Rattle.tariff.specs.Shown.{balanced_priced};

use crate::interface::Tariff;
use network::{Charges, Refusal};

/// The price is the larger of a line's jitter and loss, each scaled by the other's bound, so that a line at both
/// bounds costs the same by either.
#[derive(Clone, Copy)]
pub struct Balanced {
    jitter_bound: u32,
    loss_bound: u32,
    ghost jitter_least: { 1 ≤ jitter_bound },
    ghost jitter_most: { jitter_bound ≤ 1000 },
    ghost loss_least: { 1 ≤ loss_bound },
    ghost loss_most: { loss_bound ≤ 1000 },
}

impl Balanced {
    /// The tariff with these bounds; 9 if one of them is not 1 to 1,000.
    pub fn new(jitter_bound: u32, loss_bound: u32) -> Result<Balanced, Refusal>
        ensures { with_value (λ t. (t.jitter_bound, t.loss_bound)) (numbered result) ≡ bounds_taken jitter_bound loss_bound }
    {
        if !(1..=1_000).contains(&jitter_bound) || !(1..=1_000).contains(&loss_bound) {
            return Err(Refusal::BadBound);
        }
        Ok(Balanced {
            jitter_bound,
            loss_bound,
        })
    }
}

impl Tariff for Balanced {
    ghost prices = { λ t. balanced_price t.jitter_bound t.loss_bound };

    ghost priced = { λ t. balanced_priced t.jitter_bound t.loss_bound t.jitter_most t.loss_most };

    fn price(&self, charges: Charges) -> u32 {
        if charges.in_range() {
            (charges.jitter * self.loss_bound).max(charges.loss * self.jitter_bound)
        } else {
            0
        }
    }
}
