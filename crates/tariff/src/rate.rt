//! The plain tariff.
ghost use Rattle.std.specs.Prelude.{◌≡◌};
ghost use Rattle.tariff.specs.Prices.{rate_price};
ghost use Rattle.tariff.specs.Shown.{rate_priced};

use crate::interface::Tariff;
use network::Charges;

/// The price is the rate.
#[derive(Clone, Copy)]
pub struct Rate;

impl Tariff for Rate {
    ghost prices = { λ _. rate_price };

    ghost priced = { λ _. rate_priced };

    fn price(&self, charges: Charges) -> u32 {
        if charges.in_range() { charges.rate } else { 0 }
    }
}
