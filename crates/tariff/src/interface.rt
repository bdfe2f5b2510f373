//! What a tariff is to whoever asks it.
ghost use Rattle.std.specs.Prelude.{◌≡◌, ℕ};
ghost use Rattle.network.specs.declared.line.Charges.{Charges};
ghost use Rattle.tariff.specs.Prices.{Priced};

use network::Charges;

/// A tariff. The question answers its meaning, changes nothing and never refuses.
pub trait Tariff {
    /// The meaning: the price for what a tariff sees of a line.
    ghost prices: { Self → Charges → ℕ };

    /// Each price is 0 to 1,000,000, and 0 where a number is outside a line's range. An implementation gives the proof.
    ghost priced: { (x : Self) → Priced (prices x) };

    /// The price of a line with these charges.
    // Stays: each tariff tests the ranges, since a method for charges in range alone would have a requires, as no public method has.
    // Stays: it is a rule of the project that no question refuses, so a price out of range is 0.
    fn price(&self, charges: Charges) -> u32
        ensures { result ≡ prices self.now charges };
}
