//! The tariff by period of the day and class of line.
pub mod row;

ghost use Rattle.std.specs.Prelude.{◌≡◌, ◌*◌, ◌<◌, ◌≤◌, true, All, is_ok, length};
ghost use Rattle.network.specs.Net.{chargeable};
ghost use Rattle.network.specs.Refusals.{numbered, answered, left_by};
ghost use Rattle.network.specs.declared.line.Charges.{Charges};
ghost use Rattle.tariff.specs.declared.period.row.Row.{Row};
ghost use Rattle.tariff.specs.Weights.{new_weights, period_taken, weight_taken, weight_at, with_weight, period_price, settled};

use crate::interface::Tariff;
use crate::period::row::Row;
use network::{Charges, Refusal};

/// The price is the rate times the weight of the period and the line's class. A line of class 7 is free, but in period 3,
/// the busy one, nothing is: a price of 0 is 1 there.
#[derive(Clone, Copy)]
pub struct Period {
    period: u32,
    rows: [Row; 4],
    ghost period_most: { period ≤ 3 },
    ghost four: { length rows ≡ 4 },
    ghost eight: { All (λ (r : Row). length r.weights ≡ 8) rows },
    ghost weights_least: { All (λ (r : Row). All (λ w. 1 ≤ w) r.weights) rows },
    ghost weights_most: { All (λ (r : Row). All (λ w. w ≤ 100) r.weights) rows },
}

impl Period {
    ghost use Rattle.tariff.specs.Held.{held};

    /// Period 0, and every weight 1.
    pub fn new() -> Period
        ensures { held result ≡ new_weights }
    {
        Period {
            period: 0,
            rows: [Row { weights: [1; 8] }; 4],
        }
    }

    /// Sets the period, or refuses one above 3 with 8 and changes nothing.
    pub fn set_period(&mut self, period: u32) -> Result<(), Refusal>
        ensures answer { numbered result ≡ answered (period_taken (held self.old) period) }
        ensures after { held self.new ≡ left_by (held self.old) (period_taken (held self.old) period) }
    {
        if period > 3 {
            return Err(Refusal::BadWeight);
        }
        self.period = period;
        Ok(())
    }

    // Stays: periods and classes are numbers where they come from, and an enum would ask more of callers.
    /// Sets the weight of a period (the row) and a class, or refuses with 8 and changes nothing. After it a line of that
    /// class costs by the new weight while the tariff is in that period.
    pub fn set_weight(&mut self, row: u32, class: u32, weight: u32) -> Result<(), Refusal>
        ensures answer { numbered result ≡ answered (weight_taken (held self.old) row class weight) }
        ensures after { held self.new ≡ left_by (held self.old) (weight_taken (held self.old) row class weight) }
        ensures priced { is_ok result ≡ true → (held self.old).period ≡ row → (c : Charges) → chargeable c ≡ true → c.class ≡ class → period_price (held self.new) c ≡ settled row class (c.rate * weight) }
    {
        if row > 3 || class > 7 || !(1..=100).contains(&weight) {
            return Err(Refusal::BadWeight);
        }
        self.put(row, class, weight);
        Ok(())
    }

    /// Writes one weight.
    fn put(&mut self, row: u32, class: u32, weight: u32)
        requires row { row < 4 }
        requires class { class < 8 }
        requires least { 1 ≤ weight }
        requires most { weight ≤ 100 }
        ensures period { self.new.period ≡ self.old.period }
        ensures rows { self.new.rows ≡ with_weight self.old.rows row class weight }
        ensures read { weight_at self.new.rows row class ≡ weight }
    {
        self.rows[row as usize].weights[class as usize] = weight;
    }

    /// The weight of the period that is set and of a class.
    fn weight(&self, class: u32) -> u32
        requires { class < 8 }
        ensures value { result ≡ weight_at self.now.rows self.now.period class }
        ensures most { result ≤ 100 }
    {
        self.rows[self.period as usize].weights[class as usize]
    }

    /// What a price becomes: 0 for class 7, and then 1 in place of 0 in period 3.
    fn settle(&self, class: u32, price: u32) -> u32
        ensures { result ≡ settled self.now.period class price }
    {
        let price = if class == 7 { 0 } else { price };
        if self.period == 3 && price == 0 {
            1
        } else {
            price
        }
    }
}

impl Tariff for Period {
    ghost use Rattle.tariff.specs.Held.{held};
    ghost use Rattle.tariff.specs.Shown.{period_priced, weight_has};

    ghost prices = { λ t. period_price (held t) };

    ghost priced = { λ t. period_priced (held t) t.period_most (weight_has (λ w. w ≤ 100) t.rows t.four t.eight t.weights_most) };

    fn price(&self, charges: Charges) -> u32 {
        if !charges.in_range() {
            return 0;
        }
        self.settle(charges.class, charges.rate * self.weight(charges.class))
    }
}
