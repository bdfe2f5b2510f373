//! The worked prices, by the code.
ghost use Rattle.std.specs.Prelude.{◌≡◌, Ok};

use network::{Charges, Refusal};
use tariff::{Balanced, Period, Tariff};

/// A balanced price.
pub fn balanced_case() -> Result<u32, Refusal>
    ensures { result ≡ Ok 20 }
{
    let tariff = Balanced::new(10, 4)?;
    Ok(tariff.price(Charges {
        jitter: 3,
        loss: 2,
        ..Charges::default()
    }))
}

/// A price by a weight that was set.
pub fn weight_case() -> Result<u32, Refusal>
    ensures { result ≡ Ok 150 }
{
    let mut tariff = Period::new();
    tariff.set_weight(0, 0, 5)?;
    Ok(tariff.price(Charges {
        rate: 30,
        ..Charges::default()
    }))
}

/// The price of a free line in the busy period.
pub fn busy_case() -> Result<u32, Refusal>
    ensures { result ≡ Ok 1 }
{
    let mut tariff = Period::new();
    tariff.set_period(3)?;
    Ok(tariff.price(Charges {
        rate: 30,
        class: 7,
        ..Charges::default()
    }))
}
