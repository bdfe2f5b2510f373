//! The tariffs and tables of the rate card.
ghost use Rattle.std.specs.Prelude.{◌≡◌, ◌+◌, ◌*◌, ◌≤◌};
ghost use Rattle.ratecard.specs.Card.{card_prices, card_weight};
ghost use Rattle.tariff.specs.Prices.{balanced_price, rate_price};

use network::{Charges, Line, Network, Refusal};
use std::{fmt, io};
use tariff::{Balanced, Period, Rate, Tariff};

/// The tariffs of the card: the period tariff once for each period.
#[derive(Clone, Copy)]
pub(crate) struct Tariffs {
    rate: Rate,
    periods: [Period; 4],
    balanced: Balanced,
}

/// What one line costs: under the rate tariff, in each period, and under the balanced tariff.
#[derive(Clone, Copy)]
pub(crate) struct Prices {
    rate: u32,
    periods: [u32; 4],
    balanced: u32,
}

impl fmt::Display for Prices {
    fn fmt<W: fmt::Write>(&self, f: &mut fmt::Formatter<W>) -> fmt::Result {
        let Prices {
            rate,
            periods,
            balanced,
        } = self;
        write!(f, "{rate:>8}")?;
        for price in periods {
            write!(f, "{price:>8}")?;
        }
        write!(f, "{balanced:>9}")
    }
}

/// The weight of a period and a class on this card.
fn card_weight(period: u32, class: u32) -> u32
    requires period { period ≤ 3 }
    requires class { class ≤ 7 }
    ensures { result ≡ card_weight period class }
{
    1 + period * (class + 1)
}

/// The period tariff with the card's weights, in a period.
fn in_period(period: u32) -> Result<Period, Refusal> {
    let mut tariff = Period::new();
    // Stays: a weight is set by the numbers of its period and class, so the loops go over the numbers.
    for row in 0..4 {
        for class in 0..8 {
            tariff.set_weight(row, class, card_weight(row, class))?;
        }
    }
    tariff.set_period(period)?;
    Ok(tariff)
}

/// What charges cost under each of these period tariffs.
fn prices_in(periods: [Period; 4], charges: Charges) -> [u32; 4]
    ensures { result ≡ card_prices periods charges }
{
    periods.map(|tariff| tariff.price(charges))
}

impl Tariffs {
    pub(crate) fn new() -> Result<Tariffs, Refusal> {
        let periods = [0, 1, 2, 3].try_map(in_period)?;
        let balanced = Balanced::new(10, 4)?;
        Ok(Tariffs {
            rate: Rate,
            periods,
            balanced,
        })
    }

    fn prices(&self, charges: Charges) -> Prices
        ensures rate { result.rate ≡ rate_price charges }
        ensures balanced { result.balanced ≡ balanced_price self.now.balanced.jitter_bound self.now.balanced.loss_bound charges }
        ensures periods { result.periods ≡ card_prices self.now.periods charges }
    {
        Prices {
            rate: self.rate.price(charges),
            periods: prices_in(self.periods, charges),
            balanced: self.balanced.price(charges),
        }
    }
}

/// Prints the card's weights, a row for each period.
pub(crate) fn print_weights(rt: &impl Print) -> io::Result<()> {
    println!(rt; "Weights of the period tariff, by period and class")?;
    println!(rt; "period  c0  c1  c2  c3  c4  c5  c6  c7")?;
    // Stays: a weight is told by the numbers of its period and class, so the loops go over the numbers.
    for period in 0..4 {
        print!(rt; "{period:>6}")?;
        for class in 0..8 {
            let weight = card_weight(period, class);
            print!(rt; "{weight:>4}")?;
        }
        println!(rt; "")?;
    }
    Ok(())
}

/// Prints each line of a network with its prices.
pub(crate) fn print_lines<N: Network>(
    rt: &impl Print,
    network: &N,
    tariffs: &Tariffs,
) -> io::Result<()> {
    println!(rt;
        "line from   to    delay   rate class  room jitter  loss |    Rate      P0      P1      P2      P3 Balanced"
    )?;
    // Stays: a network is asked for a line by its number, which is printed too, so the loop goes over the numbers.
    for k in 0..network.line_count() {
        let line = network.line(k);
        let prices = tariffs.prices(line.terms.charges);
        print_line(rt, k, line)?;
        println!(rt; "{prices}")?;
    }
    Ok(())
}

// Stays: a line is another crate's type and does not know its number, so a type of its own would be made for this alone.
fn print_line(rt: &impl Print, k: u32, line: Line) -> io::Result<()> {
    let Line { from, to, terms } = line;
    let Charges {
        rate,
        class,
        jitter,
        loss,
    } = terms.charges;
    let (delay, room) = (terms.delay, terms.room);
    print!(rt;
        "{k:>4} {from:>4} {to:>4} {delay:>8} {rate:>6} {class:>5} {room:>5} {jitter:>6} {loss:>5} |"
    )
}
