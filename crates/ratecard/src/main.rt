//! Prints a rate card: what each line of a small studio network, and of a ring, costs under every tariff.
#![tactic(auto)]

mod card;
mod stop;
mod studio;

use crate::card::{Tariffs, print_lines, print_weights};
use crate::stop::Stop;
use crate::studio::{extra_line, studio_draft, studio_ring};
use network::Network;

fn main(rt: HostRuntime) -> Result<(), Stop> {
    println!(rt; "RATE CARD: what each line costs under every tariff\n")?;
    let mut draft = studio_draft(rt.alloc())?;
    let extra = extra_line();
    if let Err(refusal) = draft.add_line(extra) {
        let (from, to, number) = (extra.from, extra.to, refusal.number());
        println!(rt;
            "Refused: a line from point {from} to point {to}, with number {number} (an end is no point of the network).\n"
        )?;
    }
    let list = draft.seal();
    let tariffs = Tariffs::new()?;
    print_weights(&rt)?;
    println!(rt;
        "\nStudio network, sealed: {} points, {} lines",
        list.points(),
        list.line_count()
    )?;
    print_lines(&rt, &list, &tariffs)?;
    let ring = studio_ring()?;
    println!(rt;
        "\nRing: {} points, {} lines, all on the same terms",
        ring.points(),
        ring.line_count()
    )?;
    print_lines(&rt, &ring, &tariffs)?;
    println!(rt;
        "\nDelays are in microseconds, room in channels, loss per million. Rate: the price is the rate."
    )?;
    println!(rt;
        "P0 to P3: rate x weight of the period and class; class 7 is free; in period 3 a price of 0 becomes 1."
    )?;
    println!(rt;
        "Balanced (jitter bound 10, loss bound 4): the larger of jitter x 4 and loss x 10."
    )?;
    Ok(())
}
