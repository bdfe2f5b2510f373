//! Runs the worked cases of the table through the code, and prints what each gives beside what it should give.
#![tactic(auto)]

mod tariffs;
mod worked;

use crate::tariffs::{balanced_case, busy_case, weight_case};
use crate::worked::worked_cases;
use network::Refusal;
use std::io;

fn main(rt: HostRuntime) -> io::Result<()> {
    println!(rt; "WORKED CASES: what the code gives, and what was worked out\n")?;
    println!(rt; "{:<52}{:>8}{:>8}", "price of a line", "given", "worked")?;
    print_case(
        &rt,
        "balanced, bounds J 10 and L 4; jitter 3, loss 2",
        balanced_case(),
        20,
    )?;
    print_case(
        &rt,
        "period 0, weight 5 for class 0; class 0, rate 30",
        weight_case(),
        150,
    )?;
    print_case(&rt, "period 3, weights 1; class 7, rate 30", busy_case(), 1)?;
    println!(rt; "\n{} cases in the table that is proved", worked_cases())
}

fn print_case(
    rt: &impl Print,
    name: &str,
    given: Result<u32, Refusal>,
    worked: u32,
) -> io::Result<()> {
    match given {
        Ok(price) => println!(rt; "{name:<52}{price:>8}{worked:>8}"),
        Err(refusal) => println!(rt; "{name:<52}refused {}", refusal.number()),
    }
}
