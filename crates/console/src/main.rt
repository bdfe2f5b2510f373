//! The console: reads a list and commands from standard input, and prints the answers.
#![tactic(auto)]

use dialogue::respond;
use std::io;
use std::io::Read;

fn main(rt: HostRuntime) -> io::Result<()> {
    let mut input = Vec::new(rt.alloc());
    rt.stdin().read_to_end(&mut input)?;
    let text = respond(rt.alloc(), input.as_slice())?;
    print!(rt; "{text}")
}
