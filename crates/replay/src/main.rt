//! Replays stored dialogues: standard input has for each its length in bytes on a line, and then its bytes.
#![tactic(auto)]

mod stored;

use crate::stored::Dialogues;
use dialogue::respond;
use std::io;
use std::io::Read;

fn main(rt: HostRuntime) -> io::Result<()> {
    let mut input = Vec::new(rt.alloc());
    rt.stdin().read_to_end(&mut input)?;
    for (number, dialogue) in Dialogues::new(input.as_slice()).enumerate() {
        let text = respond(rt.alloc(), dialogue)?;
        print!(rt; "dialogue {number}\n{text}")?;
    }
    Ok(())
}
