//! The whole response to an input.
ghost use Rattle.std.specs.Prelude.{◌≡◌, ◌++◌, IfOk, OnOk, string_bytes, codes};
ghost use Rattle.network.specs.Held.{sealed_net};
ghost use Rattle.text.specs.Listing.{fault_of, fault_text};
ghost use Rattle.dialogue.specs.Parts.{lines_of};
ghost use Rattle.dialogue.specs.Replies.{replied};
ghost use Rattle.dialogue.specs.Responses.{replies, response};

use crate::parts::list_and_commands;
use crate::reply::reply_to;
use network::{Draft, SealedList};
use std::alloc::{AllocError, Global};
use text::{TextFault, read_list};

/// All that the console prints for an input: the fault of its list, or a reply to each of its commands, each on a line.
pub fn respond(heap: Global, input: &[u8]) -> Result<String, AllocError>
    ensures { IfOk result (λ t. string_bytes t ≡ response input.now) }
{
    let (list, commands) = list_and_commands(input);
    let mut draft = Draft::new(heap)?;
    match read_list(list, &mut draft) {
        Ok(()) => reply_all(heap, &draft.seal(), commands),
        Err(fault) => fault_line(heap, fault),
    }
}

/// A fault, on a line.
fn fault_line(heap: Global, fault: TextFault) -> Result<String, AllocError>
    ensures { IfOk result (λ t. string_bytes t ≡ fault_text (fault_of fault) ++ codes "\n") }
{
    format!(in heap; "{fault}\n")
}

/// The replies to commands, each on a line.
fn reply_all(heap: Global, network: &SealedList, commands: &[u8]) -> Result<String, AllocError>
    ensures { IfOk result (λ t. string_bytes t ≡ replies (sealed_net network.now) (lines_of commands.now)) }
{
    let mut text = String::new(heap);
    for line in commands.split_inclusive(|&b| b == b'\n') {
        let line = line.strip_suffix(b"\n").unwrap_or(line);
        reply_line(&mut text, network, line)?;
    }
    Ok(text)
}

/// Adds the reply to a line of commands, on a line.
fn reply_line(text: &mut String, network: &SealedList, line: &[u8]) -> Result<(), AllocError>
    ensures { OnOk result (string_bytes text.new ≡ string_bytes text.old ++ (replied (sealed_net network.now) line.now ++ codes "\n")) }
{
    match reply_to(network, line) {
        Ok(answer) => writeln!(text, "{answer}"),
        Err(unanswered) => writeln!(text, "{unanswered}"),
    }
}
