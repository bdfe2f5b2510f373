//! What the console answers to one command.
ghost use Rattle.std.specs.Prelude.{◌≡◌, Some};
ghost use Rattle.network.specs.Held.{sealed_net};
ghost use Rattle.dialogue.specs.Replies.{executed, outcome_text, replied, reply_text};

use network::{Refusal, SealedList};
use std::fmt;
use sweep::{fastest, widest};
use text::{Command, TextFault, read_command};

/// The answer to a command: the value that it asks for.
#[derive(Clone, Copy)]
pub enum Answer {
    Fastest(u32),
    Widest(u32),
}

/// Why a line has no answer: its command is refused, or can't be read.
#[derive(Clone, Copy)]
pub enum Unanswered {
    Refused(Refusal),
    Fault(TextFault),
}

// Stays: clauses need each `from_gives`, and a derived From has no contract.
impl From<Refusal> for Unanswered {
    ghost use Rattle.dialogue.specs.declared.reply.Unanswered.TheVariants.{Refused};

    ghost from_gives = { λ e r. r ≡ Refused e };

    fn from(refusal: Refusal) -> Self {
        Self::Refused(refusal)
    }
}

impl From<TextFault> for Unanswered {
    ghost use Rattle.dialogue.specs.declared.reply.Unanswered.TheVariants.{Fault};

    ghost from_gives = { λ e r. r ≡ Fault e };

    fn from(fault: TextFault) -> Self {
        Self::Fault(fault)
    }
}

impl fmt::Display for Answer {
    ghost use Rattle.dialogue.specs.Replies.{answer_text};

    ghost output = { λ a. Some (answer_text a) };

    fn fmt<W: fmt::Write>(&self, f: &mut fmt::Formatter<W>) -> fmt::Result {
        match self {
            Answer::Fastest(value) => write!(f, "(fastest {value})"),
            Answer::Widest(value) => write!(f, "(widest {value})"),
        }
    }
}

impl fmt::Display for Unanswered {
    ghost use Rattle.dialogue.specs.Replies.{unanswered_text};

    ghost output = { λ u. Some (unanswered_text u) };

    fn fmt<W: fmt::Write>(&self, f: &mut fmt::Formatter<W>) -> fmt::Result {
        match self {
            Unanswered::Refused(refusal) => write!(f, "(refused {})", refusal.number()),
            Unanswered::Fault(fault) => write!(f, "{fault}"),
        }
    }
}

/// Carries a command out over a network, with every line open and a place for each point.
pub fn execute(network: &SealedList, command: Command) -> Result<Answer, Refusal>
    ensures { outcome_text result ≡ executed (sealed_net network.now) command }
{
    let closures = [0; 512];
    let mut table = [None; 64];
    // Stays: a match on which command it is says what is called, and closures would be no plainer.
    match command {
        Command::Fastest { from, to, room } => {
            fastest(network, &closures, from, to, room, &mut table).map(Answer::Fastest)
        }
        Command::Widest { from, to } => {
            widest(network, &closures, from, to, &mut table).map(Answer::Widest)
        }
    }
}

/// The reply to a line of commands.
pub fn reply_to(network: &SealedList, line: &[u8]) -> Result<Answer, Unanswered>
    ensures { reply_text result ≡ replied (sealed_net network.now) line.now }
{
    let command = read_command(line)?;
    Ok(execute(network, command)?)
}
