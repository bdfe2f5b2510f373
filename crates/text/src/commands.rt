//! Reads command texts.
ghost use Rattle.std.specs.Prelude.{◌≡◌, ◌∷◌, IfOk};
ghost use Rattle.text.specs.Commands.{Ordered, Spoken, Whole, commanded, verb_of};
ghost use Rattle.text.specs.Grammar.{command_slots, fastest_slots, figure, widest_slots};
ghost use Rattle.network.specs.Drafts.{new_draft};
ghost use Rattle.text.specs.Items.{items};
ghost use Rattle.text.specs.Tokens.{Cuts};
ghost use Rattle.text.specs.Listing.{faulted, start};
ghost use Rattle.text.specs.Rule.{Earliest};
ghost use Rattle.text.specs.Reads.{Reads, ends_seen};

use crate::fault::{FormFault, TextFault};
use crate::forms::FormReader;
use crate::reading::sized;
use crate::token::Kind;
use crate::words::Name;
use std::marker::Model;

/// A command, with its numbers as they were written.
#[derive(Clone, Copy, PartialEq, Eq, Debug)]
pub enum Command {
    /// The least delay from a point to another, over lines open for so many channels.
    Fastest { from: u32, to: u32, room: u32 },
    /// The largest room of a run's tightest line, from a point to another.
    Widest { from: u32, to: u32 },
}

// Stays: one type for both readers would let a list be read with the methods of commands.
/// Reads command forms.
#[derive(Drop)]
struct CommandReader<'a> {
    forms: FormReader<'a>,
}

impl<'a> Model for CommandReader<'a> {
    ghost use Rattle.text.specs.Left.{Left};

    ghost Value = { Left };

    ghost view = { λ r. r.forms };
}

impl<'a> CommandReader<'a> {
    /// The two points of a command.
    fn points(&mut self) -> Result<(u32, u32), FormFault>
        ensures reads { Reads (λ ss. figure ∷ figure ∷ ss) ends_seen self.old result self.new }
    {
        let from = self.forms.number(0, u32::MAX)?;
        let to = self.forms.number(0, u32::MAX)?;
        Ok((from, to))
    }

    /// What follows the word fastest.
    fn fastest(&mut self) -> Result<Command, FormFault>
        ensures verb { IfOk result (λ x. verb_of x ≡ Name.Fastest) }
        ensures reads { Ordered fastest_slots self.old result self.new }
    {
        let (from, to) = self.points()?;
        let room = self.forms.field(Name::Room, 0, u32::MAX)?;
        self.forms.mark(Kind::Close)?;
        Ok(Command::Fastest { from, to, room })
    }

    /// What follows the word widest.
    fn widest(&mut self) -> Result<Command, FormFault>
        ensures verb { IfOk result (λ x. verb_of x ≡ Name.Widest) }
        ensures reads { Ordered widest_slots self.old result self.new }
    {
        let (from, to) = self.points()?;
        self.forms.mark(Kind::Close)?;
        Ok(Command::Widest { from, to })
    }

    /// A command from its word on, up to its closing bracket.
    // Stays: which command it is says what is read next, and closures would be no plainer.
    fn order(&mut self) -> Result<Command, FormFault>
        ensures spoken { Spoken self.old result self.new }
    {
        let (fastest, _) = self.forms.either(Name::Fastest, Name::Widest)?;
        if fastest {
            self.fastest()
        } else {
            self.widest()
        }
    }

    /// A whole command.
    fn whole(&mut self) -> Result<Command, FormFault>
        ensures { Whole self.old result }
    {
        self.forms.mark(Kind::Open)?;
        let command = self.order()?;
        self.forms.end()?;
        Ok(command)
    }
}

/// Reads a command text.
#[tactic(auto, using(crate::proofs::Cuts::cuts))]
pub fn read_command(text: &[u8]) -> Result<Command, TextFault>
    ensures answer { faulted result ≡ commanded text.now }
    ensures earliest { Earliest (start new_draft) command_slots text.now (faulted result) }
    ensures tokens { Cuts 0 text.now (items 0 text.now) }
{
    sized(text)?;
    let mut reader = CommandReader {
        forms: FormReader::new(text),
    };
    Ok(reader.whole()?)
}
