//! The list reader: points, lines and the end, with the draft as the judge of point count, ends and line count.
ghost use Rattle.std.specs.Prelude.{◌≡◌, ◌<◌, true, ◌∷◌, length, is_some, IfOk};
ghost use Rattle.network.specs.Held.{drawn};
ghost use Rattle.network.specs.Net.{in_range};
ghost use Rattle.text.specs.Left.{left_of};
ghost use Rattle.text.specs.Grammar.{form, mark, noted, points, pointed, tip, line_slots};
ghost use Rattle.text.specs.Reads.{Begins, Grown, HasNet, Leads, Whole, at_place, line_seen, turned, turn_seen, turn_slots, Lists, Many, Reads, ends_seen, formed, form_slots, left_with, points_slots, terms_seen, terms_slots};

use crate::fault::{At, FormFault, TextFault};
use crate::forms::FormReader;
use crate::token::Kind;
use crate::words::Name;
use network::{Charges, Draft, Line, Refusal, Terms};
use std::marker::Model;

/// What the draft says of a number, at the place of its first digit.
fn placed(judged: Result<(), Refusal>, place: usize) -> Result<(), At<Refusal>>
    ensures { result ≡ at_place judged place }
{
    judged.map_err(|cause| At { cause, place })
}

// Stays: the draft is a parameter and no field, since a struct with a `&mut` needs one clause more in each contract.
/// Reads list forms.
#[derive(Drop)]
pub(crate) struct ListReader<'a> {
    forms: FormReader<'a>,
}

impl<'a> Model for ListReader<'a> {
    ghost use Rattle.text.specs.Left.{Left};

    ghost Value = { Left };

    ghost view = { λ r. r.forms };
}

impl<'a> ListReader<'a> {
    /// A reader at the beginning of a text.
    pub(crate) fn new(text: &'a [u8]) -> ListReader<'a>
        ensures { result ≡ left_of text.now }
    {
        ListReader {
            forms: FormReader::new(text),
        }
    }

    /// The point count, which the draft takes.
    fn count(&mut self, draft: &mut Draft) -> Result<u32, TextFault>
        ensures draft { drawn draft.new ≡ left_with (drawn draft.old) (λ n. record { points = n; lines = (drawn draft.old).lines }) result }
        ensures lists { Lists (HasNet (drawn draft.old)) (λ ss. points ∷ ss) pointed self.old result self.new }
    {
        let (n, place) = self.forms.digits()?;
        placed(draft.judge_points(n), place)?;
        draft.set_points(n as u32).unwrap();
        Ok(n as u32)
    }

    /// An end of a line.
    // Stays: that an end is below the point count is said of one end, of two and of a line, so a name for it would be three.
    fn tip(&mut self, draft: &Draft) -> Result<u32, TextFault>
        ensures below { IfOk result (λ v. v < (drawn draft.now).points) }
        ensures lists { Lists (HasNet (drawn draft.now)) (λ ss. tip ∷ ss) noted self.old result self.new }
    {
        let (v, place) = self.forms.digits()?;
        placed(draft.judge_end(v), place)?;
        Ok(v as u32)
    }

    /// Whether the next form is a line, for which the draft has to have a place.
    fn form(&mut self, draft: &Draft) -> Result<bool, TextFault>
        ensures few { IfOk result (λ b. b ≡ true → length (drawn draft.now).lines < 512) }
        ensures lists { Leads (HasNet (drawn draft.now)) form_slots (λ ss. form ∷ ss) formed self.old result self.new }
    {
        let (line, place) = self.forms.either(Name::Line, Name::End)?;
        if line {
            placed(draft.judge_more(), place)?;
        }
        Ok(line)
    }

    /// Both ends of a line.
    fn tips(&mut self, draft: &Draft) -> Result<(u32, u32), TextFault>
        ensures below { IfOk result (λ v. (v.0 < (drawn draft.now).points) × (v.1 < (drawn draft.now).points)) }
        ensures lists { Lists (HasNet (drawn draft.now)) (λ ss. tip ∷ tip ∷ ss) ends_seen self.old result self.new }
    {
        let from = self.tip(draft)?;
        let to = self.tip(draft)?;
        Ok((from, to))
    }

    /// The six inner parts of a line.
    fn terms(&mut self) -> Result<Terms, FormFault>
        ensures ranged { IfOk result (λ t. in_range 1 t ≡ true) }
        ensures reads { Reads terms_slots terms_seen self.old result self.new }
    {
        let delay = self.forms.field(Name::Delay, 0, 1_000_000)?;
        let rate = self.forms.field(Name::Rate, 0, 10_000)?;
        let class = self.forms.field(Name::Class, 0, 7)?;
        let room = self.forms.field(Name::Room, 1, 1_000)?;
        let jitter = self.forms.field(Name::Jitter, 0, 1_000)?;
        let loss = self.forms.field(Name::Loss, 0, 1_000)?;
        let charges = Charges {
            rate,
            class,
            jitter,
            loss,
        };
        Ok(Terms {
            delay,
            room,
            charges,
        })
    }

    /// What follows the word line, up to the newline: a line that the draft can take.
    fn line(&mut self, draft: &Draft) -> Result<Line, TextFault>
        ensures below { IfOk result (λ l. (l.from < (drawn draft.now).points) × (l.to < (drawn draft.now).points)) }
        ensures ranged { IfOk result (λ l. in_range 1 l.terms ≡ true) }
        ensures lists { Lists (Begins (drawn draft.now)) line_slots line_seen self.old result self.new }
    {
        let (from, to) = self.tips(draft)?;
        let terms = self.terms()?;
        self.forms.mark(Kind::Close)?;
        self.forms.done()?;
        Ok(Line { from, to, terms })
    }

    /// The points form.
    fn points(&mut self, draft: &mut Draft) -> Result<u32, TextFault>
        ensures held { (drawn draft.new).lines ≡ (drawn draft.old).lines }
        ensures points { IfOk result (λ n. (drawn draft.new).points ≡ n) }
        ensures lists { Lists (HasNet (drawn draft.old)) points_slots pointed self.old result self.new }
    {
        self.forms.mark(Kind::Open)?;
        self.forms.word(Name::Points)?;
        let n = self.count(draft)?;
        self.forms.mark(Kind::Close)?;
        self.forms.mark(Kind::Newline)?;
        Ok(n)
    }

    /// The next line, which the draft takes, or none at the word end.
    fn turn(&mut self, draft: &mut Draft) -> Result<Option<Line>, TextFault>
        ensures few { IfOk result (λ o. is_some o ≡ true → length (drawn draft.old).lines < 512) }
        ensures draft { drawn draft.new ≡ left_with (drawn draft.old) (turned (drawn draft.old)) result }
        ensures lists { Leads (HasNet (drawn draft.old)) turn_slots (λ ss. mark Kind.Open ∷ form ∷ ss) turn_seen self.old result self.new }
    {
        self.forms.mark(Kind::Open)?;
        let more = self.form(draft)?;
        if more {
            let line = self.line(draft)?;
            draft.add_line(line).unwrap();
            Ok(Some(line))
        } else {
            Ok(None)
        }
    }

    /// The lines up to the word end, which the draft takes.
    fn lines(&mut self, draft: &mut Draft) -> Result<(), TextFault>
        ensures grown { Grown (drawn draft.old) (drawn draft.new) }
        ensures many { Many (drawn draft.old) (drawn draft.new) self.old result self.new }
    {
        while self.turn(draft)?.is_some() {}
        Ok(())
    }

    /// A whole list, which the draft takes as far as it is read.
    pub(crate) fn list(&mut self, draft: &mut Draft) -> Result<(), TextFault>
        ensures grown { Grown (drawn draft.old) (drawn draft.new) }
        ensures whole { Whole (drawn draft.old) (drawn draft.new) self.old result }
    {
        self.points(draft)?;
        self.lines(draft)?;
        Ok(self.forms.finish()?)
    }
}
