//! A list of lines that is being made, and how it becomes a sealed list.
ghost use Rattle.std.specs.Prelude.{◌≡◌, ℕ, ◌<◌, ◌≤◌, true, [], ◌∷◌, ◌++◌, length, IfOk, vec_len, vec_capacity};
ghost use Rattle.network.specs.Net.{all_below, all_in_range, ends_below, in_range, line_at};
ghost use Rattle.network.specs.Refusals.{numbered, judged, answered, left_by};
ghost use Rattle.network.specs.Drafts.{first_kept, new_draft, line_taken, points_taken, points_questions, end_question, more_question};

use crate::line::Line;
use crate::refusal::Refusal;
use crate::sealed::SealedList;
use std::alloc::{AllocError, Global};

/// A draft: a point count and lines, each in its range, with the memory for 512 lines reserved.
// Stays: a point count is a plain number in every public call, so a type for 2 to 64 would be made and taken apart at each.
#[derive(Drop)]
pub struct Draft {
    pub(crate) points: u32,
    pub(crate) lines: Vec<Line>,
    ghost points_least: { 2 ≤ points },
    ghost points_most: { points ≤ 64 },
    ghost few: { vec_len lines ≤ 512 },
    ghost below: { all_below points lines.items ≡ true },
    ghost ranged: { all_in_range 1 lines.items ≡ true },
    ghost reserved: { 512 ≤ vec_capacity lines },
}

impl Draft {
    ghost use Rattle.network.specs.Held.{drawn, sealed_net};

    /// A draft with 2 points and no line. It reserves the memory for 512 lines: the one place where memory can be refused.
    pub fn new(heap: Global) -> Result<Draft, AllocError>
        ensures { IfOk result (λ d. drawn d ≡ new_draft) }
    {
        let lines = Vec::with_capacity(heap, 512)?;
        Ok(Draft { points: 2, lines })
    }

    /// How many points the draft has.
    pub fn points(&self) -> u32
        ensures { result ≡ (drawn self.now).points }
    {
        self.points
    }

    /// How many lines the draft holds.
    pub fn line_count(&self) -> usize
        ensures { result ≡ length (drawn self.now).lines }
    {
        self.lines.len()
    }

    /// Keeps the first `count` lines and lets the others go.
    #[tactic(auto, using(crate::proofs::Lists::below_take, crate::proofs::Lists::in_range_take))]
    pub fn keep_first(&mut self, count: usize)
        ensures { drawn self.new ≡ first_kept (drawn self.old) count }
    {
        self.lines.truncate(count);
    }

    /// Whether the draft could have `n` points: 4 if that is out of range, 5 if a line that it holds has an end not below `n`.
    pub fn judge_points(&self, n: u64) -> Result<(), Refusal>
        ensures { numbered result ≡ judged (points_questions (drawn self.now) n) tt }
    {
        if !(2..=64).contains(&n) {
            return Err(Refusal::OutOfRange);
        }
        if !all_below(self.lines.as_slice(), n) {
            return Err(Refusal::NoSuchEnd);
        }
        Ok(())
    }

    /// Whether a line of the draft could have this end: 5 if it is not below the point count.
    pub fn judge_end(&self, end: u64) -> Result<(), Refusal>
        ensures { numbered result ≡ judged (end_question (drawn self.now) end) tt }
    {
        if end >= u64::from(self.points) {
            return Err(Refusal::NoSuchEnd);
        }
        Ok(())
    }

    /// Whether the draft could hold one line more: 6 if it has 512.
    pub fn judge_more(&self) -> Result<(), Refusal>
        ensures { numbered result ≡ judged (more_question (drawn self.now)) tt }
    {
        if self.lines.len() >= 512 {
            return Err(Refusal::TooManyLines);
        }
        Ok(())
    }

    /// Sets the point count, or refuses it (4, 5) and leaves the draft as it was.
    pub fn set_points(&mut self, n: u32) -> Result<(), Refusal>
        ensures answer { numbered result ≡ answered (points_taken (drawn self.old) n) }
        ensures after { drawn self.new ≡ left_by (drawn self.old) (points_taken (drawn self.old) n) }
    {
        self.judge_points(u64::from(n))?;
        self.points = n;
        Ok(())
    }

    /// Adds a line at the end, or refuses it (4, 5, 6) and leaves the draft as it was.
    pub fn add_line(&mut self, line: Line) -> Result<(), Refusal>
        ensures answer { numbered result ≡ answered (line_taken (drawn self.old) line) }
        ensures after { drawn self.new ≡ left_by (drawn self.old) (line_taken (drawn self.old) line) }
    {
        if !line.terms.in_range(1) {
            return Err(Refusal::OutOfRange);
        }
        self.judge_end(u64::from(line.from))?;
        self.judge_end(u64::from(line.to))?;
        self.judge_more()?;
        self.hold(line);
        Ok(())
    }

    /// Adds a line that may be added.
    fn hold(&mut self, line: Line)
        requires ranged { in_range 1 line.terms ≡ true }
        requires below { ends_below self.old.points line ≡ true }
        requires few { vec_len self.old.lines < 512 }
        ensures points { self.new.points ≡ self.old.points }
        ensures lines { self.new.lines.items ≡ self.old.lines.items ++ (line ∷ []) }
    {
        self.lines.push_reserved(line);
    }

    /// Uses the draft up, and gives the list of exactly its points and lines, each with room for at least 1 channel.
    pub fn seal(self) -> SealedList
        ensures same { sealed_net result ≡ drawn self }
        ensures roomy { (k : ℕ) → k < length (sealed_net result).lines → 1 ≤ (line_at (sealed_net result) k).terms.room }
    {
        SealedList { draft: self }
    }
}

/// Whether each line has both ends below `n`.
fn all_below(lines: &[Line], n: u64) -> bool
    ensures { result ≡ all_below n lines.now }
{
    lines
        .iter()
        .all(|line| u64::from(line.from) < n && u64::from(line.to) < n)
}
