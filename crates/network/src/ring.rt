//! A ring of points, whose lines are worked out.
ghost use Rattle.std.specs.Prelude.{◌≡◌, ◌*◌, ◌<◌, ◌≤◌, true};
ghost use Rattle.network.specs.Net.{in_range};
ghost use Rattle.network.specs.Refusals.{numbered, with_value};
ghost use Rattle.network.specs.Rings.{ring_line, ring_taken};

use crate::interface::Network;
use crate::line::{Line, Terms};
use crate::refusal::Refusal;

/// A ring: each point is joined both ways to the next, by lines that all have the same terms.
#[derive(Clone, Copy)]
pub struct Ring {
    points: u32,
    terms: Terms,
    ghost points_least: { 2 ≤ points },
    ghost points_most: { points ≤ 64 },
    ghost ranged: { in_range 0 terms ≡ true },
}

impl Ring {
    ghost use Rattle.network.specs.Held.{ring_net};

    /// The ring of `points` points with these terms; 4 if a number is out of range. The room may be 0.
    pub fn new(points: u32, terms: Terms) -> Result<Ring, Refusal>
        ensures { with_value ring_net (numbered result) ≡ ring_taken points terms }
    {
        if !(2..=64).contains(&points) || !terms.in_range(0) {
            return Err(Refusal::OutOfRange);
        }
        Ok(Ring { points, terms })
    }

    /// Line k, of which there are twice as many as points: first those that lead on, then those that lead back.
    fn worked_out(&self, k: u32) -> Line
        requires { k < 2 * self.now.points }
        ensures { result ≡ ring_line self.now.points self.now.terms k }
    {
        let n = self.points;
        let terms = self.terms;
        if k < n {
            let to = (k + 1) % n;
            Line { from: k, to, terms }
        } else {
            let to = k - n;
            let from = (to + 1) % n;
            Line { from, to, terms }
        }
    }
}

impl Network for Ring {
    ghost use Rattle.network.specs.Held.{ring_net};
    ghost use Rattle.network.specs.Shown.{ring_ranged};

    ghost net = { ring_net };

    ghost ranged = { λ r. ring_ranged r };

    fn points(&self) -> u32 {
        self.points
    }

    #[tactic(auto, using(crate::proofs::Worked::ring_count))]
    fn line_count(&self) -> u32 {
        2 * self.points
    }

    #[tactic(auto, using(crate::proofs::Worked::ring_at, crate::proofs::Worked::ring_past, crate::proofs::Worked::ring_count))]
    fn line(&self, k: u32) -> Line {
        if k < self.line_count() {
            self.worked_out(k)
        } else {
            Line::none()
        }
    }
}
