//! A network with part of each line's room taken.
ghost use Rattle.std.specs.Prelude.{◌≡◌};
ghost use Rattle.network.specs.Loads.{loaded as lowered_net, lowered as lowered_line};
ghost use Rattle.network.specs.Shown.{loaded_ranged};

use crate::interface::Network;
use crate::line::Line;

/// A loaded network, the residual network under some loads: the one below it, with each line's room lowered by the
/// line's load and never below 0. A line past the end of the table has no load.
#[derive(Drop)]
// Stays: it is a rule of the project that the loads are a table beside the lines, which may have any length.
pub struct Loaded<'n, 'l, N> {
    under: &'n N,
    loads: &'l [u32],
}

impl<'n, 'l, N: Network> Loaded<'n, 'l, N> {
    /// The network `under`, with `loads` taken off.
    pub fn new(under: &'n N, loads: &'l [u32]) -> Loaded<'n, 'l, N>
        ensures under { result.under.now ≡ under.now }
        ensures loads { result.loads.now ≡ loads.now }
    {
        Loaded { under, loads }
    }
}

impl<N: Network> Network for Loaded<'_, '_, N> {
    ghost net = { λ s. lowered_net (N.Network.net s.under.now) s.loads.now };

    ghost ranged = { λ s. loaded_ranged (N.Network.net s.under.now) s.loads.now (N.Network.ranged s.under.now) };

    fn points(&self) -> u32 {
        self.under.points()
    }

    #[tactic(auto, using(crate::proofs::Worked::loaded_count))]
    fn line_count(&self) -> u32 {
        self.under.line_count()
    }

    #[tactic(auto, using(crate::proofs::Worked::loaded_at))]
    fn line(&self, k: u32) -> Line {
        let load = self.loads.get(k as usize).copied().unwrap_or(0);
        lowered(self.under.line(k), load)
    }
}

/// The line with `load` channels of its room taken, or all of it where it has no more.
fn lowered(mut line: Line, load: u32) -> Line
    ensures { result ≡ lowered_line line load }
{
    line.terms.room = line.terms.room.saturating_sub(load);
    line
}
