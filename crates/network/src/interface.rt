//! What a network is to whoever asks it.
ghost use Rattle.std.specs.Prelude.{◌≡◌, ◌≤◌, length};
ghost use Rattle.network.specs.Net.{Net, Ranged, figure_of, line_at};

use crate::line::{Figure, Line};

/// A network. Each question answers its meaning, changes nothing and never refuses.
pub trait Network {
    /// The meaning: the point count and the lines.
    ghost net: { Self → Net };

    /// The meaning keeps the ranges. An implementation gives the proof, so that one which borrows another network
    /// can hand on the other's.
    ghost ranged: { (x : Self) → Ranged (net x) };

    /// How many points there are.
    fn points(&self) -> u32
        ensures { result ≡ (net self.now).points };

    /// How many lines there are.
    fn line_count(&self) -> u32
        ensures { result ≡ length (net self.now).lines };

    /// Line k, or all zeros where there is none.
    // Stays: it is a rule of the project that no question of a network refuses, so there is no Option to take apart.
    fn line(&self, k: u32) -> Line
        ensures { result ≡ line_at (net self.now) k };

    /// One number of line k, or 0 where there is no such line.
    final fn figure(&self, k: u32, which: Figure) -> u32
        ensures value { result ≡ figure_of which (line_at (net self.now) k) }
        ensures past { length (net self.now).lines ≤ k → result ≡ 0 }
    {
        self.line(k).figure(which)
    }
}
