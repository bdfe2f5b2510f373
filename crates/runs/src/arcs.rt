//! The arcs of a network, copied once, so that a search asks the network no more.
ghost use Rattle.std.specs.Prelude.{◌≡◌, ℕ, ◌≤◌, length, slice_index_or};
ghost use Rattle.arrayvec.specs.ArrayVec.{array_vec_len};
ghost use Rattle.network.specs.Net.{line_at};
ghost use Rattle.network.specs.Refusals.{numbered, judged, with_value};
ghost use Rattle.runs.specs.Graphs.{Fit, no_arc, arc_of, arc_at, closure_question, graph_of, open_marks};

use crate::arc::Arc;
use arrayvec::ArrayVec;
use network::{Network, Refusal};
use std::array;

/// The point count and the arcs of a network.
#[derive(Drop)]
pub struct Arcs {
    points: u32,
    arcs: ArrayVec<Arc, 512>,
    ghost points_least: { 2 ≤ points },
    ghost points_most: { points ≤ 64 },
    ghost few: { array_vec_len arcs ≤ 512 },
    // This holds past the last arc too, where every number is 0.
    ghost fit: { (k : ℕ) → Fit points (slice_index_or arcs.items k no_arc) },
}

impl Arcs {
    ghost use Rattle.runs.specs.Held.{graph};

    /// The arcs of a network under these closures, for `g` channels; 16 if there are fewer closure bytes than lines.
    // Stays: it is a rule of the project that a closure list has a byte for each line, 0 for open.
    pub fn new<N: Network>(network: &N, closures: &[u8], g: u32) -> Result<Arcs, Refusal>
        ensures { with_value graph (numbered result) ≡ judged (closure_question (N.Network.net network.now) (length closures.now)) (graph_of (N.Network.net network.now) closures.now g) }
    {
        judge_closures(network, closures)?;
        Ok(Arcs::copied(network, closures, g))
    }

    /// The arcs of a network that has a closure byte for each line.
    // Stays: a network, its closures and the channels go from `new` to here alone; a struct of them would be taken apart at once.
    fn copied<N: Network>(network: &N, closures: &[u8], g: u32) -> Arcs
        requires { length (N.Network.net network.now).lines ≤ length closures.now }
        ensures { graph result ≡ graph_of (N.Network.net network.now) closures.now g }
    {
        let mut arcs = ArrayVec::new();
        for (k, closure) in (0..network.line_count()).zip(closures) {
            arcs.push(seen(network, k, *closure, g));
        }
        Arcs {
            points: network.points(),
            arcs,
        }
    }

    /// How many points there are.
    pub fn points(&self) -> u32
        ensures { result ≡ (graph self.now).points }
    {
        self.points
    }

    /// How many arcs there are.
    pub fn count(&self) -> u32
        ensures { result ≡ length (graph self.now).arcs }
    {
        self.arcs.len() as u32
    }

    /// The arcs, in the order of the lines.
    pub fn as_slice(&self) -> &[Arc]
        ensures { result.now ≡ (graph self.now).arcs }
    {
        self.arcs.as_slice()
    }

    /// Arc k, or all zeros and not open where there is none.
    // Stays: an arc past the last is all zeros, as a network's line is, so that no question refuses.
    pub fn arc(&self, k: u32) -> Arc
        ensures { result ≡ arc_at (graph self.now) k }
    {
        self.arcs.get(k as usize).copied().unwrap_or_default()
    }

    /// Whether arc k is open.
    fn is_open(&self, k: u32) -> bool
        ensures { result ≡ (arc_at (graph self.now) k).«open» }
    {
        self.arc(k).open
    }

    /// Whether arc k is open, for each k below 512; not where there is no arc.
    // Stays: which arcs a sweep may use is said anew for each sweep, so marks lie beside the arcs.
    pub fn open_marks(&self) -> [bool; 512]
        ensures { result ≡ open_marks (graph self.now) }
    {
        array::from_fn(|k| self.is_open(k as u32))
    }
}

/// The arc of line k with this closure byte, for `g` channels.
fn seen<N: Network>(network: &N, k: u32, closure: u8, g: u32) -> Arc
    ensures { result ≡ arc_of (line_at (N.Network.net network.now) k) closure g }
{
    Arc::of(&network.line(k), closure, g)
}

/// Whether there is a closure byte for each line: 16 if not.
fn judge_closures<N: Network>(network: &N, closures: &[u8]) -> Result<(), Refusal>
    ensures { numbered result ≡ judged (closure_question (N.Network.net network.now) (length closures.now)) tt }
{
    if closures.len() < network.line_count() as usize {
        return Err(Refusal::ShortClosures);
    }
    Ok(())
}
