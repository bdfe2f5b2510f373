//! The table of best values from one point. In each step the point with the best value of those left is done, and its arcs
//! offer values to others.
ghost use Rattle.std.specs.Prelude.{◌≡◌, ◌==◌, ℕ, ◌<◌, ◌≤◌, ◌&&◌, length, Some, None, Ok, ◌≢◌, slice_index_or};
ghost use Rattle.network.specs.Refusals.{numbered, judged, left_by};
ghost use Rattle.runs.specs.Graphs.{arc_at};
ghost use Rattle.runs.specs.Held.{graph};
ghost use Rattle.sweep.specs.Best.{Allowed, HoldsBest};
ghost use Rattle.sweep.specs.Front.{Keeps, Made, Picked, better, kept};
ghost use Rattle.sweep.specs.Values.{sweep_questions, swept_table};

use crate::grading::Grading;
use network::Refusal;
use runs::{Arc, Arcs};

/// Writes for each point v the best value over all runs of allowed arcs from s to v at place v, or none where there is no
/// run. Refuses, and writes nothing: 11 if s is not below the point count, 17 if there are fewer places than points.
/// Arc k is allowed if the mark at k is true; marks past the end count as false.
pub fn sweep<G: Grading>(
    arcs: &Arcs,
    allowed: &[bool],
    s: u32,
    best: &mut [Option<G::Value>],
) -> Result<(), Refusal>
    ensures answer { numbered result ≡ judged (sweep_questions (graph arcs.now) s (length best.old)) tt }
    ensures table { best.new ≡ left_by best.old (judged (sweep_questions (graph arcs.now) s (length best.old)) (swept_table G.Grading.ops (graph arcs.now) allowed.now s best.old)) }
    ensures best { numbered result ≡ Ok tt → HoldsBest G.Grading.ops (arc_at (graph arcs.now)) (Allowed (graph arcs.now) allowed.now) (graph arcs.now).points s best.new }
{
    judge_sweep(arcs, s, best.len())?;
    let n = arcs.points() as usize;
    settle::<G>(arcs, allowed, s as usize, &mut best[..n]);
    Ok(())
}

/// Whether a sweep may start at s with so many places: 11 if s is not below the point count, 17 if there are too few.
fn judge_sweep(arcs: &Arcs, s: u32, places: usize) -> Result<(), Refusal>
    ensures { numbered result ≡ judged (sweep_questions (graph arcs.now) s places) tt }
{
    if s >= arcs.points() {
        return Err(Refusal::NoSuchPoint);
    }
    if places < arcs.points() as usize {
        return Err(Refusal::ShortTable);
    }
    Ok(())
}

/// Puts y in the place, unless what stands there is no worse.
fn offer<G: Grading>(place: &mut Option<G::Value>, y: G::Value)
    ensures { place.new ≡ kept G.Grading.ops.le place.old y }
{
    if place.is_none_or(|z| !G::no_worse(z, y)) {
        *place = Some(y);
    }
}

/// The better of the two, the old one where they tie.
// Stays: `offer` keeps a value at a place and this a point with its value; as one function they would take the order as a closure.
fn first<G: Grading>(found: Option<(usize, G::Value)>, v: usize, x: G::Value) -> (usize, G::Value)
    ensures { result ≡ better G.Grading.ops.le found v x }
{
    match found {
        Some((u, y)) if G::no_worse(y, x) => (u, y),
        _ => (v, x),
    }
}

/// The point that is not done whose value is no worse than any other's.
fn pick<G: Grading>(done: &[bool], best: &[Option<G::Value>]) -> Option<(usize, G::Value)>
    requires { length best.now ≤ length done.now }
    ensures { Picked G.Grading.ops.le (length best.now) done.now best.now result }
{
    let mut found = None;
    for (v, (done, value)) in done.iter().zip(best).enumerate() {
        if !*done && let Some(x) = *value {
            found = Some(first::<G>(found, v, x));
        }
    }
    found
}

/// Empties the table, and starts at s.
fn begin<G: Grading>(s: usize, best: &mut [Option<G::Value>])
    requires { s < length best.old }
    ensures at { slice_index_or best.new s None ≡ Some G.Grading.ops.begin }
    ensures others { (v : ℕ) → v ≢ s → slice_index_or best.new v None ≡ None }
{
    best.fill(None);
    best[s] = Some(G::start());
}

/// Whether the arc is allowed, and leads from u.
fn leaves(arc: &Arc, allowed: bool, u: usize) -> bool
    ensures { result ≡ (allowed && arc.now.from == u) }
{
    allowed && arc.from as usize == u
}

/// Offers the value x of u, extended by each allowed arc from u, to the arc's far point.
fn relax<G: Grading>(
    arcs: &Arcs,
    allowed: &[bool],
    u: usize,
    x: G::Value,
    best: &mut [Option<G::Value>],
)
    requires table { length best.old ≡ (graph arcs.now).points }
    requires fits { (j : ℕ) × (j < 64) × G.Grading.fits j x }
    ensures { Keeps G.Grading.ops (arc_at (graph arcs.now)) (Allowed (graph arcs.now) allowed.now) (graph arcs.now).points u x best.old (length (graph arcs.now).arcs) best.new }
{
    for (arc, allowed) in arcs.as_slice().iter().zip(allowed) {
        if leaves(arc, *allowed, u) {
            offer::<G>(&mut best[arc.to as usize], G::extend(x, *arc));
        }
    }
}

/// Writes for each point the best value over all runs of allowed arcs from s to it, or none.
// Stays: arcs and marks are the public parameters of `sweep`, and a pair of them would be made there and taken apart in `relax`; the table is lent and stays a slice.
fn settle<G: Grading>(arcs: &Arcs, allowed: &[bool], s: usize, best: &mut [Option<G::Value>])
    requires start { s < (graph arcs.now).points }
    requires table { length best.old ≡ (graph arcs.now).points }
    ensures best { HoldsBest G.Grading.ops (arc_at (graph arcs.now)) (Allowed (graph arcs.now) allowed.now) (graph arcs.now).points s best.new }
    ensures short { (v : ℕ) → v < (graph arcs.now).points → (y : _) → slice_index_or best.new v None ≡ Some y → Made G.Grading.ops (arc_at (graph arcs.now)) (Allowed (graph arcs.now) allowed.now) s 0 v y }
{
    begin::<G>(s, best);
    // Stays: the table is lent, and has places for best values alone.
    let mut done = [false; 64];
    while let Some(next) = pick::<G>(&done, best) {
        let (u, x) = next;
        done[u] = true;
        relax::<G>(arcs, allowed, u, x, best);
    }
}
