//! The least delay and the largest room between two points.
ghost use Rattle.std.specs.Prelude.{◌≡◌, ℕ, ◌<◌, true, length, None, Ok, slice_index_or};
ghost use Rattle.network.specs.Refusals.{numbered, judged};
ghost use Rattle.runs.specs.Graphs.{seen_at};
ghost use Rattle.sweep.specs.Best.{HoldsBest};
ghost use Rattle.sweep.specs.Laws.{delay_ops, room_ops};
ghost use Rattle.sweep.specs.Values.{end_questions, channel_question, place_questions, fastest_questions, widest_questions, all_yes, open_table, table_after, or_no_run, fastest_of, widest_of, OpenLine, Says};

use crate::delay::Delay;
use crate::grading::Grading;
use crate::room::Room;
use crate::table::sweep;
use network::{Network, Refusal};
use runs::Arcs;

/// The least delay from s to t over lines open for g channels. Refuses 11 if a point is not below the point count, 12 if
/// they are the same, 13 if g is not 1 to 1,000, 16 if there are fewer closure bytes than lines, 17 if there are fewer
/// places than points, and 20 if no open run leads from s to t. The table then holds the least delay to each point, also
/// after 20; every other refusal writes nothing.
pub fn fastest<N: Network>(
    network: &N,
    closures: &[u8],
    s: u32,
    t: u32,
    g: u32,
    table: &mut [Option<u32>],
) -> Result<u32, Refusal>
    ensures answer { numbered result ≡ fastest_of (N.Network.net network.now) closures.now s t g (length table.old) }
    ensures table { table.new ≡ table_after delay_ops (fastest_questions (N.Network.net network.now) closures.now s t g (length table.old)) (N.Network.net network.now) closures.now g s table.old }
    ensures says { all_yes (fastest_questions (N.Network.net network.now) closures.now s t g (length table.old)) ≡ true → Says delay_ops (N.Network.net network.now) closures.now g s t (numbered result) }
{
    judge_ends(network, s, t)?;
    judge_channels(g)?;
    reach::<Delay, N>(network, closures, s, t, g, table)
}

/// The largest room of a run's tightest line from s to t, over lines open for 1 channel. Refuses as `fastest` does, but
/// for 13, and leaves the table as it does.
pub fn widest<N: Network>(
    network: &N,
    closures: &[u8],
    s: u32,
    t: u32,
    table: &mut [Option<u32>],
) -> Result<u32, Refusal>
    ensures answer { numbered result ≡ widest_of (N.Network.net network.now) closures.now s t (length table.old) }
    ensures table { table.new ≡ table_after room_ops (widest_questions (N.Network.net network.now) closures.now s t (length table.old)) (N.Network.net network.now) closures.now 1 s table.old }
    ensures says { all_yes (widest_questions (N.Network.net network.now) closures.now s t (length table.old)) ≡ true → Says room_ops (N.Network.net network.now) closures.now 1 s t (numbered result) }
{
    judge_ends(network, s, t)?;
    reach::<Room, N>(network, closures, s, t, 1, table)
}

/// Whether s and t are two points: 11 if one is not below the point count, 12 if they are the same.
fn judge_ends<N: Network>(network: &N, s: u32, t: u32) -> Result<(), Refusal>
    ensures { numbered result ≡ judged (end_questions (N.Network.net network.now) s t) tt }
{
    let n = network.points();
    if s >= n || t >= n {
        return Err(Refusal::NoSuchPoint);
    }
    if s == t {
        return Err(Refusal::SamePoint);
    }
    Ok(())
}

/// Whether g channels may be asked for: 13 if not 1 to 1,000.
fn judge_channels(g: u32) -> Result<(), Refusal>
    ensures { numbered result ≡ judged (channel_question g) tt }
{
    if !(1..=1000).contains(&g) {
        return Err(Refusal::BadChannels);
    }
    Ok(())
}

/// The best value from s to t over lines open for g channels: 16, 17, and 20 if there is no run.
// Stays: s and t are parameters of the public calls, and no other private function takes a network with its closures and channels, so a struct of them would be made and taken apart at once.
fn reach<G: Grading, N: Network>(
    network: &N,
    closures: &[u8],
    s: u32,
    t: u32,
    g: u32,
    table: &mut [Option<G::Value>],
) -> Result<G::Value, Refusal>
    requires start { s < (N.Network.net network.now).points }
    requires end { t < (N.Network.net network.now).points }
    ensures answer { numbered result ≡ or_no_run (judged (place_questions (N.Network.net network.now) closures.now (length table.old)) (slice_index_or (open_table G.Grading.ops (N.Network.net network.now) closures.now g s) t None)) }
    ensures table { table.new ≡ table_after G.Grading.ops (place_questions (N.Network.net network.now) closures.now (length table.old)) (N.Network.net network.now) closures.now g s table.old }
    ensures best { all_yes (place_questions (N.Network.net network.now) closures.now (length table.old)) ≡ true → HoldsBest G.Grading.ops (seen_at (N.Network.net network.now) closures.now g) (OpenLine (N.Network.net network.now) closures.now g) (N.Network.net network.now).points s table.new }
    ensures says { all_yes (place_questions (N.Network.net network.now) closures.now (length table.old)) ≡ true → Says G.Grading.ops (N.Network.net network.now) closures.now g s t (numbered result) }
{
    let arcs = Arcs::new(network, closures, g)?;
    sweep::<G>(&arcs, &arcs.open_marks(), s, table)?;
    found::<G>(table[t as usize])
}

/// The value found, or 20 where there is no run.
fn found<G: Grading>(value: Option<G::Value>) -> Result<G::Value, Refusal>
    ensures { numbered result ≡ or_no_run (Ok value) }
{
    value.ok_or(Refusal::NoRun)
}
