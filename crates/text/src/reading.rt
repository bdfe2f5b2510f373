//! Reads a whole list text into a draft.
ghost use Rattle.std.specs.Prelude.{◌≡◌, ◌≤◌, true, take, is_ok};
ghost use Rattle.network.specs.Held.{drawn};
ghost use Rattle.network.specs.Net.{all_below};
ghost use Rattle.network.specs.Refusals.{answered, left_by};
ghost use Rattle.text.specs.Grammar.{list_slots};
ghost use Rattle.text.specs.Items.{items};
ghost use Rattle.text.specs.Listing.{faulted, reading, start};
ghost use Rattle.text.specs.Reads.{Sized};
ghost use Rattle.text.specs.Rule.{Earliest};
ghost use Rattle.text.specs.Shapes.{Listed};
ghost use Rattle.text.specs.Tokens.{Cuts};

use crate::fault::{At, CharCause, TextFault};
use crate::list::ListReader;
use network::Draft;

/// Reads a list text into the draft: it sets the draft's point count, and adds the text's lines to those that the draft
/// holds. A text with a fault leaves the draft as it was.
#[tactic(auto, using(crate::proofs::Cuts::cuts))]
pub fn read_list(text: &[u8], draft: &mut Draft) -> Result<(), TextFault>
    ensures answer { faulted result ≡ answered (reading (drawn draft.old) text.now) }
    ensures after { drawn draft.new ≡ left_by (drawn draft.old) (reading (drawn draft.old) text.now) }
    ensures earliest { Earliest (start (drawn draft.old)) list_slots text.now (faulted result) }
    ensures tokens { Cuts 0 text.now (items 0 text.now) }
    ensures listed { is_ok result ≡ true → Listed (drawn draft.old) text.now (drawn draft.new) }
{
    sized(text)?;
    let points = draft.points();
    let count = draft.line_count();
    let mut reader = ListReader::new(text);
    let read = reader.list(draft);
    if read.is_err() {
        restore(draft, points, count);
    }
    read
}

/// Refuses a text of more than 65,536 bytes.
pub(crate) fn sized(text: &[u8]) -> Result<(), At<CharCause>>
    ensures { Sized text.now result }
{
    if text.len() > 65_536 {
        Err(At {
            cause: CharCause::TooLong,
            place: 65_536,
        })
    } else {
        Ok(())
    }
}

/// Takes the draft back to its first `count` lines and to `points`.
fn restore(draft: &mut Draft, points: u32, count: usize)
    requires points_least { 2 ≤ points }
    requires points_most { points ≤ 64 }
    requires below { all_below points (take count (drawn draft.old).lines) ≡ true }
    ensures { drawn draft.new ≡ record { points = points; lines = take count (drawn draft.old).lines } }
{
    draft.keep_first(count);
    draft.set_points(points).unwrap();
}
