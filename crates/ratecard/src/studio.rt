//! The networks that the rate card is for.
use crate::stop::Stop;
use network::{Charges, Draft, Line, Refusal, Ring, Terms};
use std::alloc::Global;

/// The lines of the studio network: from, to, delay, rate, class, room, jitter and loss of each.
// Stays: a row of eight numbers for each line reads as a table, and six structs in structs would not.
const LINES: [[u32; 8]; 6] = [
    [0, 1, 1200, 30, 0, 4, 3, 2],
    [1, 2, 800, 45, 2, 2, 5, 1],
    [2, 3, 2500, 12, 7, 8, 0, 0],
    [3, 0, 40, 0, 1, 1, 12, 30],
    [0, 2, 1_000_000, 10_000, 6, 1_000, 1_000, 1_000],
    [2, 0, 0, 7, 3, 16, 40, 0],
];

/// A line that the studio network cannot have: it has no point 4.
const EXTRA: [u32; 8] = [1, 4, 900, 25, 1, 3, 2, 2];

/// The line with these numbers.
// Stays: `From` has to stand beside one of its types, and neither is of this program.
fn line_of(numbers: [u32; 8]) -> Line {
    let [from, to, delay, rate, class, room, jitter, loss] = numbers;
    let charges = Charges {
        rate,
        class,
        jitter,
        loss,
    };
    let terms = Terms {
        delay,
        room,
        charges,
    };
    Line { from, to, terms }
}

/// The line that is refused.
pub(crate) fn extra_line() -> Line {
    line_of(EXTRA)
}

/// The studio network of 4 points, as a draft.
pub(crate) fn studio_draft(heap: Global) -> Result<Draft, Stop> {
    let mut draft = Draft::new(heap)?;
    draft.set_points(4)?;
    for numbers in LINES {
        draft.add_line(line_of(numbers))?;
    }
    Ok(draft)
}

/// A ring of 3 points, on terms with no room left.
pub(crate) fn studio_ring() -> Result<Ring, Refusal> {
    let charges = Charges {
        rate: 30,
        class: 0,
        jitter: 3,
        loss: 2,
    };
    Ring::new(
        3,
        Terms {
            delay: 100,
            room: 0,
            charges,
        },
    )
}
