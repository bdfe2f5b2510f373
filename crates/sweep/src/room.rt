//! The grading by room.
ghost use Rattle.sweep.specs.Laws.{room_ops};
ghost use Rattle.sweep.specs.Shown.{room_lawful};

use crate::grading::Grading;
use runs::Arc;

/// By room: the largest room of the tightest line is best.
pub struct Room;

impl Grading for Room {
    type Value = u32;

    ghost ops = { room_ops };

    ghost fits = { λ _ _. Unit {0} };

    ghost clip = { λ x. x };

    ghost lawful = { room_lawful };

    fn start() -> u32 {
        1000
    }

    fn extend(x: u32, arc: Arc) -> u32 {
        x.min(arc.room)
    }

    fn no_worse(x: u32, y: u32) -> bool {
        y <= x
    }
}
