//! The grading by delay.
ghost use Rattle.std.specs.Prelude.{◌*◌, ◌≤◌, min};
ghost use Rattle.sweep.specs.Laws.{delay_ops};
ghost use Rattle.sweep.specs.Shown.{delay_lawful};

use crate::grading::Grading;
use runs::Arc;

/// By delay: the least sum of delays is best.
pub struct Delay;

impl Grading for Delay {
    type Value = u32;

    ghost ops = { delay_ops };

    ghost fits = { λ j x. x ≤ j * 1000000 };

    ghost clip = { λ x. min x 4294967295 };

    ghost lawful = { delay_lawful };

    fn start() -> u32 {
        0
    }

    fn extend(x: u32, arc: Arc) -> u32 {
        x.saturating_add(arc.delay)
    }

    fn no_worse(x: u32, y: u32) -> bool {
        x <= y
    }
}
