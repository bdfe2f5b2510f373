//! A draft that takes no more lines, as a network.
use crate::draft::Draft;
use crate::interface::Network;
use crate::line::Line;

/// A sealed list: the points and lines of the draft that was used up for it.
#[derive(Drop)]
pub struct SealedList {
    pub(crate) draft: Draft,
}

impl Network for SealedList {
    ghost use Rattle.network.specs.Held.{sealed_net};
    ghost use Rattle.network.specs.Shown.{drawn_ranged};

    ghost net = { sealed_net };

    ghost ranged = { λ s. drawn_ranged s.draft };

    fn points(&self) -> u32 {
        self.draft.points
    }

    fn line_count(&self) -> u32 {
        self.draft.lines.len() as u32
    }

    fn line(&self, k: u32) -> Line {
        self.draft
            .lines
            .get(k as usize)
            .copied()
            .unwrap_or_default()
    }
}
