//! A line and its numbers.
ghost use Rattle.std.specs.Prelude.{◌≡◌};
ghost use Rattle.network.specs.Net.{chargeable, figure_of, in_range, no_line};

/// What a tariff sees of a line.
#[derive(Clone, Copy, PartialEq, Eq, Debug, Default)]
pub struct Charges {
    /// The rate, 0 to 10,000.
    pub rate: u32,
    /// The class, 0 to 7.
    pub class: u32,
    /// The jitter, 0 to 1,000.
    pub jitter: u32,
    /// The loss per million, 0 to 1,000.
    pub loss: u32,
}

/// The numbers of a line besides its ends.
#[derive(Clone, Copy, PartialEq, Eq, Debug, Default)]
pub struct Terms {
    /// The delay in microseconds, 0 to 1,000,000.
    pub delay: u32,
    /// The channels that the line can carry, 0 to 1,000.
    pub room: u32,
    pub charges: Charges,
}

/// A line: a directed link from one point to another, with a capacity.
#[derive(Clone, Copy, PartialEq, Eq, Debug, Default)]
pub struct Line {
    pub from: u32,
    pub to: u32,
    pub terms: Terms,
}

/// Names one of the eight numbers of a line.
#[derive(Clone, Copy)]
pub enum Figure {
    From,
    To,
    Delay,
    Rate,
    Class,
    Room,
    Jitter,
    Loss,
}

impl Charges {
    /// Whether each number is in a line's range.
    pub fn in_range(&self) -> bool
        ensures { result ≡ chargeable self.now }
    {
        self.rate <= 10_000 && self.class <= 7 && self.jitter <= 1_000 && self.loss <= 1_000
    }
}

impl Terms {
    /// Whether each number is in a line's range, and the room is at least `least`.
    pub fn in_range(&self, least: u32) -> bool
        ensures { result ≡ in_range least self.now }
    {
        self.delay <= 1_000_000 && (least..=1_000).contains(&self.room) && self.charges.in_range()
    }
}

impl Line {
    /// What a network answers where it has no line: all zeros.
    pub fn none() -> Line
        ensures { result ≡ no_line }
    {
        Line::default()
    }

    /// One number of the line.
    pub fn figure(&self, which: Figure) -> u32
        ensures { result ≡ figure_of which self.now }
    {
        match which {
            Figure::From => self.from,
            Figure::To => self.to,
            Figure::Delay => self.terms.delay,
            Figure::Rate => self.terms.charges.rate,
            Figure::Class => self.terms.charges.class,
            Figure::Room => self.terms.room,
            Figure::Jitter => self.terms.charges.jitter,
            Figure::Loss => self.terms.charges.loss,
        }
    }
}
