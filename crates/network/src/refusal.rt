//! Why a call of the product is refused, in one enum for all of its crates.
ghost use Rattle.std.specs.Prelude.{◌≡◌};
ghost use Rattle.network.specs.Refusals.{number_of};

/// A refusal, with its number, which is what documents and printed answers call it by.
#[derive(Clone, Copy, PartialEq, Eq, Debug)]
pub enum Refusal {
    /// A number of a network is out of its range.
    OutOfRange = 4,
    /// An end of a line is not below the point count.
    NoSuchEnd = 5,
    /// There would be more than 512 lines.
    TooManyLines = 6,
    /// The margin p/q has not 1 ≤ p ≤ q ≤ 1,000.
    BadMargin = 7,
    /// A period, a row, a class or a weight of a period tariff is out of its range.
    BadWeight = 8,
    /// A bound of a balanced tariff is not 1 to 1,000.
    BadBound = 9,
    /// A start number is not 1 to 4,000,000,000.
    BadStart = 10,
    /// A point is not below the point count.
    NoSuchPoint = 11,
    /// The two points are the same.
    SamePoint = 12,
    /// The channels asked for are not 1 to 1,000.
    BadChannels = 13,
    /// The delay limit is above 63,000,000.
    BadLimit = 14,
    /// The closure list has fewer bytes than the network has lines.
    ShortClosures = 16,
    /// The table handed in has too few places.
    ShortTable = 17,
    /// 32 bookings stand already.
    BookFull = 18,
    /// The next booking number would be above 4,000,000,000.
    NumbersSpent = 19,
    /// No open run keeps the limit, or, for a sweep, none exists.
    NoRun = 20,
    /// No booking with that number stands.
    NotStanding = 21,
    /// A line number is not below the line count.
    NoSuchLine = 22,
    /// Fewer bookings stand than the place asked for.
    NoSuchPlace = 23,
    /// The last search found no column.
    NoColumn = 24,
}

impl Refusal {
    /// The number of the refusal.
    pub fn number(self) -> u32
        ensures { result ≡ number_of self }
    {
        self as u32
    }
}
