//! What a value of a run is, and which of two is better.
ghost use Rattle.std.specs.Prelude.{◌≡◌, ℕ};
ghost use Rattle.sweep.specs.Laws.{Ops, Laws};

use runs::Arc;

/// A grading: the value of the empty run, how an arc extends a value, and the order of values.
pub trait Grading {
    type Value: Copy;

    /// The three operations, as numbers without limit.
    ghost ops: { Ops Self.Value };

    /// `fits j x`: x can be the value of a run of j arcs.
    ghost fits: { ℕ → Self.Value → Type 0 };

    /// What a value too large for the machine becomes.
    ghost clip: { Self.Value → Self.Value };

    /// The value of the empty run.
    fn start() -> Self::Value
        ensures { result ≡ ops.begin };

    /// The value x with one arc more.
    fn extend(x: Self::Value, arc: Arc) -> Self::Value
        ensures { result ≡ clip (ops.ext x arc) };

    /// Whether x is no worse than y.
    // Stays: both gradings have values of one machine type, with opposite orders, so the order is the grading's and not an `Ord` of the value.
    fn no_worse(x: Self::Value, y: Self::Value) -> bool
        ensures { result ≡ ops.le x y };

    /// The order is total, transitive and antisymmetric; an extended value is no better; of two values the one no
    /// worse stays no worse when both are extended by the same arc; values of at most 64 arcs are not clipped.
    ghost lawful: { Laws ops fits clip };
}
