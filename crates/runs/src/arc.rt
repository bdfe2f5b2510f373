//! A line as a search sees it.
ghost use Rattle.std.specs.Prelude.{◌≡◌};
ghost use Rattle.runs.specs.Graphs.{no_arc, arc_of};

use network::Line;

/// What a search sees of a line.
#[derive(Clone, Copy, Default)]
pub struct Arc {
    pub from: u32,
    pub to: u32,
    /// The delay in microseconds, 0 to 1,000,000.
    pub delay: u32,
    /// The channels that the line can carry, 0 to 1,000.
    pub room: u32,
    /// Whether the line is not closed and has room for the channels asked for.
    pub open: bool,
}

impl Arc {
    /// What a search sees where there is no line: all zeros, and not open.
    pub fn none() -> Arc
        ensures { result ≡ no_arc }
    {
        Arc::default()
    }

    /// The arc of a line with this closure byte, for `g` channels: open if the byte is 0 and the line has room for `g`.
    pub fn of(line: &Line, closure: u8, g: u32) -> Arc
        ensures { result ≡ arc_of line.now closure g }
    {
        Arc {
            from: line.from,
            to: line.to,
            delay: line.terms.delay,
            room: line.terms.room,
            open: closure == 0 && g <= line.terms.room,
        }
    }
}
