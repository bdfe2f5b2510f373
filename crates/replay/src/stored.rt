//! Dialogues that are stored one after another.
ghost use Rattle.std.specs.Prelude.{◌≤◌, length};
ghost use Rattle.std.specs.Iterator.{at_most};

use dialogue::line_and_rest;

/// The dialogues that are left.
#[derive(Drop)]
pub(crate) struct Dialogues<'a> {
    rest: &'a [u8],
}

impl<'a> Dialogues<'a> {
    /// The dialogues that these bytes store.
    pub(crate) fn new(bytes: &'a [u8]) -> Dialogues<'a> {
        Dialogues { rest: bytes }
    }
}

impl<'a> Iterator for Dialogues<'a> {
    type Item = &'a [u8];

    ghost remaining = { λ s. at_most (length s.rest.now) };

    fn next(&mut self) -> Option<&'a [u8]> {
        if self.rest.is_empty() {
            return None;
        }
        let (line, more) = line_and_rest(self.rest);
        let (dialogue, rest) = cut(more, size(line));
        self.rest = rest;
        Some(dialogue)
    }
}

/// The number that a line of digits writes.
// Stays: the reader of texts takes at most ten digits, and is visible in its crate alone; a length here may have any, and saturates.
fn size(line: &[u8]) -> usize {
    line.iter().fold(0usize, |value, b| {
        value
            .saturating_mul(10)
            .saturating_add(usize::from(b.saturating_sub(b'0')))
    })
}

/// The first `n` bytes, or all where there are fewer, and the others.
fn cut(bytes: &[u8], n: usize) -> (&[u8], &[u8])
    ensures shorter { length result.1.now ≤ length bytes.now }
{
    bytes.split_at(n.min(bytes.len()))
}
