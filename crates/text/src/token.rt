//! What a text is cut into.

/// The kind of a token, and of the run that the lexer is in.
#[derive(Clone, Copy, PartialEq, Eq)]
pub(crate) enum Kind {
    /// A run of small letters.
    Word,
    /// A run of digits.
    Number,
    Open,
    Close,
    Newline,
    /// A byte that no text may have.
    Bad,
}

/// A token: its kind, the place of its first byte, and its bytes.
#[derive(Clone, Copy)]
pub(crate) struct Token<'a> {
    pub kind: Kind,
    pub place: usize,
    pub bytes: &'a [u8],
}
