//! The lexer: how far it is in the text, and the run of bytes that it is in, if it is in one.
ghost use Rattle.std.specs.Prelude.{◌≤◌, length};

use crate::fault::{At, CharCause};
use crate::token::{Kind, Token};

/// Cuts a text into tokens, one at a time.
#[derive(Drop)]
pub(crate) struct Lexer<'a> {
    text: &'a [u8],
    at: usize,
    from: usize,
    state: Option<Kind>,
    ghost begun: { from ≤ at },
    ghost within: { at ≤ length text.now },
}

impl<'a> Lexer<'a> {
    ghost use Rattle.std.specs.Prelude.{◌≡◌, ◌+◌, ◌-◌, ◌<◌, [], ◌++◌, length, take, drop, if◌then◌else◌, None};
    ghost use Rattle.text.specs.Items.{class, continues, one, rest};
    ghost use Rattle.text.specs.Gives.{Next, shown};
    ghost use Rattle.text.specs.ToCome.{to_come};

    /// A lexer at the beginning of a text.
    pub(crate) fn new(text: &'a [u8]) -> Lexer<'a>
        ensures to_come { to_come result ≡ rest None 0 0 text.now }
        ensures text { result.text.now ≡ text.now }
    {
        Lexer {
            text,
            at: 0,
            from: 0,
            state: None,
        }
    }

    /// The token that the run so far makes; spaces make none.
    fn ended(&self) -> Option<Token<'a>>
        ensures { shown result ≡ one self.now.state self.now.from (take (self.now.at - self.now.from) (drop self.now.from self.now.text.now)) }
    {
        let kind = self.state?;
        Some(Token {
            kind,
            place: self.from,
            bytes: &self.text[self.from..self.at],
        })
    }

    /// Takes the next byte in place, and answers whether the run went on.
    // Stays: it is a rule of the project that the state is matched with the next byte and changed in place, and its place with it.
    fn step(&mut self, b: u8) -> bool
        requires { self.old.at < length self.old.text.now }
        ensures text { self.new.text.now ≡ self.old.text.now }
        ensures at { self.new.at ≡ self.old.at + 1 }
        ensures state { self.new.state ≡ class b }
        ensures goes { result ≡ continues self.old.state (class b) }
        ensures from { self.new.from ≡ (if result then self.old.from else self.old.at) }
    {
        match (self.state, b) {
            (Some(Kind::Word), b'a'..=b'z') | (Some(Kind::Number), b'0'..=b'9') => {
                self.at += 1;
                return true;
            }
            (_, b'a'..=b'z') => self.state = Some(Kind::Word),
            (_, b'0'..=b'9') => self.state = Some(Kind::Number),
            (_, b'(') => self.state = Some(Kind::Open),
            (_, b')') => self.state = Some(Kind::Close),
            (_, b'\n') => self.state = Some(Kind::Newline),
            (_, b' ') => self.state = None,
            (_, _) => self.state = Some(Kind::Bad),
        }
        self.from = self.at;
        self.at += 1;
        false
    }

    /// The next token, good or bad, if there is one.
    // Stays: `step`, this and `next` each say that the text stays, since a model would hide the fields that `step` speaks of.
    fn raw(&mut self) -> Option<Token<'a>>
        ensures text { self.new.text.now ≡ self.old.text.now }
        ensures gives { to_come self.old ≡ shown result ++ to_come self.new }
        ensures last { result ≡ None → to_come self.new ≡ [] }
    {
        while let Some(&b) = self.text.get(self.at) {
            let run = self.ended();
            if !self.step(b) && run.is_some() {
                return run;
            }
        }
        let last = self.ended();
        self.state = None;
        self.from = self.at;
        last
    }

    /// The next token, or none at the text's end; a bad byte is a fault.
    pub(crate) fn next(&mut self) -> Result<Option<Token<'a>>, At<CharCause>>
        ensures text { self.new.text.now ≡ self.old.text.now }
        ensures next { Next (to_come self.old) result (to_come self.new) }
    {
        match self.raw() {
            Some(t) if t.kind == Kind::Bad => Err(At {
                cause: CharCause::BadByte,
                place: t.place,
            }),
            token => Ok(token),
        }
    }

    /// The length of the text.
    pub(crate) fn len(&self) -> usize
        ensures { result ≡ length self.now.text.now }
    {
        self.text.len()
    }
}
