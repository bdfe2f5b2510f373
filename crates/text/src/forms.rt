//! The form reader: tokens against the grammar, and numbers.
ghost use Rattle.std.specs.Prelude.{◌≡◌, ◌≤◌, [], ◌∷◌, length, IfOk, Some};
ghost use Rattle.text.specs.Grammar.{done, field, line_from, lined, mark, noted, number, value_of, word};
ghost use Rattle.text.specs.Left.{left_of};
ghost use Rattle.text.specs.Reads.{Chosen, Counts, Ends, Reads, Takes};

use crate::fault::{At, FormCause, FormFault};
use crate::lexer::Lexer;
use crate::token::{Kind, Token};
use crate::words::{Name, name_of};
use std::marker::Model;

/// Reads the parts of forms from a lexer's tokens.
#[derive(Drop)]
pub(crate) struct FormReader<'a> {
    lexer: Lexer<'a>,
}

impl<'a> Model for FormReader<'a> {
    ghost use Rattle.text.specs.Left.{Left};
    ghost use Rattle.text.specs.ToCome.{left_in};

    ghost Value = { Left };

    ghost view = { λ r. left_in r.lexer };
}

impl<'a> FormReader<'a> {
    /// A reader at the beginning of a text.
    #[tactic(auto, using(crate::proofs::Same::all_items))]
    pub(crate) fn new(text: &'a [u8]) -> FormReader<'a>
        ensures { result ≡ left_of text.now }
    {
        FormReader {
            lexer: Lexer::new(text),
        }
    }

    /// The next token; none is a fault at the text's length.
    fn token(&mut self) -> Result<Token<'a>, FormFault>
        ensures takes { Takes self.old result self.new }
    {
        self.lexer
            .next()?
            .ok_or(fault(FormCause::Grammar, self.lexer.len()))
    }

    /// A bracket or a newline.
    pub(crate) fn mark(&mut self, kind: Kind) -> Result<(), FormFault>
        ensures reads { Reads (λ ss. mark kind ∷ ss) (λ c v. c) self.old result self.new }
    {
        let t = self.token()?;
        if t.kind == kind {
            Ok(())
        } else {
            Err(fault(FormCause::Grammar, t.place))
        }
    }

    /// The word that has this name.
    pub(crate) fn word(&mut self, name: Name) -> Result<(), FormFault>
        ensures reads { Reads (λ ss. word (Some name) ∷ ss) (λ c v. c) self.old result self.new }
    {
        let t = self.token()?;
        if t.kind == Kind::Word && name_of(t.bytes) == Some(name) {
            Ok(())
        } else {
            Err(fault(FormCause::Grammar, t.place))
        }
    }

    /// A number of at most ten digits, with its place.
    pub(crate) fn digits(&mut self) -> Result<(u64, usize), FormFault>
        ensures counts { Counts self.old result self.new }
    {
        let t = self.token()?;
        if t.kind != Kind::Number {
            return Err(fault(FormCause::Grammar, t.place));
        }
        if t.bytes.len() > 10 {
            return Err(fault(FormCause::Number, t.place));
        }
        Ok((value(t.bytes), t.place))
    }

    /// A number from `lo` to `hi`.
    pub(crate) fn number(&mut self, lo: u32, hi: u32) -> Result<u32, FormFault>
        ensures within { IfOk result (λ v. (lo ≤ v) × (v ≤ hi)) }
        ensures reads { Reads (λ ss. number lo hi ∷ ss) noted self.old result self.new }
    {
        let (v, place) = self.digits()?;
        if (u64::from(lo)..=u64::from(hi)).contains(&v) {
            Ok(v as u32)
        } else {
            Err(fault(FormCause::Number, place))
        }
    }

    /// An inner part: a word and a number in brackets.
    pub(crate) fn field(&mut self, name: Name, lo: u32, hi: u32) -> Result<u32, FormFault>
        ensures within { IfOk result (λ v. (lo ≤ v) × (v ≤ hi)) }
        ensures reads { Reads (field name lo hi) noted self.old result self.new }
    {
        self.mark(Kind::Open)?;
        self.word(name)?;
        let v = self.number(lo, hi)?;
        self.mark(Kind::Close)?;
        Ok(v)
    }

    /// One of two words: whether it is the first, and its place.
    pub(crate) fn either(&mut self, first: Name, second: Name) -> Result<(bool, usize), FormFault>
        ensures { Chosen first second self.old result self.new }
    {
        let t = self.token()?;
        if t.kind == Kind::Word {
            let name = name_of(t.bytes);
            if name == Some(first) {
                return Ok((true, t.place));
            }
            if name == Some(second) {
                return Ok((false, t.place));
            }
        }
        Err(fault(FormCause::Grammar, t.place))
    }

    /// The newline that ends a line's form.
    #[tactic(auto, using(crate::proofs::Slots::done_reads))]
    pub(crate) fn done(&mut self) -> Result<(), FormFault>
        ensures reads { Reads (λ ss. done ∷ ss) (λ c v. lined c (line_from c.got)) self.old result self.new }
    {
        self.mark(Kind::Newline)
    }

    /// Nothing more.
    // Stays: an item is the fault and none is right, for which no method is plainer than the match.
    pub(crate) fn end(&mut self) -> Result<(), FormFault>
        ensures ends { Ends [] self.old result self.new }
    {
        match self.lexer.next()? {
            Some(t) => Err(fault(FormCause::Grammar, t.place)),
            None => Ok(()),
        }
    }

    /// What follows the word end: its bracket, its newline, and nothing more.
    pub(crate) fn finish(&mut self) -> Result<(), FormFault>
        ensures ends { Ends (mark Kind.Close ∷ mark Kind.Newline ∷ []) self.old result self.new }
    {
        self.mark(Kind::Close)?;
        self.mark(Kind::Newline)?;
        self.end()
    }
}

/// A fault of the grammar.
fn fault(cause: FormCause, place: usize) -> FormFault
    ensures { result ≡ FormFault.Form (record { cause = cause; place = place }) }
{
    FormFault::Form(At { cause, place })
}

// Stays: a fold was tried, and its bound did not close, since the closure sees the number so far and not the count of digits.
/// The number that at most ten digits write.
fn value(bytes: &[u8]) -> u64
    requires { length bytes.now ≤ 10 }
    ensures { result ≡ value_of bytes.now }
{
    let mut v: u64 = 0;
    for b in bytes {
        v = v * 10 + u64::from(b.saturating_sub(b'0'));
    }
    v
}
