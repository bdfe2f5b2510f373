//! Why a text is refused, layer by layer: each layer has the faults of the layer below it and its own.
ghost use Rattle.std.specs.Prelude.{◌≡◌, Some};
ghost use Rattle.text.specs.Faults.{layer_of};
ghost use Rattle.text.specs.Listing.{fault_of, fault_text};
ghost use Rattle.text.specs.declared.fault.FormFault.TheVariants.{Chars};
ghost use Rattle.text.specs.declared.fault.TextFault.TheVariants.{Forms, List};

use network::Refusal;
use std::error::Error;
use std::fmt;

/// Why the characters are refused, by the number of the question.
#[derive(Clone, Copy, PartialEq, Eq, Debug)]
pub enum CharCause {
    /// The text has more than 65,536 bytes.
    TooLong = 1,
    /// A byte is no small letter, digit, round bracket, space or newline.
    BadByte = 2,
}

/// A cause of a layer, and the place of the byte at fault.
#[derive(Clone, Copy, PartialEq, Eq, Debug)]
pub struct At<C> {
    pub cause: C,
    pub place: usize,
}

/// Why the forms are refused, by the number of the question.
#[derive(Clone, Copy, PartialEq, Eq, Debug)]
pub enum FormCause {
    /// A token does not fit the grammar, or one is missing.
    Grammar = 3,
    /// A number has more than ten digits or is out of range.
    Number = 4,
}

/// A fault up to the second layer, the forms.
#[derive(Clone, Copy, PartialEq, Eq, Debug)]
pub enum FormFault {
    Chars(At<CharCause>),
    Form(At<FormCause>),
}

/// A fault up to the third layer, the list, where the draft refuses.
#[derive(Clone, Copy, PartialEq, Eq, Debug)]
pub enum TextFault {
    Forms(FormFault),
    List(At<Refusal>),
}

/// The layer that a fault is of, by its number.
#[derive(Clone, Copy, PartialEq, Eq, Debug)]
pub enum Layer {
    /// The characters of the text.
    Characters = 1,
    /// The forms, and their numbers.
    Forms = 2,
    /// The list.
    List = 3,
}

// Stays: clauses need each `from_gives`, and a derived From has no contract.
impl From<At<CharCause>> for FormFault {
    ghost from_gives = { λ e r. r ≡ Chars e };

    fn from(e: At<CharCause>) -> FormFault {
        FormFault::Chars(e)
    }
}

impl From<FormFault> for TextFault {
    ghost from_gives = { λ e r. r ≡ Forms e };

    fn from(e: FormFault) -> TextFault {
        TextFault::Forms(e)
    }
}

impl From<At<CharCause>> for TextFault {
    ghost from_gives = { λ e r. r ≡ Forms (Chars e) };

    fn from(e: At<CharCause>) -> TextFault {
        TextFault::Forms(FormFault::Chars(e))
    }
}

impl From<At<Refusal>> for TextFault {
    ghost from_gives = { λ e r. r ≡ List e };

    fn from(e: At<Refusal>) -> TextFault {
        TextFault::List(e)
    }
}

impl TextFault {
    /// The number of the question that failed.
    // Stays: `place` matches likewise, but the causes have three types, so that no pattern binds them all, and it reads another field.
    pub fn number(&self) -> u32
        ensures { result ≡ (fault_of self.now).number }
    {
        match self {
            TextFault::Forms(FormFault::Chars(f)) => f.cause as u32,
            TextFault::Forms(FormFault::Form(f)) => f.cause as u32,
            TextFault::List(f) => f.cause.number(),
        }
    }

    /// The place of the byte at fault, from 0.
    pub fn place(&self) -> usize
        ensures { result ≡ (fault_of self.now).place }
    {
        match self {
            TextFault::Forms(FormFault::Chars(f)) => f.place,
            TextFault::Forms(FormFault::Form(f)) => f.place,
            TextFault::List(f) => f.place,
        }
    }

    /// The layer that the question is of.
    // Stays: the layer is a rule on the number, whoever found the fault: the draft's refusal 4 is of the forms.
    pub fn layer(&self) -> Layer
        ensures { result ≡ layer_of (fault_of self.now).number }
    {
        match self.number() {
            0..=2 => Layer::Characters,
            3..=4 => Layer::Forms,
            _ => Layer::List,
        }
    }
}

impl Error for TextFault {}

impl fmt::Display for TextFault {
    ghost output = { λ f. Some (fault_text (fault_of f)) };

    fn fmt<W: fmt::Write>(&self, f: &mut fmt::Formatter<W>) -> fmt::Result {
        let layer = self.layer() as u32;
        let number = self.number();
        let place = self.place();
        write!(f, "(fault {layer} {number} {place})")
    }
}
