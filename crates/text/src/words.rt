//! The words of list texts and commands.
ghost use Rattle.std.specs.Prelude.{◌≡◌};
ghost use Rattle.text.specs.Names.{NameIs, name_of};

/// A word that a text may have.
#[derive(Clone, Copy, PartialEq, Eq)]
pub(crate) enum Name {
    Points,
    Line,
    End,
    Delay,
    Rate,
    Class,
    Room,
    Jitter,
    Loss,
    Fastest,
    Widest,
}

/// The name of a word, if it has one; words are compared byte by byte.
// Stays: `TryFrom` would need an error type, and all that there is to say is that a word has no name.
pub(crate) fn name_of(word: &[u8]) -> Option<Name>
    ensures name { result ≡ name_of word.now }
    ensures is { NameIs result word.now }
{
    match word {
        b"points" => Some(Name::Points),
        b"line" => Some(Name::Line),
        b"end" => Some(Name::End),
        b"delay" => Some(Name::Delay),
        b"rate" => Some(Name::Rate),
        b"class" => Some(Name::Class),
        b"room" => Some(Name::Room),
        b"jitter" => Some(Name::Jitter),
        b"loss" => Some(Name::Loss),
        b"fastest" => Some(Name::Fastest),
        b"widest" => Some(Name::Widest),
        _ => None,
    }
}
