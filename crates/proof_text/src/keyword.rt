// The words that lines begin with, the numbers of formats, the kinds of lemmas, the letters of moves, and the operators
// behind whose names numbers stand.

ghost use Rattle.std.specs.Prelude.{◌≡◌, map};
ghost use Rattle.proof_text.specs.Reading.{look_up};

use crate::line::Format;
use crate::list::Letter;

/// What kind of line a word begins.
#[derive(Clone, Copy, Debug)]
pub(crate) enum Keyword {
    Header,
    Term,
    Leaf,
    Encode,
    Rewrite,
    Selector,
    Chain,
    Equal,
    Lemma,
    Delete,
    Sat,
    Value,
    Unsat,
    Unknown,
    Take,
    Put,
    Drop,
}

/// What a lemma is about.
#[derive(Clone, Copy, Debug)]
pub(crate) enum LemmaKind {
    Congruence,
    Witness,
    Accesses,
}

/// An operator behind whose name numbers stand.
#[derive(Clone, Copy, Debug)]
pub(crate) enum Indexed {
    Word,
    Extract,
    ZeroExtend,
    SignExtend,
    RotateLeft,
    RotateRight,
    Repeat,
    Apply,
    ConstantArray,
}

/// The words that lines begin with.
pub(crate) const KEYWORDS: [(&[u8], Keyword); 17] = [
    (b"smt_proof", Keyword::Header),
    (b"t", Keyword::Term),
    (b"f", Keyword::Leaf),
    (b"e", Keyword::Encode),
    (b"r", Keyword::Rewrite),
    (b"s", Keyword::Selector),
    (b"c", Keyword::Chain),
    (b"q", Keyword::Equal),
    (b"l", Keyword::Lemma),
    (b"d", Keyword::Delete),
    (b"sat", Keyword::Sat),
    (b"v", Keyword::Value),
    (b"unsat", Keyword::Unsat),
    (b"unknown", Keyword::Unknown),
    (b"=", Keyword::Take),
    (b"+", Keyword::Put),
    (b"-", Keyword::Drop),
];

/// The numbers of formats.
pub(crate) const FORMATS: [(&[u8], Format); 2] = [(b"1", Format::One), (b"2", Format::Two)];

/// The words behind the `l` of a lemma.
pub(crate) const LEMMA_NAMES: [(&[u8], LemmaKind); 3] = [
    (b"c", LemmaKind::Congruence),
    (b"w", LemmaKind::Witness),
    (b"a", LemmaKind::Accesses),
];

/// The letters of moves.
pub(crate) const LETTERS: [(&[u8], Letter); 4] = [
    (b"w", Letter::Store),
    (b"t", Letter::Then),
    (b"e", Letter::Else),
    (b"q", Letter::Sides),
];

/// The names of the operators with numbers.
pub(crate) const INDEXED_NAMES: [(&[u8], Indexed); 9] = [
    (b"word", Indexed::Word),
    (b"extract", Indexed::Extract),
    (b"zero_extend", Indexed::ZeroExtend),
    (b"sign_extend", Indexed::SignExtend),
    (b"rotate_left", Indexed::RotateLeft),
    (b"rotate_right", Indexed::RotateRight),
    (b"repeat", Indexed::Repeat),
    (b"apply", Indexed::Apply),
    (b"const", Indexed::ConstantArray),
];

/// What a table has at a word, if anything.
pub(crate) fn look_up<A: Copy>(mut entries: &[(&[u8], A)], word: &[u8]) -> Option<A>
    ensures { result ≡ look_up (map (λ entry. (entry.0.now, entry.1)) entries.entry.now) word.now }
{
    while let [entry, rest @ ..] = entries {
        if word == entry.0 {
            return Some(entry.1);
        }
        entries = rest;
    }
    None
}
