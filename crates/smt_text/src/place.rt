// Where a byte of a command stands.

ghost use Rattle.std.specs.Prelude.{◌≡◌};
ghost use Rattle.smt_text.specs.Chunks.{place_after, is_plain};

/// In plain text, in a comment, in a string literal, or in a quoted symbol.
#[derive(Clone, Copy, Debug, PartialEq, Eq)]
pub enum Place {
    Plain,
    Comment,
    Literal,
    Quoted,
}

pub fn place_after(place: Place, byte: u8) -> Place
    ensures { result ≡ place_after place byte }
{
    match place {
        Place::Plain => match byte {
            b';' => Place::Comment,
            b'"' => Place::Literal,
            b'|' => Place::Quoted,
            _ => Place::Plain,
        },
        Place::Comment => if byte == b'\n' { Place::Plain } else { place },
        Place::Literal => if byte == b'"' { Place::Plain } else { place },
        Place::Quoted => if byte == b'|' { Place::Plain } else { place },
    }
}
