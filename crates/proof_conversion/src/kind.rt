// What a line of a proof is among those of its part.

ghost use Rattle.std.specs.Prelude.{◌≡◌};
ghost use Rattle.proof_conversion.specs.Parts.{kind_of, owed_in, begun_by, valued_by, noted_by, owed_behind};
ghost use Rattle.proof_conversion.specs.declared.kind.Owed.TheVariants as owed;

use proof_text::line::Line;

/// What a line is among those of its part, whatever it names.
#[derive(Clone, Copy, Debug, PartialEq, Eq)]
pub enum Kind {
    /// A step that makes a term or a variable.
    Step,
    /// A lemma or a chain.
    Added,
    /// A record that so many values follow.
    Values(u64),
    /// A record that is one line.
    Ends,
    /// A record that so many lines of a diary follow.
    Notes(u64),
    /// A value.
    OneValue,
    /// A line of a diary.
    OneNote,
    /// A header or a deletion.
    Other,
}

/// What is owed behind a line.
#[derive(Clone, Copy, Debug, PartialEq, Eq)]
pub enum Owed {
    /// Nothing, where the text ends; else a part.
    Nothing,
    /// Steps, and then a record.
    Steps,
    /// A value, and so many behind it.
    Values(u64),
    /// A line of a diary, and so many behind it.
    Notes(u64),
}

/// What a line is.
pub(crate) fn kind_of(line: &Line) -> Kind
    ensures { result ≡ kind_of line.now }
{
    match line {
        Line::Header {
            format: _,
            cubes: _,
            budget: _,
        } => Kind::Other,
        Line::Term { head: _, args: _ } => Kind::Step,
        Line::Leaf(_) => Kind::Step,
        Line::Encode(_) => Kind::Step,
        Line::Rewrite {
            rule: _,
            from: _,
            to: _,
        } => Kind::Step,
        Line::Selector(_) => Kind::Step,
        Line::Chain {
            clause: _,
            hints: _,
        } => Kind::Added,
        Line::Equal(_, _) => Kind::Step,
        Line::Congruence(_, _) => Kind::Added,
        Line::Witness(_) => Kind::Added,
        Line::Accesses(_, _) => Kind::Added,
        Line::Delete(_) => Kind::Other,
        Line::Sat(count) => Kind::Values(*count),
        Line::Value {
            declaration: _,
            value: _,
        } => Kind::OneValue,
        Line::Unsat(_) => Kind::Ends,
        Line::Unknown {
            cube: _,
            start: _,
            count,
        } => Kind::Notes(*count),
        Line::Take(_) => Kind::OneNote,
        Line::Put(_) => Kind::OneNote,
        Line::Drop(_) => Kind::OneNote,
    }
}

fn values_left(left: u64) -> Owed
    ensures { result ≡ owed_in owed.Values left }
{
    if left == 0 {
        return Owed::Nothing;
    }
    Owed::Values(left - 1)
}

fn notes_left(left: u64) -> Owed
    ensures { result ≡ owed_in owed.Notes left }
{
    if left == 0 {
        return Owed::Nothing;
    }
    Owed::Notes(left - 1)
}

fn begun_by(kind: Kind) -> Option<Owed>
    ensures { result ≡ begun_by kind }
{
    match kind {
        Kind::Step => Some(Owed::Steps),
        Kind::Added => Some(Owed::Steps),
        Kind::Values(count) => Some(values_left(count)),
        Kind::Ends => Some(Owed::Nothing),
        Kind::Notes(count) => Some(notes_left(count)),
        Kind::OneValue => None,
        Kind::OneNote => None,
        Kind::Other => None,
    }
}

fn valued_by(left: u64, kind: Kind) -> Option<Owed>
    ensures { result ≡ valued_by left kind }
{
    match kind {
        Kind::OneValue => Some(values_left(left)),
        Kind::Step => None,
        Kind::Added => None,
        Kind::Values(_) => None,
        Kind::Ends => None,
        Kind::Notes(_) => None,
        Kind::OneNote => None,
        Kind::Other => None,
    }
}

fn noted_by(left: u64, kind: Kind) -> Option<Owed>
    ensures { result ≡ noted_by left kind }
{
    match kind {
        Kind::OneNote => Some(notes_left(left)),
        Kind::Step => None,
        Kind::Added => None,
        Kind::Values(_) => None,
        Kind::Ends => None,
        Kind::Notes(_) => None,
        Kind::OneValue => None,
        Kind::Other => None,
    }
}

/// What is owed behind a line of this kind; `None` exactly where none may stand.
pub(crate) fn owed_behind(owed: Owed, kind: Kind) -> Option<Owed>
    ensures { result ≡ owed_behind owed kind }
{
    match owed {
        Owed::Nothing => begun_by(kind),
        Owed::Steps => begun_by(kind),
        Owed::Values(left) => valued_by(left, kind),
        Owed::Notes(left) => noted_by(left, kind),
    }
}
