// The shapes of terms, sorts and the other parts of commands, judged a token at a time.

ghost use Rattle.std.specs.Prelude.{◌≡◌};
ghost use Rattle.smt_syntax.specs.ShapeReader.{opened, context, taken, at_place, closed};

/// What is wanted next.
#[derive(Clone, Copy, Debug, PartialEq, Eq)]
pub enum Want {
    /// A term.
    Term,
    /// What a term's list begins with.
    Head,
    /// What the list of an indexed head begins with.
    IndexHead,
    /// A sort.
    Sort,
    /// What a sort's list begins with.
    SortHead,
    /// The name of word sorts.
    BitVec,
    /// The list of a `let`'s bindings.
    Bindings,
    /// One of them.
    Binding,
    /// A symbol, or a reserved word in its place: a new name.
    Name,
    /// The value of a word: `bv` and a numeral.
    WordName,
    /// `const`, or whatever else follows `as`.
    Const,
    /// A symbol.
    Symbol,
    /// A numeral.
    Numeral,
    /// A string.
    String,
    /// A keyword.
    Keyword,
    /// The keyword of an attribute of a term.
    Attribute,
    /// The value of an attribute of a term, or the next one's keyword.
    AttributeValue,
    /// The value of an attribute: a token that is no keyword, or a list.
    Value,
    /// The name of an option that this solver has.
    Option,
    /// Another keyword.
    OtherOption,
    /// `true` or `false`.
    Boolean,
    /// A list of nothing.
    Empty,
    /// A list of sorts.
    Sorts,
    /// A list of parameters with their sorts.
    Parameters,
    /// One of them.
    Parameter,
    /// A list of terms.
    Terms,
    /// The same, of at least one.
    SomeTerms,
    /// Whatever stands there.
    Anything,
    /// The end of the list.
    Nothing,
}

/// Where a form stands that is not judged.
#[derive(Clone, Copy, Debug, PartialEq, Eq)]
pub enum Place {
    Term,
    Sort,
}

/// An open list, with how far it was read.
#[derive(Clone, Copy, Debug, PartialEq, Eq)]
pub enum Frame {
    TermStarted,
    Headed,
    Applied,
    LetStarted,
    LetBound,
    LetDone,
    NoBindings,
    SomeBindings,
    BindingStarted,
    BindingNamed,
    BindingDone,
    BangStarted,
    BangTerm,
    KeywordRead,
    NamedRead,
    ValueRead,
    HeadStarted,
    IndexStarted,
    IndexNamed,
    Indexed,
    WordStarted,
    WordNamed,
    WordDone,
    AsStarted,
    ConstRead,
    ConstSorted,
    ForeignHead,
    SortStarted,
    BitVecStarted,
    BitVecNamed,
    BitVecDone,
    ArrayStarted,
    ArrayIndexed,
    ArrayDone,
    Foreign(Place),
    Unread,
    EmptyList,
    SortList,
    ParameterList,
    ParameterStarted,
    ParameterNamed,
    ParameterDone,
    NoTerms,
    TermList,
}

/// What a part of a list was read as.
#[derive(Clone, Copy, Debug, PartialEq, Eq)]
pub enum Part {
    Term,
    Head,
    Let,
    Bang,
    Underscore,
    As,
    Const,
    ConstantArray,
    Foreign,
    ForeignHead,
    Array,
    Bindings,
    Binding,
    Name,
    Symbol,
    Numeral,
    Keyword,
    Named,
    Value,
    Sort,
    Parameter,
    List,
}

/// The list that opens where something is wanted.
#[tactic(auto, unfolding(crate::specs::ShapeReader::opened))]
pub fn opened(want: Want) -> Option<Frame>
    ensures { result ≡ opened want }
{
    match want {
        Want::Term => Some(Frame::TermStarted),
        Want::Head => Some(Frame::HeadStarted),
        Want::Sort => Some(Frame::SortStarted),
        Want::Bindings => Some(Frame::NoBindings),
        Want::Binding => Some(Frame::BindingStarted),
        Want::AttributeValue | Want::Value | Want::Anything | Want::Const => Some(Frame::Unread),
        Want::Empty => Some(Frame::EmptyList),
        Want::Sorts => Some(Frame::SortList),
        Want::Parameters => Some(Frame::ParameterList),
        Want::Parameter => Some(Frame::ParameterStarted),
        Want::Terms => Some(Frame::TermList),
        Want::SomeTerms => Some(Frame::NoTerms),
        _ => None,
    }
}

/// What is wanted next in the list.
#[tactic(auto, unfolding(crate::specs::ShapeReader::context))]
pub fn context(frame: Frame) -> Want
    ensures { result ≡ context frame }
{
    match frame {
        Frame::TermStarted => Want::Head,
        Frame::Headed
        | Frame::Applied
        | Frame::LetBound
        | Frame::BindingNamed
        | Frame::BangStarted
        | Frame::NoTerms
        | Frame::TermList => Want::Term,
        Frame::LetStarted => Want::Bindings,
        Frame::NoBindings | Frame::SomeBindings => Want::Binding,
        Frame::BindingStarted | Frame::NamedRead | Frame::ParameterStarted => Want::Name,
        Frame::BangTerm | Frame::ValueRead => Want::Attribute,
        Frame::KeywordRead => Want::AttributeValue,
        Frame::HeadStarted => Want::IndexHead,
        Frame::IndexStarted => Want::Symbol,
        Frame::IndexNamed | Frame::Indexed | Frame::WordNamed | Frame::BitVecNamed => Want::Numeral,
        Frame::WordStarted => Want::WordName,
        Frame::AsStarted => Want::Const,
        Frame::SortStarted => Want::SortHead,
        Frame::BitVecStarted => Want::BitVec,
        Frame::ArrayStarted | Frame::ArrayIndexed | Frame::SortList | Frame::ParameterNamed => {
            Want::Sort
        }
        Frame::Foreign(_)
        | Frame::ForeignHead
        | Frame::ConstRead
        | Frame::ConstSorted
        | Frame::Unread => Want::Anything,
        Frame::ParameterList => Want::Parameter,
        _ => Want::Nothing,
    }
}

/// The list with one more part.
#[tactic(auto, unfolding(crate::specs::ShapeReader::taken))]
pub fn taken(frame: Frame, part: Part) -> Option<Frame>
    ensures { result ≡ taken frame part }
{
    match (frame, part) {
        (Frame::TermStarted, Part::Head) => Some(Frame::Headed),
        (Frame::TermStarted, Part::Let) => Some(Frame::LetStarted),
        (Frame::TermStarted, Part::Bang) => Some(Frame::BangStarted),
        (Frame::TermStarted, Part::Underscore) => Some(Frame::WordStarted),
        (Frame::TermStarted, Part::Foreign | Part::ForeignHead) => Some(Frame::Foreign(
            Place::Term,
        )),
        (Frame::TermStarted, Part::ConstantArray) => Some(Frame::Applied),
        (Frame::Headed | Frame::Applied, Part::Term) => Some(Frame::Applied),
        (Frame::LetStarted, Part::Bindings) => Some(Frame::LetBound),
        (Frame::LetBound, Part::Term) => Some(Frame::LetDone),
        (Frame::NoBindings | Frame::SomeBindings, Part::Binding) => Some(Frame::SomeBindings),
        (Frame::BindingStarted, Part::Name) => Some(Frame::BindingNamed),
        (Frame::BindingNamed, Part::Term) => Some(Frame::BindingDone),
        (Frame::BangStarted, Part::Term) => Some(Frame::BangTerm),
        (Frame::BangTerm, Part::Keyword) => Some(Frame::KeywordRead),
        (Frame::BangTerm, Part::Named) => Some(Frame::NamedRead),
        (Frame::KeywordRead | Frame::ValueRead, Part::Keyword) => Some(Frame::KeywordRead),
        (Frame::KeywordRead | Frame::ValueRead, Part::Named) => Some(Frame::NamedRead),
        (Frame::KeywordRead, Part::Value) => Some(Frame::ValueRead),
        (Frame::NamedRead, Part::Name) => Some(Frame::ValueRead),
        (Frame::HeadStarted, Part::Underscore) => Some(Frame::IndexStarted),
        (Frame::HeadStarted, Part::As) => Some(Frame::AsStarted),
        (Frame::HeadStarted, Part::Foreign) => Some(Frame::ForeignHead),
        (Frame::IndexStarted, Part::Symbol) => Some(Frame::IndexNamed),
        (Frame::IndexNamed | Frame::Indexed, Part::Numeral) => Some(Frame::Indexed),
        (Frame::WordStarted, Part::Symbol) => Some(Frame::WordNamed),
        (Frame::WordNamed, Part::Numeral) => Some(Frame::WordDone),
        (Frame::AsStarted, Part::Const) => Some(Frame::ConstRead),
        (Frame::ConstRead, Part::Value) => Some(Frame::ConstSorted),
        (Frame::AsStarted | Frame::ConstSorted | Frame::ForeignHead, Part::Value) => {
            Some(Frame::ForeignHead)
        }
        (Frame::SortStarted, Part::Underscore) => Some(Frame::BitVecStarted),
        (Frame::SortStarted, Part::Foreign) => Some(Frame::Foreign(Place::Sort)),
        (Frame::SortStarted, Part::Array) => Some(Frame::ArrayStarted),
        (Frame::BitVecStarted, Part::Symbol) => Some(Frame::BitVecNamed),
        (Frame::BitVecNamed, Part::Numeral) => Some(Frame::BitVecDone),
        (Frame::ArrayStarted, Part::Sort) => Some(Frame::ArrayIndexed),
        (Frame::ArrayIndexed, Part::Sort) => Some(Frame::ArrayDone),
        (Frame::Foreign(place), Part::Value) => Some(Frame::Foreign(place)),
        (Frame::Unread, Part::Value) => Some(Frame::Unread),
        (Frame::SortList, Part::Sort) => Some(Frame::SortList),
        (Frame::ParameterList, Part::Parameter) => Some(Frame::ParameterList),
        (Frame::ParameterStarted, Part::Name) => Some(Frame::ParameterNamed),
        (Frame::ParameterNamed, Part::Sort) => Some(Frame::ParameterDone),
        (Frame::NoTerms | Frame::TermList, Part::Term) => Some(Frame::TermList),
        _ => None,
    }
}

fn at_place(place: Place) -> Part
    ensures { result ≡ at_place place }
{
    match place {
        Place::Term => Part::Term,
        Place::Sort => Part::Sort,
    }
}

/// What the list is that closes.
#[tactic(auto, unfolding(crate::specs::ShapeReader::closed))]
pub fn closed(frame: Frame) -> Option<Part>
    ensures { result ≡ closed frame }
{
    match frame {
        Frame::Applied | Frame::LetDone | Frame::KeywordRead | Frame::ValueRead | Frame::WordDone =>
            Some(Part::Term),
        Frame::Indexed => Some(Part::Head),
        Frame::AsStarted | Frame::ConstRead | Frame::ForeignHead => Some(Part::ForeignHead),
        Frame::ConstSorted => Some(Part::ConstantArray),
        Frame::SomeBindings => Some(Part::Bindings),
        Frame::BindingDone => Some(Part::Binding),
        Frame::Foreign(place) => Some(at_place(place)),
        Frame::BitVecDone | Frame::ArrayDone => Some(Part::Sort),
        Frame::Unread => Some(Part::Value),
        Frame::EmptyList | Frame::SortList | Frame::ParameterList | Frame::TermList => {
            Some(Part::List)
        }
        Frame::ParameterDone => Some(Part::Parameter),
        _ => None,
    }
}
