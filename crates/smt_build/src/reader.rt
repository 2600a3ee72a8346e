// The reader of terms, a step at a time.

ghost use Rattle.std.specs.Prelude.{◌≡◌};
ghost use Rattle.smt_build.specs.Names.{AreDeclared, SymbolsValue};
ghost use Rattle.smt_build.specs.Binding.{new_variable, naming, is_label, word_in, application_in, indexed_in_scope};
ghost use Rattle.smt_build.specs.Building.{Grows};
ghost use Rattle.smt_build.specs.TermReader.{opens, context, takes, closes, at_word, progress};
ghost use Rattle.smt_build.specs.Views.{open_of, part_of, state_of, Opens, Does, Takes};

use crate::binding::{
    application_in, attribute, indexed_in_scope, name_term, new_variable, word_in,
};
use crate::fault::{BuildError, BuildFault};
use crate::indices::{Head, Indices, with_index};
use crate::scope::Scope;
use crate::sort_parts::{SortPart, SortParts, sort_of_part, sort_of_parts, with_part};
use crate::symbols::Symbols;
use smt_terms::node::TermId;
use smt_terms::terms::Terms;
use smt_text::token::TokenKind;
use std::alloc::Global;
use term_reach::Reached;

/// What is wanted next.
#[derive(Clone, Copy, Debug)]
pub enum Want {
    /// A term.
    Term,
    /// What a term's list begins with.
    Head,
    /// The underscore, or `as`, that a list in the place of a head begins with.
    Mark,
    /// `const`.
    Const,
    /// A sort, and whether it is a whole one, which may be one of arrays.
    Sort(bool),
    /// A name that has indices.
    Name,
    /// An index.
    Index,
    /// The bindings of a `let`.
    Bindings,
    /// A binding, in a list of bindings that begins at this place.
    Binding(usize),
    /// The variable of a binding in such a list.
    Variable(usize),
    /// A part of the attributes of a term.
    Attribute,
    /// The name that a term is given.
    Label(TermId),
    /// Anything, which is passed over.
    Anything,
    /// The end of the list.
    Nothing,
}

/// Whether a name with indices stands as a term, or as the head of a list.
#[derive(Clone, Copy, Debug)]
pub enum Role {
    Term,
    Head,
}

/// What a part of a list was read as.
#[derive(Clone, Copy, Drop)]
pub enum Part<'a> {
    Term(TermId),
    Head(Head<'a>),
    Mark,
    Name(&'a [u8]),
    Index(&'a [u8]),
    /// `let`
    Let,
    /// A variable with its term.
    Binding(&'a [u8], TermId),
    /// All variables of a `let`; so many were bound before.
    Bindings(usize),
    /// `!`
    Bang,
    /// `:named`
    Label,
    /// What was passed over.
    Passed,
    /// `as`
    As,
    /// `const`
    Const,
    Sort(SortPart<'a>),
}

/// An open list, with what was read of it.
#[derive(Drop)]
pub enum Open<'a> {
    Started,
    HeadStarted,
    Marked(Role),
    Named(Role, &'a [u8]),
    WithIndices(Role, &'a [u8], Indices<'a>),
    Application(Head<'a>, Vec<TermId>),
    LetStarted,
    /// The variables of a `let` are bound; so many were bound before.
    LetBound(usize),
    LetDone(usize, TermId),
    /// Bindings, from this place on.
    InBindings(usize),
    BindingStarted(usize),
    BindingNamed(&'a [u8]),
    BindingDone(&'a [u8], TermId),
    BangStarted,
    Annotated(TermId),
    /// The name of the term is to come.
    Labelled(TermId),
    Unread,
    AsStarted,
    ConstRead,
    ConstSorted(SortPart<'a>),
    /// The parts of a sort, which may be a whole one.
    SortList(bool, SortParts<'a>),
}

/// A list opens.
#[tactic(auto, unfolding(crate::specs::TermReader::opens))]
pub fn opens<'a>(want: Want, scope: &Scope<'a>) -> Result<Open<'a>, BuildFault>
    ensures { Opens (opens want) result scope.now }
{
    match want {
        Want::Term => Ok(Open::Started),
        Want::Head => Ok(Open::HeadStarted),
        Want::Bindings => Ok(Open::InBindings(scope.coming.len())),
        Want::Binding(place) => Ok(Open::BindingStarted(place)),
        Want::Attribute | Want::Anything => Ok(Open::Unread),
        Want::Sort(whole) => Ok(Open::SortList(whole, SortParts::None)),
        _ => Err(BuildFault::NotSupported),
    }
}

/// What is wanted next in the list.
#[tactic(auto, unfolding(crate::specs::TermReader::context))]
pub fn context(list: &Open<'_>) -> Want
    ensures { result ≡ context (open_of list.now) }
{
    match list {
        Open::Started => Want::Head,
        Open::HeadStarted => Want::Mark,
        Open::Marked(_) => Want::Name,
        Open::Named(..) | Open::WithIndices(..) => Want::Index,
        Open::Application(..) => Want::Term,
        Open::LetStarted => Want::Bindings,
        Open::LetBound(_) | Open::BindingNamed(_) | Open::BangStarted => Want::Term,
        Open::LetDone(..) | Open::BindingDone(..) | Open::ConstSorted(_) => Want::Nothing,
        Open::InBindings(place) => Want::Binding(*place),
        Open::BindingStarted(place) => Want::Variable(*place),
        Open::Annotated(_) => Want::Attribute,
        Open::Labelled(term) => Want::Label(*term),
        Open::Unread => Want::Anything,
        Open::AsStarted => Want::Const,
        Open::ConstRead => Want::Sort(true),
        Open::SortList(..) => Want::Sort(false),
    }
}

/// A part is handed to the list that it stands in.
#[tactic(auto, unfolding(crate::specs::TermReader::takes))]
pub fn takes<'a>(
    alloc: Global,
    scope: &mut Scope<'a>,
    list: Open<'a>,
    part: Part<'a>,
) -> Result<Open<'a>, BuildError>
    ensures { Takes (takes (open_of list.entry) (part_of part.entry)) result scope.old scope.new }
{
    match (list, part) {
        (Open::Started, Part::Head(head)) => Ok(Open::Application(head, Vec::new(alloc))),
        (Open::Started, Part::Mark) => Ok(Open::Marked(Role::Term)),
        (Open::Started, Part::Let) => Ok(Open::LetStarted),
        (Open::Started, Part::Bang) => Ok(Open::BangStarted),
        (Open::HeadStarted, Part::Mark) => Ok(Open::Marked(Role::Head)),
        (Open::HeadStarted, Part::As) => Ok(Open::AsStarted),
        (Open::Marked(role), Part::Name(name)) => Ok(Open::Named(role, name)),
        (Open::Named(role, name), Part::Index(index)) => {
            Ok(Open::WithIndices(role, name, Indices::One(index)))
        }
        (Open::WithIndices(role, name, indices), Part::Index(index)) => {
            Ok(Open::WithIndices(role, name, with_index(indices, index)))
        }
        (Open::Application(head, mut args), Part::Term(term)) => {
            args.push(term)?;
            Ok(Open::Application(head, args))
        }
        (Open::LetStarted, Part::Bindings(bound)) => Ok(Open::LetBound(bound)),
        (Open::LetBound(bound), Part::Term(term)) => Ok(Open::LetDone(bound, term)),
        (Open::InBindings(place), Part::Binding(name, term)) => {
            scope.coming.push(name, term)?;
            Ok(Open::InBindings(place))
        }
        (Open::BindingStarted(_), Part::Name(name)) => Ok(Open::BindingNamed(name)),
        (Open::BindingNamed(name), Part::Term(term)) => Ok(Open::BindingDone(name, term)),
        (Open::BangStarted, Part::Term(term)) => Ok(Open::Annotated(term)),
        (Open::Annotated(term), Part::Label) => Ok(Open::Labelled(term)),
        (Open::Annotated(term) | Open::Labelled(term), Part::Passed) => Ok(Open::Annotated(term)),
        (Open::Unread, Part::Passed) => Ok(Open::Unread),
        (Open::AsStarted, Part::Const) => Ok(Open::ConstRead),
        (Open::ConstRead, Part::Sort(part)) => Ok(Open::ConstSorted(part)),
        (Open::SortList(whole, parts), Part::Sort(part)) => {
            Ok(Open::SortList(whole, with_part(parts, part)))
        }
        _ => Err(BuildError::Fault(BuildFault::NotSupported)),
    }
}

/// A list closes.
#[tactic(auto, unfolding(crate::specs::TermReader::closes))]
pub fn closes<'a>(
    alloc: Global,
    symbols: &Symbols,
    terms: &mut Terms,
    reached: &mut Reached,
    scope: &mut Scope<'a>,
    list: Open<'a>,
) -> Result<Part<'a>, BuildError>
    requires { AreDeclared symbols.now.signatures terms.old.nodes }
    ensures does { Does (closes symbols.now (open_of list.entry) (state_of terms.old scope.old))
        result (state_of terms.new scope.new) }
    ensures grows { Grows symbols.now.signatures terms.old terms.new }
{
    match list {
        Open::Application(head, args) => {
            let term = application_in(alloc, symbols, terms, reached, scope, head, args)?;
            Ok(Part::Term(term))
        }
        Open::WithIndices(Role::Term, name, indices) => {
            let term = indexed_in_scope(alloc, symbols, terms, scope, name, indices)?;
            Ok(Part::Term(term))
        }
        Open::WithIndices(Role::Head, name, indices) => {
            Ok(Part::Head(Head::Indexed(name, indices)))
        }
        Open::LetDone(bound, term) => {
            scope.bound.truncate(bound);
            Ok(Part::Term(term))
        }
        Open::InBindings(place) => {
            let bound = scope.bound.len();
            scope.bound.take_from(&mut scope.coming, place)?;
            Ok(Part::Bindings(bound))
        }
        Open::BindingDone(name, term) => Ok(Part::Binding(name, term)),
        Open::Annotated(term) => Ok(Part::Term(term)),
        Open::Unread => Ok(Part::Passed),
        Open::ConstSorted(part) => match sort_of_part(symbols, part) {
            Ok(sort) => Ok(Part::Head(Head::Everywhere(sort))),
            Err(fault) => Err(BuildError::Fault(fault)),
        },
        Open::SortList(whole, parts) => {
            let sort = sort_of_parts(symbols, whole, parts);
            Ok(Part::Sort(SortPart::Listed(sort)))
        }
        _ => Err(BuildError::Fault(BuildFault::NotSupported)),
    }
}

/// What a word gives; `may_name` says whether terms may be given names.
#[tactic(auto, unfolding(crate::specs::TermReader::at_word))]
pub fn at_word<'a>(
    alloc: Global,
    symbols: &Symbols,
    terms: &mut Terms,
    reached: &mut Reached,
    scope: &mut Scope<'a>,
    may_name: bool,
    want: Want,
    kind: TokenKind,
    text: &'a [u8],
) -> Result<Part<'a>, BuildError>
    requires { AreDeclared symbols.now.signatures terms.old.nodes }
    ensures does { Does
        (at_word symbols.now may_name want (state_of terms.old scope.old) kind text.now) result
        (state_of terms.new scope.new) }
    ensures grows { Grows symbols.now.signatures terms.old terms.new }
{
    match (want, kind) {
        (Want::Term, _) => {
            let term = word_in(alloc, symbols, terms, reached, scope, kind, text)?;
            Ok(Part::Term(term))
        }
        (Want::Head, TokenKind::Symbol) => Ok(Part::Head(Head::Plain(text))),
        (Want::Head | Want::Mark, TokenKind::Underscore) => Ok(Part::Mark),
        (Want::Mark, TokenKind::As) => Ok(Part::As),
        (Want::Head, TokenKind::Let) => Ok(Part::Let),
        (Want::Head, TokenKind::Bang) => Ok(Part::Bang),
        (Want::Name, TokenKind::Symbol) => Ok(Part::Name(text)),
        (Want::Index, TokenKind::Numeral) => Ok(Part::Index(text)),
        (Want::Variable(place), _) => match new_variable(scope, place, text) {
            Ok(name) => Ok(Part::Name(name)),
            Err(fault) => Err(BuildError::Fault(fault)),
        },
        (Want::Attribute, _) => Ok(attribute(kind, text)),
        (Want::Label(term), _) => {
            name_term(symbols, scope, may_name, term, text)?;
            Ok(Part::Passed)
        }
        (Want::Anything, _) => Ok(Part::Passed),
        (Want::Const, TokenKind::Symbol) if text == b"const".as_slice() => Ok(Part::Const),
        (Want::Sort(_), _) => Ok(Part::Sort(SortPart::Word(kind, text))),
        _ => Err(BuildError::Fault(BuildFault::NotSupported)),
    }
}
