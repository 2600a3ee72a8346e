// Words and applications under bound variables, and names that terms are given.

ghost use Rattle.std.specs.Prelude.{◌≡◌, drop, List, Ok, Err, IfOk, IfErr, OnOk, if◌then◌else◌};
ghost use Rattle.smt_terms.specs.declared.sort.Signature.{Signature as SignatureValue};
ghost use Rattle.smt_build.specs.Names.{AreDeclared};
ghost use Rattle.smt_build.specs.Building.{made, Builds, Grows};
ghost use Rattle.smt_terms.specs.Nodes.{leaf};
ghost use Rattle.smt_terms.specs.Terms.{TermsValue};
ghost use Rattle.smt_build.specs.Binding.{new_variable, local_at, is_local, word_in, application_in, indexed_in_scope, naming, is_label};
ghost use Rattle.smt_build.specs.Indices.{indexed};
ghost use Rattle.smt_build.specs.TermReader.{label, passed, progress};
ghost use Rattle.smt_build.specs.Views.{head_of, indices_of, part_of, state_of, misused_error, ReadsTerm, Names};

use crate::build::{application, indexed_term, word_term};
use crate::fault::{BuildError, BuildFault};
use crate::indices::{Head, Indices};
use crate::making::made;
use crate::operators::is_reserved;
use crate::parameters::Parameter;
use crate::reader::Part;
use crate::scope::Scope;
use crate::symbols::Symbols;
use smt_terms::node::{Node, Op, TermId};
use smt_terms::terms::Terms;
use smt_text::token::TokenKind;
use std::alloc::Global;
use term_reach::Reached;

/// The fault of the name of a variable that is bound beside those from a place on.
#[tactic(auto, unfolding(crate::specs::Binding::new_variable))]
pub(crate) fn new_variable<'a>(
    scope: &Scope<'_>,
    place: usize,
    name: &'a [u8],
) -> Result<&'a [u8], BuildFault>
    ensures ok { IfOk result (λ x. new_variable (drop place scope.now.coming) name.now ≡ Ok x.now) }
    ensures err { IfErr result (λ f. new_variable (drop place scope.now.coming) name.now ≡ Err f) }
{
    if is_reserved(name) {
        return Err(BuildFault::Reserved);
    }
    if scope.coming.is_bound_from(place, name) {
        return Err(BuildFault::Declared);
    }
    Ok(name)
}

/// The term of a name within the term that is read.
fn local(scope: &Scope<'_>, name: &[u8]) -> Option<TermId>
    ensures { result ≡ local_at scope.now.bound scope.now.names name.now }
{
    match scope.bound.term(name) {
        Some(term) => Some(term),
        None => scope.names.term(name),
    }
}

/// Whether a name is a variable, was given, or is a parameter.
fn is_local(terms: &Terms, scope: &Scope<'_>, name: &[u8]) -> bool
    ensures { result ≡ is_local scope.now.bound (progress (state_of terms.now scope.now)) name.now }
{
    local(scope, name).is_some() || scope.parameters.get(name).is_some()
}

/// The term of a parameter.
fn parameter_term(
    alloc: Global,
    terms: &mut Terms,
    parameter: Parameter,
) -> Result<TermId, BuildError>
    ensures builds { Builds (made terms.old (leaf (Op.Param parameter.place parameter.sort))) result
        terms.old terms.new }
    ensures grows { (signatures : List SignatureValue) → Grows signatures terms.old terms.new }
{
    let op = Op::Param {
        place: parameter.place,
        sort: parameter.sort,
    };
    made(terms, Node::leaf(alloc, op))
}

/// The term of a symbol.
#[tactic(auto, unfolding(crate::specs::Binding::word_in))]
fn symbol_in(
    alloc: Global,
    symbols: &Symbols,
    terms: &mut Terms,
    reached: &mut Reached,
    scope: &Scope<'_>,
    name: &[u8],
) -> Result<TermId, BuildError>
    requires { AreDeclared symbols.now.signatures terms.old.nodes }
    ensures reads { ReadsTerm
        (word_in symbols.now scope.now.bound (progress (state_of terms.old scope.now))
        TokenKind.Symbol name.now) result (progress (state_of terms.new scope.now)) }
    ensures grows { Grows symbols.now.signatures terms.old terms.new }
{
    if let Some(term) = local(scope, name) {
        return Ok(term);
    }
    match scope.parameters.get(name) {
        Some(parameter) => parameter_term(alloc, terms, parameter),
        None => word_term(alloc, symbols, terms, reached, TokenKind::Symbol, name),
    }
}

/// The term of a word.
#[tactic(auto, unfolding(crate::specs::Binding::word_in))]
pub(crate) fn word_in(
    alloc: Global,
    symbols: &Symbols,
    terms: &mut Terms,
    reached: &mut Reached,
    scope: &Scope<'_>,
    kind: TokenKind,
    text: &[u8],
) -> Result<TermId, BuildError>
    requires { AreDeclared symbols.now.signatures terms.old.nodes }
    ensures reads { ReadsTerm
        (word_in symbols.now scope.now.bound (progress (state_of terms.old scope.now)) kind
        text.now) result (progress (state_of terms.new scope.now)) }
    ensures grows { Grows symbols.now.signatures terms.old terms.new }
{
    match kind {
        TokenKind::Symbol => symbol_in(alloc, symbols, terms, reached, scope, text),
        _ => word_term(alloc, symbols, terms, reached, kind, text),
    }
}

/// The fault of a name that may be known within the term.
fn misused(is_local: bool, error: BuildError) -> BuildError
    ensures { result ≡ misused_error is_local error }
{
    match error {
        BuildError::Fault(BuildFault::UnknownSymbol) if is_local => {
            BuildError::Fault(BuildFault::WrongSort)
        }
        _ => error,
    }
}

/// The term of a name, or of `(as const S)`, and the arguments that it is applied to.
#[tactic(auto, unfolding(crate::specs::Binding::application_in))]
pub(crate) fn application_in(
    alloc: Global,
    symbols: &Symbols,
    terms: &mut Terms,
    reached: &mut Reached,
    scope: &Scope<'_>,
    head: Head<'_>,
    args: Vec<TermId>,
) -> Result<TermId, BuildError>
    requires { AreDeclared symbols.now.signatures terms.old.nodes }
    ensures reads { ReadsTerm
        (application_in symbols.now scope.now.bound (progress (state_of terms.old scope.now))
        (head_of head.entry) args.items) result (progress (state_of terms.new scope.now)) }
    ensures grows { Grows symbols.now.signatures terms.old terms.new }
{
    match head {
        Head::Plain(name) => {
            if is_local(terms, scope, name) {
                return Err(BuildError::Fault(BuildFault::WrongSort));
            }
            application(alloc, symbols, terms, reached, head, args)
        }
        Head::Indexed(name, _) => {
            let is_local = is_local(terms, scope, name);
            match application(alloc, symbols, terms, reached, head, args) {
                Ok(term) => Ok(term),
                Err(error) => Err(misused(is_local, error)),
            }
        }
        Head::Everywhere(_) => application(alloc, symbols, terms, reached, head, args),
    }
}

/// The term of a name with indices.
#[tactic(auto, unfolding(crate::specs::Binding::indexed_in_scope))]
pub(crate) fn indexed_in_scope(
    alloc: Global,
    symbols: &Symbols,
    terms: &mut Terms,
    scope: &Scope<'_>,
    name: &[u8],
    indices: Indices<'_>,
) -> Result<TermId, BuildError>
    ensures reads { ReadsTerm
        (indexed_in_scope symbols.now scope.now.bound (progress (state_of terms.old scope.now))
        (indexed name.now (indices_of indices.entry))) result
        (progress (state_of terms.new scope.now)) }
    ensures grows { (signatures : List SignatureValue) → Grows signatures terms.old terms.new }
{
    let is_local = is_local(terms, scope, name);
    match indexed_term(alloc, symbols, terms, name, indices) {
        Ok(term) => Ok(term),
        Err(error) => Err(misused(is_local, error)),
    }
}

/// A part of the attributes of a term.
pub(crate) fn attribute<'a>(kind: TokenKind, text: &[u8]) -> Part<'a>
    ensures { part_of result ≡ (if is_label kind text.now then label else passed) }
{
    if kind == TokenKind::Keyword && text == b":named".as_slice() {
        Part::Label
    } else {
        Part::Passed
    }
}

/// Gives a term a name, where names may be given.
#[tactic(auto, unfolding(crate::specs::Binding::naming))]
pub(crate) fn name_term<'a>(
    symbols: &Symbols,
    scope: &mut Scope<'a>,
    may_name: bool,
    term: TermId,
    name: &'a [u8],
) -> Result<(), BuildError>
    ensures names { (terms : TermsValue)
        → Names (naming symbols.now may_name term (progress (state_of terms scope.old)) name.now)
        result (progress (state_of terms scope.new)) }
    ensures bound { OnOk result (scope.new.bound ≡ scope.old.bound) }
    ensures coming { OnOk result (scope.new.coming ≡ scope.old.coming) }
    ensures parameters { OnOk result (scope.new.parameters ≡ scope.old.parameters) }
{
    if !may_name {
        return Err(BuildError::Fault(BuildFault::NotSupported));
    }
    if is_reserved(name) {
        return Err(BuildError::Fault(BuildFault::Reserved));
    }
    if symbols.is_taken(name) || scope.names.term(name).is_some() {
        return Err(BuildError::Fault(BuildFault::Declared));
    }
    scope.names.push(name, term)?;
    Ok(())
}
