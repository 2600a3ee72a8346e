//! Terms that a command asks for (SMT-LIB 2.6, sections 4.2.5 and 4.2.7).

ghost use Rattle.std.specs.Prelude.{◌≡◌, ◌<◌, ◌≤◌, ℕ, List, [], length, drop};
ghost use Rattle.smt_text.specs.Lexicon.{lexemes_of};
ghost use Rattle.smt_syntax.specs.Sexps.{Sexp, Sexps, group, signs_of};
ghost use Rattle.smt_syntax.specs.Spans.{Stands, AllStand};
ghost use Rattle.smt_build.specs.Building.{Grows};
ghost use Rattle.smt_build.specs.Names.{AreBodies, AreDeclared};
ghost use Rattle.smt_build.specs.Terms.{term_of};
ghost use Rattle.script_state.specs.declared.answer.Asked.{Asked};
ghost use Rattle.script_state.specs.Plain.{HavePlain};
ghost use Rattle.script_state.specs.States.{StateValue, IsState};
ghost use Rattle.script_state.specs.Steps.{objection, asking_built, asking, watching};
ghost use Rattle.script_state.specs.Written.{listed};
ghost use Rattle.script_state.specs.Asking.{object_to, AreOf, AsksOne, Asks};

use crate::answer::{Asked, AskedTerms};
use crate::error_text::{ErrorText, build_error};
use crate::objecting::objection;
use crate::watches::watches_fit;
use crate::written::text_of;
use scope_selectors::scopes::Scopes;
use smt_build::fault::BuildError;
use smt_build::symbols::Symbols;
use smt_syntax::parts::parts;
use smt_syntax::span::Span;
use smt_terms::node::TermId;
use smt_terms::terms::Terms;
use smt_text::token::{Token, Tokens};
use std::alloc::Global;
use term_reach::Reached;

/// What terms are asked for.
#[derive(Clone, Copy)]
pub(crate) enum Purpose {
    /// To be assumed.
    Assume,
    /// To be evaluated.
    Evaluate,
}

/// Why there are no such terms.
#[derive(Clone, Copy)]
pub(crate) enum AskError {
    NoMemory,
    Refused(ErrorText),
}

/// Why a term cannot be asked for, `None` exactly where it can.
fn object(terms: &Terms, term: TermId, purpose: Purpose) -> Option<ErrorText>
    requires { term < length terms.now.nodes }
    ensures { result ≡ object_to purpose terms.now.nodes term }
{
    match purpose {
        Purpose::Assume => objection(terms, term),
        Purpose::Evaluate => None,
    }
}

/// The term at the span. After a fault or for want of memory more terms may be held.
fn ask_one(
    alloc: Global,
    symbols: &Symbols,
    terms: &mut Terms,
    reached: &mut Reached,
    tokens: &Tokens<'_>,
    span: Span,
    purpose: Purpose,
) -> Result<TermId, AskError>
    requires declared { AreDeclared symbols.now.signatures terms.old.nodes }
    requires bodies { AreBodies (length terms.old.nodes) symbols.now.definitions }
    requires stands { (e : Sexp) × Stands (signs_of tokens.now) span e }
    ensures asks { (e : Sexp) → Stands (signs_of tokens.now) span e
        → (found : List Asked) (text : List ℕ)
        → AsksOne (asking_built (object_to purpose) found text
        (term_of symbols.now terms.old e)) found text result terms.new }
    ensures grows { Grows symbols.now.signatures terms.old terms.new }
{
    let term = match symbols.elaborate(alloc, terms, reached, tokens, span) {
        Ok(term) => term,
        Err(BuildError::NoMemory) => return Err(AskError::NoMemory),
        Err(BuildError::Fault(fault)) => return Err(AskError::Refused(build_error(fault))),
    };
    match object(terms, term, purpose) {
        None => Ok(term),
        Some(error) => Err(AskError::Refused(error)),
    }
}

/// The terms at the spans with their texts, which stand one after the other among the items from a place on.
fn ask_all(
    alloc: Global,
    symbols: &Symbols,
    terms: &mut Terms,
    reached: &mut Reached,
    tokens: &Tokens<'_>,
    spans: &[Span],
    items: &[Token<'_>],
    first: usize,
    purpose: Purpose,
) -> Result<AskedTerms, AskError>
    requires declared { AreDeclared symbols.now.signatures terms.old.nodes }
    requires bodies { AreBodies (length terms.old.nodes) symbols.now.definitions }
    requires stand { (es : Sexps) × AllStand (signs_of tokens.now) spans.now es }
    requires first { first ≤ length items.now }
    ensures asks { (es : Sexps) → AllStand (signs_of tokens.now) spans.now es
        → Asks (asking (object_to purpose) symbols.now terms.old
        (lexemes_of (drop first items.now)) [] es) result terms.new }
    ensures grows { Grows symbols.now.signatures terms.old terms.new }
{
    let mut asked = Vec::new(alloc);
    let mut place = first;
    for span in spans {
        let term = match ask_one(alloc, symbols, terms, reached, tokens, *span, purpose) {
            Ok(term) => term,
            Err(error) => return Err(error),
        };
        let count = (span.end - span.start).min(items.len() - place);
        let text = match text_of(alloc, &items[place..place + count]) {
            Ok(text) => text,
            Err(_) => return Err(AskError::NoMemory),
        };
        match asked.push(Asked { term, text }) {
            Ok(()) => {}
            Err(_) => return Err(AskError::NoMemory),
        }
        place += count;
    }
    Ok(AskedTerms::from_vec(asked))
}

/// The terms in the list at the span, which is a command's argument. After a fault or for want of memory more terms may be
/// held.
pub(crate) fn ask(
    alloc: Global,
    symbols: &Symbols,
    terms: &mut Terms,
    reached: &mut Reached,
    tokens: &Tokens<'_>,
    list: Span,
    purpose: Purpose,
) -> Result<AskedTerms, AskError>
    requires declared { AreDeclared symbols.now.signatures terms.old.nodes }
    requires bodies { AreBodies (length terms.old.nodes) symbols.now.definitions }
    requires stands { (es : Sexps) × Stands (signs_of tokens.now) list (group es) }
    ensures asks { (es : Sexps) → Stands (signs_of tokens.now) list (group es)
        → Asks (asking (object_to purpose) symbols.now terms.old
        (listed tokens.now) [] es) result terms.new }
    ensures grows { Grows symbols.now.signatures terms.old terms.new }
{
    let items = tokens.as_slice();
    let inside = Span {
        start: list.start + 1,
        end: list.end - 1,
    };
    let spans = match parts(alloc, items, inside) {
        Ok(spans) => spans,
        Err(_) => return Err(AskError::NoMemory),
    };
    let first = items.len().min(3);
    ask_all(
        alloc,
        symbols,
        terms,
        reached,
        tokens,
        spans.as_slice(),
        items,
        first,
        purpose,
    )
}

/// The terms in the list at the span, which are to be assumed with the live assertions, if what a check of both makes before
/// all else can be made. After a fault or for want of memory more terms may be held.
pub(crate) fn assume(
    alloc: Global,
    symbols: &Symbols,
    scopes: &Scopes,
    terms: &mut Terms,
    reached: &mut Reached,
    marks: &mut Vec<bool>,
    tokens: &Tokens<'_>,
    list: Span,
) -> Result<AskedTerms, AskError>
    requires state { (s : StateValue) × IsState s
        × AreOf s symbols.now scopes.now terms.old }
    requires marks { HavePlain terms.old.nodes marks.old.items }
    requires stand { (es : Sexps) × Stands (signs_of tokens.now) list (group es) }
    ensures asks { (es : Sexps) → Stands (signs_of tokens.now) list (group es)
        → Asks (watching scopes.now.live (asking objection symbols.now
        terms.old (listed tokens.now) [] es)) result terms.new }
    ensures grows { Grows symbols.now.signatures terms.old terms.new }
    ensures marks { HavePlain terms.new.nodes marks.new.items }
{
    let asked = match ask(
        alloc,
        symbols,
        terms,
        reached,
        tokens,
        list,
        Purpose::Assume,
    ) {
        Ok(asked) => asked,
        Err(error) => return Err(error),
    };
    match watches_fit(
        alloc,
        terms,
        reached,
        marks,
        scopes.live(),
        asked.as_slice(),
    ) {
        Ok(true) => Ok(asked),
        Ok(false) => Err(AskError::Refused(ErrorText::TooManyTerms)),
        Err(_) => Err(AskError::NoMemory),
    }
}
