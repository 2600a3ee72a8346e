// The term that the tokens of an S-expression mean, read from left to right.

ghost use Rattle.std.specs.Prelude.{◌≡◌, false, [], OnErr};
ghost use Rattle.smt_syntax.specs.Sexps.{sign_in, signs_in, signs_of, spelling, Sexp};
ghost use Rattle.smt_syntax.specs.Spans.{Stands};
ghost use Rattle.smt_syntax.specs.Walk.{run, context_in};
ghost use Rattle.smt_terms.specs.Terms.{TermsValue};
ghost use Rattle.smt_build.specs.Names.{AreDeclared, no_symbols};
ghost use Rattle.smt_build.specs.Building.{Grows, Builds};
ghost use Rattle.smt_build.specs.Terms.{term_in, term_over, term_of};
ghost use Rattle.smt_build.specs.TermReader.{term_reader, progress};
ghost use Rattle.smt_build.specs.Steps.{opened, handed, step, Steps};
ghost use Rattle.smt_build.specs.Views.{scope_over, stack_of, part_of, state_of, Does, ReadsTerm};

use crate::declare::tokens_at;
use crate::fault::{BuildError, BuildFault};
use crate::parameters::Parameters;
use crate::reader::{Open, Part, Want, at_word, closes, context, opens, takes};
use crate::scope::{Scope, Variables};
use crate::symbols::Symbols;
use smt_syntax::span::Span;
use smt_terms::node::TermId;
use smt_terms::terms::Terms;
use smt_text::token::{Token, TokenKind, Tokens};
use std::alloc::Global;
use term_reach::Reached;

/// What is wanted next, under these open lists.
fn wanted(stack: &[Open<'_>]) -> Want
    ensures { result ≡ context_in (term_reader no_symbols false) Want.Term (stack_of stack.now) }
{
    match stack.last() {
        None => Want::Term,
        Some(list) => context(list),
    }
}

/// A list opens. `Some` is the part that ends the reading.
fn open_list<'a>(
    scope: &Scope<'a>,
    stack: &mut Vec<Open<'a>>,
) -> Result<Option<Part<'a>>, BuildError>
    ensures { (s : TermsValue)
        → Steps (opened (term_reader no_symbols false) Want.Term (stack_of stack.old.items)
        (state_of s scope.now)) result (stack_of stack.new.items) (state_of s scope.now) }
{
    match opens(wanted(stack), scope) {
        Err(fault) => Err(BuildError::Fault(fault)),
        Ok(list) => {
            stack.push(list)?;
            Ok(None)
        }
    }
}

/// Hands a part to its list.
fn hand<'a>(
    alloc: Global,
    scope: &mut Scope<'a>,
    stack: &mut Vec<Open<'a>>,
    part: Part<'a>,
) -> Result<Option<Part<'a>>, BuildError>
    ensures { (s : TermsValue)
        → Steps (handed (term_reader no_symbols false) (stack_of stack.old.items)
        (part_of part.entry, state_of s scope.old)) result (stack_of stack.new.items)
        (state_of s scope.new) }
{
    let Some(list) = stack.pop() else {
        return Ok(Some(part));
    };
    let list = takes(alloc, scope, list, part)?;
    stack.push(list)?;
    Ok(None)
}

/// One token more.
#[tactic(auto, unfolding(crate::specs::Steps::step))]
fn step<'a>(
    alloc: Global,
    symbols: &Symbols,
    terms: &mut Terms,
    reached: &mut Reached,
    scope: &mut Scope<'a>,
    may_name: bool,
    stack: &mut Vec<Open<'a>>,
    token: &Token<'a>,
) -> Result<Option<Part<'a>>, BuildError>
    requires { AreDeclared symbols.now.signatures terms.old.nodes }
    ensures steps { Steps
        (step (term_reader symbols.now may_name) Want.Term (stack_of stack.old.items)
        (state_of terms.old scope.old) (sign_in token.now)) result (stack_of stack.new.items)
        (state_of terms.new scope.new) }
    ensures grows { Grows symbols.now.signatures terms.old terms.new }
{
    match token.kind {
        TokenKind::Open => open_list(scope, stack),
        TokenKind::Close => match stack.pop() {
            None => Err(BuildError::Fault(BuildFault::NotSupported)),
            Some(list) => {
                let part = closes(alloc, symbols, terms, reached, scope, list)?;
                hand(alloc, scope, stack, part)
            }
        },
        kind => {
            let part = at_word(
                alloc,
                symbols,
                terms,
                reached,
                scope,
                may_name,
                wanted(stack),
                kind,
                token.text,
            )?;
            hand(alloc, scope, stack, part)
        }
    }
}

/// Reads the part that the tokens begin with; after a fault or for want of memory more terms may be held.
fn read_part<'a>(
    alloc: Global,
    symbols: &Symbols,
    terms: &mut Terms,
    reached: &mut Reached,
    scope: &mut Scope<'a>,
    may_name: bool,
    tokens: &[Token<'a>],
) -> Result<Part<'a>, BuildError>
    requires { AreDeclared symbols.now.signatures terms.old.nodes }
    ensures does { Does
        (run (term_reader symbols.now may_name) Want.Term [] (state_of terms.old scope.old)
        (signs_in tokens.now)) result (state_of terms.new scope.new) }
    ensures grows { Grows symbols.now.signatures terms.old terms.new }
{
    let mut stack: Vec<Open<'a>> = Vec::new(alloc);
    for token in tokens {
        match step(
            alloc, symbols, terms, reached, scope, may_name, &mut stack, token,
        )? {
            Some(part) => return Ok(part),
            None => {}
        }
    }
    Err(BuildError::Fault(BuildFault::NotSupported))
}

/// No variables, and no names, under these parameters.
pub(crate) fn scope_over<'a>(alloc: Global, parameters: Parameters) -> Scope<'a>
    ensures { result ≡ scope_over parameters }
{
    Scope {
        bound: Variables::new(alloc),
        coming: Variables::new(alloc),
        names: Variables::new(alloc),
        parameters,
    }
}

/// Reads a term, in the same way; names that terms are given are put into the scope.
pub(crate) fn read_term<'a>(
    alloc: Global,
    symbols: &Symbols,
    terms: &mut Terms,
    reached: &mut Reached,
    scope: &mut Scope<'a>,
    may_name: bool,
    tokens: &[Token<'a>],
) -> Result<TermId, BuildError>
    requires declared { AreDeclared symbols.now.signatures terms.old.nodes }
    requires scope { scope.old ≡ scope_over scope.old.parameters }
    ensures reads { (e : Sexp) → signs_in tokens.now ≡ spelling e
        → ReadsTerm (term_in symbols.now may_name []
        (progress (state_of terms.old (scope_over scope.old.parameters))) e) result
        (progress (state_of terms.new scope.new)) }
    ensures grows { Grows symbols.now.signatures terms.old terms.new }
{
    let Part::Term(term) = read_part(alloc, symbols, terms, reached, scope, may_name, tokens)?
    else {
        return Err(BuildError::Fault(BuildFault::NotSupported));
    };
    Ok(term)
}

/// The number of the term that the S-expression at a span means over these parameters and the live names. A fault is its
/// first, and then, as for want of memory, the terms are as before.
#[tactic(auto, unfolding(crate::specs::Terms::term_over))]
pub(crate) fn term_over(
    symbols: &Symbols,
    alloc: Global,
    terms: &mut Terms,
    reached: &mut Reached,
    tokens: &Tokens<'_>,
    parameters: Parameters,
    span: Span,
) -> Result<TermId, BuildError>
    requires { AreDeclared symbols.now.signatures terms.old.nodes }
    ensures term { (e : Sexp) → Stands (signs_of tokens.now) span e
        → Builds (term_over symbols.now terms.old parameters e) result terms.old terms.new }
    ensures err { OnErr result (terms.new ≡ terms.old) }
    ensures grows { Grows symbols.now.signatures terms.old terms.new }
{
    let len = terms.len();
    let items = tokens_at(tokens.as_slice(), span);
    let mut scope = scope_over(alloc, parameters);
    match read_term(alloc, symbols, terms, reached, &mut scope, false, items) {
        Ok(term) => Ok(term),
        Err(error) => {
            terms.cut(len);
            Err(error)
        }
    }
}

impl Symbols {
    /// The number of the term that the S-expression at a span means over the live names. A fault is its first, and then,
    /// as for want of memory, the terms are as before. `reached` is room for the walks of uses of definitions, which its
    /// owner keeps from call to call; what it had may be forgotten.
    pub fn elaborate(
        &self,
        alloc: Global,
        terms: &mut Terms,
        reached: &mut Reached,
        tokens: &Tokens<'_>,
        span: Span,
    ) -> Result<TermId, BuildError>
        requires { AreDeclared self.now.signatures terms.old.nodes }
        ensures term { (e : Sexp) → Stands (signs_of tokens.now) span e
            → Builds (term_of self.now terms.old e) result terms.old terms.new }
        ensures err { OnErr result (terms.new ≡ terms.old) }
        ensures grows { Grows self.now.signatures terms.old terms.new }
    {
        term_over(
            self,
            alloc,
            terms,
            reached,
            tokens,
            Parameters::none(alloc),
            span,
        )
    }
}
