// The assertion of a term.

ghost use Rattle.std.specs.Prelude.{◌≡◌, OnOk, OnErr, map};
ghost use Rattle.smt_syntax.specs.Sexps.{signs_of, Sexp};
ghost use Rattle.smt_syntax.specs.Spans.{Stands};
ghost use Rattle.smt_build.specs.Names.{AreDeclared};
ghost use Rattle.smt_build.specs.Building.{Grows};
ghost use Rattle.smt_build.specs.Pairs.{pair_of};
ghost use Rattle.smt_build.specs.Asserting.{with_name, with_names, assertion, Asserts};

use crate::declare::tokens_at;
use crate::definition::Definition;
use crate::elaborate::{read_term, scope_over};
use crate::fault::BuildError;
use crate::parameters::Parameters;
use crate::scope::Variable;
use crate::symbols::Symbols;
use smt_syntax::span::Span;
use smt_terms::node::TermId;
use smt_terms::terms::Terms;
use smt_text::token::Tokens;
use std::alloc::{AllocError, Global};
use term_reach::Reached;

/// Makes a name the definition of its term.
fn add_name(symbols: &mut Symbols, alloc: Global, variable: &Variable<'_>) -> Result<(), AllocError>
    ensures ok { OnOk result (symbols.new ≡ with_name symbols.old (pair_of variable.now)) }
    ensures err { OnErr result (symbols.new ≡ symbols.old) }
{
    if symbols.definition(variable.name).is_some() {
        return Ok(());
    }
    symbols.add_definition(
        alloc,
        variable.name,
        Definition::of_term(alloc, variable.term),
    )
}

/// Makes names definitions of their terms.
fn add_names(symbols: &mut Symbols, alloc: Global, names: &[Variable<'_>]) -> Result<(), AllocError>
    ensures ok { OnOk result (symbols.new ≡ with_names symbols.old (map pair_of names.now)) }
    ensures err { OnErr result (symbols.new ≡ symbols.old) }
{
    let count = symbols.definition_count();
    for variable in names {
        match add_name(symbols, alloc, variable) {
            Ok(()) => {}
            Err(error) => {
                symbols.cut_definitions(count);
                return Err(error);
            }
        }
    }
    Ok(())
}

impl Symbols {
    /// The number of the asserted term that the S-expression at a span means over the live names. Names that terms are
    /// given within it are definitions from then on. A fault is its first, and then, as for want of memory, all is as
    /// before. `reached` is room as for `elaborate`.
    pub fn assert_term(
        &mut self,
        alloc: Global,
        terms: &mut Terms,
        reached: &mut Reached,
        tokens: &Tokens<'_>,
        span: Span,
    ) -> Result<TermId, BuildError>
        requires { AreDeclared self.old.signatures terms.old.nodes }
        ensures asserts { (e : Sexp) → Stands (signs_of tokens.now) span e
            → Asserts (assertion self.old terms.old e) result (self.old, terms.old)
            (self.new, terms.new) }
        ensures signatures { self.new.signatures ≡ self.old.signatures }
        ensures grows { Grows self.old.signatures terms.old terms.new }
    {
        let len = terms.len();
        let items = tokens_at(tokens.as_slice(), span);
        let mut scope = scope_over(alloc, Parameters::none(alloc));
        let term = match read_term(alloc, self, terms, reached, &mut scope, true, items) {
            Ok(term) => term,
            Err(error) => {
                terms.cut(len);
                return Err(error);
            }
        };
        match add_names(self, alloc, scope.names.as_slice()) {
            Ok(()) => Ok(term),
            Err(_) => {
                terms.cut(len);
                Err(BuildError::NoMemory)
            }
        }
    }
}
