// Commands that define.

ghost use Rattle.std.specs.Prelude.{◌≡◌, [], false, OnErr};
ghost use Rattle.smt_syntax.specs.Sexps.{signs_in, signs_of, spelling, Sexp, Sexps};
ghost use Rattle.smt_syntax.specs.Spans.{AllStand, Stands};
ghost use Rattle.smt_syntax.specs.Commands.{name_of, spans_of};
ghost use Rattle.smt_build.specs.Names.{AreDeclared, is_taken};
ghost use Rattle.smt_build.specs.Building.{Builds, Grows};
ghost use Rattle.smt_build.specs.Defining.{is_sort_reserved, name_sort, define_sort, DefinesSort, body_of, function_over, value_over, head_of, define_function, define, Heads, Defines};

use crate::declare::{tokens_at, value_sort};
use crate::definition::Definition;
use crate::elaborate::term_over;
use crate::fault::{BuildError, BuildFault};
use crate::grouping::{has_sort, held_sort};
use crate::operators::is_reserved;
use crate::parameters::{Parameters, parameters_in, plain_sort};
use crate::sorts::sort_of;
use crate::symbols::Symbols;
use smt_syntax::command::Command;
use smt_syntax::span::Span;
use smt_terms::node::TermId;
use smt_terms::sort::Sort;
use smt_terms::terms::Terms;
use smt_text::token::{Token, Tokens};
use std::alloc::Global;
use term_reach::Reached;

/// Whether no sort is defined with the name.
fn is_sort_reserved(name: &[u8]) -> bool
    ensures { result ≡ is_sort_reserved name.now }
{
    is_reserved(name)
        || name == b"Bool".as_slice()
        || name == b"BitVec".as_slice()
        || name == b"Array".as_slice()
}

/// Gives a sort its name.
fn name_sort(
    symbols: &mut Symbols,
    alloc: Global,
    name: &[Token<'_>],
    sort: Result<Sort, BuildFault>,
) -> Result<(), BuildError>
    ensures defines { (n : Sexp) → signs_in name.now ≡ spelling n
        → DefinesSort (name_sort symbols.old n sort) result symbols.old symbols.new }
    ensures signatures { symbols.new.signatures ≡ symbols.old.signatures }
{
    let [name] = name else {
        return Err(BuildError::Fault(BuildFault::NotSupported));
    };
    if is_sort_reserved(name.text) {
        return Err(BuildError::Fault(BuildFault::Reserved));
    }
    if symbols.defined_sort(name.text).is_some() {
        return Err(BuildError::Fault(BuildFault::Declared));
    }
    let sort = match sort {
        Ok(sort) => sort,
        Err(fault) => return Err(BuildError::Fault(fault)),
    };
    symbols.add_sort(alloc, name.text, sort)?;
    Ok(())
}

/// The term that a body of the stated sort means.
fn body_of(
    symbols: &Symbols,
    alloc: Global,
    terms: &mut Terms,
    reached: &mut Reached,
    tokens: &Tokens<'_>,
    parameters: Parameters,
    sort: Sort,
    body: Span,
) -> Result<TermId, BuildError>
    requires { AreDeclared symbols.now.signatures terms.old.nodes }
    ensures builds { (t : Sexp) → Stands (signs_of tokens.now) body t
        → Builds (body_of symbols.now terms.old parameters sort t) result terms.old terms.new }
    ensures err { OnErr result (terms.new ≡ terms.old) }
    ensures grows { Grows symbols.now.signatures terms.old terms.new }
{
    let len = terms.len();
    let term = term_over(symbols, alloc, terms, reached, tokens, parameters, body)?;
    if !has_sort(sort, held_sort(terms, term)) {
        terms.cut(len);
        return Err(BuildError::Fault(BuildFault::WrongSort));
    }
    Ok(term)
}

/// The sort of a function; without parameters any.
fn value_over(parameters: &Parameters, sort: Result<Sort, BuildFault>) -> Result<Sort, BuildFault>
    ensures { result ≡ value_over parameters.now sort }
{
    match sort {
        Ok(sort) if !parameters.is_empty() => plain_sort(sort),
        _ => sort,
    }
}

/// Reads the parameters and the sort of a function.
fn read_head(
    symbols: &Symbols,
    alloc: Global,
    parameters: &mut Parameters,
    list: &[Token<'_>],
    value: &[Token<'_>],
) -> Result<Sort, BuildError>
    requires { parameters.old ≡ [] }
    ensures { (p s : Sexp) → signs_in list.now ≡ spelling p → signs_in value.now ≡ spelling s
        → Heads (head_of symbols.now p s) result parameters.new }
{
    parameters_in(alloc, symbols, parameters, list)?;
    let sort = sort_of(alloc, symbols, value)?;
    match value_over(parameters, sort) {
        Ok(sort) => Ok(sort),
        Err(fault) => Err(BuildError::Fault(fault)),
    }
}

/// Makes the definition of a name that is not live.
fn define_name(
    symbols: &mut Symbols,
    alloc: Global,
    terms: &mut Terms,
    reached: &mut Reached,
    tokens: &Tokens<'_>,
    name: &[u8],
    parameters: Parameters,
    value: Sort,
    body: Span,
) -> Result<(), BuildError>
    requires declared { AreDeclared symbols.old.signatures terms.old.nodes }
    requires name { is_taken symbols.old name.now ≡ false }
    ensures defines { (t : Sexp) → Stands (signs_of tokens.now) body t
        → Defines (function_over symbols.old terms.old name.now parameters value t) result
        (symbols.old, terms.old) (symbols.new, terms.new) }
    ensures signatures { symbols.new.signatures ≡ symbols.old.signatures }
    ensures grows { Grows symbols.old.signatures terms.old terms.new }
{
    let sorts = parameters.sorts(alloc)?;
    let before = terms.len();
    let body = body_of(
        symbols, alloc, terms, reached, tokens, parameters, value, body,
    )?;
    let definition = Definition {
        parameters: sorts,
        body,
    };
    match symbols.add_definition(alloc, name, definition) {
        Ok(()) => Ok(()),
        Err(_) => {
            terms.cut(before);
            Err(BuildError::NoMemory)
        }
    }
}

/// Defines a function.
fn define_function(
    symbols: &mut Symbols,
    alloc: Global,
    terms: &mut Terms,
    reached: &mut Reached,
    tokens: &Tokens<'_>,
    name: &[Token<'_>],
    list: &[Token<'_>],
    value: &[Token<'_>],
    body: Span,
) -> Result<(), BuildError>
    requires { AreDeclared symbols.old.signatures terms.old.nodes }
    ensures defines { (n p s t : Sexp) → signs_in name.now ≡ spelling n
        → signs_in list.now ≡ spelling p → signs_in value.now ≡ spelling s
        → Stands (signs_of tokens.now) body t
        → Defines (define_function symbols.old terms.old n (head_of symbols.old p s) t) result
        (symbols.old, terms.old) (symbols.new, terms.new) }
    ensures signatures { symbols.new.signatures ≡ symbols.old.signatures }
    ensures grows { Grows symbols.old.signatures terms.old terms.new }
{
    let [name] = name else {
        return Err(BuildError::Fault(BuildFault::NotSupported));
    };
    if is_reserved(name.text) {
        return Err(BuildError::Fault(BuildFault::Reserved));
    }
    if symbols.is_taken(name.text) {
        return Err(BuildError::Fault(BuildFault::Declared));
    }
    let mut parameters = Parameters::none(alloc);
    let value = read_head(symbols, alloc, &mut parameters, list, value)?;
    define_name(
        symbols, alloc, terms, reached, tokens, name.text, parameters, value, body,
    )
}

impl Symbols {
    /// Gives a sort the name that a command asks for.
    pub fn define_sort(
        &mut self,
        alloc: Global,
        tokens: &Tokens<'_>,
        command: &Command,
    ) -> Result<(), BuildError>
        ensures defines { (es : Sexps) → AllStand (signs_of tokens.now) (spans_of command.now) es
            → DefinesSort (define_sort self.old (name_of command.now) es) result self.old self.new }
        ensures signatures { self.new.signatures ≡ self.old.signatures }
    {
        let items = tokens.as_slice();
        match command {
            Command::DefineSort {
                name,
                parameters,
                sort,
            } => {
                let sort = value_sort(
                    alloc,
                    self,
                    tokens_at(items, *parameters),
                    tokens_at(items, *sort),
                )?;
                name_sort(self, alloc, tokens_at(items, *name), sort)
            }
            _ => Err(BuildError::Fault(BuildFault::NotSupported)),
        }
    }

    /// Makes the definition that a command asks for. `reached` is room as for `elaborate`.
    pub fn define(
        &mut self,
        alloc: Global,
        terms: &mut Terms,
        reached: &mut Reached,
        tokens: &Tokens<'_>,
        command: &Command,
    ) -> Result<(), BuildError>
        requires { AreDeclared self.old.signatures terms.old.nodes }
        ensures defines { (es : Sexps) → AllStand (signs_of tokens.now) (spans_of command.now) es
            → Defines (define self.old terms.old (name_of command.now) es) result
            (self.old, terms.old) (self.new, terms.new) }
        ensures signatures { self.new.signatures ≡ self.old.signatures }
        ensures grows { Grows self.old.signatures terms.old terms.new }
    {
        let items = tokens.as_slice();
        match command {
            Command::DefineFun {
                name,
                parameters,
                value,
                term,
            } => {
                define_function(
                    self,
                    alloc,
                    terms,
                    reached,
                    tokens,
                    tokens_at(items, *name),
                    tokens_at(items, *parameters),
                    tokens_at(items, *value),
                    *term,
                )
            }
            _ => Err(BuildError::Fault(BuildFault::NotSupported)),
        }
    }
}
