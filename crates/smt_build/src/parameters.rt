// The parameters of a definition.

ghost use Rattle.std.specs.Prelude.{◌≡◌, [], ◌∷◌, None, Ok, IfOk, OnOk, if◌then◌else◌};
ghost use Rattle.smt_syntax.specs.Sexps.{signs_in, spelling, Sexp};
ghost use Rattle.smt_build.specs.Names.{meaning_in};
ghost use Rattle.smt_build.specs.Parameters.{is_none, sorts_of, plain_sort, with_parameter, new_parameter, named_parameter, next_parameter, parameters_in, Lists};

use crate::declare::tokens_at;
use crate::fault::{BuildError, BuildFault};
use crate::naming::parts_of;
use crate::operators::is_reserved;
use crate::sorts::sort_of;
use crate::symbols::Symbols;
use indexmap::IndexMap;
use smt_terms::list::Sorts;
use smt_terms::sort::Sort;
use smt_text::token::Token;
use std::alloc::{AllocError, Global};
use std::marker::Model;

/// A parameter: its place in the list, and its sort.
#[derive(Clone, Copy, Debug)]
pub struct Parameter {
    pub place: u32,
    pub sort: Sort,
}

/// The parameters of a definition in order. A name is found without a look at the others.
#[derive(Drop)]
pub struct Parameters {
    entries: IndexMap<Vec<u8>, Parameter>,
    sorts: Vec<Sort>,
}

impl Model for Parameters {
    ghost use Rattle.std.specs.Prelude.{◌≡◌, map};
    ghost use Rattle.smt_build.specs.Names.{entry_of};
    ghost use Rattle.smt_build.specs.Parameters.{Parameters as ParametersValue, sorts_of};

    ghost Value = { ParametersValue };

    ghost view = { λ p. map entry_of p.entries.entries };

    ghost invariant = { λ p. p.sorts.items ≡ sorts_of (map entry_of p.entries.entries) };
}

impl Parameters {
    /// No parameters; takes no memory.
    pub fn none(alloc: Global) -> Parameters
        ensures { result ≡ [] }
    {
        Parameters {
            entries: IndexMap::new(alloc),
            sorts: Vec::new(alloc),
        }
    }

    /// The parameter of a name; `None` exactly where none has it.
    pub fn get(&self, name: &[u8]) -> Option<Parameter>
        ensures { result ≡ meaning_in self.now name.now }
    {
        self.entries.get(name).copied()
    }

    /// Whether there are none.
    pub fn is_empty(&self) -> bool
        ensures { result ≡ is_none self.now }
    {
        self.sorts.is_empty()
    }

    /// The sorts of the parameters in order.
    pub fn sorts(&self, alloc: Global) -> Result<Sorts, AllocError>
        ensures { IfOk result (λ sorts. sorts ≡ sorts_of self.now) }
    {
        let sorts = Vec::from_slice(alloc, self.sorts.as_slice())?;
        Ok(Sorts::from_vec(sorts))
    }

    /// One parameter more, under a name that none has.
    fn push(&mut self, alloc: Global, name: &[u8], sort: Sort) -> Result<(), AllocError>
        requires { meaning_in self.old name.now ≡ None }
        ensures { OnOk result (self.new ≡ with_parameter self.old name.now sort) }
    {
        let count = self.sorts.len();
        if count >= u32::MAX as usize {
            return Err(AllocError);
        }
        let place = count as u32;
        let key = Vec::from_slice(alloc, name)?;
        self.sorts.push(sort)?;
        match self.entries.insert(key, Parameter { place, sort }) {
            Ok(_) => Ok(()),
            Err(refused) => {
                self.sorts.pop();
                Err(AllocError::from(refused))
            }
        }
    }
}

/// Functions take and give truth values and words.
pub(crate) fn plain_sort(sort: Sort) -> Result<Sort, BuildFault>
    ensures { result ≡ plain_sort sort }
{
    match sort {
        Sort::Array { .. } => Err(BuildFault::NotSupported),
        _ => Ok(sort),
    }
}

/// A parameter behind these.
fn new_parameter(
    alloc: Global,
    parameters: &mut Parameters,
    name: &[u8],
    sort: Result<Sort, BuildFault>,
) -> Result<(), BuildError>
    ensures { Lists (new_parameter parameters.old name.now sort) result parameters.new }
{
    if is_reserved(name) {
        return Err(BuildError::Fault(BuildFault::Reserved));
    }
    if parameters.get(name).is_some() {
        return Err(BuildError::Fault(BuildFault::Declared));
    }
    let sort = match sort {
        Ok(sort) => sort,
        Err(fault) => return Err(BuildError::Fault(fault)),
    };
    let sort = match plain_sort(sort) {
        Ok(sort) => sort,
        Err(fault) => return Err(BuildError::Fault(fault)),
    };
    parameters.push(alloc, name, sort)?;
    Ok(())
}

/// A parameter whose name tokens spell.
fn named_parameter(
    alloc: Global,
    parameters: &mut Parameters,
    name: &[Token<'_>],
    sort: Result<Sort, BuildFault>,
) -> Result<(), BuildError>
    ensures { (n : Sexp) → signs_in name.now ≡ spelling n
        → Lists (named_parameter parameters.old n sort) result parameters.new }
{
    let [name] = name else {
        return Err(BuildError::Fault(BuildFault::NotSupported));
    };
    new_parameter(alloc, parameters, name.text, sort)
}

/// A parameter that tokens spell.
fn next_parameter(
    alloc: Global,
    symbols: &Symbols,
    parameters: &mut Parameters,
    tokens: &[Token<'_>],
) -> Result<(), BuildError>
    ensures { (e : Sexp) → signs_in tokens.now ≡ spelling e
        → Lists (next_parameter symbols.now parameters.old e) result parameters.new }
{
    let spans = parts_of(alloc, tokens)?;
    if spans.len() != 2 {
        return Err(BuildError::Fault(BuildFault::NotSupported));
    }
    let sort = sort_of(alloc, symbols, tokens_at(tokens, spans[1]))?;
    named_parameter(alloc, parameters, tokens_at(tokens, spans[0]), sort)
}

/// The parameters of the list that tokens spell.
pub(crate) fn parameters_in(
    alloc: Global,
    symbols: &Symbols,
    parameters: &mut Parameters,
    tokens: &[Token<'_>],
) -> Result<(), BuildError>
    requires { parameters.old ≡ [] }
    ensures { (e : Sexp) → signs_in tokens.now ≡ spelling e
        → Lists (parameters_in symbols.now e) result parameters.new }
{
    if tokens.len() < 2 {
        return Err(BuildError::Fault(BuildFault::NotSupported));
    }
    let spans = parts_of(alloc, tokens)?;
    let spans = spans.as_slice();
    'parameters: for span in spans {
        next_parameter(alloc, symbols, parameters, tokens_at(tokens, *span))?;
    }
    Ok(())
}
