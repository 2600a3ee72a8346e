// The terms of words and of applications.

ghost use Rattle.std.specs.Prelude.{◌≡◌, ◌*◌, Some, slice_get, List};
ghost use Rattle.smt_terms.specs.Nodes.{leaf};
ghost use Rattle.smt_terms.specs.declared.sort.Signature.{Signature as SignatureValue};
ghost use Rattle.smt_build.specs.Names.{AreDeclared, declaration_of, meaning_in};
ghost use Rattle.smt_build.specs.Building.{made, binary, hexadecimal, constant, declared, declared_at, function, called, called_at, Builds, Means, Grows};
ghost use Rattle.smt_build.specs.Applying.{applied, symbol_term, word_term, application_by, constant_array, application, indexed_term};
ghost use Rattle.smt_build.specs.Indices.{indexed};
ghost use Rattle.smt_build.specs.Operators.{operator_named};
ghost use Rattle.smt_build.specs.Views.{head_of, indices_of};

use crate::definition::{have_sorts, used};
use crate::fault::{BuildError, BuildFault};
use crate::grouping::operation;
use crate::indices::{Head, Indices, indexed_application, known, word_of};
use crate::literal::{binary_number, hexadecimal_number};
use crate::making::made;
use crate::operators::{Named, operator_named};
use crate::symbols::Symbols;
use smt_syntax::words::is_word_name;
use smt_terms::list::Arguments;
use smt_terms::node::{Node, Op, TermId};
use smt_terms::sort::{DeclId, Signature, Sort};
use smt_terms::terms::Terms;
use smt_text::token::TokenKind;
use std::alloc::Global;
use term_reach::Reached;

/// The term of a literal.
fn literal(
    alloc: Global,
    terms: &mut Terms,
    width: usize,
    value: u128,
) -> Result<TermId, BuildError>
    ensures builds { Builds (made terms.old (leaf (Op.Word width value))) result terms.old
        terms.new }
    ensures grows { (signatures : List SignatureValue) → Grows signatures terms.old terms.new }
{
    let op = Op::Word {
        width: width as u64,
        value,
    };
    made(terms, Node::leaf(alloc, op))
}

fn binary(alloc: Global, terms: &mut Terms, digits: &[u8]) -> Result<TermId, BuildError>
    ensures builds { Builds (binary terms.old digits.now) result terms.old terms.new }
    ensures grows { (signatures : List SignatureValue) → Grows signatures terms.old terms.new }
{
    if digits.len() > 128 {
        return Err(BuildError::Fault(BuildFault::LiteralTooWide));
    }
    literal(alloc, terms, digits.len(), binary_number(digits))
}

fn hexadecimal(alloc: Global, terms: &mut Terms, digits: &[u8]) -> Result<TermId, BuildError>
    ensures builds { Builds (hexadecimal terms.old digits.now) result terms.old terms.new }
    ensures grows { (signatures : List SignatureValue) → Grows signatures terms.old terms.new }
{
    if digits.len() > 32 {
        return Err(BuildError::Fault(BuildFault::LiteralTooWide));
    }
    literal(alloc, terms, 4 * digits.len(), hexadecimal_number(digits))
}

/// The term of a declared constant.
fn constant(
    alloc: Global,
    symbols: &Symbols,
    terms: &mut Terms,
    declaration: DeclId,
    signature: &Signature,
) -> Result<TermId, BuildError>
    requires made { slice_get symbols.now.signatures declaration ≡ Some signature.now }
    requires declared { AreDeclared symbols.now.signatures terms.old.nodes }
    ensures builds { Builds (constant terms.old declaration signature.now) result terms.old
        terms.new }
    ensures grows { Grows symbols.now.signatures terms.old terms.new }
{
    if !signature.args.as_slice().is_empty() {
        return Err(BuildError::Fault(BuildFault::WrongSort));
    }
    let op = Op::Constant {
        declaration,
        sort: signature.value,
    };
    made(terms, Node::leaf(alloc, op))
}

/// The term of a symbol that is no operator's name.
fn declared(
    alloc: Global,
    symbols: &Symbols,
    terms: &mut Terms,
    name: &[u8],
) -> Result<TermId, BuildError>
    requires { AreDeclared symbols.now.signatures terms.old.nodes }
    ensures builds { Builds
        (declared symbols.now terms.old (declaration_of symbols.now.live name.now)) result terms.old
        terms.new }
    ensures grows { Grows symbols.now.signatures terms.old terms.new }
{
    let Some(declaration) = symbols.declaration(name) else {
        return Err(BuildError::Fault(BuildFault::UnknownSymbol));
    };
    let Some(signature) = symbols.signature(declaration) else {
        return Err(BuildError::Fault(BuildFault::UnknownSymbol));
    };
    constant(alloc, symbols, terms, declaration, signature)
}

/// The term of a declaration with arguments that is applied to terms.
fn function(
    alloc: Global,
    symbols: &Symbols,
    terms: &mut Terms,
    declaration: DeclId,
    signature: &Signature,
    args: Vec<TermId>,
) -> Result<TermId, BuildError>
    requires made { slice_get symbols.now.signatures declaration ≡ Some signature.now }
    requires declared { AreDeclared symbols.now.signatures terms.old.nodes }
    ensures builds { Builds (function terms.old declaration signature.now args.items) result
        terms.old terms.new }
    ensures grows { Grows symbols.now.signatures terms.old terms.new }
{
    if signature.args.as_slice().is_empty() {
        return Err(BuildError::Fault(BuildFault::WrongSort));
    }
    let signature = Signature {
        args: signature.args.copy(alloc)?,
        value: signature.value,
    };
    let op = Op::Apply {
        declaration,
        signature,
    };
    let args = Arguments::from_vec(args);
    made(terms, Node { op, args })
}

/// The term of a name that is neither an operator's nor defined, applied to terms.
fn called(
    alloc: Global,
    symbols: &Symbols,
    terms: &mut Terms,
    name: &[u8],
    args: Vec<TermId>,
) -> Result<TermId, BuildError>
    requires { AreDeclared symbols.now.signatures terms.old.nodes }
    ensures builds { Builds
        (called symbols.now terms.old (declaration_of symbols.now.live name.now) args.items) result
        terms.old terms.new }
    ensures grows { Grows symbols.now.signatures terms.old terms.new }
{
    let Some(declaration) = symbols.declaration(name) else {
        return Err(BuildError::Fault(BuildFault::UnknownSymbol));
    };
    let Some(signature) = symbols.signature(declaration) else {
        return Err(BuildError::Fault(BuildFault::UnknownSymbol));
    };
    function(alloc, symbols, terms, declaration, signature, args)
}

/// The term of an operator's name and its arguments.
fn applied(
    alloc: Global,
    terms: &mut Terms,
    named: Named,
    args: Vec<TermId>,
) -> Result<TermId, BuildError>
    ensures means { Means (applied terms.old named args.items) result terms.new }
    ensures grows { (signatures : List SignatureValue) → Grows signatures terms.old terms.new }
{
    match named {
        Named::Indexed(_) => Err(BuildError::Fault(BuildFault::WrongSort)),
        Named::Applies(operator, arity) => operation(alloc, terms, operator, arity, args),
    }
}

/// The term of a symbol.
#[tactic(auto, unfolding(crate::specs::Applying::symbol_term))]
fn symbol_term(
    alloc: Global,
    symbols: &Symbols,
    terms: &mut Terms,
    reached: &mut Reached,
    name: &[u8],
) -> Result<TermId, BuildError>
    requires { AreDeclared symbols.now.signatures terms.old.nodes }
    ensures means { Means (symbol_term symbols.now terms.old name.now) result terms.new }
    ensures grows { Grows symbols.now.signatures terms.old terms.new }
{
    if let Some(named) = operator_named(name) {
        return applied(alloc, terms, named, Vec::new(alloc));
    }
    match symbols.definition(name) {
        Some(definition) => used(alloc, terms, reached, definition, &[]),
        None => declared(alloc, symbols, terms, name),
    }
}

/// The term of a word.
#[tactic(auto, unfolding(crate::specs::Applying::word_term))]
pub fn word_term(
    alloc: Global,
    symbols: &Symbols,
    terms: &mut Terms,
    reached: &mut Reached,
    kind: TokenKind,
    text: &[u8],
) -> Result<TermId, BuildError>
    requires { AreDeclared symbols.now.signatures terms.old.nodes }
    ensures means { Means (word_term symbols.now terms.old kind text.now) result terms.new }
    ensures grows { Grows symbols.now.signatures terms.old terms.new }
{
    match (kind, text) {
        (TokenKind::Symbol, _) => symbol_term(alloc, symbols, terms, reached, text),
        (TokenKind::Binary, [_, _, digits @ ..]) => binary(alloc, terms, digits),
        (TokenKind::Hexadecimal, [_, _, digits @ ..]) => hexadecimal(alloc, terms, digits),
        _ => Err(BuildError::Fault(BuildFault::NotSupported)),
    }
}

/// The term of a name without indices and the arguments that it is applied to.
fn plain_application(
    alloc: Global,
    symbols: &Symbols,
    terms: &mut Terms,
    reached: &mut Reached,
    name: &[u8],
    args: Vec<TermId>,
) -> Result<TermId, BuildError>
    requires { AreDeclared symbols.now.signatures terms.old.nodes }
    ensures means { Means
        (application_by symbols.now terms.old (operator_named name.now)
        (meaning_in symbols.now.definitions name.now) (declaration_of symbols.now.live name.now)
        args.items) result terms.new }
    ensures grows { Grows symbols.now.signatures terms.old terms.new }
{
    if let Some(named) = operator_named(name) {
        return applied(alloc, terms, named, args);
    }
    match symbols.definition(name) {
        Some(definition) => used(alloc, terms, reached, definition, args.as_slice()),
        None => called(alloc, symbols, terms, name, args),
    }
}

/// The array of a sort that has one term as its element everywhere.
fn constant_array(terms: &mut Terms, sort: Sort, args: Vec<TermId>) -> Result<TermId, BuildError>
    ensures means { Means (constant_array terms.old sort args.items) result terms.new }
    ensures grows { (signatures : List SignatureValue) → Grows signatures terms.old terms.new }
{
    let Sort::Array(index, element) = sort else {
        return Err(BuildError::Fault(BuildFault::WrongSort));
    };
    if !have_sorts(terms, &[Sort::Word(element)], args.as_slice()) {
        return Err(BuildError::Fault(BuildFault::WrongSort));
    }
    let op = Op::ConstantArray(u64::from(index));
    let args = Arguments::from_vec(args);
    made(terms, Node { op, args })
}

/// The term of a name, or of `(as const S)`, and the arguments that it is applied to.
#[tactic(auto, unfolding(crate::specs::Applying::application))]
pub fn application(
    alloc: Global,
    symbols: &Symbols,
    terms: &mut Terms,
    reached: &mut Reached,
    head: Head<'_>,
    args: Vec<TermId>,
) -> Result<TermId, BuildError>
    requires { AreDeclared symbols.now.signatures terms.old.nodes }
    ensures means { Means (application symbols.now terms.old (head_of head.entry) args.items) result
        terms.new }
    ensures grows { Grows symbols.now.signatures terms.old terms.new }
{
    match head {
        Head::Plain(name) => plain_application(alloc, symbols, terms, reached, name, args),
        Head::Indexed(name, indices) => indexed_application(symbols, terms, name, indices, args),
        Head::Everywhere(sort) => constant_array(terms, sort, args),
    }
}

/// The term of a name with indices.
#[tactic(auto, unfolding(crate::specs::Applying::indexed_term))]
pub fn indexed_term(
    alloc: Global,
    symbols: &Symbols,
    terms: &mut Terms,
    name: &[u8],
    indices: Indices<'_>,
) -> Result<TermId, BuildError>
    ensures means { Means
        (indexed_term symbols.now terms.old (indexed name.now (indices_of indices.entry))) result
        terms.new }
    ensures grows { (signatures : List SignatureValue) → Grows signatures terms.old terms.new }
{
    if is_word_name(name) {
        word_of(alloc, terms, name, indices)
    } else {
        Err(BuildError::Fault(known(symbols, name)))
    }
}
