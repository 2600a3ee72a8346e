// Commands that declare.

ghost use Rattle.std.specs.Prelude.{◌≡◌, [], IfOk};
ghost use Rattle.smt_syntax.specs.Sexps.{signs_in, signs_of, spelling, Sexp, Sexps};
ghost use Rattle.smt_syntax.specs.Spans.{tokens_at, IsWithin, AllStand};
ghost use Rattle.smt_syntax.specs.Commands.{name_of, spans_of};
ghost use Rattle.smt_terms.specs.Terms.{constant_signature};
ghost use Rattle.smt_build.specs.Naming.{parts_of};
ghost use Rattle.smt_build.specs.Parts.{over_parts};
ghost use Rattle.smt_build.specs.Declaring.{declare, declare_name, value_sort, of_constant, plain_in, next_argument, of_function, signature_in, AreArguments, Declares};

use crate::fault::{BuildError, BuildFault};
use crate::naming::parts_of;
use crate::operators::is_reserved;
use crate::parameters::plain_sort;
use crate::sorts::sort_of;
use crate::symbols::Symbols;
use smt_syntax::command::Command;
use smt_syntax::span::Span;
use smt_terms::list::Sorts;
use smt_terms::sort::{DeclId, Signature, Sort};
use smt_text::token::{Token, Tokens};
use std::alloc::{AllocError, Global};

/// The tokens of a span, none where it reaches past the end.
pub(crate) fn tokens_at<'a, 'b>(tokens: &'a [Token<'b>], span: Span) -> &'a [Token<'b>]
    ensures { IsWithin (signs_in tokens.now) span
        → signs_in result.now ≡ tokens_at (signs_in tokens.now) span }
{
    if span.start > span.end || span.end > tokens.len() {
        return &[];
    }
    &tokens[span.start..span.end]
}

/// The signature of a constant.
fn constant_signature(alloc: Global, value: Sort) -> Signature
    ensures { result ≡ constant_signature value }
{
    Signature {
        args: Sorts::none(alloc),
        value,
    }
}

fn declare_name(
    symbols: &mut Symbols,
    alloc: Global,
    name: &[Token<'_>],
    signature: Result<Signature, BuildFault>,
) -> Result<DeclId, BuildError>
    ensures { (n : Sexp) → signs_in name.now ≡ spelling n
        → Declares (declare_name symbols.old n signature) result symbols.old symbols.new }
{
    let [name] = name else {
        return Err(BuildError::Fault(BuildFault::NotSupported));
    };
    if is_reserved(name.text) {
        return Err(BuildError::Fault(BuildFault::Reserved));
    }
    if symbols.is_taken(name.text) {
        return Err(BuildError::Fault(BuildFault::Declared));
    }
    let signature = match signature {
        Ok(signature) => signature,
        Err(fault) => return Err(BuildError::Fault(fault)),
    };
    let number = symbols.add(alloc, name.text, signature)?;
    Ok(number)
}

/// The sort of a name without arguments; with some it is not supported.
pub(crate) fn value_sort(
    alloc: Global,
    symbols: &Symbols,
    arguments: &[Token<'_>],
    value: &[Token<'_>],
) -> Result<Result<Sort, BuildFault>, AllocError>
    ensures { IfOk result (λ r. (a s : Sexp) → signs_in arguments.now ≡ spelling a
        → signs_in value.now ≡ spelling s → r ≡ value_sort symbols.now a s) }
{
    if arguments.len() != 2 {
        return Ok(Err(BuildFault::NotSupported));
    }
    sort_of(alloc, symbols, value)
}

/// The signature of a constant, where its sort is known.
fn of_constant(alloc: Global, sort: Result<Sort, BuildFault>) -> Result<Signature, BuildFault>
    ensures { result ≡ of_constant sort }
{
    match sort {
        Ok(sort) => Ok(constant_signature(alloc, sort)),
        Err(fault) => Err(fault),
    }
}

/// The sort of an argument or of a value: functions take and give truth values and words.
fn plain_in(
    alloc: Global,
    symbols: &Symbols,
    tokens: &[Token<'_>],
) -> Result<Result<Sort, BuildFault>, AllocError>
    ensures { IfOk result (λ r. (e : Sexp) → signs_in tokens.now ≡ spelling e
        → r ≡ plain_in symbols.now e) }
{
    match sort_of(alloc, symbols, tokens)? {
        Ok(sort) => Ok(plain_sort(sort)),
        Err(fault) => Ok(Err(fault)),
    }
}

/// The sorts of the arguments in the list that tokens spell.
fn arguments_in(
    alloc: Global,
    symbols: &Symbols,
    tokens: &[Token<'_>],
) -> Result<Result<Vec<Sort>, BuildFault>, AllocError>
    ensures { IfOk result (λ r. (e : Sexp) → signs_in tokens.now ≡ spelling e
        → AreArguments (over_parts (next_argument symbols.now) [] (parts_of e)) r) }
{
    let spans = parts_of(alloc, tokens)?;
    let spans = spans.as_slice();
    let mut args = Vec::new(alloc);
    'arguments: for span in spans {
        match plain_in(alloc, symbols, tokens_at(tokens, *span))? {
            Ok(sort) => args.push(sort)?,
            Err(fault) => return Ok(Err(fault)),
        }
    }
    Ok(Ok(args))
}

/// The signature of a function with arguments.
fn of_function(
    alloc: Global,
    symbols: &Symbols,
    arguments: &[Token<'_>],
    value: &[Token<'_>],
) -> Result<Result<Signature, BuildFault>, AllocError>
    ensures { IfOk result (λ r. (a s : Sexp) → signs_in arguments.now ≡ spelling a
        → signs_in value.now ≡ spelling s → r ≡ of_function symbols.now (parts_of a) s) }
{
    let args = match arguments_in(alloc, symbols, arguments)? {
        Ok(args) => args,
        Err(fault) => return Ok(Err(fault)),
    };
    match plain_in(alloc, symbols, value)? {
        Ok(value) => {
            let args = Sorts::from_vec(args);
            Ok(Ok(Signature { args, value }))
        }
        Err(fault) => Ok(Err(fault)),
    }
}

/// The signature of a function, which may be a constant.
fn signature_in(
    alloc: Global,
    symbols: &Symbols,
    arguments: &[Token<'_>],
    value: &[Token<'_>],
) -> Result<Result<Signature, BuildFault>, AllocError>
    ensures { IfOk result (λ r. (a s : Sexp) → signs_in arguments.now ≡ spelling a
        → signs_in value.now ≡ spelling s → r ≡ signature_in symbols.now a s) }
{
    if arguments.len() == 2 {
        let sort = sort_of(alloc, symbols, value)?;
        return Ok(of_constant(alloc, sort));
    }
    if arguments.len() < 2 {
        return Ok(Err(BuildFault::NotSupported));
    }
    of_function(alloc, symbols, arguments, value)
}

impl Symbols {
    /// Makes the declaration that a command asks for, and gives its number.
    pub fn declare(
        &mut self,
        alloc: Global,
        tokens: &Tokens<'_>,
        command: &Command,
    ) -> Result<DeclId, BuildError>
        ensures { (es : Sexps) → AllStand (signs_of tokens.now) (spans_of command.now) es
            → Declares (declare self.old (name_of command.now) es) result self.old self.new }
    {
        let items = tokens.as_slice();
        match command {
            Command::DeclareConst { name, sort } => {
                let sort = sort_of(alloc, self, tokens_at(items, *sort))?;
                declare_name(
                    self,
                    alloc,
                    tokens_at(items, *name),
                    of_constant(alloc, sort),
                )
            }
            Command::DeclareFun {
                name,
                arguments,
                value,
            } => {
                let signature = signature_in(
                    alloc,
                    self,
                    tokens_at(items, *arguments),
                    tokens_at(items, *value),
                )?;
                declare_name(self, alloc, tokens_at(items, *name), signature)
            }
            _ => Err(BuildError::Fault(BuildFault::NotSupported)),
        }
    }
}
