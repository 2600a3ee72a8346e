// What may stand as an argument of a command.

ghost use Rattle.std.specs.Prelude.{◌≡◌, is_ok, [], IfOk};
ghost use Rattle.smt_syntax.specs.Sexps.{signs_in};
ghost use Rattle.smt_syntax.specs.Forms.{want_of};

use crate::shape::Want;

/// What may stand as an argument of a command.
#[derive(Clone, Copy, Debug, PartialEq, Eq)]
pub enum Form {
    /// A term.
    Term,
    /// A sort.
    Sort,
    /// A new name: a symbol, or a reserved word in its place.
    Name,
    /// A symbol.
    Symbol,
    /// A numeral.
    Numeral,
    /// A string.
    String,
    /// A keyword.
    Keyword,
    /// An option that has a meaning here.
    Option,
    /// Another keyword.
    OtherOption,
    /// `true` or `false`.
    Boolean,
    /// The value of an attribute: a token that is no keyword, or a list.
    Value,
    /// A list of nothing.
    Empty,
    /// A list of sorts.
    Sorts,
    /// A list of parameters with their sorts.
    Parameters,
    /// A list of terms.
    Terms,
    /// A list of at least one term.
    SomeTerms,
}

/// What a reader of shapes wants there.
pub fn want_of(form: Form) -> Want
    ensures { result ≡ want_of form }
{
    match form {
        Form::Term => Want::Term,
        Form::Sort => Want::Sort,
        Form::Name => Want::Name,
        Form::Symbol => Want::Symbol,
        Form::Numeral => Want::Numeral,
        Form::String => Want::String,
        Form::Keyword => Want::Keyword,
        Form::Option => Want::Option,
        Form::OtherOption => Want::OtherOption,
        Form::Boolean => Want::Boolean,
        Form::Value => Want::Value,
        Form::Empty => Want::Empty,
        Form::Sorts => Want::Sorts,
        Form::Parameters => Want::Parameters,
        Form::Terms => Want::Terms,
        Form::SomeTerms => Want::SomeTerms,
    }
}
