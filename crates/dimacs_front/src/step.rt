//! Lines of an LRAT text.

ghost use Rattle.std.specs.Prelude.{◌≡◌, ◌<◌, Some, IfOk, length, slice_get};
ghost use Rattle.std.specs.Option.{option_map};
ghost use Rattle.dimacs_front.specs.Words.{words_of};
ghost use Rattle.dimacs_front.specs.Lrat.{numbers_in, alone, clause_in, added_in, are_signed, deleted_in, step_of};

use crate::number::{Number, next_word, signed_number, whole};
use cnf_base::{Clause, Lit};
use plain_list::List;
use std::alloc::{AllocError, Global};

/// Numbers as they are written.
pub type Numbers = List<Number>;

/// What a line says.
#[derive(Debug, Drop)]
pub enum Step {
    /// Under this number a clause follows from those that are held, by hints.
    Add {
        number: u64,
        clause: Clause,
        hints: Numbers,
    },
    /// These are held no longer.
    Delete(Numbers),
}

/// The numbers up to 0, and what stands behind it.
fn numbers(alloc: Global, line: &[u8]) -> Result<Option<(Numbers, &[u8])>, AllocError>
    ensures { IfOk result (λ o. option_map (λ r. (r.0, words_of r.1.now)) o
        ≡ numbers_in (words_of line.now)) }
{
    let mut items = Vec::new(alloc);
    let mut left = line;
    'words: while let Some((word, more)) = next_word(left) {
        let Some(number) = signed_number(word) else {
            return Ok(None);
        };
        if number.size == 0 {
            return Ok(Some((Numbers::from_vec(items), more)));
        }
        items.push(number)?;
        left = more;
    }
    Ok(None)
}

/// The numbers up to 0, where nothing stands behind it.
fn only_numbers(alloc: Global, line: &[u8]) -> Result<Option<Numbers>, AllocError>
    ensures { IfOk result (λ o. o ≡ alone (numbers_in (words_of line.now))) }
{
    let Some((numbers, rest)) = numbers(alloc, line)? else {
        return Ok(None);
    };
    match next_word(rest) {
        Some(_) => Ok(None),
        None => Ok(Some(numbers)),
    }
}

/// The clause of these numbers, where each is of one of the first variables.
fn make_clause(
    alloc: Global,
    variables: u32,
    numbers: &[Number],
) -> Result<Option<Clause>, AllocError>
    ensures { IfOk result (λ o. o ≡ clause_in variables numbers.now) }
{
    let mut literals = Vec::new(alloc);
    for number in numbers {
        if number.size == 0 || number.size > variables as u64 {
            return Ok(None);
        }
        literals.push(Lit::new(number.size, !number.negative))?;
    }
    Ok(Some(Clause::from_vec(literals)))
}

/// A line that adds a clause under this number, behind the number.
fn added(
    alloc: Global,
    variables: u32,
    number: u64,
    line: &[u8],
) -> Result<Option<Step>, AllocError>
    ensures { IfOk result (λ o. o ≡ added_in variables number (words_of line.now)) }
{
    let Some((literals, rest)) = numbers(alloc, line)? else {
        return Ok(None);
    };
    let Some(clause) = make_clause(alloc, variables, literals.as_slice())? else {
        return Ok(None);
    };
    let Some(hints) = only_numbers(alloc, rest)? else {
        return Ok(None);
    };
    Ok(Some(Step::Add {
        number,
        clause,
        hints,
    }))
}

/// The number at a place, counted from 0.
pub(crate) fn number_at(numbers: &[Number], place: usize) -> Number
    requires { place < length numbers.now }
    ensures { slice_get numbers.now place ≡ Some result }
{
    numbers[place]
}

/// Whether one of the numbers has a minus.
pub(crate) fn are_signed(numbers: &[Number]) -> bool
    ensures { result ≡ are_signed numbers.now }
{
    numbers.iter().any(|number| number.negative)
}

/// A line that deletes clauses, behind its `d`.
fn deleted(alloc: Global, line: &[u8]) -> Result<Option<Step>, AllocError>
    ensures { IfOk result (λ o. o ≡ deleted_in (words_of line.now)) }
{
    let Some(numbers) = only_numbers(alloc, line)? else {
        return Ok(None);
    };
    if are_signed(numbers.as_slice()) {
        return Ok(None);
    }
    Ok(Some(Step::Delete(numbers)))
}

/// What a line says, where it says something.
pub(crate) fn read_step(
    alloc: Global,
    variables: u32,
    line: &[u8],
) -> Result<Option<Step>, AllocError>
    ensures { IfOk result (λ o. o ≡ step_of variables (words_of line.now)) }
{
    let Some((word, rest)) = next_word(line) else {
        return Ok(None);
    };
    let Some(number) = whole(word) else {
        return Ok(None);
    };
    let Some((second, behind)) = next_word(rest) else {
        return Ok(None);
    };
    if second == b"d".as_slice() {
        return deleted(alloc, behind);
    }
    added(alloc, variables, number, rest)
}
