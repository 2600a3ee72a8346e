// The terms that lines name, and the uses of rules and the lemmas that they say of them.

ghost use Rattle.std.specs.Prelude.{◌≡◌, ◌≤◌, ◌<◌, map, IfOk, MatchOption};
ghost use Rattle.std.specs.List.{AllByRecursion};
ghost use Rattle.bv_rules.specs.declared.rule.Rule.{Rule as RuleValue};
ghost use Rattle.bv_rules.specs.Numbers.{number_of};
ghost use Rattle.proof_text.specs.Entries.{written_move, written_start, written_access, lemma_line};
ghost use Rattle.proof_checker.specs.Naming.{IsStartOver, IsMoveOver, IsAccessOver, IsLemmaOver};

use bv_rules::rule::Rule;
use proof_log::entry::RuleUse;
use proof_text::line::Line;
use proof_text::list::{Letter, WrittenAccess, WrittenMove, WrittenStart};
use smt_terms::node::TermId;
use std::alloc::{AllocError, Global};
use theory_terms::lemma::{Access, Lemma, Move, Path, Start};

/// The term of this number, if it is held.
pub fn term_of(held: u32, number: u64) -> Option<TermId>
    ensures { MatchOption result (held ≤ number) (λ t. (t ≡ number) × (t < held)) }
{
    if number >= held as u64 {
        return None;
    }
    Some(number as u32)
}

/// The terms of these numbers, if both are held.
pub fn pair_of(held: u32, first: u64, second: u64) -> Option<(TermId, TermId)>
    ensures { MatchOption result
        ((first < held) × (second < held) → ⊥)
        (λ p. (p.0 ≡ first) × (p.1 ≡ second)) }
{
    let first = term_of(held, first)?;
    let second = term_of(held, second)?;
    Some((first, second))
}

/// The use of the rule of this number, if there is one, on the terms of these numbers, if both are
/// held.
pub fn use_of(held: u32, number: u64, from: u64, to: u64) -> Option<RuleUse>
    ensures { MatchOption result
        ((rule : RuleValue) → number_of rule ≡ number → (from < held) × (to < held) → ⊥)
        (λ used. (used.rule ≡ number) × (used.from ≡ from) × (used.to ≡ to)) }
{
    let rule = Rule::numbered(number)?;
    let (from, to) = pair_of(held, from, to)?;
    Some(RuleUse {
        rule: rule.number(),
        from,
        to,
    })
}

/// Where an access starts, if its terms are held.
fn start_of(held: u32, written: WrittenStart) -> Option<Start>
    ensures { MatchOption result (IsStartOver held written → ⊥) (λ s. written_start s ≡ written) }
{
    match written {
        WrittenStart::Term(number) => Some(Start::Term(term_of(held, number)?)),
        WrittenStart::Const(array, index) => {
            let (array, index) = pair_of(held, array, index)?;
            Some(Start::Const(array, index))
        }
    }
}

/// The move that is written, if its term is held.
fn move_of(held: u32, written: WrittenMove) -> Option<Move>
    ensures { MatchOption result (IsMoveOver held written → ⊥) (λ m. written_move m ≡ written) }
{
    let term = term_of(held, written.term)?;
    Some(match written.letter {
        Letter::Store => Move::Store(term),
        Letter::Then => Move::Then(term),
        Letter::Else => Move::Else(term),
        Letter::Sides => Move::Sides(term),
    })
}

/// The moves that are written, if their terms are held.
fn path_of(alloc: Global, held: u32, written: &[WrittenMove]) -> Result<Option<Path>, AllocError>
    ensures { IfOk result (λ o. MatchOption o
        (AllByRecursion (IsMoveOver held) written.now → ⊥)
        (λ p. map written_move p ≡ written.now)) }
{
    let mut made = Vec::new(alloc);
    for item in written {
        let Some(next) = move_of(held, *item) else {
            return Ok(None);
        };
        made.push(next)?;
    }
    Ok(Some(Path::from_vec(made)))
}

/// The access that is written, if its terms are held.
fn access_of(
    alloc: Global,
    held: u32,
    written: &WrittenAccess,
) -> Result<Option<Access>, AllocError>
    ensures { IfOk result (λ o. MatchOption o
        (IsAccessOver held written.now → ⊥) (λ a. written_access a ≡ written.now)) }
{
    let Some(start) = start_of(held, written.start) else {
        return Ok(None);
    };
    match path_of(alloc, held, written.moves.as_slice())? {
        Some(path) => Ok(Some(Access { start, path })),
        None => Ok(None),
    }
}

/// The lemma that a line says, if it says one and its terms are held.
pub fn lemma_of(alloc: Global, held: u32, line: &Line) -> Result<Option<Lemma>, AllocError>
    ensures { IfOk result (λ o. MatchOption o
        (IsLemmaOver held line.now → ⊥) (λ l. lemma_line l ≡ line.now)) }
{
    match line {
        Line::Congruence(first, second) => match pair_of(held, *first, *second) {
            Some((first, second)) => Ok(Some(Lemma::Congruence(first, second))),
            None => Ok(None),
        },
        Line::Witness(number) => match term_of(held, *number) {
            Some(term) => Ok(Some(Lemma::Witness(term))),
            None => Ok(None),
        },
        Line::Accesses(first, second) => {
            let Some(first) = access_of(alloc, held, first)? else {
                return Ok(None);
            };
            match access_of(alloc, held, second)? {
                Some(second) => Ok(Some(Lemma::Arrays(first, second))),
                None => Ok(None),
            }
        }
        _ => Ok(None),
    }
}
