//! Lines of an LRAT text.

ghost use Rattle.std.specs.Prelude.{◌≡◌, ◌++◌, ◌∷◌, [], ℕ, List, OnOk, map};
ghost use Rattle.cnf_base.specs.Literals.{Literal};
ghost use Rattle.cnf_base.specs.declared.clause.ClauseId.{ClauseId as Name};
ghost use Rattle.dimacs_front.specs.Lrat.{Judged, lrat_goes_on};
ghost use Rattle.dimacs_search.specs.Writing.{number_text, added_text, MayBeAdded, with_line};

use cnf_base::{ClauseId, Lit};
use smt_text::number::push_number;
use smt_text::text::Text;
use std::alloc::AllocError;

/// Appends a number behind a blank, with a minus where it is negative.
fn push_word(out: &mut Text, size: u64, negative: bool) -> Result<(), AllocError>
    ensures { OnOk result (out.new
        ≡ out.old ++ 32 ∷ number_text (record { size = size; negative = negative })) }
{
    out.push(b' ')?;
    if negative {
        out.push(b'-')?;
    }
    push_number(out, size)
}

/// Appends the line that adds a clause under a number, with the numbers of its hints.
pub fn push_added(
    out: &mut Text,
    number: u64,
    clause: &[Lit],
    hints: &[ClauseId],
) -> Result<(), AllocError>
    ensures { OnOk result (out.new ≡ out.old ++ added_text number clause.now hints.now) }
{
    push_number(out, number)?;
    'literals: for literal in clause {
        push_word(out, literal.variable(), !literal.is_positive())?;
    }
    push_word(out, 0, false)?;
    'names: for id in hints {
        push_word(out, id.pos, false)?;
    }
    push_word(out, 0, false)?;
    out.push(b'\n')
}

/// Where a clause may be added, a checker that reads this line goes on as if it had been.
pub fn added_lines_read_back()
    ensures { (j : Judged) (number : ℕ) (clause : List Literal) (hints : List Name)
        (rest : List ℕ) → j.begun ≡ [] → MayBeAdded j number clause hints
        → lrat_goes_on j (added_text number clause hints ++ rest)
        ≡ lrat_goes_on (with_line j number clause) rest }
{}
