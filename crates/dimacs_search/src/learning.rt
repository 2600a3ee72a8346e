//! What a search does between and at conflicts.

ghost use Rattle.std.specs.Prelude.{◌≡◌, ◌+◌, ◌<◌, ◌++◌, [], ℕ, List, Ok, Some, IfOk, OnOk, MatchOption, if◌then◌else◌};
ghost use Rattle.cnf_base.specs.Literals.{Literal};
ghost use Rattle.cnf_base.specs.declared.clause.ClauseId.{ClauseId as Name};
ghost use Rattle.cdcl_core.specs.Search.{literals_of, level_of, clause_of, held_of, IsAtRest, IsConflict};
ghost use Rattle.cdcl_loop.specs.Courses.{AreValued};
ghost use Rattle.cdcl_loop.specs.Engines.{IsEngine, IsOnCourse, IsSameTask, IsSameStore};
ghost use Rattle.dimacs_front.specs.Cnf.{CnfValue};
ghost use Rattle.dimacs_front.specs.Lrat.{lrat_of};
ghost use Rattle.dimacs_search.specs.Writing.{IsWritable};
ghost use Rattle.dimacs_search.specs.Searching.{AreFresh, IsRead};

use crate::writing::push_added;
use cdcl_learn::Clash;
use cdcl_loop::Engine;
use cnf_base::{ClauseId, Pos};
use smt_text::text::Text;
use std::alloc::AllocError;

/// Propagates and decides until a held clause is false, or each listed variable has a value.
pub(crate) fn next_conflict(engine: &mut Engine) -> Result<Option<ClauseId>, AllocError>
    requires engine { IsEngine engine.old }
    requires course { IsOnCourse engine.old }
    requires free { engine.old.given.items ≡ [] }
    ensures engine { OnOk result (IsEngine engine.new) }
    ensures course { OnOk result (IsOnCourse engine.new) }
    ensures task { IsSameTask engine.old engine.new }
    ensures store { IsSameStore engine.old.watches engine.new.watches }
    ensures end { IfOk result (λ o. MatchOption o
        (IsAtRest engine.new.watches engine.new.trail
        × AreValued engine.new.agenda.list (literals_of engine.new.trail)
        (level_of engine.new.trail)) (IsConflict engine.new.watches engine.new.trail)) }
{
    'decisions: for _ in 0..u64::MAX {
        if let Some(id) = engine.propagate() {
            return Ok(Some(id));
        }
        if !engine.decide()? {
            return Ok(None);
        }
    }
    Err(AllocError)
}

/// At level 0, where a longer clause forced a literal: the clause of that alone is held under this number, from now on for the
/// one that forced it, and its line comes behind the others. Tells whether.
pub(crate) fn put_unit(
    engine: &mut Engine,
    lines: &mut Text,
    number: Pos,
) -> Result<bool, AllocError>
    requires engine { IsEngine engine.old }
    requires fresh { AreFresh engine.old.watches number }
    requires number { IsWritable number }
    ensures engine { OnOk result (IsEngine engine.new) }
    ensures course { OnOk result (IsOnCourse engine.old → IsOnCourse engine.new) }
    ensures task { OnOk result (IsSameTask engine.old engine.new) }
    ensures held { OnOk result ((id : Name) (c : List Literal)
        → held_of engine.old.watches id ≡ Some c → held_of engine.new.watches id ≡ Some c) }
    ensures read { IfOk result (λ put. (cnf : CnfValue) (told : List ℕ)
        → IsRead cnf (clause_of engine.old.watches) number (told ++ lines.old)
        → IsRead cnf (clause_of engine.new.watches) (if put then number + 1 else number)
        (told ++ lines.new)) }
{
    if engine.level() != 0 {
        return Ok(false);
    }
    if engine.propagate().is_some() {
        return Ok(false);
    }
    let Some((place, clause, hints)) = engine.next_unit()? else {
        return Ok(false);
    };
    push_added(lines, number, clause.literals(), hints.as_slice())?;
    engine.keep_unit(clause, place, number)?;
    Ok(true)
}

/// Learns from a conflict above level 0: the clause is held under this number, and its line comes behind the others.
pub(crate) fn learn(
    engine: &mut Engine,
    lines: &mut Text,
    conflict: ClauseId,
    number: Pos,
) -> Result<(), AllocError>
    requires engine { IsEngine engine.old }
    requires conflict { IsConflict engine.old.watches engine.old.trail conflict }
    requires above { 0 < level_of engine.old.trail }
    requires fresh { AreFresh engine.old.watches number }
    requires number { IsWritable number }
    ensures engine { OnOk result (IsEngine engine.new) }
    ensures course { OnOk result (IsOnCourse engine.old → IsOnCourse engine.new) }
    ensures task { OnOk result (IsSameTask engine.old engine.new) }
    ensures held { OnOk result ((id : Name) (c : List Literal)
        → held_of engine.old.watches id ≡ Some c → held_of engine.new.watches id ≡ Some c) }
    ensures read { OnOk result ((cnf : CnfValue) (told : List ℕ)
        → IsRead cnf (clause_of engine.old.watches) number (told ++ lines.old)
        → IsRead cnf (clause_of engine.new.watches) (number + 1) (told ++ lines.new)) }
{
    let (clause, hints, level) = engine.learn(conflict)?;
    push_added(lines, number, clause.literals(), hints.as_slice())?;
    engine.keep(clause, level, number)
}

/// The line of the empty clause comes behind the others, where a held clause is false and nothing was decided.
pub(crate) fn close(
    engine: &Engine,
    lines: &mut Text,
    conflict: ClauseId,
    number: Pos,
) -> Result<(), AllocError>
    requires engine { IsEngine engine.now }
    requires course { IsOnCourse engine.now }
    requires free { engine.now.given.items ≡ [] }
    requires conflict { IsConflict engine.now.watches engine.now.trail conflict }
    requires base { level_of engine.now.trail ≡ engine.now.base }
    requires number { IsWritable number }
    ensures { OnOk result ((cnf : CnfValue) (told : List ℕ)
        → IsRead cnf (clause_of engine.now.watches) number (told ++ lines.old)
        → lrat_of cnf (told ++ lines.new) ≡ Ok tt) }
{
    let (clause, hints) = engine.final_clause(Clash::Held(conflict))?;
    push_added(lines, number, clause.literals(), hints.as_slice())
}
