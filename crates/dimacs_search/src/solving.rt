//! The search of the clauses of a DIMACS text.

ghost use Rattle.std.specs.Prelude.{◌≡◌, ◌+◌, ◌<◌, ◌≤◌, ◌++◌, [], ℕ, List, Ok, IfOk, IfErr, OnOk, MatchResult, length};
ghost use Rattle.std.specs.Io.KnownBytes.{Appends};
ghost use Rattle.smt_desk.specs.Faults.{Rose};
ghost use Rattle.cdcl_loop.specs.Values.{valuation};
ghost use Rattle.dimacs_front.specs.Cnf.{CnfValue, cnf_of};
ghost use Rattle.dimacs_search.specs.Efforts.{IsCounted};
ghost use Rattle.dimacs_search.specs.Solving.{HaveTheirVariables, IsEnd, AddsTo, HasCause, assignment};

use crate::learning::{close, learn, next_conflict, put_unit};
use crate::loading::load;
use crate::outcome::{Failure, Outcome};
use crate::rare::Rare;
use cdcl_loop::{Effort, Engine};
use cnf_base::{Lit, Pos};
use dimacs_front::cnf::Cnf;
use dimacs_front::number::NUMBER_LIMIT;
use smt_desk::stream::{Sink, write_whole};
use smt_text::text::Text;
use std::alloc::{AllocError, Global};

/// How many bytes of lines wait before they are written.
const PIECE: usize = 1 << 18;

/// Writes the lines that wait.
fn write_lines<W: Sink>(sink: &mut W, lines: &mut Text) -> Result<(), Failure>
    ensures told { MatchResult result
        (λ _. Appends (W.written sink.old) (W.written sink.new) lines.old × (lines.new ≡ []))
        (λ _. AddsTo (W.written sink.old) (W.written sink.new)) }
    ensures later { W.faults sink.old ≤ W.faults sink.new }
    ensures cause { IfErr result (HasCause (W.faults sink.old) (W.faults sink.new)) }
{
    match write_whole(sink, lines.as_slice()) {
        Ok(()) => {
            lines.clear();
            Ok(())
        }
        Err(_) => Err(Failure::Unwritten),
    }
}

/// Writes the lines that wait, where they are many.
fn write_piece<W: Sink>(sink: &mut W, lines: &mut Text) -> Result<(), Failure>
    ensures told { MatchResult result
        (λ _. (told : List ℕ) × Appends (W.written sink.old) (W.written sink.new) told
        × (lines.old ≡ told ++ lines.new))
        (λ _. AddsTo (W.written sink.old) (W.written sink.new)) }
    ensures later { W.faults sink.old ≤ W.faults sink.new }
    ensures cause { IfErr result (HasCause (W.faults sink.old) (W.faults sink.new)) }
{
    if lines.len() < PIECE {
        return Ok(());
    }
    write_lines(sink, lines)
}

/// The values of the variables, that of variable 1 first.
fn values_of(alloc: Global, engine: &Engine, variables: u32) -> Result<Vec<bool>, AllocError>
    ensures count { IfOk result (λ v. length v.items ≡ variables) }
    ensures values { IfOk result (λ v. (x : ℕ) → 0 < x → x ≤ variables
        → assignment v.items x ≡ valuation engine.now.trail x) }
{
    let mut values = Vec::new(alloc);
    'variables: for variable in 1..u64::from(variables) + 1 {
        values.push(engine.is_true(Lit::new(variable, true)))?;
    }
    Ok(values)
}

/// The number behind those of so many clauses.
fn number_behind(clauses: usize) -> Result<Pos, AllocError>
    ensures { IfOk result (λ n. n ≡ clauses + 1) }
{
    if clauses == usize::MAX {
        return Err(AllocError);
    }
    Ok(clauses as Pos + 1)
}

/// Searches the clauses until values are found under which each of them is true, or a refutation of them is written, by LRAT. The
/// clauses that are learnt have the numbers behind the first ones. Lines are written in large pieces, and none is kept. The effort is
/// what the engine has counted where it ends so, and else stays.
///
/// Want of memory is also the answer where a number of 2^60 would be needed.
pub fn solve_counting<W: Sink>(
    alloc: Global,
    cnf: Cnf,
    refutation: &mut W,
    effort: &mut Effort,
) -> Result<Outcome, Failure>
    requires { HaveTheirVariables cnf }
    // The values make each clause true, or a checker accepts what was written.
    ensures end { IfOk result
        (IsEnd cnf (W.written refutation.old) (W.written refutation.new)) }
    ensures added { AddsTo (W.written refutation.old) (W.written refutation.new) }
    // An engine that holds the clauses has counted this.
    ensures effort { IfOk result (λ _. IsCounted cnf effort.new) }
    // A failure is answered only where the count rose.
    ensures later { W.faults refutation.old ≤ W.faults refutation.new }
    ensures cause { IfErr result
        (HasCause (W.faults refutation.old) (W.faults refutation.new)) }
{
    let mut engine = load(alloc, &cnf)?;
    let variables = cnf.variables();
    let first = number_behind(cnf.len())?;
    drop(cnf);
    let mut lines = Text::new(alloc);
    let mut rare = Rare::new(alloc, first);
    'conflicts: for number in first..NUMBER_LIMIT {
        if put_unit(&mut engine, &mut lines, number)? {
            write_piece(refutation, &mut lines)?;
            continue;
        }
        let Some(conflict) = next_conflict(&mut engine)? else {
            let values = values_of(alloc, &engine, variables)?;
            *effort = engine.effort();
            return Ok(Outcome::Satisfiable(values));
        };
        if engine.level() == engine.base() {
            close(&engine, &mut lines, conflict, number)?;
            write_lines(refutation, &mut lines)?;
            *effort = engine.effort();
            return Ok(Outcome::Unsatisfiable);
        }
        learn(&mut engine, &mut lines, conflict, number)?;
        engine.restart();
        rare.look(&mut engine, number)?;
        write_piece(refutation, &mut lines)?;
    }
    Err(Failure::NoMemory)
}

/// The same, where the effort is not asked for.
pub fn solve<W: Sink>(alloc: Global, cnf: Cnf, refutation: &mut W) -> Result<Outcome, Failure>
    requires { HaveTheirVariables cnf }
    ensures end { IfOk result
        (IsEnd cnf (W.written refutation.old) (W.written refutation.new)) }
    ensures added { AddsTo (W.written refutation.old) (W.written refutation.new) }
    ensures later { W.faults refutation.old ≤ W.faults refutation.new }
    ensures cause { IfErr result
        (HasCause (W.faults refutation.old) (W.faults refutation.new)) }
{
    let mut effort = Effort::none();
    solve_counting(alloc, cnf, refutation, &mut effort)
}

/// The clauses that a text says have no other variables than it says.
pub fn read_clauses_have_their_variables()
    ensures { (text : List ℕ) (cnf : CnfValue) → cnf_of text ≡ Ok cnf → HaveTheirVariables cnf }
{}
