//! LRAT texts, checked as they come in pieces.

ghost use Rattle.std.specs.Prelude.{◌≡◌, ◌↔◌, ◌∷◌, ◌++◌, [], ℕ, true, List, Ok, MatchResult, IfOk, OnOk};
ghost use Rattle.std.specs.List.{list_any};
ghost use Rattle.cnf_base.specs.Literals.{Literal};
ghost use Rattle.dimacs_front.specs.Cnf.{StopsAt, CnfValue, IsUnsatisfiable};
ghost use Rattle.dimacs_front.specs.Lrat.{TableValue, is_empty, leads, is_good, with_added, judge_line, nothing_judged, lrat_on_lines, lrat_goes_on, lrat_of};
ghost use Rattle.dimacs_front.specs.Marks.{AreMarked};
ghost use Rattle.dimacs_front.specs.Chains.{BeginsWithChain};
ghost use Rattle.dimacs_front.specs.declared.number.Number.{Number as NumberValue};

use crate::cnf::Cnf;
use crate::lines::take_line;
use crate::marks::Marks;
use crate::number::{Number, begins_with, next_word};
use crate::shape::{Shape, shape_of};
use crate::step::{Step, are_signed, number_at, read_step};
use crate::stop::Stop;
use crate::table::Table;
use cnf_base::Lit;
use smt_text::text::Text;
use std::alloc::{AllocError, Global};
use std::marker::Model;

/// What is wrong with a line.
#[derive(Clone, Copy, Debug, PartialEq, Eq)]
pub enum LratKind {
    /// It neither adds a clause nor deletes some.
    Proof,
    /// The number of the clause that it adds is not above all before.
    Order,
    /// A hint has a minus.
    Rat,
    /// The hints do not lead to a clause that is false.
    Chain,
    /// At the end there was no empty clause.
    Empty,
}

/// A fault and its line, counted from 1.
#[derive(Clone, Copy, Debug, PartialEq, Eq)]
pub struct LratFault {
    pub line: u64,
    pub kind: LratKind,
}

/// Whether the hints lead from the marked literals to a clause that is false. Each that is passed
/// marks one more.
fn leads(table: &Table, trues: &mut Marks, hints: &[Number]) -> Result<bool, AllocError>
    ensures { (known : List Literal) → AreMarked trues.old known
        → IfOk result (λ b. b ≡ leads table.now known hints.now) }
{
    for place in 0..hints.len() {
        let hint = number_at(hints, place);
        let Some(clause) = table.held(hint.size) else {
            return Ok(false);
        };
        match shape_of(trues, clause) {
            Shape::AllFalse => return Ok(true),
            Shape::OneOpen(l) => trues.mark(l)?,
            Shape::Many => return Ok(false),
        }
    }
    Ok(false)
}

/// Whether the clause follows from those that are held, by its hints.
fn is_good(
    table: &Table,
    trues: &mut Marks,
    clause: &[Lit],
    hints: &[Number],
) -> Result<bool, AllocError>
    ensures { IfOk result (λ b. b ≡ is_good table.now clause.now hints.now) }
{
    if trues.mark_opposites(clause)? {
        return Ok(true);
    }
    leads(table, trues, hints)
}

/// The clauses that are held, and whether an empty clause was among the first or was added.
#[derive(Drop)]
struct Judge {
    table: Table,
    is_refuted: bool,
    marks: Marks,
}

impl Model for Judge {
    ghost use Rattle.dimacs_front.specs.Lrat.{Judging};

    ghost Value = { Judging };

    ghost view = { λ j. record { table = j.table; is_refuted = j.is_refuted } };
}

impl Judge {
    /// Whether an empty clause was among the first or was added.
    fn is_refuted(&self) -> bool
        ensures { result ≡ self.now.is_refuted }
    {
        self.is_refuted
    }

    /// Takes a line that adds a clause.
    fn add(&mut self, number: u64, clause: &[Lit], hints: &[Number]) -> Result<(), Stop<LratKind>>
        ensures { MatchResult result
            (λ _. with_added self.old number clause.now hints.now ≡ Ok self.new)
            (StopsAt (with_added self.old number clause.now hints.now)) }
    {
        if number <= self.table.len() as u64 {
            return Err(Stop::Fault(LratKind::Order));
        }
        if are_signed(hints) {
            return Err(Stop::Fault(LratKind::Rat));
        }
        if !is_good(&self.table, &mut self.marks, clause, hints)? {
            return Err(Stop::Fault(LratKind::Chain));
        }
        self.table.add(number, clause)?;
        self.is_refuted = self.is_refuted || clause.is_empty();
        Ok(())
    }

    /// Takes a whole line.
    fn take_line(
        &mut self,
        alloc: Global,
        variables: u32,
        line: &[u8],
    ) -> Result<(), Stop<LratKind>>
        ensures { MatchResult result (λ _. judge_line variables self.old line.now ≡ Ok self.new)
            (StopsAt (judge_line variables self.old line.now)) }
    {
        if begins_with(b'c', line) || next_word(line).is_none() {
            return Ok(());
        }
        match read_step(alloc, variables, line)? {
            Some(
                Step::Add {
                    number,
                    clause,
                    hints,
                },
            ) => self.add(number, clause.literals(), hints.as_slice()),
            Some(Step::Delete(numbers)) => {
                self.table.remove(numbers.as_slice());
                Ok(())
            }
            None => Err(Stop::Fault(LratKind::Proof)),
        }
    }
}

/// Whether one of the clauses is empty.
fn has_empty(cnf: &Cnf) -> bool
    ensures { result ≡ list_any is_empty cnf.now.clauses }
{
    for place in 0..cnf.len() {
        if cnf.clause(place).is_empty() {
            return true;
        }
    }
    false
}

/// Checks that a text refutes some clauses. The text comes in pieces. After an error it is only
/// dropped.
#[derive(Drop)]
pub struct LratChecker {
    alloc: Global,
    variables: u32,
    /// How many whole lines were read.
    lines: u64,
    judge: Judge,
    /// The bytes of the line that is begun.
    begun: Text,
}

impl Model for LratChecker {
    ghost use Rattle.dimacs_front.specs.Lrat.{Judged};

    ghost Value = { Judged };

    ghost view = { λ c. record {
      variables = c.variables;
      lines = c.lines;
      judging = c.judge;
      begun = c.begun;
    } };
}

impl LratChecker {
    /// All clauses are held, and nothing was read yet.
    pub fn new(alloc: Global, cnf: Cnf) -> Result<LratChecker, AllocError>
        ensures { IfOk result (λ c. c ≡ nothing_judged cnf) }
    {
        let variables = cnf.variables();
        let is_refuted = has_empty(&cnf);
        let table = Table::new(alloc, cnf.into_rows())?;
        Ok(LratChecker {
            alloc,
            variables,
            lines: 0,
            judge: Judge {
                table,
                is_refuted,
                marks: Marks::new(alloc),
            },
            begun: Text::new(alloc),
        })
    }

    /// Takes the line that was begun, which is whole.
    fn end_line(&mut self) -> Result<(), Stop<LratFault>>
        ensures lines { (rest : List (List ℕ)) → MatchResult result
            (λ _. lrat_on_lines self.old (self.old.begun ∷ rest) ≡ lrat_on_lines self.new rest)
            (StopsAt (lrat_on_lines self.old (self.old.begun ∷ rest))) }
        ensures begun { OnOk result (self.new.begun ≡ []) }
    {
        if self.lines == u64::MAX {
            return Err(Stop::NoMemory);
        }
        let line = self.lines + 1;
        self.lines = line;
        match self
            .judge
            .take_line(self.alloc, self.variables, self.begun.as_slice())
        {
            Ok(()) => {}
            Err(Stop::Fault(kind)) => return Err(Stop::Fault(LratFault { line, kind })),
            Err(Stop::NoMemory) => return Err(Stop::NoMemory),
        }
        self.begun.clear();
        Ok(())
    }

    /// Takes the next piece of the text. The error is the first fault of the text, whatever stands
    /// behind the piece.
    pub fn feed(&mut self, piece: &[u8]) -> Result<(), Stop<LratFault>>
        ensures { (more : List ℕ) → MatchResult result
            (λ _. lrat_goes_on self.old (piece.now ++ more) ≡ lrat_goes_on self.new more)
            (StopsAt (lrat_goes_on self.old (piece.now ++ more))) }
    {
        let mut rest = piece;
        'lines: while let Some(behind) = take_line(&mut self.begun, rest)? {
            match self.end_line() {
                Ok(()) => {}
                Err(stop) => return Err(stop),
            }
            rest = behind;
        }
        Ok(())
    }

    /// Takes the line that the end of the text makes whole, where there is one.
    fn end_rest(&mut self) -> Result<(), Stop<LratFault>>
        ensures { MatchResult result (λ _. lrat_goes_on self.old [] ≡ lrat_on_lines self.new [])
            (StopsAt (lrat_goes_on self.old [])) }
    {
        if self.begun.len() == 0 {
            return Ok(());
        }
        self.end_line()
    }

    /// Whether a text of whole lines refutes the clauses.
    fn end(&self) -> Result<(), Stop<LratFault>>
        ensures { MatchResult result (λ _. lrat_on_lines self.now [] ≡ Ok tt)
            (StopsAt (lrat_on_lines self.now [])) }
    {
        if self.judge.is_refuted() {
            return Ok(());
        }
        if self.lines == u64::MAX {
            return Err(Stop::NoMemory);
        }
        Err(Stop::Fault(LratFault {
            line: self.lines + 1,
            kind: LratKind::Empty,
        }))
    }

    /// Ok where the text, which has come to its end, refutes the clauses, else its first fault.
    pub fn finish(&mut self) -> Result<(), Stop<LratFault>>
        ensures { MatchResult result (λ _. lrat_goes_on self.old [] ≡ Ok tt)
            (StopsAt (lrat_goes_on self.old [])) }
    {
        match self.end_rest() {
            Ok(()) => self.end(),
            Err(stop) => Err(stop),
        }
    }
}

/// A text that refutes clauses is right: no assignment makes them all true.
pub fn refutations_are_right()
    ensures { (cnf : CnfValue) (text : List ℕ) → lrat_of cnf text ≡ Ok tt → IsUnsatisfiable cnf }
{}

/// A line is good exactly where the first of its hints are a chain for its clause.
pub fn good_lines_have_chains()
    ensures { (t : TableValue) (clause : List Literal) (hints : List NumberValue)
        → (is_good t clause hints ≡ true) ↔ BeginsWithChain t clause hints }
{}
