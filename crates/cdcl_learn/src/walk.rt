//! The walk back over a trail that explains a conflict.

ghost use Rattle.std.specs.Prelude.{ℕ, ◌≡◌, ◌≢◌, ◌+◌, ◌<◌, ◌≤◌, ◌⊎◌, List, [], ◌∷◌, Some, None, IfOk, OnOk, MatchBool, MatchOption, Contains, length, reverse, IsTrue};
ghost use Rattle.cnf_base.specs.Literals.{Literal, negated};
ghost use Rattle.cdcl_core.specs.Search.{literals_of, clause_of};
ghost use Rattle.cdcl_core.specs.State.{IsConsistent, KeepsPlaces, IsSettled};
ghost use Rattle.cdcl_learn.specs.Rows.{literal_at, level_at, reason_at, IsFrontOf, IsHistory, IsRefutedIn};
ghost use Rattle.cdcl_learn.specs.Walks.{IsSet, IsMarked, IsWalk, IsResolved, IsExplained, IsTop, MeetsReasons};

use crate::marks::Marks;
use crate::minimizer::Minimizer;
use cdcl_core::{Row, Trail, Watches};
use cnf_base::{Clause, ClauseId, Lit};
use std::alloc::{AllocError, Global};

/// What a conflict rests on, and the clauses that say so.
#[derive(Drop)]
pub(crate) struct Walk {
    // by place: whether the conflict rests on the literal
    marks: Marks,
    // the clauses that were met, the conflict first
    hints: Vec<ClauseId>,
    minimizer: Minimizer,
}

// Whether the literal stands at a place.
fn stands_at(rows: &[Row], place: usize, l: Lit) -> bool
    ensures { MatchBool result ((place < length rows.now) × (literal_at rows.now place ≡ l))
        (place < length rows.now → literal_at rows.now place ≢ l) }
{
    if place >= rows.len() {
        return false;
    }
    rows[place].literal() == l
}

// The last place, if the literal stands there.
fn last_place(rows: &[Row], l: Lit) -> Option<usize>
    ensures { MatchOption result ((k : ℕ) → k + 1 ≡ length rows.now → literal_at rows.now k ≢ l)
        (λ k. (k < length rows.now) × (literal_at rows.now k ≡ l)) }
{
    let last = rows.len().saturating_sub(1);
    if stands_at(rows, last, l) {
        return Some(last);
    }
    None
}

// The place of a literal among rows that are the trail's but for the last one.
fn place_of(trail: &Trail, rows: &[Row], l: Lit) -> Option<usize>
    requires trail { IsConsistent trail.now }
    requires places { KeepsPlaces trail.now }
    requires front { IsFrontOf (literals_of trail.now) rows.now }
    ensures { MatchOption result ((k : ℕ) → k < length rows.now → literal_at rows.now k ≢ l)
        (λ k. (k < length rows.now) × (literal_at rows.now k ≡ l)) }
{
    let Some(place) = trail.place(l) else {
        return last_place(rows, l);
    };
    let last = rows.len().saturating_sub(1);
    if place < last {
        return Some(place);
    }
    last_place(rows, l)
}

// Marks the places of the false literals of the clause.
fn mark(trail: &Trail, marks: &mut Marks, clause: &[Lit], rows: &[Row])
    requires trail { IsConsistent trail.now }
    requires places { KeepsPlaces trail.now }
    requires front { IsFrontOf (literals_of trail.now) rows.now }
    requires once { (i k : ℕ) → i < length rows.now → k < length rows.now
        → literal_at rows.now i ≡ literal_at rows.now k → i ≡ k }
    requires size { length marks.old ≡ length rows.now }
    ensures { IsMarked rows.now clause.now marks.old marks.new }
{
    for l in clause {
        if let Some(place) = place_of(trail, rows, l.negated()) {
            marks.set(place);
        }
    }
}

impl Walk {
    /// Rests on the literals of a false clause.
    pub(crate) fn start(
        alloc: Global,
        watches: &Watches,
        trail: &Trail,
        rows: &[Row],
        conflict: ClauseId,
    ) -> Result<Walk, AllocError>
        requires settled { IsSettled watches.now trail.now }
        requires front { IsFrontOf (literals_of trail.now) rows.now }
        requires history { IsHistory (clause_of watches.now) rows.now }
        requires conflict { IsRefutedIn (clause_of watches.now) rows.now conflict }
        ensures walk { IfOk result (λ w. IsWalk (clause_of watches.now) rows.now w) }
        ensures first { IfOk result (λ w. w.hints.items ≡ conflict ∷ []) }
        ensures marked { IfOk result (λ w. (c : List Literal)
            → clause_of watches.now conflict ≡ Some c → (p : ℕ) → p < length rows.now
            → Contains c (negated (literal_at rows.now p)) → IsSet w.marks p) }
    {
        let mut marks = Marks::new(alloc, rows.len())?;
        let mut hints = Vec::with_capacity(alloc, 64)?;
        hints.push(conflict)?;
        let Some(clause) = watches.clause(conflict) else {
            return Err(AllocError);
        };
        mark(trail, &mut marks, clause.literals(), rows);
        Ok(Walk {
            marks,
            hints,
            minimizer: Minimizer::new(alloc, rows.len())?,
        })
    }

    /// Rests on the other literals of the clause that forced a marked literal, in place of its opposite.
    pub(crate) fn resolve(
        &mut self,
        watches: &Watches,
        trail: &Trail,
        rows: &[Row],
        i: usize,
    ) -> Result<(), AllocError>
        requires settled { IsSettled watches.now trail.now }
        requires front { IsFrontOf (literals_of trail.now) rows.now }
        requires history { IsHistory (clause_of watches.now) rows.now }
        requires walk { IsWalk (clause_of watches.now) rows.now self.old }
        requires within { i < length rows.now }
        requires marked { IsSet self.old.marks i }
        requires forced { reason_at rows.now i ≢ None }
        ensures walk { OnOk result (IsWalk (clause_of watches.now) rows.now self.new) }
        ensures resolved { OnOk result (IsResolved i self.old.marks self.new.marks) }
        ensures met { OnOk result
            (MeetsReasons rows.now self.old.hints.items self.new.hints.items) }
    {
        let Some(id) = rows[i].reason() else {
            return Ok(());
        };
        let Some(clause) = watches.clause_at(trail, i, id) else {
            return Ok(());
        };
        self.marks.unset(i);
        mark(trail, &mut self.marks, clause.literals(), rows);
        self.hints.push(id)?;
        Ok(())
    }

    /// The end of the last marked place before `end`, 0 where there is none.
    pub(crate) fn top(&self, end: usize) -> usize
        requires { end ≤ length self.now.marks }
        ensures { IsTop self.now.marks end result }
    {
        self.marks.top(end)
    }

    // Whether the literal of a place is to be resolved: each one where `whole` is true, else one that is true at level 0, or
    // follows from marked ones.
    fn goes(
        &mut self,
        watches: &Watches,
        trail: &Trail,
        rows: &[Row],
        i: usize,
        whole: bool,
    ) -> Result<bool, AllocError>
        requires settled { IsSettled watches.now trail.now }
        requires within { i < length rows.now }
        ensures marks { self.new.marks ≡ self.old.marks }
        ensures hints { self.new.hints ≡ self.old.hints }
        ensures whole { IfOk result (λ b. ((IsTrue whole) ⊎ (level_at rows.now i ≡ 0)) → IsTrue b) }
    {
        if whole || rows[i].level() == 0 {
            return Ok(true);
        }
        self.minimizer.rests(watches, trail, &self.marks, i)
    }

    // Resolves the literal of a place, if it is marked, has a reason, and is to be resolved.
    fn visit(
        &mut self,
        watches: &Watches,
        trail: &Trail,
        rows: &[Row],
        i: usize,
        whole: bool,
    ) -> Result<(), AllocError>
        requires settled { IsSettled watches.now trail.now }
        requires front { IsFrontOf (literals_of trail.now) rows.now }
        requires history { IsHistory (clause_of watches.now) rows.now }
        requires walk { IsWalk (clause_of watches.now) rows.now self.old }
        requires within { i < length rows.now }
        ensures walk { OnOk result (IsWalk (clause_of watches.now) rows.now self.new) }
        ensures explained { OnOk result (IsExplained (i + 1) self.old.marks self.new.marks) }
        ensures met { OnOk result
            (MeetsReasons rows.now self.old.hints.items self.new.hints.items) }
        ensures whole { OnOk result (((IsTrue whole) ⊎ (level_at rows.now i ≡ 0))
            → IsSet self.new.marks i → reason_at rows.now i ≡ None) }
    {
        if !self.marks.has(i) {
            return Ok(());
        }
        if rows[i].reason().is_none() {
            return Ok(());
        }
        if self.goes(watches, trail, rows, i, whole)? {
            return self.resolve(watches, trail, rows, i);
        }
        Ok(())
    }

    /// Goes back from the place before `end`, and resolves every marked literal that has a reason where `whole` is true,
    /// else those of level 0 and those that make the clause shorter.
    pub(crate) fn explain(
        &mut self,
        watches: &Watches,
        trail: &Trail,
        rows: &[Row],
        end: usize,
        whole: bool,
    ) -> Result<(), AllocError>
        requires settled { IsSettled watches.now trail.now }
        requires front { IsFrontOf (literals_of trail.now) rows.now }
        requires history { IsHistory (clause_of watches.now) rows.now }
        requires walk { IsWalk (clause_of watches.now) rows.now self.old }
        requires within { end ≤ length rows.now }
        ensures walk { OnOk result (IsWalk (clause_of watches.now) rows.now self.new) }
        ensures explained { OnOk result (IsExplained end self.old.marks self.new.marks) }
        ensures met { OnOk result
            (MeetsReasons rows.now self.old.hints.items self.new.hints.items) }
        ensures whole { OnOk result ((p : ℕ) → p < end
            → ((IsTrue whole) ⊎ (level_at rows.now p ≡ 0)) → IsSet self.new.marks p
            → reason_at rows.now p ≡ None) }
    {
        self.minimizer.keep_levels(rows, &self.marks, rows.len());
        let mut i = self.top(end);
        'back: while i > 0 {
            self.visit(watches, trail, rows, i - 1, whole)?;
            i = self.top(i - 1);
        }
        Ok(())
    }

    /// The opposites of the marked literals, those that became true last first: they are open first after the search went back,
    /// and the scan for a literal to watch begins with them.
    pub(crate) fn clause(&self, alloc: Global, rows: &[Row]) -> Result<Clause, AllocError>
        requires { length self.now.marks ≡ length rows.now }
        ensures each { IfOk result (λ c. (p : ℕ) → p < length rows.now → IsSet self.now.marks p
            → Contains c (negated (literal_at rows.now p))) }
        ensures only { IfOk result (λ c. (l : Literal) → Contains c l → (p : ℕ)
            × ((p < length rows.now)
            × (IsSet self.now.marks p × (l ≡ negated (literal_at rows.now p))))) }
    {
        let mut literals: Vec<Lit> = Vec::with_capacity(alloc, 64)?;
        let mut i = self.top(rows.len());
        'back: while i > 0 {
            literals.push(rows[i - 1].literal().negated())?;
            i = self.top(i - 1);
        }
        let exact = Vec::from_slice(alloc, literals.as_slice())?;
        Ok(Clause::from_vec(exact))
    }

    /// The hints, in the order of a chain.
    pub(crate) fn into_hints(self) -> Vec<ClauseId>
        ensures { result.items ≡ reverse self.hints.items }
    {
        let mut hints = self.hints;
        hints.reverse();
        hints
    }
}
