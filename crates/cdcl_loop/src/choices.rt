//! What a search chooses: variables, signs, restarts, and the clauses that it drops.

ghost use Rattle.std.specs.Prelude.{◌≡◌, IfSome, Contains};
ghost use Rattle.cdcl_core.specs.Levels.{IsOpen};
ghost use Rattle.cdcl_core.specs.Search.{literals_of, level_of};
ghost use Rattle.cdcl_core.specs.State.{IsConsistent, IsSettled};
ghost use Rattle.cdcl_loop.specs.Counts.{no_effort, with_conflict};

use crate::effort::Effort;
use cdcl_core::{Row, Trail, Watches};
use cnf_base::{ClauseId, Lit, Pos};
use search_heuristics::{
    GlueCounter, Learnt, Phases, Restarts, VariableOrder, drops_are_due, worse_half,
};
use std::alloc::{AllocError, Global};
use variable_list::VariableList;

/// The state of the choices.
#[derive(Drop)]
pub struct Choices {
    alloc: Global,
    order: VariableOrder,
    phases: Phases,
    restarts: Restarts,
    counter: GlueCounter,
    // by variable: the number of the last conflict that met it
    met: Vec<u64>,
    pub(crate) effort: Effort,
    // the chains that may be dropped, mostly in order, with their worth: those that were learnt, and those that were taken
    chains: Vec<Pos>,
    learnt: Vec<Learnt>,
    // each place of the trail before this one was looked at at level 0
    fixed: usize,
}

// The level at which the variable of a literal got its value, 0 where it has none.
fn level_at(trail: &Trail, literal: Lit) -> u64 {
    (trail.stamp(literal) | trail.stamp(literal.negated())).saturating_sub(1)
}

// Whether the variable of one of the literals got its value at the level.
fn reaches(trail: &Trail, literals: &[Lit], level: u64) -> bool {
    for literal in literals {
        if level_at(trail, *literal) == level {
            return true;
        }
    }
    false
}

// The hints behind the last one that has no literal of the level.
fn last_of_level<'a>(
    watches: &Watches,
    trail: &Trail,
    hints: &'a [ClauseId],
    level: u64,
) -> &'a [ClauseId] {
    for i in (0..hints.len()).rev() {
        if let Some(found) = watches.clause(hints[i]) {
            if !reaches(trail, found.literals(), level) {
                return &hints[i + 1..];
            }
        }
    }
    hints
}

impl Choices {
    /// For no variable.
    pub(crate) fn new(alloc: Global) -> Choices
        ensures { result.effort ≡ no_effort }
    {
        Choices {
            alloc,
            order: VariableOrder::new(alloc),
            phases: Phases::new(alloc),
            restarts: Restarts::new(),
            counter: GlueCounter::new(alloc),
            met: Vec::new(alloc),
            effort: Effort::none(),
            chains: Vec::new(alloc),
            learnt: Vec::new(alloc),
            fixed: 0,
        }
    }

    /// Has a row for the variable in each table. Where one comes, more come with it, so that this is seldom.
    pub(crate) fn reserve(&mut self, variable: u64) -> Result<(), AllocError>
        ensures effort { self.new.effort ≡ self.old.effort }
    {
        if variable < self.met.len() as u64 {
            return Ok(());
        }
        let more = variable / 4;
        let rows = variable.saturating_add(more).saturating_add(64) as usize;
        self.order.reserve(rows)?;
        self.phases.reserve(rows)?;
        self.met.resize(rows, 0)?;
        Ok(())
    }

    /// Forgets what late conflicts had, as another check begins; the signs of the variables stay, and the worth of chains.
    pub(crate) fn renew(&mut self)
        ensures effort { self.new.effort ≡ self.old.effort }
    {
        self.order.forget();
        self.restarts = Restarts::new();
    }

    /// Keeps the signs of the literals above the level, whose variables become open.
    pub(crate) fn take_back(&mut self, rows: &[Row], level: u64)
        ensures effort { self.new.effort ≡ self.old.effort }
    {
        let mut end = rows.len();
        'rows: for _ in 0..rows.len() {
            let Some(row) = rows.get(end.wrapping_sub(1)) else {
                break;
            };
            if row.level() <= level {
                break;
            }
            let literal = row.literal();
            self.phases.save(literal.variable(), literal.is_positive());
            self.order.insert(literal.variable());
            end = end.wrapping_sub(1);
        }
    }

    // Raises the activity of a variable that is not fixed, once for each conflict.
    fn meet(&mut self, trail: &Trail, literal: Lit)
        ensures effort { self.new.effort ≡ self.old.effort }
    {
        let variable = literal.variable() as usize;
        if variable < self.met.len()
            && self.met[variable] != self.effort.conflicts
            && level_at(trail, literal) != 0
        {
            self.met[variable] = self.effort.conflicts;
            self.order.bump(literal.variable());
        }
    }

    fn meet_all(&mut self, trail: &Trail, literals: &[Lit])
        ensures effort { self.new.effort ≡ self.old.effort }
    {
        'literals: for literal in literals {
            self.meet(trail, *literal);
        }
    }

    // Raises the activities of the variables on which the literals of a learnt clause rest, where they are above the base (J. H.
    // Liang and others, "Learning rate based branching heuristic for SAT solvers", 2016).
    fn meet_reasons(&mut self, watches: &Watches, trail: &Trail, clause: &[Lit], base: u64)
        requires { IsSettled watches.now trail.now }
        ensures effort { self.new.effort ≡ self.old.effort }
    {
        'literals: for literal in clause {
            if level_at(trail, *literal) > base {
                if let Some(place) = trail.place(literal.negated()) {
                    if let Some(found) = watches.reason(trail, place) {
                        self.meet_all(trail, found.literals());
                    }
                }
            }
        }
    }

    // Tells the glue of a learnt clause anew, from which a conflict came: where it is less now, it counts.
    fn tell_anew(&mut self, trail: &Trail, id: ClauseId, literals: &[Lit], base: u64)
        ensures effort { self.new.effort ≡ self.old.effort }
    {
        let Some(first) = self.chains.first() else {
            return;
        };
        if id.part != 0 || id.pos < *first {
            return;
        }
        let Ok(place) = self.chains.as_slice().binary_search(&id.pos) else {
            return;
        };
        if place >= self.learnt.len() || self.learnt[place].glue <= 2 {
            return;
        }
        let worth = self.worth(trail, literals, base);
        if place < self.learnt.len() && worth.glue < self.learnt[place].glue {
            self.learnt[place].glue = worth.glue;
        }
    }

    /// Weighs a clause that was learnt from a conflict at this level, and the last of its hints, which have a literal of the level:
    /// those before them made the clause shorter. Up to the base the levels are of given literals, which stay, so the literals of
    /// these levels weigh nothing.
    pub(crate) fn weigh(
        &mut self,
        watches: &Watches,
        trail: &Trail,
        clause: &[Lit],
        hints: &[ClauseId],
        level: u64,
        base: u64,
    ) -> Result<(), AllocError>
        requires { IsSettled watches.now trail.now }
        ensures effort { self.new.effort ≡ with_conflict self.old.effort }
    {
        self.effort.count_conflict();
        self.counter.reserve((level as usize).saturating_add(1))?;
        'hints: for hint in last_of_level(watches, trail, hints, level) {
            if let Some(found) = watches.clause(*hint) {
                self.meet_all(trail, found.literals());
                self.tell_anew(trail, *hint, found.literals(), base);
            }
        }
        self.meet_reasons(watches, trail, clause, base);
        self.order.decay();
        let worth = self.worth(trail, clause, base);
        self.restarts.meet(u64::from(worth.glue));
        // where the clause that was weighed before was not kept, it has no name
        self.learnt.truncate(self.chains.len());
        self.learnt.push(worth)?;
        Ok(())
    }

    /// Names the clause that was weighed last.
    pub(crate) fn name(&mut self, at: Pos) -> Result<(), AllocError>
        ensures effort { self.new.effort ≡ self.old.effort }
    {
        self.chains.push(at)?;
        Ok(())
    }

    /// Names a chain that another search put, of so many literals: it is worth as much as a clause with a level for each.
    pub(crate) fn take(&mut self, at: Pos, size: usize) -> Result<(), AllocError>
        ensures effort { self.new.effort ≡ self.old.effort }
    {
        let size = (size % (1 << 32)) as u32;
        self.learnt.push(Learnt { glue: size, size })?;
        self.chains.push(at)?;
        Ok(())
    }

    // The number of those literals that got their values above the base, and that of their levels.
    fn worth(&mut self, trail: &Trail, literals: &[Lit], base: u64) -> Learnt
        ensures effort { self.new.effort ≡ self.old.effort }
    {
        let mut size = 0u32;
        self.counter.begin();
        'literals: for literal in literals {
            let level = level_at(trail, *literal);
            if level > base {
                size = size.wrapping_add(1);
                self.counter.meet(level);
            }
        }
        let glue = (self.counter.glue() % (1 << 32)) as u32;
        Learnt { glue, size }
    }

    /// Whether the search is to restart now; then it counts one.
    pub(crate) fn restarts_now(&mut self) -> bool
        ensures effort { self.new.effort ≡ self.old.effort }
    {
        let due = self.restarts.is_due();
        if due {
            self.restarts.restart();
        }
        due
    }

    /// Whether so many chains are held that some are to be dropped.
    pub(crate) fn drops_now(&self) -> bool {
        drops_are_due(self.effort.conflicts, self.learnt.len() as u64)
    }

    /// The chains that are to be dropped; they are forgotten.
    pub(crate) fn worst(&mut self) -> Result<Vec<Pos>, AllocError>
        ensures effort { self.new.effort ≡ self.old.effort }
    {
        let places = worse_half(self.alloc, self.learnt.as_slice())?;
        let mut goes = vec![in self.alloc; false; self.learnt.len()]?;
        for place in &places {
            if *place < goes.len() {
                goes[*place] = true;
            }
        }
        let mut worst: Vec<Pos> = Vec::new(self.alloc);
        let mut chains: Vec<Pos> = Vec::new(self.alloc);
        let mut learnt: Vec<Learnt> = Vec::new(self.alloc);
        for i in 0..goes.len() {
            if i < self.chains.len() && i < self.learnt.len() {
                if goes[i] {
                    worst.push(self.chains[i])?;
                } else {
                    chains.push(self.chains[i])?;
                    learnt.push(self.learnt[i])?;
                }
            }
        }
        self.chains = chains;
        self.learnt = learnt;
        Ok(worst)
    }

    /// The place of the trail up to which each was looked at at level 0.
    pub(crate) fn fixed(&self) -> usize {
        self.fixed
    }

    /// Each place before this one was looked at.
    pub(crate) fn fix(&mut self, place: usize) {
        self.fixed = place;
    }

    /// The sign that the variable had last.
    pub(crate) fn is_positive(&self, variable: u64) -> bool {
        self.phases.is_positive(variable)
    }

    /// An open literal of a listed variable that was bumped, None where there is none.
    pub(crate) fn pick(&mut self, list: &VariableList, trail: &Trail) -> Option<Lit>
        requires consistent { IsConsistent trail.now }
        ensures effort { self.new.effort ≡ self.old.effort }
        ensures picked { IfSome result (λ l. Contains list.now l.variable
            × IsOpen (literals_of trail.now) (level_of trail.now) l) }
    {
        'tries: for _ in 0..u64::MAX {
            let Some(variable) = self.order.pop() else {
                return None;
            };
            if variable > 0 && variable < 1 << 63 {
                let literal = Lit::new(variable, self.phases.is_positive(variable));
                if trail.value(literal).is_none() && list.has(variable) {
                    return Some(literal);
                }
            }
        }
        None
    }
}
