//! Which literals of a clause rest on its others: a choice without a promise.

ghost use Rattle.std.specs.Prelude.{◌≤◌, length};
ghost use Rattle.cdcl_core.specs.State.{IsSettled};

use crate::marks::Marks;
use cdcl_core::{Row, Trail, Watches};
use std::alloc::{AllocError, Global};

// What is known of a place of the trail.
#[derive(Clone, Copy, PartialEq, Eq)]
enum Verdict {
    Unknown,
    // its literal follows from marked ones and from those of level 0
    Rests,
    Stands,
}

// What the literals of a reason say of the literal that it forced.
enum Finding {
    Known(Verdict),
    // this place is to be looked at first, and then the reason again from this literal on
    Below(usize, usize),
}

/// Looks below a literal for what it rests on, each place once (N. Sörensson and A. Biere, "Minimizing learned clauses",
/// 2009).
#[derive(Drop)]
pub(crate) struct Minimizer {
    // by place
    verdicts: Vec<Verdict>,
    // the places that wait for one below, each with the literal of its reason at which it goes on
    waiting: Vec<(usize, usize)>,
    // the levels of the marked literals, those of one remainder by 64 taken together
    levels: u64,
}

// The bit of a decision level.
fn level_bit(level: u64) -> u64 {
    1 << (level % 64)
}

impl Minimizer {
    /// Nothing is known of so many places.
    pub(crate) fn new(alloc: Global, places: usize) -> Result<Minimizer, AllocError> {
        Ok(Minimizer {
            verdicts: vec![in alloc; Verdict::Unknown; places]?,
            waiting: Vec::with_capacity(alloc, 64)?,
            levels: 0,
        })
    }

    /// Looks at no level but those of the marked literals before `end`.
    pub(crate) fn keep_levels(&mut self, rows: &[Row], marks: &Marks, end: usize)
        requires { end ≤ length marks.now }
    {
        self.levels = 0;
        let mut i = marks.top(end);
        'marked: while i > 0 {
            if let Some(row) = rows.get(i - 1) {
                self.levels |= level_bit(row.level());
            }
            i = marks.top(i - 1);
        }
    }

    fn verdict(&self, place: usize) -> Verdict {
        if place < self.verdicts.len() {
            self.verdicts[place]
        } else {
            Verdict::Stands
        }
    }

    fn settle(&mut self, place: usize, verdict: Verdict) {
        if place < self.verdicts.len() {
            self.verdicts[place] = verdict;
        }
    }

    // What is known of a literal that the reason of another one has.
    fn judge(&self, marks: &Marks, place: usize) -> Verdict {
        if marks.has(place) {
            Verdict::Rests
        } else {
            self.verdict(place)
        }
    }

    // Goes on through the reason of the literal at a place. The literals of level 0 say nothing.
    fn look(
        &self,
        watches: &Watches,
        trail: &Trail,
        marks: &Marks,
        place: usize,
        from: usize,
    ) -> Finding
        requires { IsSettled watches.now trail.now }
    {
        let Some(clause) = watches.reason(trail, place) else {
            return Finding::Known(Verdict::Stands);
        };
        let literals = clause.literals();
        for k in from..literals.len() {
            let literal = literals[k].negated();
            let stamp = trail.stamp(literal);
            if stamp > 1 && self.levels & level_bit(stamp - 1) == 0 {
                return Finding::Known(Verdict::Stands);
            }
            if stamp > 1 {
                if let Some(below) = trail.place(literal) {
                    match self.judge(marks, below) {
                        Verdict::Rests => {}
                        Verdict::Stands => return Finding::Known(Verdict::Stands),
                        Verdict::Unknown => return Finding::Below(below, k),
                    }
                }
            }
        }
        Finding::Known(Verdict::Rests)
    }

    /// Whether the literal of a place follows from marked ones and from those of level 0.
    pub(crate) fn rests(
        &mut self,
        watches: &Watches,
        trail: &Trail,
        marks: &Marks,
        place: usize,
    ) -> Result<bool, AllocError>
        requires { IsSettled watches.now trail.now }
    {
        if self.verdict(place) != Verdict::Unknown {
            return Ok(self.verdict(place) == Verdict::Rests);
        }
        self.waiting.clear();
        self.waiting.push((place, 0))?;
        for _ in 0..u64::MAX {
            let Some((top, from)) = self.waiting.pop() else {
                return Ok(true);
            };
            match self.look(watches, trail, marks, top, from) {
                Finding::Known(Verdict::Rests) => self.settle(top, Verdict::Rests),
                Finding::Known(_) => {
                    self.settle(top, Verdict::Stands);
                    self.give_up();
                    return Ok(false);
                }
                Finding::Below(below, next) => {
                    self.waiting.push((top, next))?;
                    self.waiting.push((below, 0))?;
                }
            }
        }
        Ok(false)
    }

    // What waits for a literal that stands, stands too.
    fn give_up(&mut self) {
        for waits in &self.waiting {
            if waits.0 < self.verdicts.len() {
                self.verdicts[waits.0] = Verdict::Stands;
            }
        }
    }
}
