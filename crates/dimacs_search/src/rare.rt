// Learnt clauses that are rarely used.

ghost use Rattle.std.specs.Prelude.{◌≡◌, OnOk};
ghost use Rattle.cdcl_core.specs.Search.{level_of};
ghost use Rattle.cdcl_loop.specs.Engines.{IsEngine, IsOnCourse, IsSameTask};
ghost use Rattle.dimacs_search.specs.Searching.{IsKeeping};

use cdcl_loop::Engine;
use cnf_base::{ClauseId, Pos};
use std::alloc::{AllocError, Global};

/// At this number all learnt clauses are watched for the first time.
const FIRST_ROUSED: Pos = 1 << 16;

/// Whether some become rare is asked once in so many learnt clauses: where it was asked at each, a search of 3-SAT took three times
/// as many conflicts.
const PAUSE: Pos = 2_000;

/// Learnt clauses that are kept and not watched, so that unit propagation has less to do. Hints may still name them.
///
/// Whenever the number of clauses has doubled all are watched until one more is learnt. That one is none of those before, so a search
/// comes to an end: there are only so many clauses of its variables.
#[derive(Drop)]
pub(crate) struct Rare {
    /// The number of the first clause that was learnt.
    first: Pos,
    numbers: Vec<Pos>,
    /// The number at which all are watched.
    next: Pos,
    /// One more for each clause that was learnt, from the first number on.
    turn: Pos,
    is_roused: bool,
}

/// Watches the clause no longer, at level 0, where it was learnt.
fn park(engine: &mut Engine, number: Pos, first: Pos)
    requires engine { IsEngine engine.old }
    requires level { level_of engine.old.trail ≡ 0 }
    ensures same { engine.new ≡ record engine.old { watches = engine.new.watches } }
    ensures engine { IsEngine engine.new }
    ensures keeping { IsKeeping first engine.old.watches engine.new.watches }
{
    if number < first {
        return;
    }
    engine.park(ClauseId {
        pos: number,
        part: 0,
    });
}

/// Watches the clauses of these numbers no longer, at level 0, those that were learnt.
fn park_all(engine: &mut Engine, numbers: &[Pos], first: Pos)
    requires engine { IsEngine engine.old }
    requires level { level_of engine.old.trail ≡ 0 }
    ensures same { engine.new ≡ record engine.old { watches = engine.new.watches } }
    ensures engine { IsEngine engine.new }
    ensures keeping { IsKeeping first engine.old.watches engine.new.watches }
{
    'numbers: for number in numbers {
        park(engine, *number, first);
    }
}

/// Watches the clauses of these numbers again, at level 0.
fn wake_all(engine: &mut Engine, numbers: &[Pos], first: Pos)
    requires engine { IsEngine engine.old }
    requires level { level_of engine.old.trail ≡ 0 }
    ensures engine { IsEngine engine.new }
    ensures course { IsOnCourse engine.old → IsOnCourse engine.new }
    ensures task { IsSameTask engine.old engine.new }
    ensures keeping { IsKeeping first engine.old.watches engine.new.watches }
{
    'numbers: for number in numbers {
        engine.wake(ClauseId {
            pos: *number,
            part: 0,
        });
    }
}

impl Rare {
    /// None, where the first that is learnt has this number.
    pub(crate) fn new(alloc: Global, first: Pos) -> Rare
        ensures { result.first ≡ first }
    {
        Rare {
            first,
            numbers: Vec::new(alloc),
            next: FIRST_ROUSED,
            turn: first,
            is_roused: false,
        }
    }

    /// The worse half of the learnt clauses become rare, where many are watched, as the turn is a multiple of the pause.
    fn thin(&mut self, engine: &mut Engine) -> Result<(), AllocError>
        requires { IsEngine engine.old }
        ensures first { self.new.first ≡ self.old.first }
        ensures engine { OnOk result (IsEngine engine.new) }
        ensures course { OnOk result (IsOnCourse engine.old → IsOnCourse engine.new) }
        ensures task { IsSameTask engine.old engine.new }
        ensures keeping { OnOk result
            (IsKeeping self.old.first engine.old.watches engine.new.watches) }
    {
        let turn = self.turn;
        self.turn = turn.saturating_add(1);
        if turn % PAUSE != 0 || !engine.drops_now() {
            return Ok(());
        }
        let worst = engine.worst()?;
        self.numbers.extend_from_slice(worst.as_slice())?;
        park_all(engine, worst.as_slice(), self.first);
        Ok(())
    }

    /// Rare clauses that were watched until one more was learnt are so no longer.
    fn calm(&mut self, engine: &mut Engine)
        requires { IsEngine engine.old }
        ensures first { self.new.first ≡ self.old.first }
        ensures engine { IsEngine engine.new }
        ensures course { IsOnCourse engine.old → IsOnCourse engine.new }
        ensures task { IsSameTask engine.old engine.new }
        ensures keeping { IsKeeping self.old.first engine.old.watches engine.new.watches }
    {
        if !self.is_roused {
            return;
        }
        self.is_roused = false;
        engine.go_back(0);
        park_all(engine, self.numbers.as_slice(), self.first);
    }

    /// All are watched, where the number has doubled.
    fn rouse(&mut self, engine: &mut Engine, number: Pos)
        requires { IsEngine engine.old }
        ensures first { self.new.first ≡ self.old.first }
        ensures engine { IsEngine engine.new }
        ensures course { IsOnCourse engine.old → IsOnCourse engine.new }
        ensures task { IsSameTask engine.old engine.new }
        ensures keeping { IsKeeping self.old.first engine.old.watches engine.new.watches }
    {
        if number < self.next {
            return;
        }
        self.next = number.saturating_mul(2);
        self.is_roused = true;
        engine.go_back(0);
        wake_all(engine, self.numbers.as_slice(), self.first);
    }

    /// Looks after a clause was learnt under this number which are watched.
    pub(crate) fn look(&mut self, engine: &mut Engine, number: Pos) -> Result<(), AllocError>
        requires { IsEngine engine.old }
        ensures first { self.new.first ≡ self.old.first }
        ensures engine { OnOk result (IsEngine engine.new) }
        ensures course { OnOk result (IsOnCourse engine.old → IsOnCourse engine.new) }
        ensures task { IsSameTask engine.old engine.new }
        ensures keeping { OnOk result
            (IsKeeping self.old.first engine.old.watches engine.new.watches) }
    {
        self.calm(engine);
        self.thin(engine)?;
        self.rouse(engine, number);
        Ok(())
    }
}
