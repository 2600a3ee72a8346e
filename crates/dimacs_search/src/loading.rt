//! Clauses go from their table to the watches.

ghost use Rattle.std.specs.Prelude.{◌≡◌, ◌+◌, ◌<◌, ◌^◌, [], length, IfOk, OnOk};
ghost use Rattle.cdcl_core.specs.Search.{level_of};
ghost use Rattle.cdcl_loop.specs.Engines.{IsTrailOf, IsEngine, IsOnCourse};
ghost use Rattle.dimacs_search.specs.Searching.{AreHeld, AreOnly, AreListed, IsSearching};

use cdcl_core::{Trail, Watches};
use cdcl_loop::Engine;
use cnf_base::{Clause, ClauseId};
use dimacs_front::cnf::Cnf;
use std::alloc::{AllocError, Global};

/// Watches each clause under its number, from 1 on.
fn watch_all(
    alloc: Global,
    cnf: &Cnf,
    watches: &mut Watches,
    trail: &mut Trail,
) -> Result<(), AllocError>
    requires trail { IsTrailOf watches.old trail.old }
    requires level { level_of trail.old ≡ 0 }
    requires only { AreOnly cnf.now 0 watches.old }
    ensures trail { OnOk result (IsTrailOf watches.new trail.new) }
    ensures level { OnOk result (level_of trail.new ≡ 0) }
    ensures held { OnOk result (AreHeld cnf.now (length cnf.now.clauses) watches.new) }
    ensures only { OnOk result (AreOnly cnf.now (length cnf.now.clauses) watches.new) }
{
    'clauses: for place in 0..cnf.len() {
        let clause = Clause::from_literals(alloc, cnf.clause(place))?;
        let id = ClauseId {
            pos: place as u64 + 1,
            part: 0,
        };
        watches.add(trail, id, clause)?;
    }
    Ok(())
}

/// Lists the variables from 1 on, to be decided in that order.
fn list_variables(engine: &mut Engine, variables: u32) -> Result<(), AllocError>
    ensures engine { IsEngine engine.old → IsEngine engine.new }
    ensures course { IsOnCourse engine.old → IsOnCourse engine.new }
    ensures watches { engine.new.watches ≡ engine.old.watches }
    ensures given { engine.new.given ≡ engine.old.given }
    ensures listed { OnOk result (AreListed variables engine.new.agenda.list) }
{
    'variables: for variable in 1..u64::from(variables) + 1 {
        engine.list(variable)?;
    }
    Ok(())
}

/// An engine that holds the clauses under their numbers, and has listed the variables.
pub(crate) fn load(alloc: Global, cnf: &Cnf) -> Result<Engine, AllocError>
    ensures searching { IfOk result (IsSearching cnf.now) }
    ensures only { IfOk result (λ e. AreOnly cnf.now (length cnf.now.clauses) e.watches) }
{
    let mut trail = Trail::new(alloc);
    let mut watches = Watches::new(alloc)?;
    watch_all(alloc, cnf, &mut watches, &mut trail)?;
    let mut engine = Engine::new(alloc, watches, trail);
    list_variables(&mut engine, cnf.variables())?;
    Ok(engine)
}
