//! The core of a search by conflict-driven clause learning: clauses that are kept, those of them that are held and watched at
//! two literals, and the trail of true literals with their decision levels and reasons.
//!
//! The contract says that `propagate` comes to rest: where it answers None, no held clause is false, or unit with its last
//! literal open, now or at the end of any lower level; and a conflict that it names is a held clause, false under the trail.
//! `add`, `drop_clause`, `decide` and `backjump` change the clauses or the trail as named, and nothing else. A clause that is
//! kept may be parked and woken again at level 0, what it forced there staying true. Where memory is wanting, `add`, `store`
//! and `reserve` leave both as they were; the other calls take none.
//!
//! Callers carry one predicate, `IsSettled`, from call to call. It stands on `Lit`, `Clause` and `ClauseId` of `cnf_base`.
#![tactic(auto)]

mod add;
mod decide;
mod drop;
mod grow;
mod level;
mod lists;
mod park;
mod propagate;
mod restate;
mod row;
mod slot_table;
mod trail;
mod watches;

pub use row::Row;
pub use trail::Trail;
pub use watches::Watches;
