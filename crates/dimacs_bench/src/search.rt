// The search of a text, and its effort.

ghost use Rattle.std.specs.Prelude.{◌≡◌, Ok, IfOk, IfSome};
ghost use Rattle.dimacs_front.specs.Cnf.{CnfValue, cnf_of};
ghost use Rattle.dimacs_search.specs.Efforts.{IsCounted};

use crate::nowhere::Nowhere;
use cdcl_loop::Effort;
use dimacs_front::cnf::{Cnf, CnfFault, CnfReader};
use dimacs_front::stop::Stop;
use dimacs_search::outcome::Outcome;
use dimacs_search::solving::{read_clauses_have_their_variables, solve_counting};
use std::alloc::Global;

/// How a search ended, and what it took.
#[derive(Drop)]
pub struct Ended {
    pub outcome: Outcome,
    pub effort: Effort,
}

// The clauses of a text.
fn read(alloc: Global, text: &[u8]) -> Result<Cnf, Stop<CnfFault>>
    ensures { IfOk result (λ cnf. cnf_of text.now ≡ Ok cnf) }
{
    let mut reader = CnfReader::new(alloc);
    match reader.feed(text) {
        Ok(()) => reader.finish(),
        Err(stop) => {
            drop(reader);
            Err(stop)
        }
    }
}

/// Searches the clauses of a text. None where it has none, or memory ends.
pub fn searched(alloc: Global, text: &[u8]) -> Option<Ended>
    ensures { IfSome result (λ ended. (cnf : CnfValue) × (cnf_of text.now ≡ Ok cnf)
        × IsCounted cnf ended.effort) }
{
    read_clauses_have_their_variables();
    let Ok(cnf) = read(alloc, text) else {
        return None;
    };
    let mut effort = Effort::none();
    match solve_counting(alloc, cnf, &mut Nowhere, &mut effort) {
        Ok(outcome) => Some(Ended { outcome, effort }),
        Err(_) => None,
    }
}
