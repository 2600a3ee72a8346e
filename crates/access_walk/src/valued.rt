// Gates and starts under an assignment.

ghost use Rattle.std.specs.Prelude.{◌≡◌, All, OnOk, map};
ghost use Rattle.bit_blast.specs.Assigned.{assigned};
ghost use Rattle.access_tables.specs.Held.{assigned_value};
ghost use Rattle.access_walk.specs.Maps.{gate_of};
ghost use Rattle.access_walk.specs.Valued.{IsGuarded, start_of, IsWordTerm};

use crate::guard::Guard;
use access_spread::{Gate, Start};
use access_tables::values::{truth_of, word_of};
use bit_blast::Assignment;
use smt_terms::bits::Bits;
use smt_terms::terms::Terms;
use std::alloc::AllocError;
use theory_terms::atom::Landing;

/// The gate of a guard.
fn gate_of(terms: &Terms, bits: &Bits, assignment: &Assignment, guard: Guard) -> Gate
    requires { IsGuarded terms.now.nodes bits.now guard }
    ensures { result
        ≡ gate_of (assigned_value terms.now.nodes bits.now (assigned assignment.now)) guard }
{
    match guard {
        Guard::Differs(index) => Gate::Except(word_of(terms, bits, assignment, index).value()),
        Guard::Holds(condition) => {
            if truth_of(terms, bits, assignment, condition) {
                Gate::Open
            } else {
                Gate::Shut
            }
        }
        Guard::Fails(condition) => {
            if truth_of(terms, bits, assignment, condition) {
                Gate::Shut
            } else {
                Gate::Open
            }
        }
    }
}

/// The gates of guards, in place of those that there are.
pub fn put_gates(
    terms: &Terms,
    bits: &Bits,
    assignment: &Assignment,
    guards: &[Guard],
    gates: &mut Vec<Gate>,
) -> Result<(), AllocError>
    requires { All (IsGuarded terms.now.nodes bits.now) guards.now }
    ensures { OnOk result (gates.new.items
        ≡ map (gate_of (assigned_value terms.now.nodes bits.now (assigned assignment.now)))
        guards.now) }
{
    gates.clear();
    for guard in guards {
        gates.push(gate_of(terms, bits, assignment, *guard))?;
    }
    Ok(())
}

/// The start of an access of the array at this place, which takes the edges for wide accesses or
/// does not.
pub fn start_of(
    terms: &Terms,
    bits: &Bits,
    assignment: &Assignment,
    landing: Landing,
    place: usize,
    wide: bool,
) -> Start
    requires index { IsWordTerm terms.now.nodes bits.now landing.index }
    requires value { IsWordTerm terms.now.nodes bits.now landing.value }
    ensures { result
        ≡ start_of (assigned_value terms.now.nodes bits.now (assigned assignment.now)) landing
        place wide }
{
    Start {
        array: place,
        index: word_of(terms, bits, assignment, landing.index).value(),
        value: word_of(terms, bits, assignment, landing.value).value(),
        wide,
    }
}
