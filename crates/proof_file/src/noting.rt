//! The steps of a look-up of stale chains.

ghost use Rattle.std.specs.Prelude.{◌≡◌, ◌<◌, ◌^◌, ◌++◌, ◌==◌, ◌∷◌, [], ℕ, IfOk, IfSome, OnOk, Some, MatchBool, Contains, length, if◌then◌else◌};
ghost use Rattle.proof_log.specs.Logs.{with_value};
ghost use Rattle.proof_log.specs.Stored.{Stands};
ghost use Rattle.proof_file.specs.Indexed.{selected_by, noted_under, place_in};
ghost use Rattle.proof_file.specs.Noting.{assertion_of, IsNamed, Denies, AreMarked, IsWanted, ArePicked, Adds, IsPlaceOf, IsPlaceUnder, AreForgotten};

use crate::places::{Place, place_at};
use cnf_base::{Lit, Pos};
use plain_list::List;
use proof_log::Log;
use proof_log::entry::{AssertId, Entry};
use scope_selectors::live::Live;
use smt_terms::terms::Terms;
use std::alloc::{AllocError, Global};
use variable_list::VariableList;

/// Positions of a log.
pub(crate) type Positions = List<Pos>;

// The assertion of which the step makes the selector.
fn selected_at(entry: &Entry) -> Option<AssertId>
    ensures { result ≡ assertion_of entry.now }
{
    match entry {
        Entry::Selector(assertion, _) => Some(*assertion),
        _ => None,
    }
}

// The assertion of which the variable is the selector.
fn named(selected: &[Option<AssertId>], variable: u64) -> Option<AssertId>
    ensures { result ≡ selected_by selected.now variable }
{
    match selected.get(variable as usize) {
        Some(assertion) => *assertion,
        None => None,
    }
}

// Makes room for a variable; where the table grows, more rows come with it, so that this is seldom.
fn make_room(selected: &mut Vec<Option<AssertId>>, variable: u64) -> Result<(), AllocError>
    requires { variable < 2 ^ 63 }
    ensures room { OnOk result (variable < length selected.new.items) }
    ensures same { (x : ℕ) → selected_by selected.new.items x ≡ selected_by selected.old.items x }
{
    let row = variable as usize;
    if row >= selected.len() {
        selected.resize(row + row / 4 + 64, None)?;
    }
    Ok(())
}

/// The variable is the selector of the assertion from here on.
pub(crate) fn name(
    selected: &mut Vec<Option<AssertId>>,
    variable: u64,
    assertion: AssertId,
) -> Result<(), AllocError>
    requires { variable < 2 ^ 63 }
    ensures { OnOk result ((x : ℕ)
        → selected_by selected.new.items x
        ≡ with_value (selected_by selected.old.items) variable assertion x) }
{
    make_room(selected, variable)?;
    selected[variable as usize] = Some(assertion);
    Ok(())
}

/// Reads a step of the log.
pub(crate) fn read_entry(
    selected: &mut Vec<Option<AssertId>>,
    terms: &Terms,
    log: &Log,
    entry: &Entry,
) -> Result<(), AllocError>
    requires stands { Stands terms.now.nodes log.now }
    requires held { Contains log.now.entries entry.now }
    ensures { OnOk result (IsNamed terms.now.nodes log.now.entries
        selected.old.items selected.new.items (assertion_of entry.now)) }
{
    match selected_at(entry) {
        None => Ok(()),
        Some(assertion) => {
            let literal = log.selector(assertion).unwrap();
            name(selected, literal.variable(), assertion)?;
            Ok(())
        }
    }
}

/// The assertion of which the literal is the negated selector.
pub(crate) fn denied(selected: &[Option<AssertId>], literal: Lit) -> Option<AssertId>
    ensures found { (a : ℕ) → Denies selected.now literal a → result ≡ Some a }
    ensures own { IfSome result (Denies selected.now literal) }
{
    if literal.is_positive() {
        return None;
    }
    named(selected, literal.variable())
}

// What is noted under the assertion.
fn row(noted: &[Positions], assertion: AssertId) -> &[Pos]
    ensures { result.now ≡ noted_under noted.now assertion }
{
    match noted.get(assertion as usize) {
        Some(positions) => positions.as_slice(),
        None => &[],
    }
}

/// The assertion is watched from here on, where nothing was noted under it.
pub(crate) fn watch(
    watched: &mut Vec<AssertId>,
    noted: &[Positions],
    assertion: AssertId,
) -> Result<(), AllocError>
    ensures kept { (a : ℕ) → Contains watched.old.items a → Contains watched.new.items a }
    ensures first { OnOk result (noted_under noted.now assertion ≡ []
        → Contains watched.new.items assertion) }
{
    if !row(noted, assertion).is_empty() {
        return Ok(());
    }
    watched.push(assertion)?;
    Ok(())
}

// Makes room for an assertion.
fn grow(alloc: Global, noted: &mut Vec<Positions>, assertion: AssertId) -> Result<(), AllocError>
    ensures room { OnOk result (assertion < length noted.new.items) }
    ensures same { (a : ℕ) → noted_under noted.new.items a ≡ noted_under noted.old.items a }
{
    let wanted = assertion as usize + 1;
    'rows: for _row in noted.len()..wanted {
        noted.push(List::none(alloc))?;
    }
    Ok(())
}

/// The position is noted under the assertion from here on.
pub(crate) fn hold(
    alloc: Global,
    noted: &mut Vec<Positions>,
    assertion: AssertId,
    position: Pos,
) -> Result<(), AllocError>
    ensures { OnOk result ((a : ℕ)
        → noted_under noted.new.items a
        ≡ (if a == assertion then noted_under noted.old.items a ++ position ∷ []
        else noted_under noted.old.items a)) }
{
    grow(alloc, noted, assertion)?;
    noted[assertion as usize].push(position)
}

/// Marks what is live.
pub(crate) fn mark(marks: &mut VariableList, live: &[Live]) -> Result<(), AllocError>
    ensures { OnOk result (AreMarked marks.new live.now) }
{
    marks.clear();
    'live: for assertion in live {
        marks.add(assertion.assertion as u64 + 1)?;
    }
    Ok(())
}

// Whether the assertion has a mark, or has none.
fn is_wanted(marks: &VariableList, wanted: bool, assertion: AssertId) -> bool
    ensures { MatchBool result (IsWanted marks.now wanted assertion)
        (IsWanted marks.now wanted assertion → ⊥) }
{
    let marked = marks.has(assertion as u64 + 1);
    if wanted { marked } else { !marked }
}

// One assertion more, where it is wanted.
fn put_where(found: &mut Vec<AssertId>, wanted: bool, assertion: AssertId) -> Result<(), AllocError>
    ensures { OnOk result (found.new.items
        ≡ (if wanted then found.old.items ++ assertion ∷ [] else found.old.items)) }
{
    if !wanted {
        return Ok(());
    }
    found.push(assertion)?;
    Ok(())
}

/// Those of the assertions that have a mark, or those that have none.
pub(crate) fn picked(
    alloc: Global,
    marks: &VariableList,
    assertions: &[AssertId],
    wanted: bool,
) -> Result<Vec<AssertId>, AllocError>
    ensures { IfOk result
        (λ v. ArePicked (IsWanted marks.now wanted) assertions.now v.items) }
{
    let mut found = Vec::new(alloc);
    'assertions: for assertion in assertions {
        let here = is_wanted(marks, wanted, *assertion);
        put_where(&mut found, here, *assertion)?;
    }
    Ok(found)
}

// Adds the place of a position, where it stands somewhere.
fn add_place(found: &mut Vec<Place>, places: &[Place], position: Pos) -> Result<(), AllocError>
    ensures { OnOk result (found.new.items
        ≡ (if place_in places.now position == 0 then found.old.items
        else found.old.items ++ place_in places.now position ∷ [])) }
{
    let place = place_at(places, position);
    if place.is_nowhere() {
        return Ok(());
    }
    found.push(place)?;
    Ok(())
}

// Adds the places of these positions, where they stand somewhere.
fn add_places(found: &mut Vec<Place>, places: &[Place], positions: &[Pos]) -> Result<(), AllocError>
    ensures { OnOk result
        (Adds found.old.items (IsPlaceOf places.now positions.now) found.new.items) }
{
    'positions: for position in positions {
        add_place(found, places, *position)?;
    }
    Ok(())
}

/// The places of what is noted under these assertions and stands somewhere.
pub(crate) fn places_under(
    alloc: Global,
    noted: &[Positions],
    assertions: &[AssertId],
    places: &[Place],
) -> Result<Vec<Place>, AllocError>
    ensures { IfOk result (λ v.
        Adds [] (IsPlaceUnder places.now noted.now assertions.now) v.items) }
{
    let mut found = Vec::new(alloc);
    'assertions: for assertion in assertions {
        add_places(&mut found, places, row(noted, *assertion))?;
    }
    Ok(found)
}

// Nothing is noted under the assertion from here on.
fn empty(alloc: Global, noted: &mut Vec<Positions>, assertion: AssertId)
    ensures { (a : ℕ)
        → noted_under noted.new.items a
        ≡ (if a == assertion then [] else noted_under noted.old.items a) }
{
    let row = assertion as usize;
    if row >= noted.len() {
        return;
    }
    noted[row] = List::none(alloc);
}

/// Nothing is noted under these assertions from here on.
pub(crate) fn forget(alloc: Global, noted: &mut Vec<Positions>, assertions: &[AssertId])
    ensures { AreForgotten assertions.now noted.old.items noted.new.items }
{
    'assertions: for assertion in assertions {
        empty(alloc, noted, *assertion);
    }
}
