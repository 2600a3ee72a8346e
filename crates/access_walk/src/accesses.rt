// The accesses of rows, and the lemmas of those that are refused.

ghost use Rattle.std.specs.Prelude.{◌≡◌, ◌<◌, ℕ, Some, length, slice_get, slice_index_or, IfOk, OnOk};
ghost use Rattle.access_spread.specs.declared.spreading.Row.{Row};
ghost use Rattle.access_spread.specs.Spreads.{AreDerived, AreStartsOf, AreRefused, IsRefused};
ghost use Rattle.access_walk.specs.Networks.{landings_of, no_move};
ghost use Rattle.access_walk.specs.Spread.{IsAccessAt, IsClashLemma, AreClashLemmas};
ghost use Rattle.access_walk.specs.Valuing.{landings_in};

use crate::network::Network;
use crate::values::{Entry, Values};
use access_spread::{Refusal, Row, State, path_of};
use smt_terms::node::TermId;
use std::alloc::{AllocError, Global};
use theory_terms::atom::Landing;
use theory_terms::lemma::{Access, Lemma, Move, Path};

/// The move of an edge.
fn move_at(moves: &[Move], edge: usize) -> Move
    requires { edge < length moves.now }
    ensures { result ≡ slice_index_or moves.now edge no_move }
{
    moves[edge]
}

/// The access that the row at a place is.
fn access_of(
    alloc: Global,
    network: &Network,
    values: &Values,
    rows: &[Row],
    place: usize,
) -> Result<Access, AllocError>
    requires moves { length network.now.moves.items ≡ length network.now.graph.edges.items }
    requires count { length values.now.entries.items ≡ length values.now.starts.items }
    requires derived { AreDerived network.now.graph values.now.gates.items values.now.starts.items
        rows.now }
    requires started { AreStartsOf values.now.starts.items rows.now }
    requires place { place < length rows.now }
    ensures { IfOk result
        (IsAccessAt network.now values.now.entries.items values.now.gates.items
        values.now.starts.items rows.now place) }
{
    let start = values.entries[rows[place].start].origin;
    let edges = path_of(
        alloc,
        &network.graph,
        &values.gates,
        &values.starts,
        rows,
        place,
    )?;
    let mut moves = Vec::new(alloc);
    for edge in &edges {
        moves.push(move_at(&network.moves, *edge))?;
    }
    Ok(Access {
        start,
        path: Path::from_vec(moves),
    })
}

/// The lemma that a refused row and the one that stands in its place are one array's accesses with
/// one index.
fn lemma_of(
    alloc: Global,
    network: &Network,
    values: &Values,
    rows: &mut Vec<Row>,
    refusal: Refusal,
) -> Result<Lemma, AllocError>
    requires moves { length network.now.moves.items ≡ length network.now.graph.edges.items }
    requires count { length values.now.entries.items ≡ length values.now.starts.items }
    requires derived { AreDerived network.now.graph values.now.gates.items values.now.starts.items
        rows.old.items }
    requires started { AreStartsOf values.now.starts.items rows.old.items }
    requires refused { IsRefused network.now.graph values.now.gates.items values.now.starts.items
        rows.old.items refusal }
    ensures lemma { IfOk result
        (IsClashLemma network.now values.now.entries.items values.now.gates.items
        values.now.starts.items rows.old.items refusal) }
    ensures rows { OnOk result (rows.new.items ≡ rows.old.items) }
{
    let last = rows.len();
    rows.push(refusal.row)?;
    let left = access_of(alloc, network, values, rows, refusal.standing)?;
    let right = access_of(alloc, network, values, rows, last)?;
    rows.pop();
    Ok(Lemma::Arrays(left, right))
}

/// The lemmas of all refused rows, in their order.
pub(crate) fn lemmas_of(
    alloc: Global,
    network: &Network,
    values: &Values,
    state: &mut State,
) -> Result<Vec<Lemma>, AllocError>
    requires moves { length network.now.moves.items ≡ length network.now.graph.edges.items }
    requires count { length values.now.entries.items ≡ length values.now.starts.items }
    requires derived { AreDerived network.now.graph values.now.gates.items values.now.starts.items
        state.old.rows.items }
    requires started { AreStartsOf values.now.starts.items state.old.rows.items }
    requires refused { AreRefused network.now.graph values.now.gates.items values.now.starts.items
        state.old.rows.items state.old.refused.items }
    ensures { IfOk result (λ v. AreClashLemmas network.now values.now.entries.items
        values.now.gates.items values.now.starts.items state.old.rows.items
        state.old.refused.items v.items) }
{
    let mut lemmas = Vec::new(alloc);
    for place in 0..state.refused.len() {
        let refusal = state.refused[place];
        lemmas.push(lemma_of(alloc, network, values, &mut state.rows, refusal)?)?;
    }
    Ok(lemmas)
}

/// The accesses of rows at their arrays.
pub(crate) fn landings_of(
    alloc: Global,
    arrays: &[TermId],
    entries: &[Entry],
    rows: &[Row],
) -> Result<Vec<Landing>, AllocError>
    requires within { (p : ℕ) (r : Row) → slice_get rows.now p ≡ Some r
        → r.array < length arrays.now }
    requires started { (p : ℕ) (r : Row) → slice_get rows.now p ≡ Some r
        → r.start < length entries.now }
    ensures { IfOk result
        (λ v. v.items ≡ landings_of arrays.now (landings_in entries.now) rows.now) }
{
    let mut landings = Vec::new(alloc);
    for row in rows {
        let landing = entries[row.start].landing;
        landings.push(Landing {
            array: arrays[row.array],
            index: landing.index,
            value: landing.value,
        })?;
    }
    Ok(landings)
}
