// Accesses that spread over edges.

ghost use Rattle.std.specs.Prelude.{◌≡◌, ◌<◌, ◌≤◌, ◌&&◌, ℕ, Some, None, length, slice_get, [], OnOk, MatchBool, MatchOption};
ghost use Rattle.access_spread.specs.Graphs.{passes, gate_at, takes, IsGraph, AreGated};
ghost use Rattle.access_spread.specs.Spreads.{Fits, IsFrom, index_in, IsStanding, NoneStands, IsRoomy, AreVisited, AreStartsOf, AreRising, IsSpread, AreTold, start_at, HasArrived, IsVisited, IsDrained, HasBegun, IsOther, HasRefused, most_refused};

use crate::graph::{Edge, Gate, Graph};
use crate::lane::{Lane, takes};
use std::alloc::{AllocError, Global};

/// Refused rows that are kept at most.
const MOST: usize = 30;

/// An access where it starts: an array, the number of its index, and the number of the value there;
/// and whether it takes the edges that are for wide accesses.
#[derive(Clone, Copy, Debug)]
pub struct Start {
    pub array: usize,
    pub index: u128,
    pub value: u128,
    pub wide: bool,
}

/// From which row, and over which edge.
#[derive(Clone, Copy, Debug)]
pub struct Link {
    pub row: usize,
    pub edge: usize,
}

/// An access of a start that came to an array.
#[derive(Clone, Copy, Debug)]
pub struct Row {
    pub array: usize,
    pub start: usize,
    pub from: Option<Link>,
}

/// A row that is not put, since the one at this place is at its array with its index and another
/// value.
#[derive(Clone, Copy, Debug)]
pub struct Refusal {
    pub row: Row,
    pub standing: usize,
}

/// What was met: the rows, those that were refused, and for each array the place of the last of its
/// rows. It can be used again for other starts.
#[derive(Drop)]
pub struct State {
    pub rows: Vec<Row>,
    pub refused: Vec<Refusal>,
    pub last: Vec<Option<usize>>,
    /// Where the rows of the present start begin.
    pub begun: usize,
    /// The index of the present start.
    pub index: u128,
}

impl State {
    /// No rows; takes no memory.
    pub fn new(alloc: Global) -> State
        ensures { result.rows.items ≡ [] }
    {
        State {
            rows: Vec::new(alloc),
            refused: Vec::new(alloc),
            last: Vec::new(alloc),
            begun: 0,
            index: 0,
        }
    }

    /// No rows, and room for so many arrays.
    fn reset(&mut self, count: usize) -> Result<(), AllocError>
        ensures rows { OnOk result (self.new.rows.items ≡ []) }
        ensures refused { OnOk result (self.new.refused.items ≡ []) }
        ensures index { OnOk result (self.new.index ≡ 0) }
        ensures count { OnOk result (length self.new.last.items ≡ count) }
        ensures last { OnOk result ((a : ℕ) → a < count
            → slice_get self.new.last.items a ≡ Some None) }
    {
        self.rows.clear();
        self.refused.clear();
        self.last.clear();
        self.last.resize(count, None)?;
        self.begun = 0;
        self.index = 0;
        Ok(())
    }
}

/// The place of the row of an array and an index.
fn standing(state: &State, starts: &[Start], array: usize, index: u128) -> Option<usize>
    requires last { array < length state.now.last.items }
    requires rows { (r : ℕ) → slice_get state.now.last.items array ≡ Some (Some r)
        → r < length state.now.rows.items }
    requires starts { AreStartsOf starts.now state.now.rows.items }
    ensures { MatchOption result (NoneStands starts.now state.now array index)
        (IsStanding starts.now state.now array index) }
{
    match state.last[array] {
        Some(place) => {
            if starts[state.rows[place].start].index == index {
                Some(place)
            } else {
                None
            }
        }
        None => None,
    }
}

/// Whether no more refused rows are kept.
fn is_full(state: &State) -> bool
    ensures { MatchBool result (most_refused ≤ length state.now.refused.items)
        (IsRoomy state.now) }
{
    state.refused.len() >= MOST
}

/// Whether a refused row is at an array with an index.
fn is_at(starts: &[Start], refusal: &Refusal, array: usize, index: u128) -> bool
    requires { refusal.now.row.start < length starts.now }
    ensures { MatchBool result
        ((refusal.now.row.array ≡ array) × (index_in starts.now refusal.now.row ≡ index))
        (refusal.now.row.array ≡ array → index_in starts.now refusal.now.row ≡ index → ⊥) }
{
    refusal.row.array == array && starts[refusal.row.start].index == index
}

/// Keeps a refused row, unless one of the same array and index is kept, or as many as are kept at
/// most.
fn refuse(
    state: &mut State,
    graph: &Graph,
    gates: &[Gate],
    starts: &[Start],
    row: Row,
    standing: usize,
) -> Result<(), AllocError>
    requires fits { Fits graph.now gates.now starts.now state.old }
    requires start { row.start < length starts.now }
    requires from { IsFrom graph.now gates.now starts.now state.old.rows.items
        (length state.old.rows.items) row }
    requires stands { IsStanding starts.now state.old row.array (index_in starts.now row) standing }
    requires other { IsOther starts.now state.old.rows.items standing row }
    ensures { OnOk result (HasRefused graph.now gates.now starts.now state.old state.new row) }
{
    if is_full(state) {
        return Ok(());
    }
    let index = starts[row.start].index;
    for refusal in &state.refused {
        if is_at(starts, refusal, row.array, index) {
            return Ok(());
        }
    }
    state.refused.push(Refusal { row, standing })?;
    Ok(())
}

/// Puts a row, unless its array and index have one.
fn arrive(
    state: &mut State,
    graph: &Graph,
    gates: &[Gate],
    starts: &[Start],
    row: Row,
) -> Result<(), AllocError>
    requires fits { Fits graph.now gates.now starts.now state.old }
    requires array { row.array < length graph.now.fans.items }
    requires start { row.start < length starts.now }
    requires index { index_in starts.now row ≡ state.old.index }
    requires from { IsFrom graph.now gates.now starts.now state.old.rows.items
        (length state.old.rows.items) row }
    ensures { OnOk result (HasArrived graph.now gates.now starts.now state.old state.new row) }
{
    let start = starts[row.start];
    if let Some(place) = standing(state, starts, row.array, start.index) {
        if starts[state.rows[place].start].value == start.value {
            return Ok(());
        }
        return refuse(state, graph, gates, starts, row, place);
    }
    let place = state.rows.len();
    state.rows.push(row)?;
    state.last[row.array] = Some(place);
    Ok(())
}

/// Whether an access of a start takes an edge and passes its gate.
fn goes_over(gates: &[Gate], lanes: &[Lane], start: Start, place: usize, edge: Edge) -> bool
    requires { edge.gate < length gates.now }
    ensures { result ≡ (takes lanes.now place start.wide
        && passes (gate_at gates.now edge.gate) start.index) }
{
    takes(lanes, place, start.wide) && gates[edge.gate].passes(start.index)
}

/// Goes over each edge from a row that it takes and through which it passes.
fn visit(
    state: &mut State,
    graph: &Graph,
    gates: &[Gate],
    lanes: &[Lane],
    starts: &[Start],
    here: usize,
) -> Result<(), AllocError>
    requires graph { IsGraph graph.now }
    requires gated { AreGated graph.now gates.now }
    requires fits { Fits graph.now gates.now starts.now state.old }
    requires here { here < length state.old.rows.items }
    requires present { state.old.begun ≤ here }
    ensures { OnOk result
        (IsVisited graph.now gates.now lanes.now starts.now state.old state.new here) }
{
    let row = state.rows[here];
    let start = starts[row.start];
    for place in graph.fans[row.array].places() {
        let edge = graph.edges[*place];
        if goes_over(gates, lanes, start, *place, edge) {
            let next = Row {
                array: edge.to,
                start: row.start,
                from: Some(Link {
                    row: here,
                    edge: *place,
                }),
            };
            arrive(state, graph, gates, starts, next)?;
        }
    }
    Ok(())
}

/// Visits the rows of the present start, and those that come meanwhile.
fn drain(
    state: &mut State,
    graph: &Graph,
    gates: &[Gate],
    lanes: &[Lane],
    starts: &[Start],
) -> Result<(), AllocError>
    requires graph { IsGraph graph.now }
    requires gated { AreGated graph.now gates.now }
    requires fits { Fits graph.now gates.now starts.now state.old }
    requires visited { IsRoomy state.old
        → AreVisited graph.now gates.now lanes.now starts.now state.old.rows.items
        state.old.refused.items state.old.begun }
    requires begun { state.old.begun ≤ length state.old.rows.items }
    ensures { OnOk result
        (IsDrained graph.now gates.now lanes.now starts.now state.old state.new) }
{
    for at in state.begun..usize::MAX {
        if is_full(state) || at >= state.rows.len() {
            break;
        }
        visit(state, graph, gates, lanes, starts, at)?;
    }
    Ok(())
}

/// The rows of a start more.
fn begin(
    state: &mut State,
    graph: &Graph,
    gates: &[Gate],
    lanes: &[Lane],
    starts: &[Start],
    start: usize,
) -> Result<(), AllocError>
    requires graph { IsGraph graph.now }
    requires gated { AreGated graph.now gates.now }
    requires fits { Fits graph.now gates.now starts.now state.old }
    requires start { start < length starts.now }
    requires within { (start_at starts.now start).array < length graph.now.fans.items }
    requires later { state.old.index ≤ (start_at starts.now start).index }
    requires visited { IsRoomy state.old
        → AreVisited graph.now gates.now lanes.now starts.now state.old.rows.items
        state.old.refused.items (length state.old.rows.items) }
    ensures { OnOk result
        (HasBegun graph.now gates.now lanes.now starts.now state.old state.new start) }
{
    state.begun = state.rows.len();
    state.index = starts[start].index;
    let row = Row {
        array: starts[start].array,
        start,
        from: None,
    };
    arrive(state, graph, gates, starts, row)?;
    drain(state, graph, gates, lanes, starts)?;
    Ok(())
}

/// The rows of all starts, which rise by their indexes, and those that are refused, one of each
/// array and index and at most 30. Where so many are refused, it stops. Edges without a lane are
/// taken by all.
pub fn spread(
    state: &mut State,
    graph: &Graph,
    gates: &[Gate],
    lanes: &[Lane],
    starts: &[Start],
) -> Result<(), AllocError>
    requires graph { IsGraph graph.now }
    requires gated { AreGated graph.now gates.now }
    requires within { (s : ℕ) → s < length starts.now
        → (start_at starts.now s).array < length graph.now.fans.items }
    requires rising { AreRising starts.now }
    ensures spread { OnOk result
        (IsSpread graph.now gates.now lanes.now starts.now state.new.rows.items
        state.new.refused.items) }
    ensures told { OnOk result
        (AreTold graph.now gates.now lanes.now starts.now state.new.rows.items
        state.new.refused.items) }
{
    state.reset(graph.fans.len())?;
    for start in 0..starts.len() {
        if is_full(state) {
            break;
        }
        begin(state, graph, gates, lanes, starts, start)?;
    }
    Ok(())
}
