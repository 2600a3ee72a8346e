// The walk: under an assignment a closed table of what is reached, or lemmas that are false.

ghost use Rattle.std.specs.Prelude.{[], Contains, IfOk, length, ◌≡◌};
ghost use Rattle.smt_terms.specs.Bits.{image_in};
ghost use Rattle.bit_blast.specs.Assigned.{assigned};
ghost use Rattle.term_reach.specs.Reach.{IsReach};
ghost use Rattle.access_tables.specs.Leading.{leads};
ghost use Rattle.access_tables.specs.Held.{assigned_value};
ghost use Rattle.access_walk.specs.Maps.{AreLinked};
ghost use Rattle.access_walk.specs.Networks.{AreApart, AreCongruent};
ghost use Rattle.access_walk.specs.Rows.{AreClosedRows};
ghost use Rattle.access_walk.specs.Searched.{IsPrepared, AreAllConflicts, AreNoClashes, AreConflicts, IsWalked};
ghost use Rattle.access_walk.specs.Spread.{AreClashes};
ghost use Rattle.access_walk.specs.Told.{AreAllTold};
ghost use Rattle.access_walk.specs.Walked.{IsWalkable, HaveWordValues, IsWalkedTable};

use crate::congruence::{Application, Calls, applications_of, congruence_conflicts};
use crate::filling::network_of;
use crate::network::Network;
use crate::spares::{Indexes, indexes_of, spares_of, table_of};
use crate::spreading::{self, Clashes, Spreading, find_clashes};
use crate::witnesses::{Watched, watches_of, witness_conflicts};
use access_tables::table::AccessTable;
use bit_blast::Assignment;
use smt_terms::bits::Bits;
use smt_terms::node::TermId;
use smt_terms::terms::Terms;
use std::alloc::{AllocError, Global};
use term_reach::Reached;
use theory_terms::atom::Landing;
use theory_terms::lemma::Lemma;

/// What is made once a search: accesses and moves, applications, equalities of arrays, and indexes.
#[derive(Drop)]
pub struct Prepared {
    network: Network,
    applications: Vec<Application>,
    watches: Vec<Watched>,
    indexes: Indexes,
}

/// Tables that are kept from one assignment to the next for their memory alone.
#[derive(Drop)]
pub struct Workspace {
    calls: Calls,
    spreading: spreading::Workspace,
}

/// Lemmas that an assignment makes false, and further ones that are like them.
#[derive(Debug, Drop)]
pub struct Conflicts {
    /// At least one lemma. The first is the one to be put where one alone is.
    pub falses: Vec<Lemma>,
    /// Lemmas that need not be false.
    pub siblings: Vec<Lemma>,
}

/// What a walk answers.
#[derive(Debug, Drop)]
pub enum Walked {
    /// A closed table, from which an interpretation can be built.
    Table(AccessTable),
    /// False lemmas.
    Conflicts(Conflicts),
}

impl Workspace {
    /// Takes no memory.
    pub fn new(alloc: Global) -> Workspace {
        Workspace {
            calls: Calls::new(alloc),
            spreading: spreading::Workspace::new(alloc),
        }
    }
}

/// What the walks of a search over these terms need, whatever the assignment is.
pub fn prepare(
    alloc: Global,
    terms: &Terms,
    bits: &Bits,
    live: &[TermId],
    reached: &Reached,
) -> Result<Prepared, AllocError>
    requires walkable { IsWalkable terms.now.nodes bits.now live.now }
    requires reach { IsReach (leads terms.now.nodes (image_in bits.now)) live.now reached.now }
    ensures { IfOk result (IsPrepared terms.now.nodes bits.now reached.now) }
{
    let indexes = indexes_of(alloc, terms, bits, reached)?;
    let network = network_of(alloc, terms, bits, reached, indexes.widths.as_slice())?;
    let applications = applications_of(alloc, terms, bits, reached)?;
    let watches = watches_of(alloc, terms, bits, reached)?;
    Ok(Prepared {
        network,
        applications,
        watches,
        indexes,
    })
}

/// The lemmas of applications and of witnesses that are false.
fn conflicts_of(
    alloc: Global,
    terms: &Terms,
    bits: &Bits,
    assignment: &Assignment,
    reached: &Reached,
    prepared: &Prepared,
    calls: &mut Calls,
) -> Result<Vec<Lemma>, AllocError>
    requires { IsPrepared terms.now.nodes bits.now reached.now prepared.now }
    ensures all { IfOk result
        (λ found. AreAllConflicts terms.now.nodes bits.now (assigned assignment.now)
        (Contains reached.now) found.items) }
    ensures others { IfOk result (λ found. AreNoClashes found.items) }
{
    let mut conflicts = congruence_conflicts(
        alloc,
        terms,
        bits,
        assignment,
        reached,
        prepared.applications.as_slice(),
        calls,
    )?;
    let watches = prepared.watches.as_slice();
    let mut more = witness_conflicts(alloc, terms, bits, assignment, reached, watches)?;
    conflicts.append(&mut more)?;
    Ok(conflicts)
}

/// The table of these rows.
fn table_at(
    alloc: Global,
    terms: &Terms,
    bits: &Bits,
    assignment: &Assignment,
    live: &[TermId],
    reached: &Reached,
    prepared: &Prepared,
    rows: Vec<Landing>,
) -> Result<AccessTable, AllocError>
    requires walkable { IsWalkable terms.now.nodes bits.now live.now }
    requires reach { IsReach (leads terms.now.nodes (image_in bits.now)) live.now reached.now }
    requires prepared { IsPrepared terms.now.nodes bits.now reached.now prepared.now }
    requires rows { AreClosedRows terms.now.nodes bits.now (assigned assignment.now) reached.now
        rows.items }
    requires congruent { AreCongruent terms.now.nodes (image_in bits.now) (Contains reached.now)
        (assigned_value terms.now.nodes bits.now (assigned assignment.now)) }
    requires apart { AreApart terms.now.nodes (image_in bits.now) (Contains reached.now)
        (assigned_value terms.now.nodes bits.now (assigned assignment.now)) }
    ensures { IfOk result
        (IsWalkedTable terms.now.nodes bits.now (assigned assignment.now) live.now) }
{
    let spares = spares_of(alloc, terms, bits, assignment, reached, &prepared.indexes)?;
    table_of(alloc, terms, bits, assignment, live, reached, rows, spares)
}

/// The conflicts, and clashes behind them.
fn joined(
    terms: &Terms,
    bits: &Bits,
    assignment: &Assignment,
    reached: &Reached,
    mut conflicts: Vec<Lemma>,
    mut found: Clashes,
) -> Result<Conflicts, AllocError>
    requires conflicts { AreAllConflicts terms.now.nodes bits.now (assigned assignment.now)
        (Contains reached.now) conflicts.items }
    requires others { AreNoClashes conflicts.items }
    requires clashes { AreClashes terms.now.nodes bits.now (assigned assignment.now) found }
    requires told { AreAllTold terms.now.nodes bits.now (assigned assignment.now)
        (Contains reached.now) found.falses.items }
    ensures { IfOk result
        (AreConflicts terms.now.nodes bits.now (assigned assignment.now) (Contains reached.now)) }
{
    conflicts.append(&mut found.falses)?;
    Ok(Conflicts {
        falses: conflicts,
        siblings: found.siblings,
    })
}

/// Where no accesses clash: the table of these rows, or the other lemmas, if there are some.
fn answered(
    alloc: Global,
    terms: &Terms,
    bits: &Bits,
    assignment: &Assignment,
    live: &[TermId],
    reached: &Reached,
    prepared: &Prepared,
    falses: Vec<Lemma>,
    rows: Vec<Landing>,
) -> Result<Walked, AllocError>
    requires walkable { IsWalkable terms.now.nodes bits.now live.now }
    requires reach { IsReach (leads terms.now.nodes (image_in bits.now)) live.now reached.now }
    requires prepared { IsPrepared terms.now.nodes bits.now reached.now prepared.now }
    requires rows { AreClosedRows terms.now.nodes bits.now (assigned assignment.now) reached.now
        rows.items }
    requires all { AreAllConflicts terms.now.nodes bits.now (assigned assignment.now)
        (Contains reached.now) falses.items }
    requires others { AreNoClashes falses.items }
    requires told { AreAllTold terms.now.nodes bits.now (assigned assignment.now)
        (Contains reached.now) [] }
    ensures { IfOk result
        (IsWalked terms.now.nodes bits.now (assigned assignment.now) live.now reached.now) }
{
    if falses.is_empty() {
        let table = table_at(
            alloc, terms, bits, assignment, live, reached, prepared, rows,
        )?;
        return Ok(Walked::Table(table));
    }
    let siblings = Vec::new(alloc);
    Ok(Walked::Conflicts(Conflicts { falses, siblings }))
}

/// Under an assignment a table that is closed, of exactly what the live terms reach; or lemmas,
/// false under it: all that functions and witnesses give, and of accesses that clash at most 30, no
/// two of which are on one array and one index number. Where these are fewer than 30, all clashes
/// are told that accesses meet on the way down and over equalities: two that come to one array with
/// equal indexes and different values are told there, or one of them is told further up its way.
pub fn walk(
    alloc: Global,
    terms: &Terms,
    bits: &Bits,
    assignment: &Assignment,
    live: &[TermId],
    reached: &Reached,
    prepared: &Prepared,
    workspace: &mut Workspace,
) -> Result<Walked, AllocError>
    requires walkable { IsWalkable terms.now.nodes bits.now live.now }
    requires reach { IsReach (leads terms.now.nodes (image_in bits.now)) live.now reached.now }
    requires prepared { IsPrepared terms.now.nodes bits.now reached.now prepared.now }
    requires values { HaveWordValues terms.now.nodes bits.now (assigned assignment.now) }
    requires linked { AreLinked (image_in bits.now)
        (assigned_value terms.now.nodes bits.now (assigned assignment.now)) }
    ensures { IfOk result
        (IsWalked terms.now.nodes bits.now (assigned assignment.now) live.now reached.now) }
{
    let calls = &mut workspace.calls;
    let falses = conflicts_of(alloc, terms, bits, assignment, reached, prepared, calls)?;
    let network = &prepared.network;
    let spreading = &mut workspace.spreading;
    let found = find_clashes(alloc, terms, bits, assignment, reached, network, spreading)?;
    match found {
        Spreading::Table(rows) => answered(
            alloc, terms, bits, assignment, live, reached, prepared, falses, rows,
        ),
        Spreading::Clashes(clashes) => {
            let conflicts = joined(terms, bits, assignment, reached, falses, clashes)?;
            Ok(Walked::Conflicts(conflicts))
        }
    }
}
