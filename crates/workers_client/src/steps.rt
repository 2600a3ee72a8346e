//! A check over all steps of a log that are no chains.

ghost use Rattle.std.specs.Prelude.{◌≡◌, ◌<◌, ◌≤◌, ◌⊎◌, ◌↔◌, ℕ, All, Contains, IfOk, OnOk, IsTrue};
ghost use Rattle.cnf_base.specs.Assignments.{AreBelow};
ghost use Rattle.proof_log.specs.Logs.{entry_at};
ghost use Rattle.proof_log.specs.Diaries.{is_chain};
ghost use Rattle.workers_client.specs.Asking.{ArePlain, IsAsked};

use cnf_base::{Lit, Pos};
use cube_tree::Tree;
use proof_log::Log;
use proof_log::entry::Entry;
use std::alloc::{AllocError, Global};

/// The positions of a check, the tree of its cubes, and the literals that it assumes.
#[derive(Drop)]
pub struct Asked {
    pub positions: Vec<Pos>,
    pub tree: Tree,
    pub assumed: Vec<Lit>,
}

// Whether a chain stands at a position.
fn is_chain(log: &Log, at: Pos) -> bool
    ensures { result ≡ is_chain (entry_at log.now.entries at) }
{
    matches!(log.entry(at), Some(Entry::Chain(_, _)))
}

// Keeps a position that is to be kept.
fn keep(positions: &mut Vec<Pos>, at: Pos, is_kept: bool) -> Result<(), AllocError>
    ensures old { OnOk result ((p : ℕ) → Contains positions.old.items p
        → Contains positions.new.items p) }
    ensures new { OnOk result (IsTrue is_kept → Contains positions.new.items at) }
    ensures only { OnOk result ((p : ℕ) → Contains positions.new.items p
        → Contains positions.old.items p ⊎ ((p ≡ at) × IsTrue is_kept)) }
{
    if is_kept {
        positions.push(at)?;
    }
    Ok(())
}

// The positions of a log that are no chains'.
fn plain_steps(alloc: Global, log: &Log) -> Result<Vec<Pos>, AllocError>
    ensures { IfOk result (λ v. ArePlain log.now.entries v.items) }
{
    let mut positions = Vec::new(alloc);
    'steps: for at in 0..log.len() {
        keep(&mut positions, at, !is_chain(log, at))?;
    }
    Ok(positions)
}

// Whether all literals are below a variable.
fn are_below(variable: u64, literals: &[Lit]) -> bool
    ensures { IsTrue result ↔ AreBelow variable literals.now }
{
    literals.iter().all(|l| l.variable() < variable)
}

// Whether all of these are below a variable.
fn are_made(variable: u64, variables: &[u64]) -> bool
    ensures { IsTrue result ↔ All (λ x. x < variable) variables.now }
{
    variables.iter().all(|x| *x < variable)
}

// The selector of assertion 0.
fn assumed(alloc: Global, log: &Log) -> Result<Vec<Lit>, AllocError> {
    let mut assumed = Vec::new(alloc);
    if let Some(selector) = log.selector(0) {
        assumed.push(selector)?;
    }
    Ok(assumed)
}

/// The check of assertion 0, which the variables from 2 on split, so many of them, three at most.
pub fn ask(alloc: Global, log: &Log, depth: u32) -> Result<Asked, AllocError>
    requires { depth ≤ 10 }
    ensures { IfOk result (IsAsked log.now) }
{
    let tree = Tree::split(alloc, &[2, 3, 4], depth)?;
    let positions = plain_steps(alloc, log)?;
    let assumed = assumed(alloc, log)?;
    let next = log.next();
    if !are_made(next, tree.variables()) || !are_below(next, assumed.as_slice()) {
        return Err(AllocError);
    }
    Ok(Asked {
        positions,
        tree,
        assumed,
    })
}
