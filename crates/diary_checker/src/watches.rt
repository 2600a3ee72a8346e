//! Clauses by one of their literals.

ghost use Rattle.std.specs.Prelude.{◌≡◌, ◌≢◌, ◌==◌, ◌<◌, ◌+◌, ℕ, not, List, [], ◌∷◌, ◌++◌, Option, Contains, filter, length, OnOk, OnErr, slice_index_or};
ghost use Rattle.cnf_base.specs.Literals.{Literal};
ghost use Rattle.cnf_base.specs.declared.clause.ClauseId.{ClauseId};
ghost use Rattle.diary_checker.specs.Tables.{filed_under, row_of};

use cnf_base::{ClauseId, Lit, Pos};
use std::alloc::{AllocError, Global};
use std::marker::Model;

/// Names of clauses.
#[derive(Debug, Drop)]
struct Names {
    items: Vec<ClauseId>,
}

impl Model for Names {
    ghost use Rattle.std.specs.Prelude.{List};
    ghost use Rattle.cnf_base.specs.declared.clause.ClauseId.{ClauseId};

    ghost Value = { List ClauseId };

    ghost view = { λ n. n.items.items };
}

impl Names {
    fn new(alloc: Global) -> Names
        ensures { result ≡ [] }
    {
        Names {
            items: Vec::new(alloc),
        }
    }

    fn push(&mut self, id: ClauseId) -> Result<(), AllocError>
        ensures kept { (i : ClauseId) → Contains self.old i → Contains self.new i }
        ensures ok { OnOk result (Contains self.new id) }
    {
        self.items.push(id)?;
        Ok(())
    }

    // Takes out the names of a position.
    fn remove(&mut self, at: Pos)
        ensures { self.new ≡ filter (λ id. not (id.pos == at)) self.old }
    {
        self.items.retain(|id| id.pos != at);
    }

    fn as_slice(&self) -> &[ClauseId]
        ensures { result.now ≡ self.now }
    {
        self.items.as_slice()
    }
}

/// The names of clauses, each filed under one of the clause's literals, the empty ones by themselves.
#[derive(Debug, Drop)]
pub(crate) struct Watches {
    lists: Vec<Names>,
    alloc: Global,
}

impl Model for Watches {
    ghost use Rattle.std.specs.Prelude.{List};
    ghost use Rattle.cnf_base.specs.declared.clause.ClauseId.{ClauseId};

    ghost Value = { List (List ClauseId) };

    ghost view = { λ w. w.lists.items };
}

impl Watches {
    /// No clause is filed.
    pub(crate) fn new(alloc: Global) -> Watches {
        Watches {
            lists: Vec::new(alloc),
            alloc,
        }
    }

    /// The allocator of the lists.
    pub(crate) fn alloc(&self) -> Global {
        self.alloc
    }

    /// The clauses that are filed under a literal, or under none.
    pub(crate) fn under(&self, key: Option<Lit>) -> &[ClauseId]
        ensures { result.now ≡ filed_under self.now key }
    {
        match self.lists.get(row(key)) {
            Some(names) => names.as_slice(),
            None => &[],
        }
    }

    /// Files one clause more.
    pub(crate) fn add(&mut self, key: Option<Lit>, id: ClauseId) -> Result<(), AllocError>
        ensures kept { (k : Option Literal) (i : ClauseId) → Contains (filed_under self.old k) i
            → Contains (filed_under self.new k) i }
        ensures ok { OnOk result (Contains (filed_under self.new key) id) }
    {
        let at = row(key);
        grow(self.alloc, &mut self.lists, at)?;
        self.lists[at].push(id)
    }

    /// Takes out, of the clauses that are filed under a literal, or under none, those of a position.
    pub(crate) fn remove(&mut self, key: Option<Lit>, at: Pos)
        ensures kept { (k : Option Literal) (i : ClauseId) → i.pos ≢ at
            → Contains (filed_under self.old k) i → Contains (filed_under self.new k) i }
        ensures gone { (i : ClauseId) → Contains (filed_under self.new key) i → i.pos ≢ at }
        ensures none { (k : Option Literal) (i : ClauseId) → Contains (filed_under self.new k) i
            → Contains (filed_under self.old k) i }
    {
        let row = row(key);
        if row < self.lists.len() {
            self.lists[row].remove(at);
        }
    }
}

fn row(key: Option<Lit>) -> usize
    ensures { result ≡ row_of key }
{
    match key {
        Some(l) => l.code() as usize,
        None => 0,
    }
}

// Makes room for a row.
fn grow(alloc: Global, lists: &mut Vec<Names>, at: usize) -> Result<(), AllocError>
    ensures same { (k : ℕ)
        → slice_index_or lists.new.items k [] ≡ slice_index_or lists.old.items k [] }
    ensures room { OnOk result (at < length lists.new.items) }
{
    let Some(wanted) = at.checked_add(1) else {
        return Err(AllocError);
    };
    for _row in lists.len()..wanted {
        add_row(alloc, lists)?;
    }
    Ok(())
}

// One row more.
fn add_row(alloc: Global, lists: &mut Vec<Names>) -> Result<(), AllocError>
    ensures same { (k : ℕ)
        → slice_index_or lists.new.items k [] ≡ slice_index_or lists.old.items k [] }
    ensures ok { OnOk result (length lists.new.items ≡ length lists.old.items + 1) }
{
    match lists.push(Names::new(alloc)) {
        Ok(()) => Ok(()),
        Err(_) => Err(AllocError),
    }
}
