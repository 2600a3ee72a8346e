//! The literals of a clause, each once.

ghost use Rattle.std.specs.Prelude.{◌++◌, ◌∷◌, [], List, OnOk};
ghost use Rattle.cnf_base.specs.Literals.{Literal};
ghost use Rattle.diary_checker.specs.Tables.{AreEach};

use crate::table::LiteralNumbers;
use cnf_base::Lit;
use std::alloc::{AllocError, Global};

/// The literals of a clause, each once however often the clause has it, and the table of them.
#[derive(Debug, Drop)]
pub(crate) struct ClauseLiterals {
    pub(crate) table: LiteralNumbers,
    pub(crate) each: Vec<Lit>,
}

impl ClauseLiterals {
    /// Those of no clause.
    pub(crate) fn new(alloc: Global) -> ClauseLiterals {
        ClauseLiterals {
            table: LiteralNumbers::new(alloc),
            each: Vec::new(alloc),
        }
    }

    /// Makes them those of a clause.
    pub(crate) fn collect(&mut self, clause: &[Lit]) -> Result<(), AllocError>
        ensures { OnOk result (AreEach self.new.table self.new.each.items clause.now) }
    {
        self.clear();
        for l in clause {
            self.add(*l)?;
        }
        Ok(())
    }

    // Makes them those of no clause.
    fn clear(&mut self)
        ensures { AreEach self.new.table self.new.each.items [] }
    {
        self.table.clear();
        self.each.clear();
    }

    // Takes the next literal of a clause, unless it came before.
    fn add(&mut self, l: Lit) -> Result<(), AllocError>
        ensures { OnOk result ((clause : List Literal)
            → AreEach self.old.table self.old.each.items clause
            → AreEach self.new.table self.new.each.items (clause ++ l ∷ [])) }
    {
        if self.table.get(l) == 0 {
            self.each.push(l)?;
            self.table.set(l, 1)?;
        }
        Ok(())
    }
}
