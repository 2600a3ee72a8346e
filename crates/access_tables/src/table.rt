// Tables of accesses, as code holds them.

ghost use Rattle.std.specs.Prelude.{◌≡◌};
ghost use Rattle.access_tables.specs.Held.{spare_in};

use smt_terms::node::TermId;
use smt_words::Word;
use std::marker::Model;
use theory_terms::atom::Landing;

/// The terms that some terms reach, accesses of the arrays among them, and the spare index of each
/// width that has one.
#[derive(Debug, Drop)]
pub struct AccessTable {
    terms: Vec<TermId>,
    rows: Vec<Landing>,
    spares: Vec<Word>,
}

impl Model for AccessTable {
    ghost use Rattle.access_tables.specs.Held.{TableValue};

    ghost Value = { TableValue };

    ghost view = { λ t.
        record { terms = t.terms.items; rows = t.rows.items; spares = t.spares.items } };
}

/// The spare index of a width.
fn spare_in(spares: &[Word], width: u32) -> Option<u128>
    ensures { result ≡ spare_in spares.now width }
{
    for spare in spares {
        if spare.width() == width {
            return Some(spare.value());
        }
    }
    None
}

impl AccessTable {
    /// These terms, accesses and spare indexes; takes no memory.
    pub fn new(terms: Vec<TermId>, rows: Vec<Landing>, spares: Vec<Word>) -> AccessTable
        ensures { result
            ≡ record { terms = terms.items; rows = rows.items; spares = spares.items } }
    {
        AccessTable {
            terms,
            rows,
            spares,
        }
    }

    /// The terms that are reached; takes no memory.
    pub fn terms(&self) -> &[TermId]
        ensures { result.now ≡ self.now.terms }
    {
        self.terms.as_slice()
    }

    /// The accesses; takes no memory.
    pub fn rows(&self) -> &[Landing]
        ensures { result.now ≡ self.now.rows }
    {
        self.rows.as_slice()
    }

    /// The spare index of a width, if it has one; takes no memory.
    pub fn spare(&self, width: u32) -> Option<u128>
        ensures { result ≡ spare_in self.now.spares width }
    {
        spare_in(self.spares.as_slice(), width)
    }
}
