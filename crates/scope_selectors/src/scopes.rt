//! The levels and their assertions.

ghost use Rattle.std.specs.Prelude.{◌≡◌, ◌+◌, ◌<◌, ◌^◌, Ok, Err, length, slice_get, OnOk, OnErr, IfOk, IfErr};
ghost use Rattle.std.specs.Option.{option_copied};
ghost use Rattle.scope_selectors.specs.Scopes.{AreScopes, no_scopes, pushed, popped, asserted, without_assertions, name_of};
ghost use Rattle.scope_selectors.specs.Cores.{core_of};

use crate::blame::{blamed, codes_of, named_among};
use crate::fault::OutOfRange;
use crate::find::{kept, name_at};
use crate::live::{AssertId, Live};
use cnf_base::{Clause, Lit};
use smt_terms::node::TermId;
use smt_text::text::Text;
use std::alloc::{AllocError, Global};
use std::marker::Model;

/// So many levels may stand above the first.
pub const MOST_LEVELS: u64 = 1_000_000;

/// The levels above the first, and the assertions that are live.
#[derive(Drop)]
pub struct Scopes {
    levels: u64,
    live: Vec<Live>,
    made: u32,
    /// The term of each assertion that was ever made.
    terms: Vec<TermId>,
}

impl Model for Scopes {
    ghost use Rattle.scope_selectors.specs.Scopes.{ScopesValue, AreScopes};

    ghost Value = { ScopesValue };

    ghost view = { λ s.
        record { levels = s.levels; live = s.live.items; made = s.made; terms = s.terms.items } };

    ghost invariant = { λ s. AreScopes
        (record { levels = s.levels; live = s.live.items; made = s.made; terms = s.terms.items }) };
}

impl Scopes {
    /// One level, and nothing asserted.
    pub fn new(alloc: Global) -> Scopes
        ensures { result ≡ no_scopes }
    {
        Scopes {
            levels: 0,
            live: Vec::new(alloc),
            made: 0,
            terms: Vec::new(alloc),
        }
    }

    /// Opens so many levels; takes no memory.
    pub fn push(&mut self, n: u64) -> Result<(), OutOfRange>
        ensures ok { OnOk result (pushed self.old n ≡ Ok self.new) }
        ensures err { IfErr result (λ e. pushed self.old n ≡ Err e) }
        ensures kept { OnErr result (self.new ≡ self.old) }
    {
        if n > MOST_LEVELS - self.levels {
            return Err(OutOfRange { held: self.levels });
        }
        self.levels += n;
        Ok(())
    }

    /// Closes so many levels, and forgets the assertions that were made in them; takes no memory.
    pub fn pop(&mut self, n: u64) -> Result<(), OutOfRange>
        ensures ok { OnOk result (popped self.old n ≡ Ok self.new) }
        ensures err { IfErr result (λ e. popped self.old n ≡ Err e) }
        ensures kept { OnErr result (self.new ≡ self.old) }
    {
        if n > self.levels {
            return Err(OutOfRange { held: self.levels });
        }
        let levels = self.levels - n;
        self.live.truncate(kept(&self.live, levels));
        self.levels = levels;
        Ok(())
    }

    /// Asserts a term in the innermost level, and gives the assertion's number.
    pub fn assert(&mut self, term: TermId, name: Option<Text>) -> Result<AssertId, AllocError>
        requires { self.old.made + 1 < 2 ^ 32 }
        ensures number { IfOk result (λ assertion. assertion ≡ self.old.made) }
        ensures ok { OnOk result (self.new ≡ asserted self.old term name) }
        ensures err { OnErr result (self.new ≡ self.old) }
    {
        let assertion = self.made;
        let level = self.levels;
        self.terms.reserve(1)?;
        self.live.push(Live {
            assertion,
            term,
            name,
            level,
        })?;
        self.terms.push(term)?;
        self.made += 1;
        Ok(assertion)
    }

    /// Closes all levels and forgets all assertions; the numbers go on. Takes no memory.
    pub fn reset(&mut self)
        ensures { self.new ≡ without_assertions self.old }
    {
        self.live.clear();
        self.levels = 0;
    }

    /// The live assertions, in the order in which they were made; takes no memory.
    pub fn live(&self) -> &[Live]
        ensures live { result.now ≡ self.now.live }
        ensures scopes { AreScopes self.now }
    {
        self.live.as_slice()
    }

    /// How many levels stand above the first; takes no memory.
    pub fn levels(&self) -> u64
        ensures { result ≡ self.now.levels }
    {
        self.levels
    }

    /// How many assertions were ever made; takes no memory.
    pub fn made(&self) -> u32
        ensures { result ≡ self.now.made }
    {
        self.made
    }

    /// The term of an assertion, live or not; `None` exactly where none of this number was made. Takes no memory.
    pub fn term(&self, assertion: AssertId) -> Option<TermId>
        ensures { result ≡ slice_get self.now.terms assertion }
    {
        self.terms.get(assertion as usize).copied()
    }

    /// The name of a live assertion; `None` exactly where it has none or is not live. Takes no memory.
    pub fn name(&self, assertion: AssertId) -> Option<&Text>
        ensures { option_copied result ≡ name_of self.now assertion }
    {
        name_at(&self.live, assertion)
    }

    /// The live named assertions whose negated selectors stand in the clause, in the order in which they were made.
    /// A selector stands beside the number of its assertion.
    pub fn core_of(
        &self,
        alloc: Global,
        clause: &Clause,
        selectors: &[(AssertId, Lit)],
    ) -> Result<Vec<AssertId>, AllocError>
        ensures { IfOk result (λ core. core.items ≡ core_of self.now clause.now selectors.now) }
    {
        let codes = codes_of(alloc, clause)?;
        let assertions = blamed(alloc, &codes, selectors)?;
        let core = named_among(alloc, &self.live, &assertions)?;
        Ok(core)
    }
}
