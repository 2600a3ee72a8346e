//! The state of a session, and its steps.

ghost use Rattle.std.specs.Prelude.{◌≡◌, ◌+◌, ◌<◌, ◌^◌, All, IfOk, length, slice_get};
ghost use Rattle.std.specs.Option.{option_copied};
ghost use Rattle.script_state.specs.States.{assumptions, roots, no_state, concluded, with_terms, IsState, Fit};
ghost use Rattle.script_state.specs.Steps.{forgotten, Applies};

use crate::answer::{Answer, Asked, AskedTerms, Verdict};
use crate::error_text::ErrorText;
use crate::options::Options;
use crate::plain::cut;
use crate::watches::roots_of;
use scope_selectors::live::Live;
use scope_selectors::scopes::Scopes;
use smt_build::symbols::{LiveName, Symbols};
use smt_terms::node::TermId;
use smt_terms::sort::{DeclId, Signature};
use smt_terms::terms::Terms;
use smt_text::chunk::{Chunk, ChunkKind};
use std::alloc::{AllocError, Global};
use std::marker::Model;
use term_reach::Reached;

/// The declarations, the terms, the levels with their assertions, the options, and the check that stands.
#[derive(Drop)]
pub struct State {
    pub(crate) symbols: Symbols,
    pub(crate) terms: Terms,
    pub(crate) scopes: Scopes,
    pub(crate) options: Options,
    pub(crate) standing: Option<Verdict>,
    /// What the check that stands assumes, or the one that is begun.
    pub(crate) assumed: Option<AskedTerms>,
    /// For each of the first terms whether it is plain.
    pub(crate) plain: Vec<bool>,
    /// Room for the walks of uses of definitions, which is kept from command to command.
    pub(crate) reached: Reached,
}

impl Model for State {
    ghost use Rattle.script_state.specs.Plain.{HavePlain};
    ghost use Rattle.script_state.specs.States.{StateValue, IsState};

    ghost Value = { StateValue };

    ghost view = { λ s.
        record {
          symbols = s.symbols;
          terms = s.terms;
          scopes = s.scopes;
          options = s.options;
          standing = s.standing;
          assumed = s.assumed;
        } };

    ghost invariant = { λ s. IsState
        (record {
          symbols = s.symbols;
          terms = s.terms;
          scopes = s.scopes;
          options = s.options;
          standing = s.standing;
          assumed = s.assumed;
        }) × HavePlain s.terms.nodes s.plain.items };
}

/// What a state has beside its terms.
#[derive(Drop)]
pub struct Rest {
    symbols: Symbols,
    scopes: Scopes,
    options: Options,
    standing: Option<Verdict>,
    assumed: Option<AskedTerms>,
    plain: Vec<bool>,
    reached: Reached,
}

impl Model for Rest {
    ghost use Rattle.script_state.specs.States.{RestValue};

    ghost Value = { RestValue };

    ghost view = { λ r.
        record {
          symbols = r.symbols;
          scopes = r.scopes;
          options = r.options;
          standing = r.standing;
          assumed = r.assumed;
          marks = r.plain.items;
        } };
}

impl State {
    /// Nothing declared, nothing asserted, one level, the first options, and no check that stands.
    pub fn new(alloc: Global) -> State
        ensures { result ≡ no_state }
    {
        State {
            symbols: Symbols::new(alloc),
            terms: Terms::new(alloc),
            scopes: Scopes::new(alloc),
            options: Options::first(),
            standing: None,
            assumed: None,
            plain: Vec::new(alloc),
            reached: Reached::new(alloc),
        }
    }

    /// Does what the chunk says, and gives its answer. Where it is refused, and for want of memory, the state is as before.
    pub fn apply(&mut self, alloc: Global, chunk: &Chunk) -> Result<Answer, AllocError>
        requires assertions { self.old.scopes.made + 1 < 2 ^ 32 }
        ensures { Applies chunk.now result self.old self.new }
    {
        match chunk.kind {
            ChunkKind::Balanced => self.apply_command(alloc, chunk),
            ChunkKind::Stray => Ok(Answer::Refused(ErrorText::TextOutsideCommand)),
            ChunkKind::Unfinished => Ok(Answer::Refused(ErrorText::UnfinishedCommand)),
        }
    }

    /// The check that was begun last has this verdict, and stands until the next accepted command that changes the state.
    pub fn conclude(&mut self, verdict: Verdict)
        ensures { self.new ≡ concluded self.old verdict }
    {
        self.standing = Some(verdict);
    }

    /// Forgets the terms from this number on, as is done once the values are printed that a command asks for.
    pub fn forget(&mut self, len: u32)
        requires { IsState (forgotten self.old len) }
        ensures { self.new ≡ forgotten self.old len }
    {
        if len < self.terms.len() {
            cut(&mut self.terms, &mut self.plain, len);
        }
    }

    /// The terms, and the rest of the state. More terms may be made before they are put together again.
    pub fn into_parts(self) -> (Terms, Rest)
        ensures state { self ≡ with_terms result.1 result.0 }
        ensures fit { Fit result.0 result.1 }
    {
        let State {
            symbols,
            terms,
            scopes,
            options,
            standing,
            assumed,
            plain,
            reached,
        } = self;
        let rest = Rest {
            symbols,
            scopes,
            options,
            standing,
            assumed,
            plain,
            reached,
        };
        (terms, rest)
    }

    /// The state of these terms and the rest.
    pub fn from_parts(terms: Terms, rest: Rest) -> State
        requires { Fit terms rest }
        ensures { result ≡ with_terms rest terms }
    {
        let Rest {
            symbols,
            scopes,
            options,
            standing,
            assumed,
            plain,
            reached,
        } = rest;
        State {
            symbols,
            terms,
            scopes,
            options,
            standing,
            assumed,
            plain,
            reached,
        }
    }

    /// The verdict of the check that stands, `None` exactly where none stands.
    pub fn standing(&self) -> Option<Verdict>
        ensures { result ≡ self.now.standing }
    {
        self.standing
    }

    /// What the check that stands assumes, or the one that is begun; nothing where it was asked without assumptions.
    pub fn assumptions(&self) -> &[Asked]
        ensures assumptions { result.now ≡ assumptions self.now }
        ensures state { IsState self.now }
    {
        match &self.assumed {
            Some(asked) => asked.as_slice(),
            None => &[],
        }
    }

    /// The options.
    pub fn options(&self) -> Options
        ensures { result ≡ self.now.options }
    {
        self.options
    }

    /// The terms.
    pub fn terms(&self) -> &Terms
        ensures terms { result.now ≡ self.now.terms }
        ensures state { IsState self.now }
    {
        &self.terms
    }

    /// The levels, the names of assertions, and their cores.
    pub fn scopes(&self) -> &Scopes
        ensures { result.now ≡ self.now.scopes }
    {
        &self.scopes
    }

    /// How many assertions were ever made.
    pub fn assertions_made(&self) -> u32
        ensures { result ≡ self.now.scopes.made }
    {
        self.scopes.made()
    }

    /// The live assertions, in the order in which they were made.
    pub fn live(&self) -> &[Live]
        ensures live { result.now ≡ self.now.scopes.live }
        ensures state { IsState self.now }
    {
        self.scopes.live()
    }

    /// The terms of the live assertions, and then those of the assumptions.
    pub fn roots(&self, alloc: Global) -> Result<Vec<TermId>, AllocError>
        ensures roots { IfOk result (λ r. r.items ≡ roots self.now) }
        ensures held { IfOk result (λ r. All (λ t. t < length self.now.terms.nodes) r.items) }
        ensures state { IsState self.now }
    {
        let found = roots_of(alloc, self.live(), self.assumptions())?;
        Ok(found)
    }

    /// The live names, in the order of their declarations.
    pub fn declared(&self) -> &[LiveName]
        ensures { result.now ≡ self.now.symbols.live }
    {
        self.symbols.live()
    }

    /// The signature of a declaration, `None` exactly where none of this number was made.
    pub fn signature(&self, declaration: DeclId) -> Option<&Signature>
        ensures { option_copied result ≡ slice_get self.now.symbols.signatures declaration }
    {
        self.symbols.signature(declaration)
    }
}
