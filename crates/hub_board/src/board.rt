//! A board over the hub.
//!
//! What the board has read lies in its table, by position. A put of its own may stand behind steps of others that were
//! not read yet, so the table has gaps until the next `sync`.

ghost use Rattle.std.specs.Prelude.{◌≡◌, ◌≢◌, ◌<◌, ◌≤◌, ◌⊎◌, ◌+◌, ◌-◌, [], ◌∷◌, ℕ, suc, false, List, Some, length, drop, slice_get, IfOk, OnOk, MatchResult};
ghost use Rattle.std.specs.Option.{option_copied};
ghost use Rattle.cnf_base.specs.Literals.{Literal};
ghost use Rattle.cnf_base.specs.declared.clause.ClauseId.{ClauseId as Name};
ghost use Rattle.shared_history.specs.Events.{StartsWith};
ghost use Rattle.shared_history.specs.Known.{IsPassOf, IsSamePass};
ghost use Rattle.proof_log.specs.declared.entry.Entry.TheVariants as step;
ghost use Rattle.proof_log.specs.Logs.{state_of, IsStep, IsLog};
ghost use Rattle.proof_log.specs.Boards.{IsLater, IsPutAt, KnowsOneMore, IsClauseOf, IsEntryOf, AreBitsIn};
ghost use Rattle.hub_core.specs.declared.events.Event.{Event as Made};
ghost use Rattle.hub_core.specs.Hubs.{IsHistory, permitted};
ghost use Rattle.hub_board.specs.Chains.{AddsChains, AddChains, chains_of};
ghost use Rattle.hub_board.specs.Filing.{IsThere, IsFiled};
ghost use Rattle.proof_log.specs.declared.entry.Entry.{Entry as Step};
ghost use Rattle.hub_board.specs.Boards.{BoardValue, IsBoard, Knows, base_of, view_in, footing_of, IsMoved, IsStepped};

use crate::chain_hub::ChainHub;
use crate::table::Table;
use cnf_base::{Clause, ClauseId, Pos};
use hub_core::{Call, Event, Reply};
use proof_log::board::{Board, Sync};
use proof_log::entry::{Entry, Hints};
use shared_history::{Back, Hist, Pass, Pieces};
use smt_terms::bits::Bits;
use std::alloc::{AllocError, Global};
use std::marker::Model;
use std::sync::Wait;

/// A board over the hub: a pass of its history, and the steps that were read.
#[derive(Drop)]
pub struct HubBoard<'h, 'a, R: Wait> {
    rt: &'h R,
    alloc: Global,
    hist: &'h Hist<ChainHub<'a>>,
    pass: Pass<ChainHub<'a>>,
    table: Table,
    // what `sync` answered last
    news: Sync,
}

impl<'h, 'a, R: Wait> Model for HubBoard<'h, 'a, R> {
    ghost use Rattle.hub_board.specs.Boards.{BoardValue, IsBoard};

    ghost Value = { BoardValue };

    ghost view = { λ b.
        record { hist = b.hist.now; pass = b.pass; table = b.table; news = b.news } };

    ghost invariant = { λ b. IsBoard
        (record { hist = b.hist.now; pass = b.pass; table = b.table; news = b.news }) };
}

// Files events, in order.
fn file(table: &mut Table, alloc: Global, events: &Pieces<Event>) -> Result<(), AllocError>
    requires { AddChains events.now }
    ensures filed { (seen : List Made) → events.now ≡ drop table.old.filed seen
        → IsFiled table.old seen → IsFiled table.new seen }
    ensures kept { (i : ℕ) → IsThere table.old.rows.items i → IsThere table.new.rows.items i }
    ensures all { OnOk result ((seen : List Made) → events.now ≡ drop table.old.filed seen
        → IsFiled table.old seen → table.new.filed ≡ length seen) }
{
    'events: for at in 0..events.len() {
        let Some(event) = events.get(at) else {
            unreachable!()
        };
        table.add(alloc, event)?;
    }
    Ok(())
}

impl<'h, 'a, R: Wait> HubBoard<'h, 'a, R> {
    /// The board over a pass that has read nothing. It has told nothing.
    pub fn new(
        rt: &'h R,
        alloc: Global,
        hist: &'h Hist<ChainHub<'a>>,
        pass: Pass<ChainHub<'a>>,
    ) -> HubBoard<'h, 'a, R>
        requires own { IsPassOf hist.now pass }
        requires made { IsHistory hist.now.law pass.seen }
        requires chains { AddChains pass.seen }
        ensures hist { result.hist ≡ hist.entry.now }
        ensures pass { result.pass ≡ pass.entry }
        ensures news { result.news ≡ record { upto = 0; found = false } }
    {
        // Tells that the log stands over the terms.
        let _opening = hist.law().log();
        pass.facts();
        HubBoard {
            rt,
            alloc,
            hist,
            pass,
            table: Table::new(alloc),
            news: Sync {
                upto: 0,
                found: false,
            },
        }
    }

    /// The history of the pass.
    pub fn hist(&self) -> &Hist<ChainHub<'a>>
        ensures { result.now ≡ self.now.hist }
    {
        self.hist
    }

    /// What holds of each board. It does nothing.
    pub fn facts(&self)
        ensures { IsBoard self.now }
    {
        let _ = &self.table;
    }

    /// The pass, taken back.
    pub fn into_pass(self) -> Pass<ChainHub<'a>>
        ensures { result ≡ self.entry.pass }
    {
        self.pass
    }

    /// Makes a call: one turn. After `Back` nothing was done.
    pub fn step(&mut self, call: Call) -> Result<Reply, Back<Call>>
        requires chains { AddsChains call }
        requires permitted { permitted self.old.hist.law self.old.pass.seen self.old.pass.number
            call }
        ensures same { (self.new.hist ≡ self.old.hist) × (self.new.table ≡ self.old.table)
            × IsSamePass self.old.pass self.new.pass × (self.new.pass.got ≡ self.old.pass.got) }
        ensures news { self.new.news ≡ self.old.news }
        ensures step { MatchResult result
            (λ r. IsStepped self.old.hist.law self.old.pass self.new.pass call r)
            (λ back. (back.kept ≡ call) × (self.new.pass ≡ self.old.pass)) }
        ensures board { IsBoard self.old × IsBoard self.new }
    {
        let reply = self.hist.step(self.rt, self.alloc, &mut self.pass, call);
        self.pass.facts();
        reply
    }

    // Keeps the step of a position, which was seen, for reading.
    fn keep(&mut self, at: Pos, step: Entry) -> Result<(), AllocError>
        requires behind { base_of self.old ≤ at }
        requires there { slice_get (chains_of self.old.pass.seen) (at - base_of self.old)
            ≡ Some step }
        ensures same { (self.new.hist ≡ self.old.hist) × (self.new.pass ≡ self.old.pass) }
        ensures news { self.new.news ≡ self.old.news }
        ensures kept { (i : ℕ) → IsThere self.old.table.rows.items i
            → IsThere self.new.table.rows.items i }
        ensures only { (i : ℕ) → IsThere self.new.table.rows.items i
            → IsThere self.old.table.rows.items i ⊎ (i ≡ at - base_of self.old) }
        ensures there { OnOk result (IsThere self.new.table.rows.items (at - base_of self.old)) }
        ensures board { IsBoard self.new }
    {
        let base = self.hist.law().log().len();
        self.table.set(at - base, step)
    }

    /// Puts a chain; gives its position.
    pub fn put_chain(&mut self, clause: Clause, hints: Hints) -> Result<Pos, AllocError>
        requires { IsStep self.old.hist.law.nodes
            (state_of self.old.hist.law.nodes (view_in self.old).log) (step.Chain clause hints) }
        ensures moved { IsMoved (footing_of self.old) self.new }
        ensures later { IsLater self.old.hist.law.nodes self.new.hist.law.nodes
            (view_in self.old).log (view_in self.new).log (Knows self.old) (Knows self.new) }
        ensures put { IfOk result
            (λ p. IsPutAt (view_in self.old).log (step.Chain clause hints) p
            (view_in self.new).log) }
        ensures known { IfOk result (λ p. KnowsOneMore (Knows self.old) p (Knows self.new)) }
        ensures news { self.new.news ≡ self.old.news }
    {
        let kept = Entry::Chain(clause.copy(self.alloc)?, hints.copy(self.alloc)?);
        let Ok(reply) = self.step(Call::PutChain(clause, hints)) else {
            return Err(AllocError);
        };
        let Reply::At(at) = reply else { unreachable!() };
        self.keep(at, kept)?;
        Ok(at)
    }

    // Reads the events that were not read yet.
    fn pull(&mut self) -> Result<Pieces<Event>, AllocError>
        ensures same { (self.new.hist ≡ self.old.hist) × (self.new.table ≡ self.old.table)
            × IsSamePass self.old.pass self.new.pass × (self.new.pass.mine ≡ self.old.pass.mine) }
        ensures news { self.new.news ≡ self.old.news }
        ensures read { MatchResult result
            (λ events. StartsWith self.new.pass.seen self.old.pass.seen
            × (events ≡ drop self.old.pass.got self.new.pass.seen)
            × (self.new.pass.got ≡ length self.new.pass.seen))
            (λ _. self.new.pass ≡ self.old.pass) }
        ensures board { IsBoard self.old × IsBoard self.new }
    {
        let read = self.hist.read(self.rt, self.alloc, &mut self.pass);
        self.pass.facts();
        match read {
            Ok(events) => Ok(events),
            Err(_) => Err(AllocError),
        }
    }

    // Files what was read.
    fn file(&mut self, events: &Pieces<Event>) -> Result<(), AllocError>
        requires { events.now ≡ drop self.old.table.filed self.old.pass.seen }
        ensures same { (self.new.hist ≡ self.old.hist) × (self.new.pass ≡ self.old.pass) }
        ensures news { self.new.news ≡ self.old.news }
        ensures kept { (i : ℕ) → IsThere self.old.table.rows.items i
            → IsThere self.new.table.rows.items i }
        ensures all { OnOk result (self.new.table.filed ≡ length self.new.pass.seen) }
        ensures board { IsBoard self.new }
    {
        file(&mut self.table, self.alloc, events)
    }

    // What is filed.
    fn filed(&self) -> Result<Sync, AllocError>
        ensures { IfOk result (λ s. (s.upto ≡ base_of self.now + self.now.table.next)
            × (s.found ≡ self.now.table.found)) }
    {
        match self.hist.law().log().len().checked_add(self.table.next) {
            Some(upto) => Ok(Sync {
                upto,
                found: self.table.found,
            }),
            None => Err(AllocError),
        }
    }

    // Keeps what is told.
    fn tell(&mut self, news: Sync)
        ensures same { self.new ≡ record self.old { news = news } }
        ensures board { IsBoard self.new }
    {
        self.news = news;
    }

    /// Sees and reads what was put, and tells it. For want of memory nothing is told.
    pub fn read_news(&mut self) -> Result<Sync, AllocError>
        ensures moved { IsMoved (footing_of self.old) self.new }
        ensures later { IsLater self.old.hist.law.nodes self.new.hist.law.nodes
            (view_in self.old).log (view_in self.new).log (Knows self.old) (Knows self.new) }
        ensures upto { IfOk result (λ s. s.upto ≡ suc (length (view_in self.new).log)) }
        ensures known { IfOk result (λ s. (p : ℕ) → p < s.upto → Knows self.new p) }
        ensures only { IfOk result (λ s. (p : ℕ) → Knows self.new p → p < s.upto) }
        ensures found { IfOk result (λ s. s.found ≡ (view_in self.new).found) }
        ensures news { MatchResult result (λ s. self.new.news ≡ s)
            (λ e. self.new.news ≡ self.old.news) }

        // All was read that was seen.
        ensures got { OnOk result (self.new.pass.got ≡ length self.new.pass.seen) }
    {
        if self.table.filed != self.pass.got() {
            return Err(AllocError);
        }
        let events = self.pull()?;
        self.file(&events)?;
        let news = self.filed()?;
        self.tell(news);
        Ok(news)
    }

    // The step behind the opening log at a position, if it can be read.
    fn row(&self, at: Pos) -> Option<&Entry>
        requires { base_of self.now ≤ at }
        ensures there { (e : Step) → slice_get self.now.table.rows.items (at - base_of self.now)
            ≡ Some (Some e) → option_copied result ≡ Some e }
        ensures only { (e : Step) → option_copied result ≡ Some e
            → slice_get self.now.table.rows.items (at - base_of self.now) ≡ Some (Some e) }
        ensures board { IsBoard self.now }
    {
        let base = self.hist.law().log().len();
        self.table.get(at - base)
    }
}

// The clause, if its part is asked for.
fn lone(clause: &Clause, part: u32) -> Option<&Clause>
    ensures { option_copied result ≡ slice_get (clause.now ∷ []) part }
{
    if part == 0 { Some(clause) } else { None }
}

// The clause of a chain, if its part is asked for.
fn chain_clause(entry: &Entry, part: u32) -> Option<&Clause>
    ensures { (c : List Literal) (hints : List Name) → entry.now ≡ step.Chain c hints
        → option_copied result ≡ slice_get (c ∷ []) part }
{
    match entry {
        Entry::Chain(clause, _) => lone(clause, part),
        _ => None,
    }
}

impl<'h, 'a, R: Wait> Board for HubBoard<'h, 'a, R> {
    ghost use Rattle.hub_board.specs.Boards.{Knows, view_in};

    ghost nodes = { λ b. b.hist.law.nodes };

    ghost log = { λ b. (view_in b).log };

    ghost knows = { Knows };

    ghost found = { λ b. (view_in b).found };

    ghost told = { λ b. b.news };

    fn put(&mut self, entry: Entry) -> Result<Pos, AllocError> {
        match entry {
            Entry::Chain(clause, hints) => self.put_chain(clause, hints),
            // Excluded by the condition on the kind.
            _ => unreachable!(),
        }
    }

    fn sync(&mut self) -> Result<Sync, AllocError> {
        self.read_news()
    }

    fn clause(&self, id: ClauseId) -> Option<&Clause> {
        let log = self.hist.law().log();
        if id.pos < log.len() {
            return log.clause(id);
        }
        match self.row(id.pos) {
            Some(entry) => chain_clause(entry, id.part),
            None => None,
        }
    }

    fn entry(&self, at: Pos) -> Option<&Entry> {
        let log = self.hist.law().log();
        if at < log.len() {
            return log.entry(at);
        }
        self.row(at)
    }

    fn bits(&self) -> &Bits {
        self.hist.law().log().bits()
    }
}
