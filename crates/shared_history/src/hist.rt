//! The history, and the calls of its passes.
ghost use Rattle.std.specs.Prelude.{◌≡◌, ◌+◌, ◌^◌, ◌<◌, ◌⊎◌, List, [], ◌∷◌, ◌++◌, length, drop, IfOk, IfErr, MatchResult};
ghost use Rattle.std.specs.List.{AllByRecursion};
ghost use Rattle.shared_history.specs.Events.{of_pass, StartsWith};
ghost use Rattle.shared_history.specs.Known.{IsPassOf, IsSamePass, first_pass};

use crate::entries::Entries;
use crate::law::{Back, Law, NoMemory};
use crate::moves::{Gift, Look, Turns};
use crate::pass::Pass;
use crate::pieces::{Pieces, shared_from};
use crate::turn::add;
use crate::view::{Locked, View};
use atomic_table::{Table, TableRule};
use std::alloc::Global;
use std::marker::Model;
use std::sync::Wait;

/// A table under a rule, with the key that the rule reads. It is generic in the rule, so that a call can take it by value.
#[derive(Drop)]
pub struct Held<S, V, K, Q: TableRule<S, V, K>> {
    pub(crate) law: K,
    pub(crate) table: Table<S, V, K, Q, Global>,
}

impl<S, V, K, Q: TableRule<S, V, K>> Model for Held<S, V, K, Q> {
    ghost use Rattle.std.specs.Prelude.{◌≡◌};
    ghost use Rattle.shared_history.specs.Known.{Story};

    ghost Value = { Story K };

    ghost view = { λ h. record { table = h.table.shared.table_id; law = h.law } };

    ghost invariant = { λ h. (h.table.shared.table_id.words ≡ 2)
        × (h.table.shared.table_id.slots ≡ 1) × (h.table.shared.key ≡ h.law) };
}

/// One history of events, which passes add to one after another. Contracts see which history it is, and its `law`.
pub type Hist<L> = Held<
    Option<Locked<<L as Law>::State, <L as Law>::Entry>>,
    View<L, <L as Law>::Entry>,
    L,
    Turns<L>,
>;

impl<S: Drop, V, K, Q: TableRule<S, V, K>> Held<S, V, K, Q> {
    /// Gives the law back, and the history up.
    pub fn into_law(self) -> K
        ensures { result ≡ self.law }
    {
        let Held { law, table } = self;
        drop(table);
        law
    }
}

impl<L: Law> Hist<L> {
    /// A history without events, and its first pass, which has number 0. Want of memory gives the law back.
    pub fn start(alloc: Global, law: L) -> Result<(Hist<L>, Pass<L>), Back<L>>
        ensures ok { IfOk result (λ r. (r.0.law ≡ law) × (r.1 ≡ first_pass r.0)) }
        ensures back { IfErr result (λ back. back.kept ≡ law) }
    {
        let Ok(state) = law.first(alloc) else {
            return Err(Back { kept: law });
        };
        let mut slots = Vec::new(alloc);
        let locked = Locked {
            state,
            entries: Entries::new(alloc),
        };
        if slots.push(Some(locked)).is_err() {
            return Err(Back { kept: law });
        }
        match Table::new(alloc, &[0, 0], slots, &law) {
            Ok((table, seat)) => {
                let first = Pass {
                    number: 0,
                    got: 0,
                    made: 1,
                    seat,
                };
                Ok((Held { law, table }, first))
            }
            Err(_) => Err(Back { kept: law }),
        }
    }

    /// The law that `start` was given.
    pub fn law(&self) -> &L
        ensures { result.now ≡ self.now.law }
    {
        &self.law
    }

    /// A new pass. It has seen and got what its giver has, and has no event of its own.
    pub fn pass(&self, giver: &mut Pass<L>) -> Pass<L>
        requires own { IsPassOf self.now giver.old }
        requires first { (giver.old.number ≡ 0) × (giver.old.made < 2 ^ 32) }
        ensures giver { giver.new ≡ record giver.old { made = giver.old.made + 1 } }
        ensures new { result
            ≡ record giver.old { number = giver.old.made; made = 0; mine = []; ended = [] } }
    {
        let seat = self.table.shared.split_seat::<Gift>(&mut giver.seat);
        let number = giver.made as u32;
        giver.made += 1;
        Pass {
            number,
            got: giver.got,
            made: 0,
            seat,
        }
    }

    /// Makes a call: one turn, and one event of this pass at the end of the history.
    /// After `Back` the history has no event of it, and the pass is as before.
    pub fn step<R: Wait>(
        &self,
        rt: &R,
        alloc: Global,
        pass: &mut Pass<L>,
        call: L::Call,
    ) -> Result<L::Reply, Back<L::Call>>
        requires own { IsPassOf self.now pass.old }
        requires permits { L.permits self.now.law pass.old.seen pass.old.number call }
        ensures own { IsSamePass pass.old pass.new × (pass.new.got ≡ pass.old.got) }

        // Events of other passes may have come between what the pass had seen and its own event.
        ensures step { MatchResult result
            (λ reply. (between : List L.Entry) × (of_pass L.by pass.old.number between ≡ [])
            × (let before = pass.old.seen
            ++ between in let entry = L.entry_of self.now.law before pass.old.number call in
            (reply ≡ L.reply_of self.now.law before pass.old.number call)
            × (pass.new.seen ≡ before ++ entry ∷ [])
            × (pass.new.mine ≡ pass.old.mine ++ entry ∷ [])))
            (λ back. (back.kept ≡ call) × (pass.new ≡ pass.old)) }

        // Some state of the law stands for what was seen.
        ensures stands { IfOk result (λ _. (state : L.State)
            × L.stands self.now.law state pass.new.seen) }
    {
        let mut locked = self.take(rt, &mut pass.seat);
        match add(&self.law, alloc, &mut locked, pass.number, call) {
            Ok(reply) => {
                self.give(&mut pass.seat, locked);
                Ok(reply)
            }
            Err(back) => {
                self.leave(&mut pass.seat, locked);
                Err(back)
            }
        }
    }

    /// All entries from the place up to which the pass has got them, those too that a `step` brought into what it has seen.
    /// It takes one turn, in which it shares the frozen pieces and copies at most 256 entries. After `NoMemory` the pass
    /// is as before.
    pub fn read<R: Wait>(
        &self,
        rt: &R,
        alloc: Global,
        pass: &mut Pass<L>,
    ) -> Result<Pieces<L::Entry>, NoMemory>
        requires own { IsPassOf self.now pass.old }
        ensures own { IsSamePass pass.old pass.new × (pass.new.mine ≡ pass.old.mine) }
        ensures read { MatchResult result
            (λ events. StartsWith pass.new.seen pass.old.seen
            × (events ≡ drop pass.old.got pass.new.seen)
            × (pass.new.got ≡ length pass.new.seen))
            (λ _. pass.new ≡ pass.old) }

        // Some state of the law stands for what was seen.
        ensures stands { IfOk result (λ _. (state : L.State)
            × L.stands self.now.law state pass.new.seen) }
    {
        let locked = self.take(rt, &mut pass.seat);
        match shared_from(&self.law, alloc, &locked.entries, pass.got) {
            Ok(events) => {
                pass.got = locked.entries.len() as u64;
                self.give(&mut pass.seat, locked);
                Ok(events)
            }
            Err(failed) => {
                self.leave(&mut pass.seat, locked);
                Err(failed)
            }
        }
    }

    /// Takes a pass into another, which has then seen what either had. Both what they have seen are beginnings of one
    /// history, so the longer begins with the shorter. It waits for nobody.
    pub fn merge(&self, pass: &mut Pass<L>, other: Pass<L>)
        requires own { IsPassOf self.now pass.old × IsPassOf self.now other }
        ensures own { (pass.new.table ≡ pass.old.table) × (pass.new.law ≡ pass.old.law)
            × (pass.new.number ≡ pass.old.number) × (pass.new.made ≡ pass.old.made)
            × (pass.new.got ≡ pass.old.got) }
        ensures seen { StartsWith pass.new.seen pass.old.seen × StartsWith pass.new.seen other.seen
            × ((pass.new.seen ≡ pass.old.seen) ⊎ (pass.new.seen ≡ other.seen)) }
        ensures mine { pass.new.mine ≡ pass.old.mine }
        ensures ended { pass.new.ended ≡ pass.old.ended ++ (other.number, other.mine)
            ∷ other.ended }
    {
        let Pass { seat, .. } = other;
        let shared = &self.table.shared;
        shared.join_seat::<Gift>(&mut pass.seat, seat);
        shared.load::<Look<L>>(&mut pass.seat, 0);
    }

    /// Takes one last turn, and gives the whole history. No turn comes after it: a pass that is left then waits for ever.
    pub fn close<R: Wait>(&self, rt: &R, pass: Pass<L>) -> Pieces<L::Entry>
        requires own { IsPassOf self.now pass }
        ensures seen { StartsWith result pass.seen }

        // In the whole history the events of a number are those that were kept.
        ensures mine { of_pass L.by pass.number result ≡ pass.mine }
        ensures ended { AllByRecursion (λ p. of_pass L.by p.0 result ≡ p.1) pass.ended }
        ensures below { pass.number ≡ 0 → AllByRecursion (λ e. L.by e < pass.made) result }

        // Some state of the law stands for it.
        ensures stands { (state : L.State) × L.stands self.now.law state result }
    {
        let Pass { mut seat, .. } = pass;
        let locked = self.take(rt, &mut seat);
        Pieces {
            skip: 0,
            entries: locked.entries,
        }
    }
}
