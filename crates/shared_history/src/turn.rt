//! One turn of the ticket lock: what lies in the slot is taken out, and put back.
ghost use Rattle.std.specs.Prelude.{◌≡◌, Some, [], MatchResult, ◌∷◌, ◌++◌};
ghost use Rattle.shared_history.specs.declared.view.Stage.TheVariants.{Idle};
ghost use Rattle.shared_history.specs.Seated.{AtRest, IsSameSeat, Took, HasTurn, KeepsTurn};
ghost use Rattle.shared_history.specs.Moves.{at_stage, rested};

use crate::hist::Hist;
use crate::law::{Back, Law};
use crate::moves::{Draw, Leave, PassOn, Poll};
use crate::view::{Locked, Place};
use std::alloc::Global;
use std::sync::Wait;
use std::thread;

impl<L: Law> Hist<L> {
    /// Draws a ticket, waits for its turn and takes what lies in the slot.
    pub(crate) fn take<R: Wait>(&self, rt: &R, seat: &mut Place<L>) -> Locked<L::State, L::Entry>
        requires own { (seat.old.table_id ≡ self.now.table)
            × (seat.old.me.0.law ≡ Some self.now.law) }
        requires rest { AtRest seat.old }
        ensures same { IsSameSeat seat.old seat.new }
        ensures took { Took L.by L.stands self.now.law seat.old result seat.new }
    {
        let shared = &self.table.shared;
        let ticket = shared.fetch_add::<Draw>(seat, 1, 1);
        for _ in rt.forever() {
            if shared.load::<Poll<L>>(seat, 0) == ticket {
                match shared.exchange(seat, 0, None) {
                    Some(locked) => return locked,
                    None => unreachable!(),
                }
            }
            thread::yield_now();
        }
        unreachable!()
    }

    /// Puts back what was taken, with what was added, and passes the turn on.
    pub(crate) fn give(&self, seat: &mut Place<L>, locked: Locked<L::State, L::Entry>)
        requires own { (seat.old.table_id ≡ self.now.table)
            × (seat.old.me.0.law ≡ Some self.now.law) }
        requires turn { HasTurn L.by L.stands self.now.law seat.old locked }
        ensures same { IsSameSeat seat.old seat.new }
        ensures rest { seat.new.me ≡ (rested L.by seat.old.me.0 locked.entries.items, []) }
    {
        let shared = &self.table.shared;
        match shared.exchange(seat, 0, Some(locked)) {
            None => {}
            Some(_) => unreachable!(),
        }
        shared.fetch_add::<PassOn<L>>(seat, 0, 1);
    }

    /// Puts back what was taken, to which nothing was added, and passes the turn on.
    pub(crate) fn leave(&self, seat: &mut Place<L>, locked: Locked<L::State, L::Entry>)
        requires own { (seat.old.table_id ≡ self.now.table)
            × (seat.old.me.0.law ≡ Some self.now.law) }
        requires turn { KeepsTurn L.stands self.now.law seat.old locked }
        ensures same { IsSameSeat seat.old seat.new }
        ensures rest { seat.new.me ≡ (at_stage seat.old.me.0 Idle, []) }
    {
        let shared = &self.table.shared;
        match shared.exchange(seat, 0, Some(locked)) {
            None => {}
            Some(_) => unreachable!(),
        }
        shared.fetch_add::<Leave>(seat, 0, 1);
    }
}

/// Adds the event of a call at the end. Its memory is taken first, so that after `Back` nothing was added.
pub(crate) fn add<L: Law>(
    law: &L,
    alloc: Global,
    locked: &mut Locked<L::State, L::Entry>,
    pass: u32,
    call: L::Call,
) -> Result<L::Reply, Back<L::Call>>
    requires { L.stands law.now locked.old.state locked.old.entries.items
        × L.permits law.now locked.old.entries.items pass call }
    ensures stands { L.stands law.now locked.new.state locked.new.entries.items }
    ensures added { MatchResult result
        (λ reply. (reply ≡ L.reply_of law.now locked.old.entries.items pass call)
        × (locked.new.entries.items ≡ locked.old.entries.items
        ++ L.entry_of law.now locked.old.entries.items pass call ∷ []))
        (λ back. (back.kept ≡ call) × (locked.new.entries.items ≡ locked.old.entries.items)) }
{
    if locked.entries.make_room(alloc).is_err() {
        return Err(Back { kept: call });
    }
    let (entry, reply) = law.act(alloc, &mut locked.state, pass, call)?;
    locked.entries.push(entry);
    Ok(reply)
}
