//! The hints of a chain, as they are kept.

ghost use Rattle.std.specs.Prelude.{◌≡◌, ◌<◌, ◌≤◌, ◌^◌, ◌==◌, Some, IfOk, MatchOption, Contains, length, map, slice_get};
ghost use Rattle.cnf_base.specs.declared.clause.ClauseId.{ClauseId};
ghost use Rattle.hint_chain.specs.Packed.{whole_id};

use cnf_base::ClauseId;
use std::alloc::{AllocError, Global};
use std::marker::Model;

/// The clauses by which a clause follows, by name, in the order in which they are used. A name takes 8 bytes where each
/// position is below 2^32, and 16 where one is not.
#[derive(Debug, Drop)]
pub struct Hints {
    held: Held,
}

/// The names, all of them short or all of them whole.
#[derive(Debug, Drop)]
enum Held {
    Short(Vec<ShortId>),
    Whole(Vec<ClauseId>),
}

/// A name whose position is below 2^32.
#[derive(Clone, Copy, Debug)]
struct ShortId {
    pos: u32,
    part: u32,
}

impl Model for Hints {
    ghost use Rattle.std.specs.Prelude.{List};
    ghost use Rattle.cnf_base.specs.declared.clause.ClauseId.{ClauseId};

    ghost Value = { List ClauseId };

    ghost use Rattle.hint_chain.specs.Packed.{ids_of};

    ghost view = { λ h. ids_of h.held };
}

impl Hints {
    /// These hints, in no more room than they take.
    pub fn of(alloc: Global, hints: &[ClauseId]) -> Result<Hints, AllocError>
        ensures { IfOk result (λ h. h ≡ hints.now) }
    {
        match shortened(alloc, hints)? {
            Some(ids) => Ok(Hints {
                held: Held::Short(ids),
            }),
            None => Ok(Hints {
                held: Held::Whole(Vec::from_slice(alloc, hints)?),
            }),
        }
    }

    /// Equal hints.
    pub fn copy(&self, alloc: Global) -> Result<Hints, AllocError>
        ensures { IfOk result (λ h. h ≡ self.now) }
    {
        match &self.held {
            Held::Short(ids) => Ok(Hints {
                held: Held::Short(Vec::from_slice(alloc, ids.as_slice())?),
            }),
            Held::Whole(ids) => Ok(Hints {
                held: Held::Whole(Vec::from_slice(alloc, ids.as_slice())?),
            }),
        }
    }

    /// How many hints there are.
    pub fn len(&self) -> usize
        ensures { result ≡ length self.now }
    {
        match &self.held {
            Held::Short(ids) => ids.len(),
            Held::Whole(ids) => ids.len(),
        }
    }

    /// Whether there is no hint.
    pub fn is_empty(&self) -> bool
        ensures { result ≡ (length self.now == 0) }
    {
        self.len() == 0
    }

    /// The hint at a place, counted from 0.
    pub fn hint(&self, place: usize) -> ClauseId
        requires { place < length self.now }
        ensures { slice_get self.now place ≡ Some result }
    {
        match &self.held {
            Held::Short(ids) => {
                let short = ids[place];
                ClauseId {
                    pos: short.pos as u64,
                    part: short.part,
                }
            }
            Held::Whole(ids) => ids[place],
        }
    }
}

// The short names, `None` exactly where a position is not below 2^32.
fn shortened(alloc: Global, hints: &[ClauseId]) -> Result<Option<Vec<ShortId>>, AllocError>
    ensures { IfOk result (λ o. MatchOption o
        ((id : ClauseId) × Contains hints.now id × (2 ^ 32 ≤ id.pos))
        (λ ids. map whole_id ids.items ≡ hints.now)) }
{
    let mut ids = Vec::with_capacity(alloc, hints.len())?;
    for id in hints {
        if id.pos >= 1 << 32 {
            return Ok(None);
        }
        ids.push(ShortId {
            pos: id.pos as u32,
            part: id.part,
        })?;
    }
    Ok(Some(ids))
}
