//! What is kept of a place of the trail, in 16 bytes, and of the name of a clause, in 8.

ghost use Rattle.std.specs.Prelude.{◌≡◌, ◌+◌, ◌^◌, ◌<◌, ◌≤◌, MatchOption, None};
ghost use Rattle.cnf_base.specs.Literals.{literal_of, negated};

use cnf_base::{ClauseId, Lit};
use std::marker::Model;

// The positions of clauses are below this, so that one more than a position takes 4 bytes.
const MOST: u64 = 0xffff_ffff;

/// The name of a clause.
#[derive(Clone, Copy)]
pub(crate) struct Name {
    pos: u32,
    part: u32,
}

impl Model for Name {
    ghost use Rattle.std.specs.Prelude.{◌+◌, ◌^◌, ◌<◌};
    ghost use Rattle.cnf_base.specs.declared.clause.ClauseId.{ClauseId};

    ghost Value = { ClauseId };

    ghost view = { λ n. record { pos = n.pos; part = n.part } };

    ghost invariant = { λ n. n.pos + 1 < 2 ^ 32 };

    ghost inverse = { λ id. record { pos = id.pos; part = id.part } };
}

impl Name {
    /// The name of the first part of the first position.
    pub(crate) const FIRST: Name = Name { pos: 0, part: 0 };

    /// The same name, None where its position is too high.
    pub(crate) fn of(id: ClauseId) -> Option<Name>
        ensures { MatchOption result (2 ^ 32 ≤ id.pos + 1) (λ n. n ≡ id) }
    {
        if id.pos >= MOST {
            return None;
        }
        Some(Name {
            pos: id.pos as u32,
            part: id.part,
        })
    }

    /// The name as it is told.
    #[inline(always)]
    pub(crate) fn id(self) -> ClauseId
        ensures { result ≡ self }
    {
        ClauseId {
            pos: self.pos as u64,
            part: self.part,
        }
    }
}

/// A literal that is true, its decision level, and the name of the clause that forced it, None for a decided one.
#[derive(Clone, Copy)]
pub struct Row {
    code: u32,
    level: u32,
    // one more than the clause's position, 0 for a decided literal
    place: u32,
    part: u32,
}

impl Model for Row {
    ghost use Rattle.std.specs.Prelude.{◌≤◌};
    ghost use Rattle.cnf_base.specs.Literals.{literal_of, code_of};
    ghost use Rattle.cdcl_core.specs.Levels.{Row as Seen};
    ghost use Rattle.cdcl_core.specs.Names.{some_name, place_of, part_of, IsNaming, packed_back};

    ghost Value = { Seen };

    ghost view = { λ r. record { 0 = literal_of r.code; 1 = r.level; 2 = some_name r.place r.part } };

    ghost invariant = { λ r. (2 ≤ r.code) × IsNaming r.place r.part };

    ghost inverse = { λ v. record { code = code_of v.0; level = v.1; place = place_of v.2; part = part_of v.2 } };

    ghost inverse_ok = { λ a h. packed_back (λ c l p q. record { code = c; level = l; place = p; part = q }) a.code a.level a.place a.part h.1 };
}

impl Row {
    // The row of the literal of this code.
    #[inline(always)]
    pub(crate) fn new(code: usize, level: u64, reason: Option<Name>) -> Row
        requires named { 2 ≤ code }
        requires few { code < 2 ^ 32 }
        requires level { level < 2 ^ 32 }
        ensures { result ≡ record { 0 = literal_of code; 1 = level; 2 = reason } }
    {
        let (place, part) = match reason {
            Some(name) => (name.pos + 1, name.part),
            None => (0, 0),
        };
        Row {
            code: code as u32,
            level: level as u32,
            place,
            part,
        }
    }

    /// The literal.
    #[inline(always)]
    pub fn literal(&self) -> Lit
        ensures { result ≡ self.now.0 }
    {
        Lit::from_code(self.code as u64)
    }

    /// The decision level at which the literal became true.
    #[inline(always)]
    pub fn level(&self) -> u64
        ensures { result ≡ self.now.1 }
    {
        self.level as u64
    }

    /// The name of the clause that forced the literal, None for a decided one.
    #[inline(always)]
    pub fn reason(&self) -> Option<ClauseId>
        ensures { result ≡ self.now.2 }
    {
        if self.place == 0 {
            return None;
        }
        Some(ClauseId {
            pos: self.place as u64 - 1,
            part: self.part,
        })
    }

    /// The opposite literal, as if it had been decided at the same level.
    pub fn opposite(&self) -> Row
        ensures { result ≡ record { 0 = negated self.now.0; 1 = self.now.1; 2 = None } }
    {
        let code = self.code;
        Row {
            code: if code % 2 == 0 { code + 1 } else { code - 1 },
            level: self.level,
            place: 0,
            part: 0,
        }
    }
}
