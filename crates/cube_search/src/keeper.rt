//! A diary that is kept while a search goes on.

ghost use Rattle.std.specs.Prelude.{◌≡◌, ◌<◌, ◌≤◌, ◌+◌, ◌-◌, ◌++◌, ◌∷◌, [], OnOk, IfOk};
ghost use Rattle.proof_log.specs.declared.diary.DiaryLine.TheVariants.{Take, Put, Drop};
ghost use Rattle.proof_log.specs.Diaries.{allowed};

use cnf_base::Pos;
use proof_log::diary::{Diary, DiaryLine, DiaryLines};
use std::alloc::{AllocError, Global};

/// The lines so far, and what a search must know of them.
#[derive(Drop)]
pub struct Keeper {
    pub(crate) start: Pos,
    pub(crate) lines: Vec<DiaryLine>,
    // how many chains were put
    pub(crate) puts: u64,
    // at least so many chains are held
    pub(crate) chains: u64,
    // how many may be dropped now
    pub(crate) left: u64,
}

impl Keeper {
    /// No line.
    pub(crate) fn new(alloc: Global, start: Pos) -> Keeper
        ensures start { result.start ≡ start }
        ensures lines { result.lines.items ≡ [] }
        ensures puts { result.puts ≡ 0 }
        ensures chains { result.chains ≡ 0 }
        ensures left { result.left ≡ 0 }
    {
        Keeper {
            start,
            lines: Vec::new(alloc),
            puts: 0,
            chains: 0,
            left: 0,
        }
    }

    /// The clauses of a position are held from here on.
    pub(crate) fn take(&mut self, at: Pos) -> Result<(), AllocError>
        ensures lines { OnOk result (self.new.lines.items ≡ self.old.lines.items ++ Take at ∷ []) }
        ensures start { self.new.start ≡ self.old.start }
        ensures puts { self.new.puts ≡ self.old.puts }
        ensures chains { self.new.chains ≡ self.old.chains }
        ensures left { self.new.left ≡ 0 }
    {
        self.left = 0;
        self.lines.push(DiaryLine::Take(at))?;
        Ok(())
    }

    /// A chain is put, and held from here on; after each 2000 of them half of those that are held may be dropped.
    pub(crate) fn put(&mut self, at: Pos) -> Result<(), AllocError>
        ensures lines { OnOk result (self.new.lines.items ≡ self.old.lines.items ++ Put at ∷ []) }
        ensures start { self.new.start ≡ self.old.start }
        ensures puts { OnOk result (self.new.puts ≡ self.old.puts + 1) }
        ensures chains { OnOk result (self.new.chains ≡ self.old.chains + 1) }
        ensures left { OnOk result (self.new.left ≡ allowed self.new.puts self.new.chains) }
    {
        if self.puts == u64::MAX || self.chains == u64::MAX {
            return Err(AllocError);
        }
        self.lines.push(DiaryLine::Put(at))?;
        self.puts += 1;
        self.chains += 1;
        self.left = if self.puts % 2_000 == 0 {
            self.chains / 2
        } else {
            0
        };
        Ok(())
    }

    /// A chain is held no longer.
    pub(crate) fn drop_chain(&mut self, at: Pos) -> Result<(), AllocError>
        requires { 0 < self.old.left }
        ensures lines { OnOk result (self.new.lines.items ≡ self.old.lines.items ++ Drop at ∷ []) }
        ensures start { self.new.start ≡ self.old.start }
        ensures puts { OnOk result (self.new.puts ≡ self.old.puts) }
        ensures chains { OnOk result (self.new.chains ≡ self.old.chains - 1) }
        ensures left { OnOk result (self.new.left ≡ self.old.left - 1) }
    {
        self.lines.push(DiaryLine::Drop(at))?;
        self.chains = self.chains.saturating_sub(1);
        self.left -= 1;
        Ok(())
    }

    /// The diary of this cube whose last line is this put.
    pub(crate) fn finish(&self, alloc: Global, cube: u32, at: Pos) -> Result<Diary, AllocError>
        ensures cube { IfOk result (λ d. d.cube ≡ cube) }
        ensures start { IfOk result (λ d. d.start ≡ self.now.start) }
        ensures lines { IfOk result (λ d. d.lines ≡ self.now.lines.items ++ Put at ∷ []) }
    {
        let mut lines = Vec::from_slice(alloc, self.lines.as_slice())?;
        lines.push(DiaryLine::Put(at))?;
        Ok(Diary {
            cube,
            start: self.start,
            lines: DiaryLines::from_vec(lines),
        })
    }
}
