//! What several workers came to together.

ghost use Rattle.std.specs.Prelude.{◌≡◌, ◌++◌, ◌∷◌, [], List, OnOk};
ghost use Rattle.cube_workers.specs.Crews.{Left, AreKept, IsLowest};

use crate::kept::KeptSearch;
use crate::worker::{Reached, lower};
use proof_log::diary::Diary;
use std::alloc::{AllocError, Global};

/// What the workers came to that were added, the one of the highest number first.
#[derive(Drop)]
pub struct Sum {
    /// The searches of all; of one that had no memory a new one.
    pub searches: Vec<KeptSearch>,
    /// The place of the search that found a model, of the lowest worker that did.
    pub model: Option<usize>,
    /// Some worker had no memory.
    pub wanting: bool,
    /// The lowest cube that was told as spent.
    pub spent: Option<Diary>,
}

impl Sum {
    /// No worker was added.
    pub fn new(alloc: Global) -> Sum
        ensures kept { AreKept result.searches.items result.model result.wanting [] }
        ensures spent { IsLowest result.spent [] }
    {
        Sum {
            searches: Vec::new(alloc),
            model: None,
            wanting: false,
            spent: None,
        }
    }

    // Keeps the search of a worker, or a new one in the place of what a worker without memory left.
    fn keep(&mut self, alloc: Global, kept: KeptSearch, reached: Reached) -> Result<(), AllocError>
        ensures spent { self.new.spent ≡ self.old.spent }
        ensures kept { OnOk result ((xs : List Left) (x : Left) → x.kept ≡ kept
            → x.reached ≡ reached
            → AreKept self.old.searches.items self.old.model self.old.wanting xs
            → AreKept self.new.searches.items self.new.model self.new.wanting (xs ++ x ∷ [])) }
    {
        match reached {
            Reached::NoMemory => {
                drop(kept);
                self.searches.push(KeptSearch::new(alloc)?)?;
                self.wanting = true;
                Ok(())
            }
            Reached::Model => {
                let place = self.searches.len();
                self.searches.push(kept)?;
                self.model = Some(place);
                Ok(())
            }
            Reached::Done => {
                self.searches.push(kept)?;
                Ok(())
            }
            Reached::Stopped => {
                self.searches.push(kept)?;
                Ok(())
            }
        }
    }

    // Keeps the diary of the lower cube.
    fn spend(&mut self, spent: Option<Diary>)
        ensures same { (self.new.searches.items ≡ self.old.searches.items)
            × (self.new.model ≡ self.old.model) × (self.new.wanting ≡ self.old.wanting) }
        ensures lowest { (xs : List Left) (x : Left) → x.spent ≡ spent → IsLowest self.old.spent xs
            → IsLowest self.new.spent (xs ++ x ∷ []) }
    {
        if let Some(diary) = spent {
            let low = lower(self.spent.take(), diary);
            self.spent = Some(low);
        }
    }

    /// Adds what a worker came to: its search, the lowest cube that it told as spent, and how it ended. A worker without memory
    /// has a new search from now on.
    pub fn add(
        &mut self,
        alloc: Global,
        kept: KeptSearch,
        spent: Option<Diary>,
        reached: Reached,
    ) -> Result<(), AllocError>
        ensures kept { OnOk result ((xs : List Left) (x : Left)
            → x ≡ record { kept = kept; spent = spent; reached = reached }
            → AreKept self.old.searches.items self.old.model self.old.wanting xs
            → AreKept self.new.searches.items self.new.model self.new.wanting (xs ++ x ∷ [])) }
        ensures spent { OnOk result ((xs : List Left) (x : Left)
            → x ≡ record { kept = kept; spent = spent; reached = reached }
            → IsLowest self.old.spent xs → IsLowest self.new.spent (xs ++ x ∷ [])) }
    {
        self.keep(alloc, kept, reached)?;
        self.spend(spent);
        Ok(())
    }
}
