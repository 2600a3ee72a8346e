// At which places of a file the positions of a log stand.

ghost use Rattle.std.specs.Prelude.{◌≡◌, ◌==◌, ◌<◌, ◌^◌, ℕ, [], ◌∷◌, suc, MatchOption, OnOk, length};
ghost use Rattle.proof_file.specs.Places.{no_file, with_step, without_places};
ghost use Rattle.proof_file.specs.Indexed.{place_in};
ghost use Rattle.proof_file.specs.Held.{AreHeldAt, file_in};

use cnf_base::Pos;
use std::alloc::{AllocError, Global};
use std::marker::Model;

/// A place in a file, counted from 1.
#[derive(Clone, Copy, Debug, PartialEq, Eq, PartialOrd, Ord)]
pub(crate) struct Place {
    number: u64,
}

impl Model for Place {
    ghost use Rattle.std.specs.Prelude.{ℕ};

    ghost Value = { ℕ };

    ghost view = { λ p. p.number };

    ghost inverse = { λ n. record { number = n } };
}

impl Place {
    /// That of what stands nowhere.
    pub(crate) const NOWHERE: Place = Place { number: 0 };

    /// Its number in the file.
    pub(crate) fn number(self) -> u64
        ensures { result ≡ self }
    {
        self.number
    }

    /// Whether it is that of what stands nowhere.
    pub(crate) fn is_nowhere(self) -> bool
        ensures { result ≡ (self == 0) }
    {
        self.number == 0
    }
}

/// How many steps a file has, and at which place a position stands now.
#[derive(Debug, Drop)]
pub(crate) struct Places {
    // By position.
    places: Vec<Place>,
    // By place, from that of the first step on.
    positions: Vec<Pos>,
}

impl Model for Places {
    ghost use Rattle.std.specs.Prelude.{length};
    ghost use Rattle.proof_file.specs.Held.{AreHeldAt, PlacesValue};

    ghost Value = { PlacesValue };

    ghost view = { λ p.
        record {
          count = length p.positions.items;
          table = p.places.items;
        } };

    ghost invariant = { λ p. AreHeldAt p.places.items p.positions.items };
}

// Makes a table longer, so that it has this row; where it grows, more rows come with it, so that this is seldom.
fn make_room(places: &mut Vec<Place>, row: usize) -> Result<(), AllocError>
    requires { row < 2 ^ 63 }
    ensures room { OnOk result (row < length places.new.items) }
    ensures kept { (p : ℕ) → place_in places.new.items p ≡ place_in places.old.items p }
{
    if row >= places.len() {
        let rows = row + row / 4 + 64;
        places.resize(rows, Place::NOWHERE)?;
    }
    Ok(())
}

/// The place of a position by a table.
pub(crate) fn place_at(places: &[Place], at: Pos) -> Place
    ensures { result ≡ place_in places.now at }
{
    match places.get(at as usize) {
        Some(place) => *place,
        None => Place::NOWHERE,
    }
}

// The row of the position that stands at this place, if one does.
fn row_of(places: &[Place], positions: &[Pos], place: Place) -> Option<usize>
    requires { AreHeldAt places.now positions.now }
    ensures { MatchOption result ((p : ℕ) → place_in places.now p ≡ place → place ≡ 0)
        (λ r. (r < length places.now) × (place_in places.now r ≡ place)
        × ((p : ℕ) → place_in places.now p ≡ place → p ≡ r)) }
{
    if place.is_nowhere() {
        return None;
    }
    let Some(at) = positions.get((place.number() - 1) as usize) else {
        return None
    };
    if place_at(places, *at) == place {
        Some(*at as usize)
    } else {
        None
    }
}

impl Places {
    /// No step; takes no memory.
    pub(crate) fn new(alloc: Global) -> Places
        ensures { file_in result ≡ no_file }
    {
        Places {
            places: Vec::new(alloc),
            positions: Vec::new(alloc),
        }
    }

    /// The place of a position.
    pub(crate) fn place_of(&self, at: Pos) -> Place
        ensures { result ≡ (file_in self.now).places at }
    {
        place_at(self.places.as_slice(), at)
    }

    /// The places by position.
    pub(crate) fn table(&self) -> &[Place]
        ensures { result.now ≡ self.now.table }
    {
        self.places.as_slice()
    }

    /// The place of the next step.
    pub(crate) fn next(&self) -> Place
        ensures { result ≡ suc self.now.count }
    {
        Place {
            number: self.positions.len() as u64 + 1,
        }
    }

    /// One step more, that of this position. For want of memory, or of numbers, all is as before.
    pub(crate) fn put(&mut self, at: Pos) -> Result<(), AllocError>
        ensures { OnOk result (file_in self.new ≡ with_step (file_in self.old) at) }
    {
        if at >= 1 << 63 {
            return Err(AllocError);
        }
        let row = at as usize;
        let place = self.next();
        make_room(&mut self.places, row)?;
        self.positions.push(at)?;
        self.places[row] = place;
        Ok(())
    }

    // Nothing stands at this place from here on.
    fn remove(&mut self, place: Place)
        ensures { file_in self.new ≡ without_places (file_in self.old) (place ∷ []) }
    {
        if let Some(row) = row_of(self.places.as_slice(), self.positions.as_slice(), place) {
            self.places[row] = Place::NOWHERE;
        }
    }

    /// Nothing stands at these places from here on.
    pub(crate) fn remove_all(&mut self, gone: &[Place])
        ensures { file_in self.new ≡ without_places (file_in self.old) gone.now }
    {
        for place in gone {
            self.remove(*place);
        }
    }
}
