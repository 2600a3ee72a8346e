// What names mean within a term.

ghost use Rattle.std.specs.Prelude.{◌≡◌, ◌-◌, ◌∷◌, ◌++◌, [], length, map, take, drop, slice_get, OnOk};
ghost use Rattle.std.specs.Option.{option_map};
ghost use Rattle.smt_build.specs.Binding.{bound_at, is_bound};
ghost use Rattle.smt_build.specs.Pairs.{pair_of};

use crate::parameters::Parameters;
use indexmap::IndexMap;
use smt_terms::node::TermId;
use std::alloc::{AllocError, Global};
use std::marker::Model;

/// A name with its term, and the place of the same name before it.
#[derive(Clone, Copy, Debug)]
pub struct Variable<'a> {
    pub name: &'a [u8],
    pub term: TermId,
    pub hidden: Option<usize>,
}

/// Names with their terms, the innermost last. A name is found without a look at the others.
#[derive(Drop)]
pub struct Variables<'a> {
    list: Vec<Variable<'a>>,
    places: IndexMap<&'a [u8], usize>,
}

impl<'a> Model for Variables<'a> {
    ghost use Rattle.std.specs.Prelude.{map};
    ghost use Rattle.smt_build.specs.Pairs.{Bound, pair_of, ArePlaces};

    ghost Value = { Bound };

    ghost view = { λ v. map pair_of v.list.items };

    ghost invariant = { λ v. ArePlaces v.list.items v.places.entries };
}

/// What names mean within a term, beside what they mean in the script.
#[derive(Drop)]
pub struct Scope<'a> {
    /// The variables that are bound.
    pub bound: Variables<'a>,
    /// The variables in the lists of bindings that are open, which are not bound yet.
    pub coming: Variables<'a>,
    /// The names that were given to terms within the term.
    pub names: Variables<'a>,
    /// The parameters of the definition whose body the term is.
    pub parameters: Parameters,
}

/// The names from this place on.
fn names_from<'a, 'b>(list: &'a [Variable<'b>], place: usize) -> &'a [Variable<'b>]
    ensures { result.now ≡ drop place list.now }
{
    if place > list.len() {
        return &[];
    }
    &list[place..]
}

fn term_at(list: &[Variable<'_>], place: usize) -> Option<TermId>
    ensures { result ≡ option_map (λ v. v.term) (slice_get list.now place) }
{
    match list.get(place) {
        Some(variable) => Some(variable.term),
        None => None,
    }
}

impl<'a> Variables<'a> {
    /// No names.
    pub fn new(alloc: Global) -> Variables<'a>
        ensures { result ≡ [] }
    {
        Variables {
            list: Vec::new(alloc),
            places: IndexMap::new(alloc),
        }
    }

    /// How many names stand there, hidden ones included.
    pub fn len(&self) -> usize
        ensures { result ≡ length self.now }
    {
        self.list.len()
    }

    /// The names with their terms, the innermost last.
    pub fn as_slice(&self) -> &[Variable<'a>]
        ensures { map pair_of result.now ≡ self.now }
    {
        self.list.as_slice()
    }

    /// The innermost term of a name.
    pub fn term(&self, name: &[u8]) -> Option<TermId>
        ensures { result ≡ bound_at self.now name.now }
    {
        match self.places.get(name) {
            Some(place) => term_at(self.list.as_slice(), *place),
            None => None,
        }
    }

    /// Whether the name stands at this place or behind it.
    pub fn is_bound_from(&self, place: usize, name: &[u8]) -> bool
        ensures { result ≡ is_bound (drop place self.now) name.now }
    {
        match self.places.get(name) {
            Some(found) => *found >= place,
            None => false,
        }
    }

    /// One name more, the innermost.
    pub fn push(&mut self, name: &'a [u8], term: TermId) -> Result<(), AllocError>
        ensures { OnOk result (self.new ≡ self.old ++ (name.now, term) ∷ []) }
    {
        let place = self.list.len();
        let hidden = self.places.get(name).copied();
        self.list.push(Variable { name, term, hidden })?;
        match self.places.insert(name, place) {
            Ok(_) => Ok(()),
            Err(refused) => {
                self.list.pop();
                Err(AllocError::from(refused))
            }
        }
    }

    /// Forgets the innermost name. Takes no memory.
    fn pop(&mut self)
        ensures { self.new ≡ take (length self.old - 1) self.old }
    {
        let Some(variable) = self.list.pop() else {
            return;
        };
        match variable.hidden {
            Some(place) => match self.places.insert(variable.name, place) {
                Ok(_) => {}
                Err(_) => {}
            },
            None => {
                self.places.swap_remove(variable.name);
            }
        }
    }

    /// Forgets the names from this place on. Takes no memory.
    pub fn truncate(&mut self, len: usize)
        ensures { self.new ≡ take len self.old }
    {
        while self.len() > len {
            self.pop();
        }
    }

    /// Puts these names at the end.
    fn push_all(&mut self, list: &[Variable<'a>]) -> Result<(), AllocError>
        ensures { OnOk result (self.new ≡ self.old ++ map pair_of list.now) }
    {
        for variable in list {
            self.push(variable.name, variable.term)?;
        }
        Ok(())
    }

    /// Moves the names of another list from this place on to the end of this one.
    pub fn take_from(&mut self, other: &mut Variables<'a>, place: usize) -> Result<(), AllocError>
        ensures more { OnOk result (self.new ≡ self.old ++ drop place other.old) }
        ensures fewer { OnOk result (other.new ≡ take place other.old) }
    {
        self.push_all(names_from(other.list.as_slice(), place))?;
        other.truncate(place);
        Ok(())
    }
}
