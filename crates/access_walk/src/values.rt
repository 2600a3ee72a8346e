// The accesses of a network under an assignment, sorted by their indexes.

ghost use Rattle.std.specs.Prelude.{◌≡◌, ◌<◌, ℕ, length, All, Contains, OnOk};
ghost use Rattle.std.specs.List.Sorted.{IsPermutation, IsNonDecreasingBy};
ghost use Rattle.smt_terms.specs.declared.sort.Sort.TheVariants as sort;
ghost use Rattle.smt_terms.specs.Bits.{image_in};
ghost use Rattle.smt_terms.specs.Terms.{sort_of};
ghost use Rattle.theory_terms.specs.declared.shape.Shape.TheVariants.{Filling};
ghost use Rattle.theory_terms.specs.Shapes.{shape_at};
ghost use Rattle.bit_blast.specs.Assigned.{assigned};
ghost use Rattle.access_tables.specs.Encoded.{HaveBits};
ghost use Rattle.access_tables.specs.Held.{IsAccess, assigned_value};
ghost use Rattle.access_tables.specs.Ready.{IsOwn};
ghost use Rattle.access_walk.specs.Maps.{AreLinked};
ghost use Rattle.access_walk.specs.Valued.{start_of};
ghost use Rattle.access_walk.specs.Valuing.{is_store, is_select, IsNetworkOf, AreEntries, AreValues, starts_in};
ghost use Rattle.access_walk.specs.Walked.{HasHeldWords, HaveWordValues};

use crate::network::Network;
use crate::valued::{put_gates, start_of};
use access_spread as spread;
use access_spread::Gate;
use bit_blast::Assignment;
use smt_terms::bits::Bits;
use smt_terms::terms::Terms;
use std::alloc::{AllocError, Global};
use term_reach::Reached;
use theory_terms::atom::Landing;
use theory_terms::lemma::Start;

/// An access of a network, where it starts, and its numbers under an assignment.
#[derive(Clone, Copy, Debug)]
pub struct Entry {
    pub start: spread::Start,
    pub origin: Start,
    pub landing: Landing,
}

/// The accesses of a network under an assignment, by rising index numbers, and the gates of its
/// edges. The tables are kept from one assignment to the next.
#[derive(Drop)]
pub struct Values {
    pub entries: Vec<Entry>,
    pub starts: Vec<spread::Start>,
    pub gates: Vec<Gate>,
}

/// Whether an access is that of a store.
fn is_store(origin: Start, landing: Landing) -> bool
    ensures { result ≡ is_store origin landing }
{
    match origin {
        Start::Term(term) => landing.array == term,
        Start::Const(..) => false,
    }
}

/// Whether an access is that of a select.
fn is_select(origin: Start, landing: Landing) -> bool
    ensures { result ≡ is_select origin landing }
{
    match origin {
        Start::Term(term) => landing.value == term,
        Start::Const(..) => false,
    }
}

/// Sorts entries by their index numbers, those of selects behind the others of one number.
fn sort(entries: &mut Vec<Entry>)
    ensures same { IsPermutation entries.old.items entries.new.items }
    ensures rising { IsNonDecreasingBy (λ e. e.start.index) entries.new.items }
{
    entries.sort_unstable_by_key(|entry| {
        (entry.start.index, is_select(entry.origin, entry.landing))
    });
}

impl Values {
    /// No accesses; takes no memory.
    pub fn new(alloc: Global) -> Values {
        Values {
            entries: Vec::new(alloc),
            starts: Vec::new(alloc),
            gates: Vec::new(alloc),
        }
    }

    /// The entries of all accesses, in the network's order.
    fn enter(
        &mut self,
        terms: &Terms,
        bits: &Bits,
        assignment: &Assignment,
        reached: &Reached,
        network: &Network,
    ) -> Result<(), AllocError>
        requires { IsNetworkOf terms.now.nodes bits.now reached.now network.now }
        ensures { OnOk result (AreEntries terms.now.nodes bits.now (assigned assignment.now)
            reached.now network.now self.new.entries.items) }
    {
        let _count = terms.len();
        self.entries.clear();
        for place in 0..network.landings.len() {
            let origin = network.origins[place];
            let landing = network.landings[place];
            let array = reached.place_of(landing.array).unwrap();
            let wide = is_store(origin, landing);
            self.entries.push(Entry {
                start: start_of(terms, bits, assignment, landing, array, wide),
                origin,
                landing,
            })?;
        }
        Ok(())
    }

    /// The starts of the entries.
    fn start(&mut self) -> Result<(), AllocError>
        ensures entries { OnOk result (self.new.entries.items ≡ self.old.entries.items) }
        ensures starts { OnOk result
            (self.new.starts.items ≡ starts_in self.old.entries.items) }
    {
        self.starts.clear();
        for place in 0..self.entries.len() {
            let entry = self.entries[place];
            self.starts.push(entry.start)?;
        }
        Ok(())
    }

    /// The accesses and the gates of a network under an assignment.
    pub fn fill(
        &mut self,
        terms: &Terms,
        bits: &Bits,
        assignment: &Assignment,
        reached: &Reached,
        network: &Network,
    ) -> Result<(), AllocError>
        requires bits { HaveBits terms.now.nodes bits.now (Contains reached.now) }
        requires network { IsNetworkOf terms.now.nodes bits.now reached.now network.now }
        requires words { (t x n m : ℕ) → IsOwn (Contains reached.now) (image_in bits.now) t
            → shape_at terms.now.nodes t ≡ Filling x → sort_of terms.now.nodes t ≡ sort.Array n m
            → HasHeldWords terms.now.nodes bits.now (Contains reached.now) n }
        requires values { HaveWordValues terms.now.nodes bits.now (assigned assignment.now) }
        requires linked { AreLinked (image_in bits.now)
            (assigned_value terms.now.nodes bits.now (assigned assignment.now)) }
        ensures { OnOk result (AreValues terms.now.nodes bits.now (assigned assignment.now)
            reached.now network.now self.new.entries.items self.new.gates.items
            self.new.starts.items) }
    {
        self.enter(terms, bits, assignment, reached, network)?;
        sort(&mut self.entries);
        self.start()?;
        put_gates(terms, bits, assignment, &network.guards, &mut self.gates)?;
        Ok(())
    }
}
