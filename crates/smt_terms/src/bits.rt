// The bits of terms.

ghost use Rattle.std.specs.Prelude.{◌≡◌, ◌<◌, ◌≤◌, ◌+◌, ◌∷◌, ◌++◌, [], ℕ, None, Some, length, take, drop, find, slice_get, OnOk, OnErr, IsSome};
ghost use Rattle.std.specs.Option.{option_copied};
ghost use Rattle.smt_terms.specs.Bits.{bits_in, image_in, with_bits, with_image};
ghost use Rattle.smt_terms.specs.BitTables.{is_of, place_in, IsTable, AreWithin};

use crate::node::TermId;
use cnf_base::Lit;
use std::alloc::{AllocError, Global};
use std::marker::Model;

/// Where the literals of a term stand, and the term whose they were first.
#[derive(Clone, Copy, Debug)]
struct Span {
    term: TermId,
    start: usize,
    len: usize,
    image: Option<TermId>,
}

/// The literals that stand for the bits of terms, the lowest bit first.
#[derive(Debug, Drop)]
pub struct Bits {
    literals: Vec<Lit>,
    spans: Vec<Span>,
    places: Vec<Option<usize>>,
}

impl Model for Bits {
    ghost use Rattle.std.specs.Prelude.{List, map};
    ghost use Rattle.smt_terms.specs.Bits.{TermBits};
    ghost use Rattle.smt_terms.specs.BitTables.{shown, IsTable, AreWithin};

    ghost Value = { List TermBits };

    ghost view = { λ b. map (shown b.literals.items) b.spans.items };

    ghost invariant = { λ b. IsTable b.spans.items b.places.items
        × AreWithin b.literals.items b.spans.items };
}

fn place_of(places: &[Option<usize>], term: TermId) -> Option<usize>
    ensures { result ≡ place_in places.now term }
{
    match places.get(term as usize) {
        Some(place) => *place,
        None => None,
    }
}

fn span_at(spans: &[Span], place: usize) -> Option<Span>
    ensures { result ≡ slice_get spans.now place }
{
    spans.get(place).copied()
}

fn span_of(spans: &[Span], places: &[Option<usize>], term: TermId) -> Option<Span>
    requires { IsTable spans.now places.now }
    ensures { result ≡ find (is_of term) spans.now }
{
    match place_of(places, term) {
        Some(place) => span_at(spans, place),
        None => None,
    }
}

fn literals_at(literals: &[Lit], span: Span) -> &[Lit]
    requires { span.start + span.len ≤ length literals.now }
    ensures { result.now ≡ take span.len (drop span.start literals.now) }
{
    &literals[span.start..span.start + span.len]
}

/// Makes room for the place of a term.
fn grow(places: &mut Vec<Option<usize>>, term: TermId) -> Result<(), AllocError>
    ensures same { (t : ℕ) → place_in places.new.items t ≡ place_in places.old.items t }
    ensures ok { OnOk result (term < length places.new.items) }
{
    let wanted = term as usize + 1;
    if places.len() < wanted {
        places.resize(wanted, None)?;
    }
    Ok(())
}

/// Puts a span at the end, and its place into the table.
fn enter(
    spans: &mut Vec<Span>,
    places: &mut Vec<Option<usize>>,
    span: Span,
) -> Result<(), AllocError>
    requires table { IsTable spans.old.items places.old.items }
    requires new { find (is_of span.term) spans.old.items ≡ None }
    ensures table { IsTable spans.new.items places.new.items }
    ensures ok { OnOk result (spans.new.items ≡ spans.old.items ++ span ∷ []) }
    ensures err { OnErr result (spans.new.items ≡ spans.old.items) }
{
    grow(places, span.term)?;
    let place = spans.len();
    spans.push(span)?;
    places[span.term as usize] = Some(place);
    Ok(())
}

impl Bits {
    /// No term has bits yet.
    pub fn new(alloc: Global) -> Bits
        ensures { result ≡ [] }
    {
        Bits {
            literals: Vec::new(alloc),
            spans: Vec::new(alloc),
            places: Vec::new(alloc),
        }
    }

    /// The literals of a term, the lowest bit first; `None` exactly where it has none yet. Takes no memory.
    pub fn of(&self, term: TermId) -> Option<&[Lit]>
        ensures { option_copied result ≡ bits_in self.now term }
    {
        match span_of(&self.spans, &self.places, term) {
            Some(span) => Some(literals_at(&self.literals, span)),
            None => None,
        }
    }

    /// The term whose bits a term was given; `None` exactly where it has no bits or bits of its own. Takes no memory.
    pub fn image(&self, term: TermId) -> Option<TermId>
        ensures { result ≡ image_in self.now term }
    {
        match span_of(&self.spans, &self.places, term) {
            Some(span) => span.image,
            None => None,
        }
    }

    /// Gives a term bits of its own.
    pub fn set(&mut self, term: TermId, bits: &[Lit]) -> Result<(), AllocError>
        requires new { bits_in self.old term ≡ None }
        ensures ok { OnOk result (self.new ≡ with_bits self.old term bits.now) }
        ensures err { OnErr result (self.new ≡ self.old) }
    {
        let start = self.literals.len();
        self.literals.extend_from_slice(bits)?;
        let span = Span {
            term,
            start,
            len: bits.len(),
            image: None,
        };
        enter(&mut self.spans, &mut self.places, span)?;
        Ok(())
    }

    /// Gives a term the bits of another, its image.
    pub fn link(&mut self, term: TermId, image: TermId) -> Result<(), AllocError>
        requires new { bits_in self.old term ≡ None }
        requires held { IsSome (bits_in self.old image) }
        ensures ok { OnOk result (self.new ≡ with_image self.old term image) }
        ensures err { OnErr result (self.new ≡ self.old) }
    {
        let held = span_of(&self.spans, &self.places, image).unwrap();
        let span = Span {
            term,
            start: held.start,
            len: held.len,
            image: Some(image),
        };
        enter(&mut self.spans, &mut self.places, span)?;
        Ok(())
    }
}
