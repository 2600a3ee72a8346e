// The list of terms.

ghost use Rattle.std.specs.Prelude.{◌≡◌, ◌<◌, ◌≤◌, ◌^◌, [], ◌∷◌, ◌++◌, false, length, position, OnOk, OnErr};
ghost use Rattle.std.specs.List.{list_any};
ghost use Rattle.smt_terms.specs.Same.{same_node};
ghost use Rattle.smt_terms.specs.Nodes.{node_at};
ghost use Rattle.smt_terms.specs.Terms.{AreTerms, IsTerm, Agrees, Makes, make, no_terms, cut_at, sort_of};

use crate::fault::{MakeError, MakeFault};
use crate::node::{Node, TermId};
use crate::rank::node_sort;
use crate::sort::Sort;
use indexmap::IndexSet;
use std::alloc::{AllocError, Global};
use std::marker::Model;

/// How many terms may be held.
pub const TERM_LIMIT: u32 = 1 << 24;

/// A list of different terms, each over earlier ones and named by its place.
#[derive(Drop)]
pub struct Terms {
    nodes: IndexSet<Node>,
    sorts: Vec<Sort>,
    limit: u32,
}

impl Model for Terms {
    ghost use Rattle.smt_terms.specs.Terms.{TermsValue, AreTerms, HaveSorts};

    ghost Value = { TermsValue };

    ghost view = { λ t. record { nodes = t.nodes.keys; limit = t.limit } };

    ghost invariant = { λ t. AreTerms (record { nodes = t.nodes.keys; limit = t.limit })
        × HaveSorts t.nodes.keys t.sorts.items };
}

/// Puts a node that is not there, and its sort, at the ends.
fn append(
    nodes: &mut IndexSet<Node>,
    sorts: &mut Vec<Sort>,
    node: Node,
    sort: Sort,
) -> Result<(), AllocError>
    requires { list_any (λ k. same_node node k) nodes.old.keys ≡ false }
    ensures ok { OnOk result ((nodes.new.keys ≡ nodes.old.keys ++ node ∷ [])
        × (sorts.new.items ≡ sorts.old.items ++ sort ∷ [])) }
    ensures err { OnErr result ((nodes.new.keys ≡ nodes.old.keys)
        × (sorts.new.items ≡ sorts.old.items)) }
{
    sorts.push(sort)?;
    match nodes.insert(node) {
        Ok(_) => Ok(()),
        Err(refused) => {
            sorts.pop();
            Err(AllocError::from(refused))
        }
    }
}

impl Terms {
    /// No terms; up to `TERM_LIMIT` may be made.
    pub fn new(alloc: Global) -> Terms
        ensures { result ≡ no_terms (2 ^ 24) }
    {
        Terms::with_limit(alloc, TERM_LIMIT)
    }

    /// No terms; so many may be made.
    pub fn with_limit(alloc: Global, limit: u32) -> Terms
        requires { limit ≤ 2 ^ 24 }
        ensures { result ≡ no_terms limit }
    {
        Terms {
            nodes: IndexSet::new(alloc),
            sorts: Vec::new(alloc),
            limit,
        }
    }

    /// How many terms are held; takes no memory.
    pub fn len(&self) -> u32
        ensures length { result ≡ length self.now.nodes }
        ensures terms { AreTerms self.now }
    {
        self.sorts.len() as u32
    }

    /// A term's operator and arguments; takes no memory.
    pub fn node(&self, term: TermId) -> &Node
        requires held { term < length self.now.nodes }
        ensures node { result.now ≡ node_at self.now.nodes term }
        ensures term { IsTerm self.now.nodes term }
        ensures terms { AreTerms self.now }
    {
        &self.nodes[term as usize]
    }

    /// A term's sort; takes no memory.
    pub fn sort(&self, term: TermId) -> Sort
        requires held { term < length self.now.nodes }
        ensures { result ≡ sort_of self.now.nodes term }
    {
        self.sorts[term as usize]
    }

    /// The number of an equal node, `None` exactly where none is held; takes no memory.
    pub fn find(&self, node: &Node) -> Option<TermId>
        ensures { result ≡ position (same_node node.now) self.now.nodes }
    {
        match self.nodes.get_index_of(node) {
            Some(term) => Some(term as u32),
            None => None,
        }
    }

    /// The number of a node: that of an equal one, else the next. A fault is the node's first, and then, as for want of
    /// memory, the terms are as before.
    pub fn make(&mut self, node: Node) -> Result<TermId, MakeError>
        requires declared { Agrees self.old.nodes node.op }
        ensures { Makes (make self.old node) result self.old self.new }
    {
        let sort = node_sort(&self.sorts, &node)?;
        if let Some(term) = self.nodes.get_index_of(&node) {
            return Ok(term as u32);
        }
        let term = self.sorts.len() as u32;
        if term >= self.limit {
            return Err(MakeError::Fault(MakeFault::TermLimit));
        }
        append(&mut self.nodes, &mut self.sorts, node, sort)?;
        Ok(term)
    }

    /// Forgets the terms from this number on; takes no memory.
    pub fn cut(&mut self, len: u32)
        requires { len ≤ length self.old.nodes }
        ensures { self.new ≡ cut_at self.old len }
    {
        self.nodes.truncate(len as usize);
        self.sorts.truncate(len as usize);
    }
}
