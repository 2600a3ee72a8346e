// What a search of clauses ends with.

use dimacs_front::cnf::CnfFault;

/// What is found of a text of clauses.
#[derive(Debug, Drop)]
pub enum Finding {
    /// It has a fault, and this is its first.
    Fault(CnfFault),
    /// Under these values, that of variable 1 first, each clause is true.
    Satisfiable(Vec<bool>),
    /// No values do that, and a refutation was written.
    Unsatisfiable,
}
