// The terms of nodes.

ghost use Rattle.std.specs.Prelude.{◌≡◌, List};
ghost use Rattle.smt_terms.specs.Terms.{Agrees};
ghost use Rattle.smt_terms.specs.declared.sort.Signature.{Signature as SignatureValue};
ghost use Rattle.smt_build.specs.Names.{AreDeclared, IsDeclared};
ghost use Rattle.smt_build.specs.Building.{fault_of, made, Builds, Grows};

use crate::fault::{BuildError, BuildFault};
use smt_terms::fault::{MakeError, MakeFault};
use smt_terms::node::{Node, TermId};
use smt_terms::terms::Terms;

fn fault_of(fault: MakeFault) -> BuildFault
    ensures { result ≡ fault_of fault }
{
    match fault {
        MakeFault::WrongSort(_) => BuildFault::WrongSort,
        MakeFault::WidthOutOfRange(_) => BuildFault::Width,
        MakeFault::TermLimit => BuildFault::TermLimit,
    }
}

/// The term of a node.
#[tactic(auto, unfolding(crate::specs::Building::made))]
pub(crate) fn made(terms: &mut Terms, node: Node) -> Result<TermId, BuildError>
    requires { Agrees terms.old.nodes node.op }
    ensures builds { Builds (made terms.old node) result terms.old terms.new }
    ensures grows { (signatures : List SignatureValue) → IsDeclared signatures node.op
        → Grows signatures terms.old terms.new }
    ensures again { (signatures : List SignatureValue)
        → (AreDeclared signatures terms.old.nodes → IsDeclared signatures node.op)
        → Grows signatures terms.old terms.new }
{
    match terms.make(node) {
        Ok(term) => Ok(term),
        Err(MakeError::NoMemory) => Err(BuildError::NoMemory),
        Err(MakeError::Fault(fault)) => Err(BuildError::Fault(fault_of(fault))),
    }
}
