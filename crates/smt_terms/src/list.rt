// Lists of a node and of a signature.

use crate::node::TermId;
use crate::sort::Sort;
use plain_list::List;

/// The arguments of a node: a list of term numbers.
pub type Arguments = List<TermId>;

/// The sorts of a function's arguments.
pub type Sorts = List<Sort>;
