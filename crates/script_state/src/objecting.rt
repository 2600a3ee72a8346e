//! Why a term cannot be asserted or assumed.

ghost use Rattle.std.specs.Prelude.{◌≡◌, ◌<◌, length};
ghost use Rattle.script_state.specs.Steps.{objection};

use crate::error_text::ErrorText;
use smt_terms::node::TermId;
use smt_terms::sort::Sort;
use smt_terms::terms::Terms;

/// Why a term cannot be asserted, `None` exactly where it can.
pub(crate) fn objection(terms: &Terms, term: TermId) -> Option<ErrorText>
    requires { term < length terms.now.nodes }
    ensures { result ≡ objection terms.now.nodes term }
{
    if terms.sort(term) != Sort::Bool {
        return Some(ErrorText::WrongArguments);
    }
    None
}
