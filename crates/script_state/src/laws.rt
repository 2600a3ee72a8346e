//! What follows from the definitions of readings and steps alone.

ghost use Rattle.std.specs.Prelude.{◌≡◌, ◌↔◌, ◌+◌, ◌≤◌, true, List, All, Some};
ghost use Rattle.smt_terms.specs.Terms.{TermsValue, IsTermList};
ghost use Rattle.smt_terms.specs.Evaluations.{has_no_witness};
ghost use Rattle.smt_text.specs.declared.chunk.Chunk.{Chunk};
ghost use Rattle.smt_build.specs.Building.{Grows};
ghost use Rattle.script_state.specs.Readings.{Reading, ReadsAs};
ghost use Rattle.script_state.specs.declared.answer.Answer.TheVariants.{Refused, Check, Model, Values, Core, Assumptions, Exit};
ghost use Rattle.script_state.specs.declared.answer.Asked.{Asked};
ghost use Rattle.script_state.specs.declared.answer.Verdict.TheVariants.{Sat, Unsat};
ghost use Rattle.script_state.specs.declared.error_text.ErrorText.{ErrorText};
ghost use Rattle.script_state.specs.States.{StateValue, RestValue, roots, WatchesFit, IsState, Fit};
ghost use Rattle.script_state.specs.Steps.{IsAskedValues, step, ends};

/// A chunk reads in one way: as one list of S-expressions, or as one error.
pub fn chunks_read_one_way()
    ensures { (chunk : Chunk) (r t : Reading) → ReadsAs chunk r → ReadsAs chunk t → r ≡ t }
{}

/// A step that is refused leaves the state as it was, and with it the check that stands.
pub fn refused_steps_change_nothing()
    ensures { (s : StateValue) (r : Reading) (e : ErrorText) → (step s r).0 ≡ Refused e
        → (step s r).1 ≡ s }
{}

/// A step makes one assertion at most.
pub fn steps_make_one_assertion()
    ensures { (s : StateValue) (r : Reading) → (step s r).1.scopes.made ≤ s.scopes.made + 1 }
{}

/// Every step leads from a state to a state.
pub fn steps_keep_states()
    ensures { (s : StateValue) (r : Reading) → IsState s → IsState (step s r).1 }
{}

/// What fits terms fits more terms too.
pub fn more_terms_fit()
    ensures { (old new : TermsValue) (r : RestValue) → Grows r.symbols.signatures old new
        → IsTermList new.nodes → Fit old r → Fit new r }
{}

/// Where a check is begun, the terms that it makes before all else can be made.
pub fn watches_of_checks_fit()
    ensures { (s : StateValue) (r : Reading) → (step s r).0 ≡ Check → WatchesFit (step s r).1 }
{}

/// No witness stands in a term that a check is about, since a script cannot write one.
pub fn roots_have_no_witness()
    ensures { (s : StateValue) → IsState s
        → All (λ t. has_no_witness s.terms.nodes t ≡ true) (roots s) }
{}

/// The command that ends the run is answered so, and no other.
pub fn runs_end_by_exit()
    ensures { (s : StateValue) (r : Reading) → ((step s r).0 ≡ Exit) ↔ (ends r ≡ true) }
{}

/// A model is to be printed only where a check that found one stands, and the option is on.
pub fn a_model_stands_after_sat()
    ensures { (s : StateValue) (r : Reading) → (step s r).0 ≡ Model → (s.standing ≡ Some Sat)
        × (s.options.produce_models ≡ true) }
{}

/// Values are to be printed only where a check that found a model stands, and the option is on; where the terms are
/// forgotten that they are asked of, the state is as before. These name live declarations alone.
pub fn values_forget_to_the_old_state()
    ensures { (s : StateValue) (r : Reading) (asked : List Asked) → IsState s
        → (step s r).0 ≡ Values asked → IsAskedValues s (step s r).1 asked }
{}

/// A core is to be printed only where a check that found a refutation stands, and the option is on; nothing else is done.
pub fn a_core_stands_after_unsat()
    ensures { (s : StateValue) (r : Reading) → (step s r).0 ≡ Core → (s.standing ≡ Some Unsat)
        × (s.options.produce_unsat_cores ≡ true) × ((step s r).1 ≡ s) }
{}

/// Assumptions are to be printed only where a check with assumptions that found a refutation stands, and the option is on;
/// nothing else is done.
pub fn assumptions_stand_after_unsat()
    ensures { (s : StateValue) (r : Reading) → (step s r).0 ≡ Assumptions
        → (s.standing ≡ Some Unsat) × ((asked : List Asked) × (s.assumed ≡ Some asked))
        × (s.options.produce_unsat_assumptions ≡ true) × ((step s r).1 ≡ s) }
{}
