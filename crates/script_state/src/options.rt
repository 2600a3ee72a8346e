//! The options of a session.

ghost use Rattle.std.specs.Prelude.{◌≡◌};
ghost use Rattle.script_state.specs.Options.{first_options, option_value, with_option};

/// The four options that a script may set (SMT-LIB 2.6, section 4.1.7).
#[derive(Clone, Copy, Debug, PartialEq, Eq)]
pub struct Options {
    pub print_success: bool,
    pub produce_models: bool,
    pub produce_unsat_cores: bool,
    pub produce_unsat_assumptions: bool,
}

impl Options {
    /// The options before the first `set-option`.
    pub fn first() -> Options
        ensures { result ≡ first_options }
    {
        Options {
            print_success: false,
            produce_models: true,
            produce_unsat_cores: true,
            produce_unsat_assumptions: true,
        }
    }

    /// The value of the option that a keyword names, `None` exactly where it names none of the four.
    pub fn value(self, keyword: &[u8]) -> Option<bool>
        ensures { result ≡ option_value self keyword.now }
    {
        if keyword == b":print-success".as_slice() {
            Some(self.print_success)
        } else if keyword == b":produce-models".as_slice() {
            Some(self.produce_models)
        } else if keyword == b":produce-unsat-cores".as_slice() {
            Some(self.produce_unsat_cores)
        } else if keyword == b":produce-unsat-assumptions".as_slice() {
            Some(self.produce_unsat_assumptions)
        } else {
            None
        }
    }

    /// The options with this value for the one that a keyword names, `None` exactly where it names none of the four.
    pub fn with(self, keyword: &[u8], value: bool) -> Option<Options>
        ensures { result ≡ with_option self keyword.now value }
    {
        let mut options = self;
        if keyword == b":print-success".as_slice() {
            options.print_success = value;
        } else if keyword == b":produce-models".as_slice() {
            options.produce_models = value;
        } else if keyword == b":produce-unsat-cores".as_slice() {
            options.produce_unsat_cores = value;
        } else if keyword == b":produce-unsat-assumptions".as_slice() {
            options.produce_unsat_assumptions = value;
        } else {
            return None;
        }
        Some(options)
    }
}
