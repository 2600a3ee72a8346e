// The record of the last check.

ghost use Rattle.std.specs.Prelude.{◌≡◌, IfOk, None, Some};
ghost use Rattle.smt_session.specs.Tabled.{IsTableOf, has_model, is_model};

use accepted_proof::interp_of;
use proof_text::record::Record;
use smt_values::Interp;
use std::alloc::{AllocError, Global};
use std::marker::Model;

/// The record of the last check, where there is one, and the values of its model by declaration, where they were asked for.
#[derive(Drop)]
pub(crate) struct Last {
    shown: Option<Record>,
    values: Option<Interp>,
}

impl Model for Last {
    ghost use Rattle.std.specs.Prelude.{Option};
    ghost use Rattle.proof_text.specs.declared.record.Record as written;
    ghost use Rattle.smt_session.specs.Tabled.{AreTabled};

    ghost Value = { Option written.Record };

    ghost view = { λ l. l.shown };

    ghost invariant = { λ l. AreTabled l.shown l.values };
}

/// Whether a record has a model.
fn is_model(shown: &Record) -> bool
    ensures { result ≡ is_model shown.now }
{
    match shown {
        Record::Sat(_) => true,
        Record::Unsat(_) => false,
        Record::Unknown(_) => false,
    }
}

/// The values of the model that a record has, by declaration.
fn table_of(alloc: Global, shown: &Record) -> Result<Interp, AllocError>
    ensures { IfOk result (λ m. IsTableOf (Some shown.now) m) }
{
    match shown {
        Record::Sat(values) => interp_of(alloc, values.as_slice()),
        Record::Unsat(_) => Ok(Interp::new(alloc)),
        Record::Unknown(_) => Ok(Interp::new(alloc)),
    }
}

/// The same of a record that there may be.
fn table_if(alloc: Global, shown: &Option<Record>) -> Result<Interp, AllocError>
    ensures { IfOk result (λ m. IsTableOf shown.now m) }
{
    match shown {
        Some(found) => table_of(alloc, found),
        None => Ok(Interp::new(alloc)),
    }
}

impl Last {
    /// No check was made; takes no memory.
    pub(crate) fn new() -> Last
        ensures { result ≡ None }
    {
        Last {
            shown: None,
            values: None,
        }
    }

    /// Puts the record of a check in the place of the last one; takes no memory.
    pub(crate) fn put(&mut self, shown: Record)
        ensures { self.new ≡ Some shown }
    {
        *self = Last {
            shown: Some(shown),
            values: None,
        };
    }

    /// The record; takes no memory.
    pub(crate) fn shown(&self) -> &Option<Record>
        ensures { result.now ≡ self.now }
    {
        &self.shown
    }

    /// Whether the record has a model; takes no memory.
    pub(crate) fn has_model(&self) -> bool
        ensures { result ≡ has_model self.now }
    {
        match &self.shown {
            Some(shown) => is_model(shown),
            None => false,
        }
    }

    /// The values of the model that the record has, by declaration. They are made at the first call, and again where they are
    /// not given back.
    pub(crate) fn take_values(&mut self, alloc: Global) -> Result<Interp, AllocError>
        ensures table { IfOk result (λ m. IsTableOf self.old m) }
        ensures same { self.new ≡ self.old }
    {
        match self.values.take() {
            Some(values) => Ok(values),
            None => table_if(alloc, &self.shown),
        }
    }

    /// Keeps the values for the next question; takes no memory.
    pub(crate) fn keep(&mut self, values: Interp)
        requires { IsTableOf self.old values }
        ensures { self.new ≡ self.old }
    {
        self.values = Some(values);
    }
}
