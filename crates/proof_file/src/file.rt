//! A proof file, as it grows check by check.

ghost use Rattle.std.specs.Prelude.{◌≡◌, ◌<◌, ◌≤◌, ◌-◌, [], suc, List, OnOk, drop, length, take};
ghost use Rattle.smt_terms.specs.declared.node.Node.{Node};
ghost use Rattle.smt_terms.specs.Terms.{IsTermList};
ghost use Rattle.proof_log.specs.Stored.{Stands};
ghost use Rattle.proof_text.specs.Records.{HaveDigits};
ghost use Rattle.proof_file.specs.Places.{no_file};
ghost use Rattle.proof_file.specs.Files.{AreLined, IsFileOf, IsWrittenPart, file_of};

use crate::needed::needed_by;
use crate::places::Places;
use crate::shown::write_shown;
use crate::stale::StaleChains;
use crate::writing::{made_positions, write_deletion, write_steps};
use cnf_base::Pos;
use proof_log::Log;
use proof_text::record::Record;
use scope_selectors::live::Live;
use smt_terms::terms::Terms;
use smt_text::text::Text;
use std::alloc::{AllocError, Global};
use std::marker::Model;
use variable_list::VariableList;

/// What is kept of a proof file: at which place each position of the log stands, and which of its chains rest on which
/// assertions.
#[derive(Debug, Drop)]
pub struct ProofFile {
    places: Places,
    chains: StaleChains,
    found: VariableList,
}

impl Model for ProofFile {
    ghost use Rattle.proof_file.specs.Files.{KeptFile};

    ghost Value = { KeptFile };

    ghost view = { λ f.
        record {
          places = f.places;
          chains = f.chains;
        } };
}

impl ProofFile {
    /// A file without a step; takes no memory.
    pub fn new(alloc: Global) -> ProofFile
        ensures empty { file_of result ≡ no_file }
        ensures file { (nodes : List Node) → IsFileOf nodes [] result }
    {
        ProofFile {
            places: Places::new(alloc),
            chains: StaleChains::new(alloc),
            found: VariableList::new(alloc),
        }
    }

    /// Appends the part of a check of these assertions, which added the steps from this position on and ended with this record:
    /// what the file has no more, the steps that make terms and variables, the lemmas and the chains that the record needs and
    /// the file has not, and the record. After an error the file and the text are of no use.
    pub fn write_part(
        &mut self,
        alloc: Global,
        terms: &Terms,
        log: &Log,
        from: Pos,
        live: &[Live],
        shown: &Record,
        out: &mut Text,
    ) -> Result<(), AllocError>
        requires listed { IsTermList terms.now.nodes }
        requires stands { Stands terms.now.nodes log.now }
        requires from { 0 < from }
        requires within { from ≤ suc (length log.now.entries) }
        requires file { IsFileOf terms.now.nodes (take (from - 1) log.now.entries) self.old }
        requires lined { AreLined log.now.entries }
        requires digits { HaveDigits shown.now }
        ensures part { OnOk result (IsWrittenPart terms.now.nodes live.now
            (take (from - 1) log.now.entries) (drop (from - 1) log.now.entries) shown.now
            (file_of self.old) (file_of self.new) out.old out.new) }
        ensures file { OnOk result (IsFileOf terms.now.nodes log.now.entries self.new) }
    {
        let gone = self.chains.stale(alloc, live, self.places.table())?;
        self.places.remove_all(&gone);
        write_deletion(&gone, out)?;
        self.chains.learn(terms, log)?;
        let needed = needed_by(alloc, log, &self.places, shown, &mut self.found)?;
        let made = made_positions(alloc, log, from)?;
        write_steps(alloc, log, &made, &mut self.places, &mut self.chains, out)?;
        let start = self.places.next();
        write_steps(alloc, log, &needed, &mut self.places, &mut self.chains, out)?;
        write_shown(alloc, log, &self.places, start, &needed, shown, out)?;
        Ok(())
    }
}
