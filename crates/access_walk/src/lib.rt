//! The walk over accesses of arrays, up to what an assignment decides.
//!
//! [`network_of`] finds once a search the accesses and the moves of all reached terms, those of
//! constant arrays included, and promises that none is missing. Under an assignment they are a
//! network (`maps_are_networks`): the accesses that spread over it are a table that is closed under
//! all open moves (`tables_are_closed`), or two of them clash and are a lemma that is false
//! (`clashes_are_false`). [`spreading`] makes the rows of the table, or all such lemmas.
//! [`witnesses`] finds equalities of arrays that are false although their selects agree,
//! [`congruence`] applications of one declaration to equal arguments that have different values,
//! [`spares`] the spare indexes and the table. [`walking`] joins them: what a search prepares for
//! its walks, and the walk. The crate stands on `access_tables` and `access_spread`.
#![tactic(auto)]

mod accesses;
pub mod congruence;
pub mod filling;
pub mod guard;
mod lanes;
pub mod laws;
pub mod network;
mod putting;
pub mod siblings;
pub mod spares;
pub mod spreading;
pub mod valued;
pub mod values;
pub mod walking;
pub mod witnesses;

pub use filling::network_of;
pub use network::Network;
