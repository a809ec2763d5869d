//! Facts, marks and what follows from them: the facts that the calls of a program may know, which of them are
//! claimed where, and which claims own steps and the steps of other calls break.
#![tactic(auto)]

mod facts;
mod hindsight;
mod kinds;
mod laws;
mod layouts;
mod sets;
mod tables;

pub use facts::Fact;
pub use hindsight::{Hind, Hindsight};
pub use kinds::{FACT_KINDS, FactKind};
pub use laws::{
    claims_laws, forcing_laws, kept_writes_law, obligations_law, publish_law, table_laws,
    unreached_law,
};
pub use sets::FactSet;
pub use tables::{fact, number};
