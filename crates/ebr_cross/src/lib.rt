//! The catalogue: the line of editions, the objects that are actual in each of them, and the tables.
//!
//! What is used above: `Catalogue::plan` answers the record that a definition makes, or its refusal, as `outcome` of
//! `specs/Definitions.antt` defines it, and `Catalogue::carry_out` carries out a record, so that the catalogue is as `with_record`
//! of `specs/Records.antt` says; each record of a plan may be carried out (`MayFollow`). `view_of` gives `View` of `specs/Catalogue.antt`, `view_after` the same
//! from the view before a definition and its record, and `edition_named` the edition that ALTER SESSION names. `visible`,
//! `table`, `keys` and `actual_in` look things up. All of them speak of the plain lists that the catalogue keeps (`ForLists`,
//! `ForChanged`).
//!
//! That calls succeed with ample memory is tested alone.
#![tactic(auto)]

mod carry;
mod catalogue;
mod changed;
mod create;
mod editions;
mod kinds;
mod objects;
mod record;
mod tables;
mod view;

pub use catalogue::Catalogue;
pub use changed::view_after;
pub use kinds::{key_of, kind_of, name_of};
pub use record::CatalogueRecord;
pub use view::view_of;
