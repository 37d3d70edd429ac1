//! What records change in the catalogue, where they are allowed there.

ghost use Rattle.std.specs.Prelude.{◌≡◌, IfOk};
ghost use Rattle.ebr_editions.specs.Editions.{is_living};
ghost use Rattle.ebr_cross.specs.declared.record.CatalogueRecord.TheVariants as made;
ghost use Rattle.ebr_cross.specs.Catalogue.{ForLists};
ghost use Rattle.ebr_cross.specs.Following.{MayFollow};
ghost use Rattle.ebr_allowed.specs.Allowed as spec;
ghost use Rattle.ebr_recovery.specs.Recovery.{HasRoom};
ghost use Rattle.ebr_recovery.specs.inside.Plans.{PlansBy, PlansRecord};

use crate::fault::RecoveryFault;
use crate::objects::{drop_plan, object_plan};
use crate::tables::{column_plan, table_drop_plan, table_plan};
use ebr_base::{CloneIn, EditionNo, Name};
use ebr_cross::{Catalogue, CatalogueRecord};
use ebr_editions::Chain;
use ebr_record::Record;
use std::alloc::Global;

/// The most editions that live at a time.
const MAX_EDITIONS: usize = 256;

/// What the record of a definition changes in the catalogue, where it is allowed there.
pub fn plan(alloc: Global, c: &Catalogue, r: &Record) -> Result<CatalogueRecord, RecoveryFault>
    requires { HasRoom r.now }
    ensures plans { ForLists c.now (λ lists. PlansRecord lists r.now result) }
    ensures follows { IfOk result (λ made. MayFollow c.now made) }
{
    match r {
        Record::Commit(_) => Err(RecoveryFault::NotAllowed),
        Record::Edition { name, parent } => edition_plan(alloc, &c.chain, name, *parent),
        Record::EditionGone(e) => edition_drop_plan(&c.chain, *e),
        Record::Default(e) => default_plan(&c.chain, *e),
        Record::Object {
            edition,
            enabled,
            text,
        } => object_plan(alloc, c, *edition, *enabled, text),
        Record::Gone {
            edition,
            class,
            name,
        } => drop_plan(alloc, c, *edition, *class, name),
        Record::Table { name, columns, key } => table_plan(alloc, &c.tables, name, columns, key),
        Record::Column { table, column } => column_plan(alloc, &c.tables, *table, column),
        Record::TableGone(table) => table_drop_plan(&c.tables, *table),
    }
}

/// The plan of an edition.
fn edition_plan(
    alloc: Global,
    chain: &Chain,
    name: &Name,
    parent: EditionNo,
) -> Result<CatalogueRecord, RecoveryFault>
    ensures { PlansBy (spec.may_create chain.now name.now parent) (made.Edition name.now parent) result }
{
    if !may_create(chain, name, parent) {
        return Err(RecoveryFault::NotAllowed);
    }
    let name = name.clone_in(alloc)?;
    Ok(CatalogueRecord::Edition { name, parent })
}

/// Whether an edition of a name may be made below a parent.
fn may_create(chain: &Chain, name: &Name, parent: EditionNo) -> bool
    ensures { result ≡ spec.may_create chain.now name.now parent }
{
    chain.number(name).is_none()
        && chain.lives(parent)
        && chain.child(parent).is_none()
        && chain.count() < MAX_EDITIONS
}

/// The plan of the drop of an edition.
fn edition_drop_plan(chain: &Chain, e: EditionNo) -> Result<CatalogueRecord, RecoveryFault>
    ensures { PlansBy (spec.may_drop chain.now e) (made.EditionGone e) result }
{
    if !may_drop(chain, e) {
        return Err(RecoveryFault::NotAllowed);
    }
    Ok(CatalogueRecord::EditionGone(e))
}

/// Whether an edition may be dropped.
fn may_drop(chain: &Chain, e: EditionNo) -> bool
    ensures { result ≡ spec.may_drop chain.now e }
{
    chain.lives(e) && chain.child(e).is_none() && e != chain.default()
}

/// The plan of the choice of a default edition.
fn default_plan(chain: &Chain, e: EditionNo) -> Result<CatalogueRecord, RecoveryFault>
    ensures { PlansBy (is_living chain.now.made e) (made.Default e) result }
{
    if !chain.lives(e) {
        return Err(RecoveryFault::NotAllowed);
    }
    Ok(CatalogueRecord::Default(e))
}
