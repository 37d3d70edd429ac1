//! Carrying out what records say.

ghost use Rattle.std.specs.Prelude.{◌≡◌, true, IsSome};
ghost use Rattle.ebr_editions.specs.Editions.{is_living};
ghost use Rattle.ebr_tables.specs.Tables.{MayJoin, table_of_id};
ghost use Rattle.ebr_cross.specs.Catalogue.{Lists, HaveOwnKeys};
ghost use Rattle.ebr_cross.specs.Following.{CarriesOut, MayBeMade, MayFollow, MayGo, MayWiden};
ghost use Rattle.ebr_cross.specs.Records.{with_record};
ghost use Rattle.ebr_cross.specs.declared.record.CatalogueRecord.TheVariants as made;

use crate::catalogue::Catalogue;
use crate::kinds::key_of;
use crate::record::CatalogueRecord;
use ebr_ast::{Object, ObjectKind};
use ebr_base::{
    CloneIn, Column, EditionNo, Name, NoMemory, ObjectKey, Shared, Stop, TableDef, TableId,
};
use std::alloc::Global;

impl Catalogue {
    /// Carries out what a record says: the catalogue is then as the record leaves it. An `Err` changes nothing.
    #[tactic(auto, using(crate::proofs::OwnKeys::own_kept))]
    pub fn carry_out(&mut self, alloc: Global, r: &CatalogueRecord) -> Result<(), NoMemory>
        requires { MayFollow self.old r.now }
        ensures carries { CarriesOut self.old self.new r.now result }
        ensures own_keys { (c : Lists) → HaveOwnKeys c → HaveOwnKeys (with_record c r.now) }
    {
        match r {
            CatalogueRecord::Edition { name, parent } => self.add_edition(alloc, name, *parent),
            CatalogueRecord::EditionGone(e) => self.drop_edition(*e),
            CatalogueRecord::Default(e) => self.set_default(*e),
            CatalogueRecord::Object(object) => self.put_object(alloc, object),
            CatalogueRecord::ObjectGone { edition, key } => self.hide(alloc, *edition, key),
            CatalogueRecord::PackageGone { edition, name } => {
                self.hide_package(alloc, *edition, name)
            }
            CatalogueRecord::Table(table) => self.add_table(alloc, table),
            CatalogueRecord::Column { table, column } => self.add_column(alloc, *table, column),
            CatalogueRecord::TableGone(table) => self.drop_table(alloc, *table),
        }
    }

    fn add_edition(&mut self, alloc: Global, name: &Name, parent: EditionNo) -> Result<(), NoMemory>
        requires { MayBeMade self.old.chain name.now parent }
        ensures { CarriesOut self.old self.new (made.Edition name.now parent) result }
    {
        let name = name.clone_in(alloc)?;
        self.chain.add(name, parent)?;
        Ok(())
    }

    fn drop_edition(&mut self, e: EditionNo) -> Result<(), NoMemory>
        requires { MayGo self.old.chain e }
        ensures { CarriesOut self.old self.new (made.EditionGone e) result }
    {
        self.chain.remove_leaf(e);
        Ok(())
    }

    fn set_default(&mut self, e: EditionNo) -> Result<(), NoMemory>
        requires { is_living self.old.chain.made e ≡ true }
        ensures { CarriesOut self.old self.new (made.Default e) result }
    {
        self.chain.make_default(e);
        Ok(())
    }

    /// Makes an object actual in the edition of its stamp.
    fn put_object(&mut self, alloc: Global, object: &Shared<Object>) -> Result<(), NoMemory>
        ensures { CarriesOut self.old self.new (made.Object object.now) result }
    {
        let e = object.get().stamp.edition;
        let key = object.get().key.clone_in(alloc)?;
        let object = object.clone_in(alloc)?;
        self.actuals.enter(e, key, Some(object))?;
        Ok(())
    }

    fn hide(&mut self, alloc: Global, e: EditionNo, key: &ObjectKey) -> Result<(), NoMemory>
        ensures { CarriesOut self.old self.new (made.ObjectGone e key.now) result }
    {
        let key = key.clone_in(alloc)?;
        self.actuals.enter(e, key, None)?;
        Ok(())
    }

    /// Hides a package, and its body where that is visible.
    fn hide_package(&mut self, alloc: Global, e: EditionNo, name: &Name) -> Result<(), NoMemory>
        ensures { CarriesOut self.old self.new (made.PackageGone e name.now) result }
    {
        let key = key_of(alloc, ObjectKind::Package, name)?;
        let body = key_of(alloc, ObjectKind::PackageBody, name)?;
        self.actuals.enter_drops(&self.chain, e, &key, &body)?;
        Ok(())
    }

    fn add_table(&mut self, alloc: Global, table: &TableDef) -> Result<(), NoMemory>
        requires { MayJoin self.old.tables table.now }
        ensures { CarriesOut self.old self.new (made.Table table.now) result }
    {
        let table = table.clone_in(alloc)?;
        self.tables.add(table)?;
        Ok(())
    }

    fn add_column(&mut self, alloc: Global, id: TableId, column: &Column) -> Result<(), NoMemory>
        requires { MayWiden self.old.tables id column.now }
        ensures { CarriesOut self.old self.new (made.Column id column.now) result }
    {
        let Some(table) = self.tables.find_id(id) else {
            unreachable!();
        };
        let name = table.name.clone_in(alloc)?;
        let column = column.clone_in(alloc)?;
        match self.tables.add_column(&name, column) {
            Ok(()) => Ok(()),
            Err(Stop::NoMemory) => Err(NoMemory),
            Err(Stop::Raised(_)) => unreachable!(),
        }
    }

    fn drop_table(&mut self, alloc: Global, id: TableId) -> Result<(), NoMemory>
        requires { IsSome (table_of_id id self.old.tables.living) }
        ensures { CarriesOut self.old self.new (made.TableGone id) result }
    {
        let Some(table) = self.tables.find_id(id) else {
            unreachable!();
        };
        let name = table.name.clone_in(alloc)?;
        let _ = self.tables.remove(&name);
        Ok(())
    }
}
