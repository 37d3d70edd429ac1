//! Definitions of tables.

ghost use Rattle.std.specs.Prelude.{◌≡◌, IfOk, IfSome, IsSome};
ghost use Rattle.ebr_base.specs.Answers.{Answers};
ghost use Rattle.ebr_tables.specs.Tables.{kept_as, table_of_id, unless_refused};
ghost use Rattle.ebr_cross.specs.Catalogue.{ForLists, table_in};
ghost use Rattle.ebr_columns.specs.Columns as columns_spec;
ghost use Rattle.ebr_cross.specs.Definitions as spec;
ghost use Rattle.ebr_cross.specs.Following.{MayFollow, MayWiden};
ghost use Rattle.ebr_cross.specs.Records.{table_name};
ghost use Rattle.ebr_cross.specs.inside.Steps.{first_table_refusal, MakesColumn, made_table, id_in};

use crate::catalogue::Catalogue;
use crate::kinds::unit_key;
use crate::record::CatalogueRecord;
use ebr_ast::{ColumnTree, DeclaredType};
use ebr_base::{
    CloneIn, Code, ColType, Column, EditionNo, Name, NoMemory, Stop, TableDef, TableId,
};
use ebr_columns::{column_names, column_type, is_bad_table, key_names, table_of};
use ebr_tables::with_key_not_null;
use std::alloc::Global;

/// The most columns that a table has.
const MAX_COLUMNS: usize = 64;

impl Catalogue {
    /// The table that CREATE TABLE defines, where it isn't refused before the number of tables is tested.
    fn table_of(
        &self,
        alloc: Global,
        e: EditionNo,
        name: &Name,
        columns: &[ColumnTree],
        key: &[Name],
    ) -> Result<TableDef, Stop>
        ensures { ForLists self.now (λ c. Answers result (unless_refused (first_table_refusal c e name.now columns.now key.now) (columns_spec.table_of name.now columns.now key.now))) }
    {
        let names = column_names(alloc, columns)?;
        let key_names = key_names(alloc, columns, key)?;
        if self.is_taken(alloc, e, name)? {
            return Err(Stop::Raised(Code::Ora(955)));
        }
        if is_bad_table(alloc, columns, key, names.as_slice(), key_names.as_slice())? {
            return Err(Stop::Raised(Code::Ebr(29)));
        }
        if columns.len() > MAX_COLUMNS {
            return Err(Stop::Raised(Code::Ebr(36)));
        }
        Ok(table_of(
            alloc,
            name,
            columns,
            key,
            names.as_slice(),
            key_names.as_slice(),
        )?)
    }

    /// Whether a table has the name, or an object of class Unit that the edition sees.
    fn is_taken(&self, alloc: Global, e: EditionNo, name: &Name) -> Result<bool, NoMemory>
        ensures { ForLists self.now (λ c. IfOk result (λ taken. taken ≡ spec.is_taken c e name.now)) }
    {
        let key = unit_key(alloc, name)?;
        Ok(self.table(name).is_some() || self.visible(e, &key).is_some())
    }

    /// The plan of CREATE TABLE. Refusals, in this order: ORA-00955 where a table, or an object of class Unit that the edition sees,
    /// has the name; EBR-0029 of a bad table; EBR-0036 where there are more than 64 columns; EBR-0037 where 1,000 tables live.
    pub(crate) fn plan_table(
        &self,
        alloc: Global,
        e: EditionNo,
        name: &Name,
        columns: &[ColumnTree],
        key: &[Name],
    ) -> Result<CatalogueRecord, Stop>
        ensures answer { ForLists self.now (λ c. Answers result (spec.create_table c e name.now columns.now key.now)) }
        ensures follows { IfOk result (λ r. MayFollow self.now r) }
    {
        match self.table_of(alloc, e, name, columns, key) {
            Ok(def) => self.table_record(alloc, &def),
            Err(stop) => Err(stop),
        }
    }

    /// The plan of a table whose name no object has.
    fn table_record(&self, alloc: Global, def: &TableDef) -> Result<CatalogueRecord, Stop>
        ensures answer { ForLists self.now (λ c. Answers result (made_table c def.now)) }
        ensures follows { IfOk result (λ r. MayFollow self.now r) }
    {
        if let Some(code) = self.tables.create_refusal(def) {
            return Err(Stop::Raised(code));
        }
        let id = self.tables.next_id()?;
        Ok(CatalogueRecord::Table(kept_copy(alloc, id, def)?))
    }

    /// The plan of ALTER TABLE ADD. Refusals: those of `column_for`.
    pub(crate) fn plan_column(
        &self,
        alloc: Global,
        table: &Name,
        name: &Name,
        ty: &DeclaredType,
    ) -> Result<CatalogueRecord, Stop>
        ensures answer { ForLists self.now (λ c. Answers result (spec.add_column c table.now name.now ty.now)) }
        ensures follows { IfOk result (λ r. MayFollow self.now r) }
    {
        match self.column_for(alloc, table, name, ty) {
            Ok((table, column)) => Ok(CatalogueRecord::Column { table, column }),
            Err(stop) => Err(stop),
        }
    }

    /// The column that ALTER TABLE ADD adds, and its table. Refusals: ORA-00942 where no table has the name, EBR-0029 of a bad
    /// column, EBR-0036 where the table has 64 columns.
    fn column_for(
        &self,
        alloc: Global,
        table: &Name,
        name: &Name,
        ty: &DeclaredType,
    ) -> Result<(TableId, Column), Stop>
        ensures made { ForLists self.now (λ c. MakesColumn (spec.add_column c table.now name.now ty.now) result) }
        ensures follows { IfOk result (λ p. MayWiden self.now.tables p.0 p.1) }
    {
        let Some(id) = self.table_id(table) else {
            return Err(Stop::Raised(Code::Ora(942)));
        };
        let Some(ty) = column_type(ty) else {
            return Err(Stop::Raised(Code::Ebr(29)));
        };
        let column = new_column(alloc, name, ty)?;
        match self.tables.add_refusal(table, &column) {
            Some(code) => Err(Stop::Raised(code)),
            None => Ok((id, column)),
        }
    }

    /// The id of the living table of a name.
    fn table_id(&self, name: &Name) -> Option<TableId>
        ensures id { result ≡ id_in self.now name.now }
        ensures there { IfSome result (λ id. IsSome (table_of_id id self.now.tables.living)) }
        ensures named { IfSome result (λ id. table_name self.now.tables id ≡ name.now) }
    {
        match self.tables.find(name) {
            Some(table) => Some(table.id),
            None => None,
        }
    }

    /// The plan of DROP TABLE. Refusal: ORA-00942 where no table has the name.
    pub(crate) fn plan_table_drop(&self, name: &Name) -> Result<CatalogueRecord, Stop>
        ensures answer { ForLists self.now (λ c. Answers result (spec.drop_table c name.now)) }
        ensures follows { IfOk result (λ r. MayFollow self.now r) }
    {
        match self.table_id(name) {
            Some(id) => Ok(CatalogueRecord::TableGone(id)),
            None => Err(Stop::Raised(Code::Ora(942))),
        }
    }
}

/// A copy of the definition as it is kept, with its id.
fn kept_copy(alloc: Global, id: TableId, def: &TableDef) -> Result<TableDef, NoMemory>
    ensures { IfOk result (λ copy. copy ≡ kept_as id def.now) }
{
    let columns = with_key_not_null(alloc, def.columns.as_slice(), def.key.as_slice())?;
    let key = def.key.clone_in(alloc)?;
    Ok(TableDef {
        id,
        name: def.name.clone_in(alloc)?,
        columns,
        key,
    })
}

fn new_column(alloc: Global, name: &Name, ty: ColType) -> Result<Column, NoMemory>
    ensures { IfOk result (λ column. column ≡ spec.new_column name.now ty) }
{
    Ok(Column {
        name: name.clone_in(alloc)?,
        ty,
        not_null: false,
    })
}
