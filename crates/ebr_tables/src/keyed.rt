//! A map from the living tables' names to their definitions, in order of creation.

ghost use Rattle.std.specs.Prelude.{◌≡◌, [], ◌∷◌, ◌++◌, None, Some, OnOk, OnErr};
ghost use Rattle.std.specs.Str.{bytes_eq};
ghost use Rattle.indexmap.specs.IndexMap.{get};
ghost use Rattle.ebr_base.specs.Answers.{Answers};
ghost use Rattle.ebr_tables.specs.Tables.{add_answer, add_refusal, widened};
ghost use Rattle.ebr_tables.specs.inside.Keyed.{widened_in};

use crate::definition::is_bad_column;
use ebr_base::{CloneIn, Code, Column, Name, NoMemory, Stop, TableDef};
use indexmap::IndexMap;

/// The most columns that a table has.
pub const MAX_COLUMNS: usize = 64;

/// Puts a definition of a new name at the end. An `Err` changes nothing.
pub fn put(tables: &mut IndexMap<Name, TableDef>, def: TableDef) -> Result<(), NoMemory>
    requires { get bytes_eq tables.old def.name ≡ None }
    ensures ok { OnOk result (tables.new.entries ≡ tables.old.entries ++ (def.name, def) ∷ []) }
    ensures err { OnErr result (tables.new.entries ≡ tables.old.entries) }
{
    let alloc = *tables.allocator();
    let name = def.name.clone_in(alloc)?;
    tables.insert(name, def)?;
    Ok(())
}

/// Adds a column at the end of the table of a name. An `Err` changes nothing.
pub fn widen(tables: &mut IndexMap<Name, TableDef>, name: &Name, column: Column) -> Result<(), Stop>
    ensures answer { Answers result (add_answer (get bytes_eq tables.old name.now) column) }
    ensures tables { OnOk result (
        tables.new.entries
        ≡ widened_in (get bytes_eq tables.old name.now) name.now column tables.old.entries) }
    ensures unchanged { OnErr result (tables.new.entries ≡ tables.old.entries) }
{
    match tables.get_mut(name) {
        Some(def) => widen_one(def, column),
        None => Err(Stop::Raised(Code::Ora(942))),
    }
}

/// Adds a column at the end of a definition. An `Err` changes nothing.
fn widen_one(def: &mut TableDef, column: Column) -> Result<(), Stop>
    ensures answer { Answers result (add_answer (Some def.old) column) }
    ensures table { OnOk result (def.new ≡ widened column def.old) }
    ensures unchanged { OnErr result (def.new ≡ def.old) }
{
    if let Some(code) = wide_refusal(def, &column) {
        return Err(Stop::Raised(code));
    }
    def.columns.push(column)?;
    Ok(())
}

/// The code by which a table refuses one more column.
pub fn wide_refusal(def: &TableDef, column: &Column) -> Option<Code>
    ensures { result ≡ add_refusal (Some def.now) column.now }
{
    if is_bad_column(def.columns.as_slice(), column) {
        return Some(Code::Ebr(29));
    }
    if def.columns.len() >= MAX_COLUMNS {
        return Some(Code::Ebr(36));
    }
    None
}
