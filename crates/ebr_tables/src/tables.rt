//! All tables: how many were made, and the living ones, found by name and in order of id.

ghost use Rattle.std.specs.Prelude.{◌≡◌, ◌<◌, IfOk, OnOk, OnErr, slice_get};
ghost use Rattle.std.specs.Option.{option_copied};
ghost use Rattle.ebr_base.specs.Answers.{Answers};
ghost use Rattle.ebr_base.specs.Keys.{table_named};
ghost use Rattle.ebr_base.specs.declared.numbers.TheConstants.{MAX_COUNT};
ghost use Rattle.ebr_tables.specs.Tables.{AreTables, MayJoin, no_tables, create_refusal, next_id, create_answer, with_table, add_refusal, add_answer, with_column, remove_answer, refusal_of, table_of_id, with_definition, without_table};

use crate::definition::{is_bad_table, with_key_not_null};
use crate::keyed::{MAX_COLUMNS, put, wide_refusal, widen};
use ebr_base::{Code, Column, MAX_COUNT, Name, NoMemory, Stop, TableDef, TableId};
use indexmap::IndexMap;
use std::alloc::Global;
use std::marker::Model;

/// The most tables that live at one time.
pub const MAX_TABLES: usize = 1000;

/// The tables of the catalogue, which belong to no edition. Contracts see how many were ever made, and the list of
/// the living ones in order of id.
#[derive(Drop)]
pub struct Tables {
    made: u32,
    living: IndexMap<Name, TableDef>,
}

impl Model for Tables {
    ghost use Rattle.ebr_tables.specs.Tables.{AllTables};
    ghost use Rattle.ebr_tables.specs.inside.Keyed.{tables_of, Keyed};

    ghost Value = { AllTables };

    ghost view = { λ t. tables_of t.made t.living.entries };

    ghost invariant = { λ t. Keyed t.made t.living.entries };
}

impl Tables {
    /// No tables, and none ever made.
    pub fn new(alloc: Global) -> Result<Tables, NoMemory>
        ensures { IfOk result (λ tables. tables ≡ no_tables) }
    {
        Ok(Tables {
            made: 0,
            living: IndexMap::new(alloc),
        })
    }

    /// Makes a table: puts its id, which is one more than the number of tables ever made, into the definition, and
    /// makes the key's columns NOT NULL.
    ///
    /// Refused, in this order: ORA-00955 where a living table has the name; EBR-0029 where a column is named twice, a
    /// NUMBER's size is outside 1 to 18 or a VARCHAR2's outside 1 to 4,000, or the key names a column twice or a place
    /// where there is no column; EBR-0036 where there are more than 64 columns; EBR-0037 where 1,000 tables live. It
    /// finds no memory where 4,294,967,295 tables were made. An `Err` changes nothing.
    ///
    /// Whether an object of some edition has the name, which is ORA-00955 too, is the caller's to test.
    pub fn create(&mut self, def: TableDef) -> Result<TableId, Stop>
        ensures answer { Answers result (create_answer self.old def) }
        ensures tables { OnOk result (self.new ≡ with_table self.old def) }
        ensures unchanged { OnErr result (self.new ≡ self.old) }
    {
        if let Some(code) = self.create_refusal(&def) {
            return Err(Stop::Raised(code));
        }
        let id = self.next_id()?;
        let alloc = *self.living.allocator();
        let columns = with_key_not_null(alloc, def.columns.as_slice(), def.key.as_slice())?;
        self.add(TableDef { id, columns, ..def })?;
        Ok(id)
    }

    /// Adds a table as it is kept, which goes last. An `Err` changes nothing.
    pub fn add(&mut self, def: TableDef) -> Result<(), NoMemory>
        requires { MayJoin self.old def }
        ensures tables { OnOk result (self.new ≡ with_definition self.old def) }
        ensures unchanged { OnErr result (self.new ≡ self.old) }
    {
        let id = def.id;
        put(&mut self.living, def)?;
        self.made = id.0;
        Ok(())
    }

    /// The code by which `create` refuses a definition.
    pub fn create_refusal(&self, def: &TableDef) -> Option<Code>
        ensures { result ≡ create_refusal self.now def.now }
    {
        refusal_of(self.living.contains_key(&def.name), def, self.living.len())
    }

    /// The id that the next table gets. It finds no memory where 4,294,967,295 tables were made.
    pub fn next_id(&self) -> Result<TableId, NoMemory>
        ensures id { IfOk result (λ id. id ≡ next_id self.now) }
        ensures few { OnOk result (self.now.made < MAX_COUNT) }
    {
        if self.made as usize >= MAX_COUNT {
            return Err(NoMemory);
        }
        Ok(TableId(self.made + 1))
    }

    /// The code by which `add_column` would refuse a column.
    pub fn add_refusal(&self, t: &Name, c: &Column) -> Option<Code>
        ensures { result ≡ add_refusal (table_named t.now self.now.living) c.now }
    {
        match self.find(t) {
            Some(def) => wide_refusal(def, c),
            None => Some(Code::Ora(942)),
        }
    }

    /// Adds a column, which goes last, to the table of a name.
    ///
    /// Refused, in this order: ORA-00942 where no living table has the name; EBR-0029 where a column of that name is
    /// there or the size is out of its bounds; EBR-0036 where there are 64 columns. An `Err` changes nothing.
    pub fn add_column(&mut self, t: &Name, c: Column) -> Result<(), Stop>
        ensures answer { Answers result (add_answer (table_named t.now self.old.living) c) }
        ensures tables { OnOk result (self.new ≡ with_column self.old t.now c) }
        ensures unchanged { OnErr result (self.new ≡ self.old) }
    {
        widen(&mut self.living, t, c)
    }

    /// Takes the table of a name away; ORA-00942 where no living table has it, and then nothing changes. It takes no
    /// memory. The id isn't given again.
    pub fn remove(&mut self, t: &Name) -> Result<TableId, Code>
        ensures answer { result ≡ remove_answer (table_named t.now self.old.living) }
        ensures tables { self.new ≡ without_table self.old t.now }
        ensures unchanged { OnErr result (self.new ≡ self.old) }
    {
        match self.living.shift_remove(t) {
            Some(def) => Ok(def.id),
            None => Err(Code::Ora(942)),
        }
    }

    /// The living table of a name.
    pub fn find(&self, t: &Name) -> Option<&TableDef>
        ensures table { option_copied result ≡ table_named t.now self.now.living }
        ensures kept { AreTables self.now }
    {
        self.living.get(t)
    }

    /// The living table of an id. It halves the tables, which stand in order of id.
    pub fn find_id(&self, id: TableId) -> Option<&TableDef>
        ensures { option_copied result ≡ table_of_id id self.now.living }
    {
        let mut low = 0;
        let mut high = self.living.len() as u32;
        while low < high {
            let at = low + (high - low) / 2;
            let Some(def) = self.nth(at) else {
                return None;
            };
            if def.id == id {
                return Some(def);
            }
            if def.id.0 < id.0 {
                low = at + 1;
                continue;
            }
            high = at;
        }
        None
    }

    /// The living table at a place in the order of ids, counted from 0.
    pub fn nth(&self, at: u32) -> Option<&TableDef>
        ensures table { option_copied result ≡ slice_get self.now.living at }
        ensures kept { AreTables self.now }
    {
        match self.living.get_index(at as usize) {
            Some((_, def)) => Some(def),
            None => None,
        }
    }
}

/// The first code that refuses a definition, by whether a living table has its name, and by how many live.
fn refusal_of(taken: bool, def: &TableDef, living: usize) -> Option<Code>
    ensures { result ≡ refusal_of taken def.now living }
{
    if taken {
        return Some(Code::Ora(955));
    }
    if is_bad_table(def) {
        return Some(Code::Ebr(29));
    }
    if def.columns.len() > MAX_COLUMNS {
        return Some(Code::Ebr(36));
    }
    if living >= MAX_TABLES {
        return Some(Code::Ebr(37));
    }
    None
}
