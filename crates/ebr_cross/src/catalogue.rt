//! The catalogue, and the definitions that change it.

ghost use Rattle.std.specs.Prelude.{◌≡◌, true, IfOk, option_map};
ghost use Rattle.std.specs.Option.{option_copied};
ghost use Rattle.ebr_base.specs.Answers.{Answers};
ghost use Rattle.ebr_editions.specs.Held.{deref_object};
ghost use Rattle.ebr_editions.specs.Objects.{actual_at, keys_of};
ghost use Rattle.ebr_editions.specs.Editions.{is_living};
ghost use Rattle.ebr_cross.specs.Catalogue.{first_lists, as_catalogue, ForLists, visible, table_in};
ghost use Rattle.ebr_cross.specs.Definitions.{outcome, set_edition};
ghost use Rattle.ebr_cross.specs.Following.{MayFollow};

use crate::record::CatalogueRecord;
use ebr_ast::{Definition, Object};
use ebr_base::{Bytes, Code, EditionNo, Name, NoMemory, ObjectKey, Shared, Stop, TableDef};
use ebr_editions::{Actuals, Chain};
use ebr_tables::Tables;
use std::alloc::Global;

/// All that definitions have left: the editions, the objects that are actual in each of them, and the tables.
///
/// Its contracts speak of the plain lists that it keeps (`ForLists`).
#[derive(Drop)]
pub struct Catalogue {
    pub chain: Chain,
    pub actuals: Actuals<Shared<Object>>,
    pub tables: Tables,
}

impl Catalogue {
    /// A catalogue of the one edition ORA$BASE, without objects and tables.
    pub fn new(alloc: Global) -> Result<Catalogue, NoMemory>
        ensures { IfOk result (λ c. c ≡ as_catalogue first_lists) }
    {
        let chain = Chain::new(alloc)?;
        let tables = Tables::new(alloc)?;
        Ok(Catalogue {
            chain,
            actuals: Actuals::new(alloc)?,
            tables,
        })
    }

    /// What a definition in an edition would make: its record, which may be carried out, or the code by which it is refused.
    ///
    /// `sessions` are the editions in which sessions are, which DROP EDITION spares. `text` is the stored text of the object
    /// that the definition creates, from its first token to its last; where it creates none it is not read.
    ///
    /// What refuses, in this order:
    ///
    /// - CREATE EDITION: EBR-0031 the name is that of a living edition; ORA-38802 no such parent; EBR-0030 the parent has a
    ///   child; EBR-0035 256 editions live.
    /// - DROP EDITION: ORA-38802 no such edition; EBR-0032 it has a child; EBR-0033 it is the default or a session's;
    ///   ORA-38811 an object is actual in it and CASCADE isn't there.
    /// - ALTER DATABASE DEFAULT EDITION: ORA-38802.
    /// - CREATE TABLE: ORA-00955 a table, or an object of class Unit that the edition sees, has the name; EBR-0029 a column
    ///   named twice, a bad type or size, two primary keys, or a bad key; EBR-0036 more than 64 columns; EBR-0037 1,000
    ///   tables live.
    /// - ALTER TABLE ADD: ORA-00942 no such table; EBR-0029; EBR-0036. DROP TABLE: ORA-00942.
    /// - CREATE of an object: ORA-00955 a table has the name (class Unit alone); ORA-00955, of a trigger ORA-04081, the key is
    ///   visible and may not be replaced by this kind; ORA-00942 what a trigger stands on isn't there; of a view, ORA-00942
    ///   no such table, ORA-00904 no such column, EBR-0027 a column or a name twice or a list of another length, EBR-0028
    ///   another view on the table; EBR-0034 the edition would see more than 4,096 objects.
    /// - ALTER TRIGGER: ORA-04080 no such trigger; EBR-0034.
    /// - DROP of an object: ORA-04080 no such trigger, ORA-00942 no such view, ORA-04043 none of another kind.
    pub fn plan(
        &self,
        alloc: Global,
        e: EditionNo,
        sessions: &[EditionNo],
        what: &Definition,
        text: &Shared<Bytes>,
    ) -> Result<CatalogueRecord, Stop>
        ensures answer { ForLists self.now (λ c. Answers result (outcome c e sessions.now what.now text.now)) }
        ensures follows { IfOk result (λ r. MayFollow self.now r) }
    {
        match what {
            Definition::CreateEdition { name, parent } => {
                self.plan_edition(alloc, name, parent.as_ref())
            }
            Definition::DropEdition { name, cascade } => {
                self.plan_edition_drop(sessions, name, *cascade)
            }
            Definition::DefaultEdition(name) => self.plan_default(name),
            Definition::CreateTable { name, columns, key } => {
                self.plan_table(alloc, e, name, columns.as_slice(), key.as_slice())
            }
            Definition::AddColumn { table, column, ty } => {
                self.plan_column(alloc, table, column, ty)
            }
            Definition::DropTable(name) => self.plan_table_drop(name),
            Definition::AlterTrigger { name, enabled } => {
                self.plan_trigger(alloc, e, name, *enabled)
            }
            Definition::DropObject { kind, name } => self.plan_object_drop(alloc, e, *kind, name),
            Definition::CreateObject { replace, unit } => {
                self.plan_object(alloc, e, *replace, unit, text)
            }
        }
    }

    /// The living edition of a name, which ALTER SESSION SET EDITION asks for; ORA-38802 where there is none.
    pub fn edition_named(&self, name: &Name) -> Result<EditionNo, Code>
        ensures answer { result ≡ set_edition self.now.chain.made name.now }
        ensures lives { IfOk result (λ e. is_living self.now.chain.made e ≡ true) }
    {
        match self.chain.number(name) {
            Some(e) => Ok(e),
            None => Err(Code::Ora(38802)),
        }
    }

    /// The object that an edition sees under a key.
    pub fn visible<'a>(&'a self, e: EditionNo, key: &ObjectKey) -> Option<&'a Shared<Object>>
        ensures { ForLists self.now (λ c. option_copied result ≡ visible c e key.now) }
    {
        self.actuals.visible(&self.chain, e, key)
    }

    /// The keys that were ever defined, in any edition, in the order of their first definitions.
    pub fn keys(&self) -> &[ObjectKey]
        ensures { ForLists self.now (λ c. result.now ≡ keys_of c.entries) }
    {
        self.actuals.keys()
    }

    /// The key at a place among those with a definition or drop in an edition, in the order of their first ones there,
    /// with the object that is actual there; none where the last one was a drop.
    pub fn actual_in(&self, e: EditionNo, at: u32) -> Option<(&ObjectKey, Option<&Shared<Object>>)>
        ensures { ForLists self.now (λ c. option_map deref_object result ≡ actual_at c.entries e at) }
    {
        self.actuals.actual_in(e, at)
    }

    /// The living table of a name.
    pub fn table(&self, name: &Name) -> Option<&TableDef>
        ensures { ForLists self.now (λ c. option_copied result ≡ table_in c name.now) }
    {
        self.tables.find(name)
    }
}
