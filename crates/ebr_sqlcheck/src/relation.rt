//! The sources of a statement.

ghost use Rattle.std.specs.Prelude.{◌≡◌, List as Sequence, not, IsTrue, ◌∷◌, ◌++◌, [], IfOk};
ghost use Rattle.std.specs.Option.{option_copied, unwrap_or};
ghost use Rattle.std.specs.List.{list_any};
ghost use Rattle.ebr_base.specs.Answers.{Answers};
ghost use Rattle.ebr_ast.specs.Views.{IsInOrder};
ghost use Rattle.ebr_names.specs.Columns.{column_named};
ghost use Rattle.ebr_sqlcheck.specs.Sources as sources;
ghost use Rattle.ebr_sqlcheck.specs.Names as names;
ghost use Rattle.ebr_sqlcheck.specs.Statements as statements;
ghost use Rattle.ebr_sqlcheck.specs.Sources.{Relation as Seen};
ghost use Rattle.ebr_sqlcheck.specs.inside.Aliases.{HasAliases};

use crate::value_type::{ValueType, type_of_column};
use crate::verdict::AMBIGUOUS;
use ebr_ast::{EditionView, Source};
use ebr_base::{ColType, List, Name, NoMemory, Stop};
use ebr_exprtree::Path;
use ebr_names::{ViewColumn, columns};
use indexmap::IndexSet;
use std::alloc::Global;
use std::marker::Model;

/// A source as a statement sees it: what it is called, and its columns.
#[derive(Drop)]
pub struct Relation<'a> {
    alias: &'a [u8],
    columns: List<ViewColumn>,
}

impl<'a> Model for Relation<'a> {
    ghost use Rattle.ebr_sqlcheck.specs.Sources.{Relation as Seen};

    ghost Value = { Seen };

    ghost view = { λ r. record { alias = r.alias.now; columns = r.columns } };
}

/// Whether a name is a column, and of how many sources.
#[derive(Clone, Copy, Debug, PartialEq, Eq)]
pub enum Meant {
    Nothing,
    /// A column of this type, of one source.
    Column(ValueType),
    Several,
}

/// What a source is called: its alias, or its name where it has none.
fn alias_of(source: &Source) -> &[u8]
    ensures { result.now ≡ sources.alias_of source.now }
{
    match source {
        Source::Dual => b"DUAL",
        Source::Named { name, alias } => name_or_alias(name, alias),
    }
}

/// The alias, or the name where there is none.
pub fn name_or_alias<'a>(name: &'a Name, alias: &'a Option<Name>) -> &'a [u8]
    ensures { result.now ≡ unwrap_or alias.now name.now }
{
    match alias {
        Some(alias) => alias.as_slice(),
        None => name.as_slice(),
    }
}

impl<'a> Relation<'a> {
    /// What it is called: its alias, or its name where it has none.
    pub fn alias(&self) -> &[u8]
        ensures { result.now ≡ self.now.alias }
    {
        self.alias
    }

    /// Whether it is called so: by its alias, or by its name where it has none.
    pub fn is_called(&self, alias: &[u8]) -> bool
        ensures { result ≡ sources.is_called alias.now self.now }
    {
        alias == self.alias
    }

    /// Its columns.
    pub fn columns(&self) -> &[ViewColumn]
        ensures { result.now ≡ self.now.columns }
    {
        self.columns.as_slice()
    }

    /// The type of a column.
    fn column(&self, name: &Name) -> Option<ValueType>
        ensures { result ≡ names.column_in name.now self.now }
    {
        match find_column(self.columns.as_slice(), name) {
            Some(column) => Some(type_of_column(column.ty)),
            None => None,
        }
    }

    /// The type of the column that a name is: `n` is a column, and `n.m` one of the source that is called n.
    pub fn named(&self, path: &Path) -> Option<ValueType>
        ensures { result ≡ names.named_in path.now.name path.now.member self.now }
    {
        match &path.member {
            None => self.column(&path.name),
            Some(member) => self.member(&path.name, member),
        }
    }

    fn member(&self, alias: &Name, name: &Name) -> Option<ValueType>
        ensures { result ≡ names.named_in alias.now (Some name.now) self.now }
    {
        if self.is_called(alias.as_slice()) {
            self.column(name)
        } else {
            None
        }
    }
}

/// The column of a name.
pub fn find_column<'c>(columns: &'c [ViewColumn], name: &Name) -> Option<&'c ViewColumn>
    ensures { option_copied result ≡ column_named name.now columns.now }
{
    columns.iter().find(|column| *name == column.name)
}

/// The one column of DUAL.
#[tactic(auto, unfolding(ebr_base::specs::Word::is_letter, ebr_base::specs::Word::is_word_byte, ebr_base::specs::Word::is_reserved))]
fn dual_columns(alloc: Global) -> Result<List<ViewColumn>, NoMemory>
    ensures { IfOk result (λ columns. columns ≡ sources.dual_columns) }
{
    let mut columns = List::new(alloc);
    if let Some(name) = Name::of(alloc, b"DUMMY")? {
        columns.push(ViewColumn {
            name,
            place: 0,
            ty: ColType::Text(1),
        })?;
    }
    Ok(columns)
}

fn columns_of(alloc: Global, v: &EditionView, source: &Source) -> Result<List<ViewColumn>, Stop>
    requires { IsInOrder v.now }
    ensures { Answers result (sources.columns_of v.now source.now) }
{
    match source {
        Source::Dual => Ok(dual_columns(alloc)?),
        Source::Named { name, .. } => columns(alloc, v, name),
    }
}

/// A source, none of those before it having its alias, which is put to theirs.
#[tactic(auto, unfolding(crate::specs::Sources::next_relation))]
fn next_relation<'a>(
    alloc: Global,
    v: &EditionView,
    source: &'a Source,
    aliases: &mut IndexSet<&'a [u8]>,
) -> Result<Relation<'a>, Stop>
    requires { IsInOrder v.now }
    ensures relation { (before : Sequence Seen) → HasAliases before aliases.old.keys → Answers result (sources.next_relation v.now before source.now) }
    ensures aliases { (before : Sequence Seen) → HasAliases before aliases.old.keys → IfOk result (λ r. HasAliases (before ++ r ∷ []) aliases.new.keys) }
{
    let columns = columns_of(alloc, v, source)?;
    let alias = alias_of(source);
    if !is_new(aliases, alias)? {
        return Err(Stop::Raised(AMBIGUOUS));
    }
    Ok(Relation { alias, columns })
}

/// Adds an alias, and tells whether no source before had it.
fn is_new<'a>(aliases: &mut IndexSet<&'a [u8]>, alias: &'a [u8]) -> Result<bool, NoMemory>
    ensures told { (before : Sequence Seen) → HasAliases before aliases.old.keys → IfOk result (λ new. new ≡ not (list_any (sources.is_called alias.now) before)) }
    ensures added { IfOk result (λ new. IsTrue new → aliases.new.keys ≡ aliases.old.keys ++ alias.entry ∷ []) }
{
    Ok(aliases.insert(alias)?)
}

/// The sources of a query, in order.
///
/// Refused, source after source: ORA-00942 where the name means neither an editioning view nor a table, or the view's base
/// isn't a table; ORA-00904 where the base has lost a column of the view; EBR-0018 where a source before it has its alias.
///
/// Oracle Database SQL Language Reference 19c, SELECT.
pub fn relations<'a>(
    alloc: Global,
    v: &EditionView,
    list: &'a [Source],
) -> Result<List<Relation<'a>>, Stop>
    requires { IsInOrder v.now }
    ensures { Answers result (sources.relations_of v.now list.now) }
{
    let mut found = List::new(alloc);
    let mut aliases = IndexSet::new(alloc);
    for source in list {
        let relation = next_relation(alloc, v, source, &mut aliases)?;
        found.push(relation)?;
    }
    Ok(found)
}

/// The one source of an UPDATE or a DELETE. It is refused as a query's source is.
pub fn only_relation<'a>(
    alloc: Global,
    v: &EditionView,
    table: &'a Name,
    alias: &'a Option<Name>,
) -> Result<Relation<'a>, Stop>
    requires { IsInOrder v.now }
    ensures { Answers result (statements.only_relation v.now table.now alias.now) }
{
    let columns = columns(alloc, v, table)?;
    Ok(Relation {
        alias: name_or_alias(table, alias),
        columns,
    })
}
