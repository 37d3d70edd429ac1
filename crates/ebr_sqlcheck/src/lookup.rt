//! The sources of a statement, found by name.

ghost use Rattle.std.specs.Prelude.{◌≡◌, ◌+◌, [], Some, option_map, slice_get, IfOk, OnOk};
ghost use Rattle.std.specs.Option.{option_copied, option_and_then, option_to_list};
ghost use Rattle.std.specs.Str.{bytes_eq};
ghost use Rattle.ebr_sqlcheck.specs.Names as names;
ghost use Rattle.ebr_sqlcheck.specs.Sources.{is_called};
ghost use Rattle.ebr_sqlcheck.specs.inside.Found.{Notes, HasNotes, IsIndex, Begins, note, first_or, ends_of, may_have, has_column, starts_from};

use crate::relation::{Meant, Relation};
use crate::value_type::{ValueType, first_known};
use ebr_base::{List, NoMemory};
use ebr_exprtree::Path;
use indexmap::IndexMap;
use std::alloc::Global;
use std::marker::Model;

/// The places of the first and the last of some sources.
#[derive(Clone, Copy)]
pub struct Ends {
    pub first: usize,
    pub last: usize,
}

/// Where the search for a column begins: at a source, and at the column of the row that is its first.
#[derive(Clone, Copy)]
pub struct Start {
    pub source: usize,
    pub columns: usize,
}

const FROM_FIRST: Start = Start {
    source: 0,
    columns: 0,
};

/// What finds sources by name.
#[derive(Drop)]
struct Index<'r> {
    /// How many columns the sources before each one have.
    starts: List<usize>,
    /// Where the sources of each alias stand; in a statement it is one.
    aliases: IndexMap<&'r [u8], Ends>,
    /// Where the sources with a column of each name stand.
    columns: IndexMap<&'r [u8], Ends>,
}

/// So many sources are looked through one after the other, without an index.
const FEW: usize = 8;

/// The sources of a statement, which contracts see as their list. Where they are many, they are found by name.
#[derive(Drop)]
pub struct Relations<'r, 'a> {
    list: &'r [Relation<'a>],
    index: Option<Index<'r>>,
}

impl<'r, 'a> Model for Relations<'r, 'a> {
    ghost use Rattle.std.specs.Prelude.{List as Sequence};
    ghost use Rattle.ebr_sqlcheck.specs.Sources.{Relation as Seen};
    ghost use Rattle.ebr_sqlcheck.specs.inside.Found.{MayBeFound};

    ghost Value = { Sequence Seen };

    ghost view = { λ r. r.list.now };

    ghost invariant = { λ r. MayBeFound r.list.now r.index };
}

impl<'r, 'a> Relations<'r, 'a> {
    /// No sources, which takes no memory.
    pub fn none() -> Relations<'r, 'a>
        ensures { result ≡ [] }
    {
        Relations {
            list: &[],
            index: None,
        }
    }

    /// The sources of a list.
    pub fn of(alloc: Global, list: &'r [Relation<'a>]) -> Result<Relations<'r, 'a>, NoMemory>
        ensures { IfOk result (λ relations. relations ≡ list.now) }
    {
        if list.len() <= FEW {
            return Ok(Relations { list, index: None });
        }
        let index = index_of(alloc, list)?;
        Ok(Relations {
            list,
            index: Some(index),
        })
    }

    /// The sources, in order.
    pub fn as_slice(&self) -> &'r [Relation<'a>]
        ensures { result.now ≡ self.now }
    {
        self.list
    }

    /// Where the search for the column of a name begins; nowhere, where no source has it.
    pub fn start(&self, path: &Path) -> Option<Start>
        ensures { Begins path.now.name path.now.member self.now result }
    {
        match &self.index {
            Some(index) => index_start(self.list, index, path),
            None => Some(FROM_FIRST),
        }
    }
}

/// What finds sources by name.
fn index_of<'r>(alloc: Global, list: &'r [Relation<'_>]) -> Result<Index<'r>, NoMemory>
    ensures { IfOk result (IsIndex list.now) }
{
    let starts = starts_of(alloc, list)?;
    let aliases = aliases_of(alloc, list)?;
    let columns = columns_of(alloc, list)?;
    Ok(Index {
        starts,
        aliases,
        columns,
    })
}

/// Where the sources stand that may have the column of a name: they have one for `n`, and are called n for `n.m`.
fn places(list: &[Relation<'_>], index: &Index<'_>, path: &Path) -> Option<Ends>
    requires { IsIndex list.now index.now }
    ensures { result ≡ ends_of (may_have path.now.name path.now.member) list.now }
{
    match path.member {
        None => noted(&index.columns, path.name.as_slice()),
        Some(_) => noted(&index.aliases, path.name.as_slice()),
    }
}

fn index_start(list: &[Relation<'_>], index: &Index<'_>, path: &Path) -> Option<Start>
    requires { IsIndex list.now index.now }
    ensures { Begins path.now.name path.now.member list.now result }
{
    match places(list, index, path) {
        Some(ends) => start_at(index.starts.get(ends.first), ends.first),
        None => None,
    }
}

/// The start at a source before which so many columns stand.
fn start_at(columns: Option<&usize>, source: usize) -> Option<Start>
    ensures { result ≡ option_map (λ n. record { source = source; columns = n }) (option_copied columns.entry) }
{
    match columns {
        Some(columns) => Some(Start {
            source,
            columns: *columns,
        }),
        None => None,
    }
}

/// What is noted for a name.
fn noted(notes: &IndexMap<&[u8], Ends>, name: &[u8]) -> Option<Ends>
    ensures { result ≡ note name.now notes.now.entries }
{
    match notes.get(name) {
        Some(ends) => Some(*ends),
        None => None,
    }
}

/// Notes a source for a name, behind those before it.
fn add_note<'r>(
    notes: &mut IndexMap<&'r [u8], Ends>,
    name: &'r [u8],
    at: usize,
) -> Result<(), NoMemory>
    ensures { OnOk result (Notes (λ n. bytes_eq n name.now) at notes.old.entries notes.new.entries) }
{
    let first = first_noted(notes, name, at);
    notes.insert(name, Ends { first, last: at })?;
    Ok(())
}

/// The first source of a name, which is this one where none was noted.
fn first_noted(notes: &IndexMap<&[u8], Ends>, name: &[u8], at: usize) -> usize
    ensures { result ≡ first_or at (note name.now notes.now.entries) }
{
    match noted(notes, name) {
        Some(ends) => ends.first,
        None => at,
    }
}

/// How many columns there are before each source.
fn starts_of(alloc: Global, list: &[Relation<'_>]) -> Result<List<usize>, NoMemory>
    ensures { IfOk result (λ starts. starts ≡ starts_from 0 list.now) }
{
    let mut starts = List::new(alloc);
    let mut from = 0;
    for relation in list {
        starts.push(from)?;
        from = sum(from, relation.columns().len())?;
    }
    Ok(starts)
}

fn sum(a: usize, b: usize) -> Result<usize, NoMemory>
    ensures { IfOk result (λ c. c ≡ a + b) }
{
    match a.checked_add(b) {
        Some(c) => Ok(c),
        None => Err(NoMemory),
    }
}

/// Where the sources of each alias stand.
fn aliases_of<'r>(
    alloc: Global,
    list: &'r [Relation<'_>],
) -> Result<IndexMap<&'r [u8], Ends>, NoMemory>
    ensures { IfOk result (λ notes. HasNotes is_called list.now notes.entries) }
{
    let mut notes = IndexMap::new(alloc);
    for (at, relation) in list.iter().enumerate() {
        add_note(&mut notes, relation.alias(), at)?;
    }
    Ok(notes)
}

/// Where the sources with a column of each name stand.
fn columns_of<'r>(
    alloc: Global,
    list: &'r [Relation<'_>],
) -> Result<IndexMap<&'r [u8], Ends>, NoMemory>
    ensures { IfOk result (λ notes. HasNotes has_column list.now notes.entries) }
{
    let mut notes = IndexMap::new(alloc);
    for (at, relation) in list.iter().enumerate() {
        add_columns(&mut notes, relation, at)?;
    }
    Ok(notes)
}

/// Notes a source for the names of its columns.
fn add_columns<'r>(
    notes: &mut IndexMap<&'r [u8], Ends>,
    relation: &'r Relation<'_>,
    at: usize,
) -> Result<(), NoMemory>
    ensures { OnOk result (Notes (λ n. has_column n relation.now) at notes.old.entries notes.new.entries) }
{
    for column in relation.columns() {
        add_note(notes, column.name.as_slice(), at)?;
    }
    Ok(())
}

/// Whether a name is a column, and of how many of the sources.
///
/// `n` may be a column n of any source, and `n.m` is a column m of the source that is called n.
pub fn column_meant(relations: &Relations<'_, '_>, path: &Path) -> Meant
    ensures { result ≡ names.column_meant relations.now path.now }
{
    match &relations.index {
        Some(index) => meant_by(relations.list, index, path),
        None => meant_among(relations.list, path),
    }
}

fn meant_by(list: &[Relation<'_>], index: &Index<'_>, path: &Path) -> Meant
    requires { IsIndex list.now index.now }
    ensures { result ≡ names.column_meant list.now path.now }
{
    match places(list, index, path) {
        None => Meant::Nothing,
        Some(ends) => meant_between(list, path, ends),
    }
}

/// What a name means that is no column of the sources outside these ends, and may be one of those at them.
fn meant_between(list: &[Relation<'_>], path: &Path, ends: Ends) -> Meant
    requires { ends_of (may_have path.now.name path.now.member) list.now ≡ Some ends }
    ensures { result ≡ names.column_meant list.now path.now }
{
    if ends.first == ends.last {
        return one_meant(relation_at(list, ends.first), path);
    }
    match path.member {
        None => Meant::Several,
        Some(_) => meant_among(list, path),
    }
}

fn relation_at<'r, 'a>(list: &'r [Relation<'a>], at: usize) -> Option<&'r Relation<'a>>
    ensures { option_copied result ≡ slice_get list.now at }
{
    list.get(at)
}

/// A name that no source but one may have as a column.
fn one_meant(relation: Option<&Relation<'_>>, path: &Path) -> Meant
    ensures { result ≡ names.one_of (option_to_list (option_and_then (names.named_in path.now.name path.now.member) (option_copied relation.entry))) }
{
    match relation {
        Some(relation) => meant_as(relation.named(path)),
        None => Meant::Nothing,
    }
}

fn meant_as(found: Option<ValueType>) -> Meant
    ensures { result ≡ names.one_of (option_to_list found) }
{
    match found {
        Some(ty) => Meant::Column(ty),
        None => Meant::Nothing,
    }
}

/// A name that any of the sources may have as a column.
fn meant_among(list: &[Relation<'_>], path: &Path) -> Meant
    ensures { result ≡ names.column_meant list.now path.now }
{
    let mut found = None;
    for relation in list {
        let named = relation.named(path);
        if named.is_some() && found.is_some() {
            return Meant::Several;
        }
        found = first_known(found, named);
    }
    meant_as(found)
}
