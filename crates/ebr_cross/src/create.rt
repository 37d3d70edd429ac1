//! What refuses the CREATE of an object.

ghost use Rattle.std.specs.Prelude.{◌≡◌, ◌++◌, map, IfOk};
ghost use Rattle.std.specs.List.{list_all};
ghost use Rattle.ebr_tables.specs.Tables.{first_refusal};
ghost use Rattle.ebr_cross.specs.Catalogue.{ForLists, visible, table_in};
ghost use Rattle.ebr_cross.specs.Definitions as spec;
ghost use Rattle.ebr_cross.specs.Kinds as kinds;
ghost use Rattle.ebr_cross.specs.inside.Steps.{base_refusals};

use crate::catalogue::Catalogue;
use crate::kinds::{is_of_kind, unit_key};
use ebr_ast::{EditioningView, ObjectKind, Trigger, UnitTree, ViewItem};
use ebr_base::{Class, CloneIn, Code, Column, EditionNo, List, Name, NoMemory, ObjectKey};
use ebr_columns::repeats_a_name;
use std::alloc::Global;

impl Catalogue {
    /// The code by which the CREATE of an object is refused, before the number of visible objects is tested: ORA-00955, for a
    /// trigger ORA-04081, where its name is taken; and what `trigger_refusal` and `view_refusal` say.
    pub(crate) fn creation_refusal(
        &self,
        alloc: Global,
        e: EditionNo,
        replace: bool,
        kind: ObjectKind,
        key: &ObjectKey,
        unit: &UnitTree,
    ) -> Result<Option<Code>, NoMemory>
        ensures { ForLists self.now (λ c. IfOk result (λ refusal. refusal ≡ first_refusal (spec.name_refusals c e replace kind key.now ++ spec.tree_refusals c e key.now unit.now))) }
    {
        if let Some(code) = self.name_refusal(e, replace, kind, key) {
            return Ok(Some(code));
        }
        self.tree_refusal(alloc, e, key, unit)
    }

    /// ORA-00955 where a table has a name of class Unit, or the key is visible and may not be replaced; ORA-04081 of a trigger.
    fn name_refusal(
        &self,
        e: EditionNo,
        replace: bool,
        kind: ObjectKind,
        key: &ObjectKey,
    ) -> Option<Code>
        ensures { ForLists self.now (λ c. result ≡ first_refusal (spec.name_refusals c e replace kind key.now)) }
    {
        if is_unit_class(key.class) && self.table(&key.name).is_some() {
            return Some(Code::Ora(955));
        }
        if self.is_refused_by(e, replace, kind, key) {
            return Some(is_there_code(kind));
        }
        None
    }

    fn is_refused_by(&self, e: EditionNo, replace: bool, kind: ObjectKind, key: &ObjectKey) -> bool
        ensures { ForLists self.now (λ c. result ≡ spec.is_refused_by replace kind (visible c e key.now)) }
    {
        match self.visible(e, key) {
            Some(object) => !replace || !is_of_kind(kind, &object.get().tree),
            None => false,
        }
    }

    fn tree_refusal(
        &self,
        alloc: Global,
        e: EditionNo,
        key: &ObjectKey,
        unit: &UnitTree,
    ) -> Result<Option<Code>, NoMemory>
        ensures { ForLists self.now (λ c. IfOk result (λ refusal. refusal ≡ first_refusal (spec.tree_refusals c e key.now unit.now))) }
    {
        match unit {
            UnitTree::Trigger(trigger) => self.trigger_refusal(alloc, e, trigger.get()),
            UnitTree::View(view) => self.view_refusal(alloc, e, key, view.get()),
            _ => Ok(None),
        }
    }

    /// ORA-00942 where what the trigger stands on isn't there.
    fn trigger_refusal(
        &self,
        alloc: Global,
        e: EditionNo,
        trigger: &Trigger,
    ) -> Result<Option<Code>, NoMemory>
        ensures { ForLists self.now (λ c. IfOk result (λ refusal. refusal ≡ first_refusal (spec.trigger_refusals c e trigger.now))) }
    {
        if self.stands_on(alloc, e, trigger.crossedition.is_some(), &trigger.on)? {
            return Ok(None);
        }
        Ok(Some(Code::Ora(942)))
    }

    /// Whether a trigger may stand on what has a name: a crossedition trigger on a table, every other one on a table or an
    /// editioning view.
    fn stands_on(
        &self,
        alloc: Global,
        e: EditionNo,
        crossedition: bool,
        name: &Name,
    ) -> Result<bool, NoMemory>
        ensures { ForLists self.now (λ c. IfOk result (λ stands. stands ≡ spec.stands_on c e crossedition name.now)) }
    {
        if crossedition {
            return Ok(self.table(name).is_some());
        }
        let key = unit_key(alloc, name)?;
        Ok(self.is_view_or_table(e, &key, name))
    }

    fn is_view_or_table(&self, e: EditionNo, key: &ObjectKey, name: &Name) -> bool
        ensures { ForLists self.now (λ c. result ≡ spec.is_view_or_table (visible c e key.now) (table_in c name.now)) }
    {
        match self.visible(e, key) {
            Some(object) => is_of_kind(ObjectKind::View, &object.get().tree),
            None => self.table(name).is_some(),
        }
    }

    /// In this order: ORA-00942 where the view's table isn't there; ORA-00904 of a column that it hasn't; EBR-0027 of a bad
    /// list; EBR-0028 where the edition sees another editioning view on the table.
    fn view_refusal(
        &self,
        alloc: Global,
        e: EditionNo,
        key: &ObjectKey,
        view: &EditioningView,
    ) -> Result<Option<Code>, NoMemory>
        ensures { ForLists self.now (λ c. IfOk result (λ refusal. refusal ≡ first_refusal (spec.view_refusals c e key.now view.now))) }
    {
        if let Some(code) = self.base_refusal(view) {
            return Ok(Some(code));
        }
        if is_bad_list(alloc, view)? {
            return Ok(Some(Code::Ebr(27)));
        }
        if self.has_other_view(e, &view.table, key) {
            return Ok(Some(Code::Ebr(28)));
        }
        Ok(None)
    }

    /// ORA-00942 where a view's table isn't there, ORA-00904 of a column that it hasn't.
    fn base_refusal(&self, view: &EditioningView) -> Option<Code>
        ensures { ForLists self.now (λ c. result ≡ first_refusal (base_refusals c view.now)) }
    {
        let Some(table) = self.table(&view.table) else {
            return Some(Code::Ora(942));
        };
        if !has_columns(table.columns.as_slice(), view.items.as_slice()) {
            return Some(Code::Ora(904));
        }
        None
    }

    /// Whether the edition sees an editioning view on a table under another key.
    fn has_other_view(&self, e: EditionNo, table: &Name, key: &ObjectKey) -> bool
        ensures { ForLists self.now (λ c. result ≡ spec.has_other_view c e table.now key.now) }
    {
        for other in self.actuals.keys() {
            if other != key && self.shows_table(e, other, table) {
                return true;
            }
        }
        false
    }

    fn shows_table(&self, e: EditionNo, key: &ObjectKey, table: &Name) -> bool
        ensures { ForLists self.now (λ c. result ≡ spec.shows_table table.now (visible c e key.now)) }
    {
        match self.visible(e, key) {
            Some(object) => is_view_on(table, &object.get().tree),
            None => false,
        }
    }
}

fn is_unit_class(class: Class) -> bool
    ensures { result ≡ kinds.is_unit_class class }
{
    match class {
        Class::Unit => true,
        Class::Body | Class::Trigger => false,
    }
}

/// The code where an object of a kind is there already.
fn is_there_code(kind: ObjectKind) -> Code
    ensures { result ≡ spec.is_there_code kind }
{
    match kind {
        ObjectKind::Trigger => Code::Ora(4081),
        ObjectKind::Procedure
        | ObjectKind::Function
        | ObjectKind::Package
        | ObjectKind::PackageBody
        | ObjectKind::View => Code::Ora(955),
    }
}

fn is_view_on(table: &Name, unit: &UnitTree) -> bool
    ensures { result ≡ spec.is_view_on table.now unit.now }
{
    match unit {
        UnitTree::View(view) => *table == view.get().table,
        _ => false,
    }
}

/// Whether each item selects a column.
fn has_columns(columns: &[Column], items: &[ViewItem]) -> bool
    ensures { result ≡ list_all (λ i. spec.has_column columns.now i.column) items.now }
{
    items.iter().all(|item| has_column(columns, &item.column))
}

fn has_column(columns: &[Column], name: &Name) -> bool
    ensures { result ≡ spec.has_column columns.now name.now }
{
    columns.iter().any(|column| *name == column.name)
}

/// Whether a view selects a column twice, has a name twice, or has a list of names of another length (EBR-0027). Its work
/// is quadratic in the number of different columns, of which the table has at most 64.
fn is_bad_list(alloc: Global, view: &EditioningView) -> Result<bool, NoMemory>
    ensures { IfOk result (λ bad. bad ≡ spec.is_bad_list view.now) }
{
    let names = view_names(alloc, &view.names, view.items.as_slice())?;
    if names.len() != view.items.len() {
        return Ok(true);
    }
    let columns = item_columns(alloc, view.items.as_slice())?;
    Ok(repeats_a_name(columns.as_slice()) || repeats_a_name(names.as_slice()))
}

/// The columns that the items select.
fn item_columns(alloc: Global, items: &[ViewItem]) -> Result<List<Name>, NoMemory>
    ensures { IfOk result (λ names. names ≡ map (λ i. i.column) items.now) }
{
    let mut names = List::new(alloc);
    for item in items {
        names.push(item.column.clone_in(alloc)?)?;
    }
    Ok(names)
}

/// The names of a view's columns: those of its list, or where it has none those of its items.
fn view_names(alloc: Global, names: &List<Name>, items: &[ViewItem]) -> Result<List<Name>, NoMemory>
    ensures { IfOk result (λ given. given ≡ spec.view_names names.now items.now) }
{
    match names.as_slice() {
        [] => item_names(alloc, items),
        [_, ..] => names.clone_in(alloc),
    }
}

/// The items' aliases, and the columns of those without one.
fn item_names(alloc: Global, items: &[ViewItem]) -> Result<List<Name>, NoMemory>
    ensures { IfOk result (λ names. names ≡ map spec.item_name items.now) }
{
    let mut names = List::new(alloc);
    for item in items {
        names.push(item_name(item).clone_in(alloc)?)?;
    }
    Ok(names)
}

fn item_name(item: &ViewItem) -> &Name
    ensures { result.now ≡ spec.item_name item.now }
{
    match &item.alias {
        Some(alias) => alias,
        None => &item.column,
    }
}
