//! Cursors.

ghost use Rattle.std.specs.Prelude.{◌≡◌, Some, IfOk, OnOk};
ghost use Rattle.ebr_run.specs.Cursors as spec;
ghost use Rattle.ebr_memory.specs.Rows.{fetched_of};
ghost use Rattle.ebr_memory.specs.inside.OpenRows.{cursor_of};

use crate::row::count;
use crate::rows::row_fits;
use crate::shared_row::SharedRow;
use ebr_ast::Attribute;
use ebr_base::{CloneIn, List, NoMemory, Shared, Value};
use ebr_sqlcheck::ValueType;
use std::alloc::Global;
use std::marker::Model;

/// The rows of an open cursor.
#[derive(Drop)]
struct Rows {
    /// All rows of the query, in the memory of its answer.
    all: Shared<List<List<Value>>>,
    /// How many of them were fetched.
    fetched: usize,
    /// Whether the last fetch gave a row.
    found: Option<bool>,
}

/// A cursor, closed or open.
#[derive(Drop)]
pub struct Cursor {
    rows: Option<Rows>,
}

/// What a fetch gives.
#[derive(Drop)]
pub enum Fetched {
    /// The cursor isn't open.
    Unopened,
    /// No row was left.
    NoRow,
    /// The row doesn't have a value of each type.
    Unfit,
    Row(SharedRow),
}

impl Model for Cursor {
    ghost use Rattle.ebr_run.specs.Cursors as run;
    ghost use Rattle.ebr_memory.specs.inside.OpenRows.{cursor_of};

    ghost Value = { run.Cursor };

    ghost view = { λ c. cursor_of c.rows };
}

impl Cursor {
    /// A closed cursor.
    pub fn closed() -> Cursor
        ensures { result ≡ spec.Closed }
    {
        Cursor { rows: None }
    }

    /// An open cursor over rows, of which none was fetched.
    pub fn opened(rows: Shared<List<List<Value>>>) -> Cursor
        ensures { result ≡ spec.Open rows 0 None }
    {
        Cursor {
            rows: Some(Rows {
                all: rows,
                fetched: 0,
                found: None,
            }),
        }
    }

    /// Whether it is open.
    pub fn is_open(&self) -> bool
        ensures { result ≡ spec.is_open self.now }
    {
        match &self.rows {
            Some(_) => true,
            None => false,
        }
    }

    /// An attribute; none where the cursor has to be open for it.
    pub fn attribute(&self, attribute: Attribute) -> Result<Option<Value>, NoMemory>
        ensures { IfOk result (λ value. value ≡ spec.attribute_of attribute self.now) }
    {
        match &self.rows {
            Some(rows) => Ok(Some(rows.attribute(attribute)?)),
            None => Ok(closed_attribute(attribute)),
        }
    }

    /// Fetches a row for values of these types, and goes on to the next one, also where that row doesn't fit.
    pub fn fetch(&mut self, alloc: Global, types: &[Option<ValueType>]) -> Result<Fetched, NoMemory>
        ensures given { IfOk result (λ given. fetched_of given ≡ spec.fetched types.now self.old) }
        ensures moved { OnOk result (self.new ≡ spec.after_fetch self.old) }
    {
        match &mut self.rows {
            Some(rows) => rows.fetch(alloc, types),
            None => Ok(Fetched::Unopened),
        }
    }
}

impl Rows {
    fn attribute(&self, attribute: Attribute) -> Result<Value, NoMemory>
        ensures { IfOk result (λ value. Some value ≡ spec.attribute_of attribute (cursor_of (Some self.now))) }
    {
        match attribute {
            Attribute::IsOpen => Ok(Value::Bool(true)),
            Attribute::Found => Ok(found_value(self.found)),
            Attribute::NotFound => Ok(not_found_value(self.found)),
            Attribute::RowCount => count(self.fetched as u64),
        }
    }

    fn fetch(&mut self, alloc: Global, types: &[Option<ValueType>]) -> Result<Fetched, NoMemory>
        ensures given { IfOk result (λ given. fetched_of given ≡ spec.fetched types.now (cursor_of (Some self.old))) }
        ensures moved { OnOk result (cursor_of (Some self.new) ≡ spec.after_fetch (cursor_of (Some self.old))) }
    {
        let place = self.fetched;
        let Some(row) = self.all.get().get(place) else {
            self.found = Some(false);
            return Ok(Fetched::NoRow);
        };
        let fits = row_fits(types, row.as_slice());
        let Some(fetched) = place.checked_add(1) else {
            return Err(NoMemory);
        };
        self.fetched = fetched;
        self.found = Some(true);
        if fits {
            let all = self.all.clone_in(alloc)?;
            return Ok(Fetched::Row(SharedRow::new(all, place)));
        }
        Ok(Fetched::Unfit)
    }
}

fn found_value(found: Option<bool>) -> Value
    ensures { result ≡ spec.found_value found }
{
    match found {
        Some(found) => Value::Bool(found),
        None => Value::Null,
    }
}

fn not_found_value(found: Option<bool>) -> Value
    ensures { result ≡ spec.not_found_value found }
{
    match found {
        Some(found) => Value::Bool(!found),
        None => Value::Null,
    }
}

/// An attribute of a closed cursor.
pub fn closed_attribute(attribute: Attribute) -> Option<Value>
    ensures { result ≡ spec.attribute_of attribute spec.Closed }
{
    match attribute {
        Attribute::IsOpen => Some(Value::Bool(false)),
        _ => None,
    }
}
