//! What stands in the lists of records, behind bytes.

ghost use Rattle.std.specs.Prelude.{ℕ, ◌≤◌, List, length, Some, None, OnOk, IfSome};
ghost use Rattle.std.specs.Int.{w16, to_be_bytes};
ghost use Rattle.ebr_base.specs.declared.value.Value.TheVariants as value;
ghost use Rattle.ebr_record.specs.Payload.{change_bytes, column_bytes, max_payload, value_bytes, values_bytes};
ghost use Rattle.ebr_encoding.specs.Reading.{Reader, change_at, column_at, number, value_at, values_at};
ghost use Rattle.ebr_encoding.specs.inside.Fits.{FitsChange, FitsValue, FitsValues};
ghost use Rattle.ebr_encoding.specs.inside.Written.{IsWritten};

use crate::writer::{write_all, write_name, write_text, write_type};
use ebr_base::{Bytes, Change, Column, List, NoMemory, Shared, Text, Value};

/// A value that is written behind bytes, and is read from them again.
pub(crate) trait Writable {
    ghost read: { Reader Self };

    ghost spelling: { Self → List ℕ };

    /// What has a spelling.
    ghost Fits: { Self → Type 0 };

    fn write(&self, into: &mut Bytes) -> Result<(), NoMemory>
        requires { Fits self.now }
        ensures { OnOk result (IsWritten read (spelling self.now) self.now into.old into.new) };
}

impl Writable for u16 {
    ghost read = { number w16 };

    ghost spelling = { to_be_bytes w16 };

    ghost Fits = { λ _. Unit {0} };

    fn write(&self, into: &mut Bytes) -> Result<(), NoMemory> {
        into.extend(&self.to_be_bytes())?;
        Ok(())
    }
}

impl Writable for Value {
    ghost read = { value_at };

    ghost spelling = { value_bytes };

    ghost Fits = { FitsValue };

    fn write(&self, into: &mut Bytes) -> Result<(), NoMemory> {
        match self {
            Value::Null => write_null(into),
            Value::Num(n) => write_num(*n, into),
            Value::Text(text) => write_value_text(text, into),
            Value::Bool(_) => Ok(()),
        }
    }
}

fn write_null(into: &mut Bytes) -> Result<(), NoMemory>
    ensures { OnOk result (IsWritten value_at (value_bytes value.Null) value.Null into.old into.new) }
{
    into.push(0)?;
    Ok(())
}

fn write_num(n: i64, into: &mut Bytes) -> Result<(), NoMemory>
    ensures { OnOk result (IsWritten value_at (value_bytes (value.Num n)) (value.Num n) into.old into.new) }
{
    into.push(1)?;
    into.extend(&n.cast_unsigned().to_be_bytes())?;
    Ok(())
}

fn write_value_text(text: &Text, into: &mut Bytes) -> Result<(), NoMemory>
    requires { length text.now ≤ max_payload }
    ensures { OnOk result (IsWritten value_at (value_bytes (value.Text text.now)) (value.Text text.now) into.old into.new) }
{
    into.push(2)?;
    write_text(text.as_slice(), into)?;
    Ok(())
}

impl Writable for Change {
    ghost read = { change_at };

    ghost spelling = { change_bytes };

    ghost Fits = { FitsChange };

    fn write(&self, into: &mut Bytes) -> Result<(), NoMemory> {
        into.extend(&self.row.table.0.to_be_bytes())?;
        into.extend(&self.row.row.0.to_be_bytes())?;
        write_values(&self.values, into)?;
        Ok(())
    }
}

fn write_values(values: &Option<Shared<List<Value>>>, into: &mut Bytes) -> Result<(), NoMemory>
    requires { IfSome values.now FitsValues }
    ensures { OnOk result (IsWritten values_at (values_bytes values.now) values.now into.old into.new) }
{
    match values {
        None => write_removed(into),
        Some(values) => write_row(values.get(), into),
    }
}

/// That a row is removed.
fn write_removed(into: &mut Bytes) -> Result<(), NoMemory>
    ensures { OnOk result (IsWritten values_at (values_bytes None) None into.old into.new) }
{
    into.push(0)?;
    Ok(())
}

/// The values of a row that stays.
fn write_row(values: &List<Value>, into: &mut Bytes) -> Result<(), NoMemory>
    requires { FitsValues values.now }
    ensures { OnOk result (IsWritten values_at (values_bytes (Some values.now)) (Some values.now) into.old into.new) }
{
    into.push(1)?;
    into.extend(&(values.len() as u16).to_be_bytes())?;
    write_all(values.as_slice(), into)?;
    Ok(())
}

impl Writable for Column {
    ghost read = { column_at };

    ghost spelling = { column_bytes };

    ghost Fits = { λ _. Unit {0} };

    fn write(&self, into: &mut Bytes) -> Result<(), NoMemory> {
        write_name(&self.name, into)?;
        write_type(self.ty, into)?;
        into.push(u8::from(self.not_null))?;
        Ok(())
    }
}
