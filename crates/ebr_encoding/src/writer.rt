//! What records are made of, written behind bytes.

ghost use Rattle.std.specs.Prelude.{◌≡◌, ◌≤◌, ◌<◌, ◌^◌, length, OnOk};
ghost use Rattle.std.specs.List.{All};
ghost use Rattle.ebr_base.specs.declared.value.ColType.TheVariants as column;
ghost use Rattle.ebr_record.specs.Payload.{class_number, max_payload, name_bytes, text_bytes, type_bytes};
ghost use Rattle.ebr_encoding.specs.Reading.{name_at, text_at, type_at};
ghost use Rattle.ebr_encoding.specs.inside.Written.{AreWritten, IsWritten};

use crate::writable::Writable;
use ebr_base::{Bytes, ColType, Name, NoMemory};
use ebr_record::DroppedClass;

pub(crate) fn write_name(name: &Name, into: &mut Bytes) -> Result<(), NoMemory>
    ensures { OnOk result (IsWritten name_at (name_bytes name.now) name.now into.old into.new) }
{
    let word = name.as_slice();
    into.push(word.len() as u8)?;
    into.extend(word)?;
    Ok(())
}

pub(crate) fn write_text(text: &[u8], into: &mut Bytes) -> Result<(), NoMemory>
    requires { length text.now ≤ max_payload }
    ensures { OnOk result (IsWritten text_at (text_bytes text.now) text.now into.old into.new) }
{
    into.extend(&(text.len() as u32).to_be_bytes())?;
    into.extend(text)?;
    Ok(())
}

pub(crate) fn write_type(ty: ColType, into: &mut Bytes) -> Result<(), NoMemory>
    ensures { OnOk result (IsWritten type_at (type_bytes ty) ty into.old into.new) }
{
    match ty {
        ColType::Num(digits) => write_digits(digits, into),
        ColType::Text(size) => write_size(size, into),
    }
}

fn write_digits(digits: u8, into: &mut Bytes) -> Result<(), NoMemory>
    ensures { OnOk result (IsWritten type_at (type_bytes (column.Num digits)) (column.Num digits) into.old into.new) }
{
    into.push(1)?;
    into.push(digits)?;
    Ok(())
}

fn write_size(size: u16, into: &mut Bytes) -> Result<(), NoMemory>
    ensures { OnOk result (IsWritten type_at (type_bytes (column.Text size)) (column.Text size) into.old into.new) }
{
    into.push(2)?;
    into.extend(&size.to_be_bytes())?;
    Ok(())
}

pub(crate) fn class_number(class: DroppedClass) -> u8
    ensures { result ≡ class_number class }
{
    match class {
        DroppedClass::Unit => 1,
        DroppedClass::Body => 2,
        DroppedClass::Trigger => 3,
        DroppedClass::Package => 4,
    }
}

/// The values of a list, one after the other.
pub(crate) fn write_all<T: Writable>(items: &[T], into: &mut Bytes) -> Result<(), NoMemory>
    requires { All T.Fits items.now }
    ensures { OnOk result (AreWritten T.read T.spelling items.now into.old into.new) }
{
    for item in items {
        item.write(into)?;
    }
    Ok(())
}
