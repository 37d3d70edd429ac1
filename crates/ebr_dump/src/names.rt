//! The names of editions and tables, by their numbers.

ghost use Rattle.std.specs.Prelude.{◌≡◌, ◌+◌, ◌∷◌, ◌++◌, [], codes, IfOk, OnOk};
ghost use Rattle.std.specs.List.{filter_map};
ghost use Rattle.ebr_dump.specs.Dump.{edition_made, numbered, table_made};
ghost use Rattle.ebr_dump.specs.inside.Lent.{lent_names};

use ebr_base::{EditionNo, Name, NoMemory, TableId};
use ebr_record::Record;
use std::alloc::Global;

/// The name of the first edition.
const BASE: &[u8] = b"ORA$BASE";

/// The names of the editions that records make.
pub fn edition_names<'a>(alloc: Global, records: &'a [Record]) -> Result<Vec<&'a Name>, NoMemory>
    ensures { IfOk result (λ names. lent_names names.items ≡ filter_map edition_made records.now) }
{
    let mut names = Vec::new(alloc);
    for r in records {
        note_edition(&mut names, r)?;
    }
    Ok(names)
}

fn note_edition<'a>(names: &mut Vec<&'a Name>, r: &'a Record) -> Result<(), NoMemory>
    ensures { OnOk result (lent_names names.new.items ≡ lent_names names.old.items ++ filter_map edition_made (r.now ∷ [])) }
{
    if let Record::Edition { name, .. } = r {
        names.push(name)?;
    }
    Ok(())
}

/// The names of the tables that records make.
pub fn table_names<'a>(alloc: Global, records: &'a [Record]) -> Result<Vec<&'a Name>, NoMemory>
    ensures { IfOk result (λ names. lent_names names.items ≡ filter_map table_made records.now) }
{
    let mut names = Vec::new(alloc);
    for r in records {
        note_table(&mut names, r)?;
    }
    Ok(names)
}

fn note_table<'a>(names: &mut Vec<&'a Name>, r: &'a Record) -> Result<(), NoMemory>
    ensures { OnOk result (lent_names names.new.items ≡ lent_names names.old.items ++ filter_map table_made (r.now ∷ [])) }
{
    if let Record::Table { name, .. } = r {
        names.push(name)?;
    }
    Ok(())
}

/// The name of an edition. The first one stands in no record.
pub fn edition_name<'a>(names: &[&'a Name], e: EditionNo) -> &'a [u8]
    ensures { result.now ≡ numbered (codes "ORA$BASE" ∷ lent_names names.now) e.0 }
{
    if e.0 < 2 {
        return BASE;
    }
    name_at(names, e.0 - 2)
}

/// The name of a table.
pub fn table_name<'a>(names: &[&'a Name], t: TableId) -> &'a [u8]
    ensures { result.now ≡ numbered (lent_names names.now) t.0 }
{
    name_at(names, t.0.saturating_sub(1))
}

/// The name at a place, counted from 0; no bytes where there is none.
fn name_at<'a>(names: &[&'a Name], at: u32) -> &'a [u8]
    ensures { result.now ≡ numbered (lent_names names.now) (at + 1) }
{
    match names.get(at as usize) {
        Some(name) => name.as_slice(),
        None => b"",
    }
}
