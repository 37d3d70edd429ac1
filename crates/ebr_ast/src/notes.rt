//! What is noted for names.

ghost use Rattle.std.specs.Prelude.{◌≡◌, OnOk};
ghost use Rattle.std.specs.Option.{is_some};
ghost use Rattle.ebr_ast.specs.inside.Notes.{note, of_name, NotesFirst, NotesLast};

use ebr_base::{CloneIn, Name, NoMemory};
use indexmap::IndexMap;

/// What is noted of a name.
pub fn noted<V: Copy>(notes: &IndexMap<Name, V>, name: &Name) -> Option<V>
    ensures { result ≡ note name.now notes.now.entries }
{
    match notes.get(name) {
        Some(value) => Some(*value),
        None => None,
    }
}

/// Notes a number for a name that has none.
pub fn note_first(
    notes: &mut IndexMap<Name, usize>,
    name: &Name,
    number: usize,
) -> Result<(), NoMemory>
    ensures { OnOk result (NotesFirst (of_name name.now number) notes.old.entries notes.new.entries) }
{
    if has_note(notes, name) {
        return Ok(());
    }
    note_last(notes, name, number)
}

fn has_note(notes: &IndexMap<Name, usize>, name: &Name) -> bool
    ensures { result ≡ is_some (note name.now notes.now.entries) }
{
    notes.contains_key(name)
}

/// Notes a value for a name, in the place of an earlier one.
pub fn note_last<V: Copy>(
    notes: &mut IndexMap<Name, V>,
    name: &Name,
    value: V,
) -> Result<(), NoMemory>
    ensures { OnOk result (NotesLast (of_name name.now value) notes.old.entries notes.new.entries) }
{
    let key = name.clone_in(*notes.allocator())?;
    notes.insert(key, value)?;
    Ok(())
}
