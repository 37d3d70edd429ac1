//! What an edition sees, from texts, and the rows of tables that are checked against it.

use ebr_ast::{EditionView, Object, UnitTree};
use ebr_base::{
    Bytes, Class, ColType, Column, EditionNo, List, MAX_COUNT, Name, NoMemory, ObjectKey, Shared,
    Stamp, TableDef, TableId,
};
use ebr_lexer::{LexStop, Token, lex};
use ebr_plparse::unit;
use ebr_shared_list::SharedList;
use std::alloc::Global;

/// A name; where the text spells none, the test fails with want of memory.
fn name(alloc: Global, text: &str) -> Result<Name, NoMemory> {
    Name::of(alloc, text.as_bytes())?.ok_or(NoMemory)
}

/// The tokens of a short text; where it has none, the test fails with want of memory.
fn tokens_of(alloc: Global, text: &str) -> Result<List<Token>, NoMemory> {
    if text.len() >= MAX_COUNT {
        return Err(NoMemory);
    }
    match lex(alloc, text.as_bytes()) {
        Ok(tokens) => Ok(tokens),
        Err(LexStop::NoMemory) | Err(LexStop::Fault { .. }) => Err(NoMemory),
    }
}

/// The tree of a unit or block; where the text spells none, the test fails with want of memory.
pub fn tree(alloc: Global, text: &str) -> Result<UnitTree, NoMemory> {
    let tokens = tokens_of(alloc, text)?;
    unit(alloc, tokens.as_slice())?.ok_or(NoMemory)
}

/// The columns of the table T.
static COLUMNS: [(&str, ColType); 3] = [
    ("ID", ColType::Num(9)),
    ("V", ColType::Text(10)),
    ("N", ColType::Num(9)),
];

fn stored(alloc: Global, text: &str, created: &str) -> Result<Shared<Object>, NoMemory> {
    let name = name(alloc, text)?;
    let text = Shared::new(alloc, Bytes::new(alloc))?;
    Ok(Shared::new(
        alloc,
        Object {
            key: ObjectKey {
                class: Class::Unit,
                name,
            },
            text,
            tree: tree(alloc, created)?,
            stamp: Stamp {
                edition: EditionNo(1),
                count: 1,
            },
            enabled: true,
        },
    )?)
}

fn columns(alloc: Global, rows: &[(&str, ColType)]) -> Result<List<Column>, NoMemory> {
    let mut columns = List::new(alloc);
    for (text, ty) in rows {
        columns.push(Column {
            name: name(alloc, text)?,
            ty: *ty,
            not_null: false,
        })?;
    }
    Ok(columns)
}

/// An edition that sees these objects of class Unit, each with the text after CREATE, and the table T.
pub fn seen(alloc: Global, created: &[(&str, &str)]) -> Result<EditionView, NoMemory> {
    let mut objects = List::new(alloc);
    for (text, created) in created {
        objects.push(stored(alloc, text, created)?)?;
    }
    let mut tables = List::new(alloc);
    tables.push(TableDef {
        id: TableId(1),
        name: name(alloc, "T")?,
        columns: columns(alloc, &COLUMNS)?,
        key: List::new(alloc),
    })?;
    Ok(EditionView {
        edition: EditionNo(1),
        objects: SharedList::from_slice(alloc, objects.as_slice())?,
        tables: Shared::new(alloc, tables)?,
    })
}

/// The first row of a table, as what is wanted and the text that it is wanted of, and the rows behind it. A row is these
/// two with a space between, and `~` behind; a remark stands behind `-`.
pub fn wanted_row(table: &str) -> Option<(&str, &str, &str)> {
    let (row, rest) = table.split_once('~')?;
    let (wanted, text) = row.split_once(' ')?;
    Some((wanted, text, rest))
}
