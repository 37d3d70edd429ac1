//! Records and their keeper in memory: lengths counted by hand, and each answer where it comes.

ghost use Rattle.std.specs.Prelude.{◌≡◌, ◌∷◌, [], ◌≤◌, length, IfOk};
ghost use Rattle.ebr_record.specs.Payload.{HasPayload};

use crate::answers::release;
use ebr_base::{
    Bytes, Change, ColType, Column, EditionNo, List, Name, NoMemory, RowId, RowNo, Shared, TableId,
    Value,
};
use ebr_record::{DroppedClass, JournalFault, Keep, ListKeep, Record, length};
use std::alloc::Global;
use std::test::Fail;

/// A name; where the bytes spell none, the test fails with want of memory.
fn name(alloc: Global, bytes: &[u8]) -> Result<Name, NoMemory>
    ensures { IfOk result (λ name. length name ≤ 128) }
{
    let name = Name::of(alloc, bytes)?.ok_or(NoMemory)?;
    let _bytes = name.as_slice();
    Ok(name)
}

fn column(alloc: Global, bytes: &[u8], ty: ColType) -> Result<Column, NoMemory>
    ensures { IfOk result (λ column. (length column.name ≤ 128) × (column.ty ≡ ty)) }
{
    Ok(Column {
        name: name(alloc, bytes)?,
        ty,
        not_null: true,
    })
}

fn two<T: Drop>(alloc: Global, a: T, b: T) -> Result<List<T>, NoMemory>
    ensures { IfOk result (λ list. list ≡ a ∷ b ∷ []) }
{
    let mut list = List::new(alloc);
    list.push(a)?;
    list.push(b)?;
    Ok(list)
}

/// A row becomes NULL and a number, and another one is removed.
fn commit(alloc: Global) -> Result<Record, NoMemory>
    ensures { IfOk result HasPayload }
{
    let values = two(alloc, Value::Null, Value::Num(-2))?;
    let values = Shared::new(alloc, values)?;
    let changes = two(alloc, change(1, Some(values)), change(2, None))?;
    Ok(Record::Commit(changes))
}

fn change(row: u64, values: Option<Shared<List<Value>>>) -> Change
    ensures { result.values ≡ values }
{
    let row = RowId {
        table: TableId(1),
        row: RowNo(row),
    };
    Change { row, values }
}

fn edition(alloc: Global) -> Result<Record, NoMemory>
    ensures { IfOk result HasPayload }
{
    Ok(Record::Edition {
        name: name(alloc, b"v2")?,
        parent: EditionNo(1),
    })
}

/// An object with a text of so many bytes.
fn object(alloc: Global, bytes: usize) -> Result<Record, NoMemory>
    requires { bytes ≤ 1048576 }
    ensures { IfOk result HasPayload }
{
    let text = vec![in alloc; b' '; bytes]?;
    let text = Bytes::from_slice(alloc, &text)?;
    Ok(Record::Object {
        edition: EditionNo(1),
        enabled: true,
        text: Shared::new(alloc, text)?,
    })
}

fn gone(alloc: Global) -> Result<Record, NoMemory>
    ensures { IfOk result HasPayload }
{
    Ok(Record::Gone {
        edition: EditionNo(1),
        class: DroppedClass::Package,
        name: name(alloc, b"p")?,
    })
}

fn table(alloc: Global) -> Result<Record, NoMemory>
    ensures { IfOk result HasPayload }
{
    let key = two(alloc, 1, 0)?;
    let name = name(alloc, b"t")?;
    let id = column(alloc, b"id", ColType::Num(9))?;
    let columns = two(alloc, id, column(alloc, b"v", ColType::Text(300))?)?;
    Ok(Record::Table { name, columns, key })
}

fn more(alloc: Global) -> Result<Record, NoMemory>
    ensures { IfOk result HasPayload }
{
    Ok(Record::Column {
        table: TableId(1),
        column: column(alloc, b"n", ColType::Num(18))?,
    })
}

/// Whether a record's payload has so many bytes.
fn has_bytes(r: &Record, bytes: u64) -> bool
    requires { HasPayload r.now }
{
    length(r) == bytes
}

fn short_records() -> bool {
    has_bytes(&Record::EditionGone(EditionNo(2)), 5)
        && has_bytes(&Record::Default(EditionNo(2)), 5)
        && has_bytes(&Record::TableGone(TableId(1)), 5)
}

/// Whether a record was made that is so long.
fn is_made(r: Result<Record, NoMemory>, bytes: u64) -> bool
    requires { IfOk r HasPayload }
{
    match &r {
        Ok(r) => has_bytes(r, bytes),
        Err(NoMemory) => false,
    }
}

#[test]
fn lengths_are_those_of_the_payloads(rt: HostRuntime) -> Result<(), Fail> {
    let alloc = rt.alloc();
    assert!(rt; short_records());
    assert!(rt; is_made(commit(alloc), 43));
    assert!(rt; is_made(edition(alloc), 8));
    assert!(rt; is_made(object(alloc, 2), 12));
    assert!(rt; is_made(gone(alloc), 8));
    assert!(rt; is_made(table(alloc), 22));
    assert!(rt; is_made(more(alloc), 10));
    Ok(())
}

/// Whether a record is answered so, as often as it is said.
fn is_answered(
    keeper: &mut ListKeep,
    r: &Record,
    times: u32,
    wanted: Result<(), JournalFault>,
) -> bool
    requires { HasPayload r.now }
{
    for _ in 0..times {
        if keeper.keep(r) != wanted {
            return false;
        }
    }
    true
}

/// The same for an object's record with a text of so many bytes.
fn takes(
    alloc: Global,
    keeper: &mut ListKeep,
    bytes: usize,
    times: u32,
    wanted: Result<(), JournalFault>,
) -> bool
    requires { bytes ≤ 1048576 }
{
    let r = object(alloc, bytes);
    let takes = match &r {
        Ok(r) => is_answered(keeper, r, times, wanted),
        Err(NoMemory) => false,
    };
    release(r);
    takes
}

/// The first so many records are kept, the next one finds a fault, and the others find the keeper stopped.
fn stops_after(alloc: Global, kept: u32) -> Result<bool, NoMemory>
    requires { kept ≤ 9 }
{
    let mut keeper = ListKeep::new(alloc, &[kept + 1])?;
    let stops = takes(alloc, &mut keeper, 1, kept, Ok(()))
        && !keeper.is_stopped()
        && takes(alloc, &mut keeper, 1, 1, Err(JournalFault::DiskFault))
        && takes(alloc, &mut keeper, 1, 9, Err(JournalFault::Stopped))
        && keeper.is_stopped();
    let same = keeper.records().len() == kept as usize;
    release(keeper);
    Ok(stops && same)
}

#[test]
fn a_keeper_stops_at_each_call_that_fails(rt: HostRuntime) -> Result<(), Fail> {
    for kept in 0..5 {
        assert!(rt; stops_after(rt.alloc(), kept)?);
    }
    Ok(())
}

/// 511 records take 1,048,576 bytes each, so that 1,048,567 bytes are left. A record that is one byte longer is refused,
/// though its call is one that fails; one that is just as long is kept, and then none is.
fn is_full_at_the_byte(alloc: Global) -> Result<bool, NoMemory> {
    let mut keeper = ListKeep::new(alloc, &[512])?;
    let past = JournalFault::Full { len: 536_870_913 };
    let far = JournalFault::Full { len: 536_870_931 };
    let full = takes(alloc, &mut keeper, 1_048_557, 511, Ok(()))
        && takes(alloc, &mut keeper, 1_048_549, 1, Err(past))
        && takes(alloc, &mut keeper, 1_048_548, 1, Ok(()))
        && takes(alloc, &mut keeper, 0, 2, Err(far))
        && !keeper.is_stopped();
    release(keeper);
    Ok(full)
}

/// A keeper that has stopped says so of a record that wouldn't fit either.
fn stops_before_it_is_full(alloc: Global) -> Result<bool, NoMemory> {
    let mut keeper = ListKeep::new(alloc, &[512])?;
    let stops = takes(alloc, &mut keeper, 1_048_557, 511, Ok(()))
        && takes(
            alloc,
            &mut keeper,
            1_048_548,
            1,
            Err(JournalFault::DiskFault),
        )
        && takes(alloc, &mut keeper, 1_048_549, 1, Err(JournalFault::Stopped));
    release(keeper);
    Ok(stops)
}

#[test]
fn a_journal_is_full_at_the_byte(rt: HostRuntime) -> Result<(), Fail> {
    assert!(rt; is_full_at_the_byte(rt.alloc())?);
    assert!(rt; stops_before_it_is_full(rt.alloc())?);
    Ok(())
}
