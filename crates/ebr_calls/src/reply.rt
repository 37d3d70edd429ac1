//! The lines that tell how a request ended.

ghost use Rattle.std.specs.Prelude.{◌≡◌, ◌++◌, [], map, OnOk};
ghost use Rattle.std.specs.List.{concat};
ghost use Rattle.ebr_asks.specs.declared.answer.Answer.TheVariants as answered;
ghost use Rattle.ebr_base.specs.Code.{code_text};
ghost use Rattle.ebr_value.specs.Texts as texts;
ghost use Rattle.ebr_calls.specs.Steps.{behind_bar, count_line, line_of, lines_of, result_lines, row_text};

use crate::lines::{print_line, print_lines};
use ebr_asks::Answer;
use ebr_base::{Bytes, Code, List, NoMemory, Value};
use ebr_value::text_of;
use std::alloc::Global;

/// Prints how a request ended: the text where it is done.
pub fn print_result(
    alloc: Global,
    out: &mut Bytes,
    answer: &Answer,
    text: &[u8],
) -> Result<(), NoMemory>
    ensures { OnOk result (out.new ≡ out.old ++ result_lines text.now answer.now) }
{
    match answer {
        Answer::Done => print_line(out, text),
        Answer::Invalid => print_line(out, b"INVALID"),
        Answer::Rows(rows) => print_rows(alloc, out, rows.get()),
        Answer::Count { n, lines, .. } => {
            print_lines(out, lines.as_slice())?;
            print_count(alloc, out, *n)
        }
        Answer::Refused { code, lines, .. } => {
            print_lines(out, lines.as_slice())?;
            print_code(out, *code)
        }
        _ => Ok(()),
    }
}

/// Prints the line of a code.
pub fn print_code(out: &mut Bytes, code: Code) -> Result<(), NoMemory>
    ensures { OnOk result (out.new ≡ out.old ++ line_of (code_text code)) }
{
    code.append_to(out)?;
    out.push(b'\n')?;
    Ok(())
}

/// Prints the rows of a query, and how many there are.
fn print_rows(alloc: Global, out: &mut Bytes, rows: &List<List<Value>>) -> Result<(), NoMemory>
    ensures { OnOk result (out.new ≡ out.old ++ result_lines [] (answered.Rows rows.now)) }
{
    print_each(alloc, out, rows.as_slice())?;
    print_count(alloc, out, rows.len() as u64)
}

/// Prints rows, each on a line.
fn print_each(alloc: Global, out: &mut Bytes, rows: &[List<Value>]) -> Result<(), NoMemory>
    ensures { OnOk result (out.new ≡ out.old ++ lines_of (map row_text rows.now)) }
{
    for row in rows {
        print_row(alloc, out, row.as_slice())?;
        out.push(b'\n')?;
    }
    Ok(())
}

/// Prints the values of a row, with bars between them.
fn print_row(alloc: Global, out: &mut Bytes, row: &[Value]) -> Result<(), NoMemory>
    ensures { OnOk result (out.new ≡ out.old ++ row_text row.now) }
{
    match row.split_first() {
        None => Ok(()),
        Some((first, others)) => {
            print_value(alloc, out, first)?;
            print_others(alloc, out, others)
        }
    }
}

/// Prints values, each behind a bar.
fn print_others(alloc: Global, out: &mut Bytes, values: &[Value]) -> Result<(), NoMemory>
    ensures { OnOk result (out.new ≡ out.old ++ concat (map behind_bar values.now)) }
{
    for value in values {
        out.push(b'|')?;
        print_value(alloc, out, value)?;
    }
    Ok(())
}

fn print_value(alloc: Global, out: &mut Bytes, value: &Value) -> Result<(), NoMemory>
    ensures { OnOk result (out.new ≡ out.old ++ texts.printed value.now) }
{
    let text = text_of(alloc, value)?;
    out.extend(text.as_slice())?;
    Ok(())
}

/// Prints how many rows a statement gave or changed. More than a number may be is want of memory.
fn print_count(alloc: Global, out: &mut Bytes, n: u64) -> Result<(), NoMemory>
    ensures { OnOk result (out.new ≡ out.old ++ count_line n) }
{
    let Ok(n) = i64::try_from(n) else {
        return Err(NoMemory);
    };
    print_value(alloc, out, &Value::Num(n))?;
    out.extend(b" rows\n")?;
    Ok(())
}
