//! Statements and blocks in code.

ghost use Rattle.std.specs.Prelude.{◌≡◌, ◌∷◌, ◌++◌, [], Some, map, OnOk, IfOk, option_map};
ghost use Rattle.std.specs.Option.{option_copied};
ghost use Rattle.ebr_expr.specs.Operators.{builtin_at};
ghost use Rattle.ebr_scope.specs.Meanings.{Subprogram, Record, Constant, entry, with_fields};
ghost use Rattle.ebr_scope.specs.Names as names;
ghost use Rattle.ebr_validity.specs.Expressions.{reading_of, wanted};
ghost use Rattle.ebr_validity.specs.Sites as site;
ghost use Rattle.ebr_validity.specs.Statements as spec;
ghost use Rattle.ebr_rules.specs.Noted.{noted};
ghost use Rattle.ebr_scope.specs.Lent.{env, lent};

use crate::declaration::declarations;
use crate::handlers::handles;
use crate::scope::{declares, loops, pragmas};
use ebr_ast::{
    Block, Branch, Caught, CursorStmt, Expr, Handler, Head, Path, Range, Rows, RowsFrom, SqlStmt,
    Stmt, Target,
};
use ebr_base::{CloneIn, List, Name, NoMemory, Shared};
use ebr_expr::builtin;
use ebr_rules::{
    arguments, calls, cursors, delete, expression, insert, into, must, parameters_of, query,
    raises, target, update, wanted,
};
use ebr_scope::{Field, Meaning, Place, Scopes, applied, called, plain, raised};
use ebr_sqlcheck::{ValueType, alike, is_plain, type_in};
use std::alloc::Global;

fn condition(e: &Expr, place: &Place<'_>, known: &Scopes<'_>, least: &mut Option<u8>)
    ensures { least.new ≡ noted (spec.condition e.now (env place.now known.now)) least.old }
{
    wanted(ValueType::Boolean, e, place, known, least);
}

/// EXIT or CONTINUE, with its condition.
fn leaves(
    when: &Option<Shared<Expr>>,
    place: &Place<'_>,
    known: &Scopes<'_>,
    least: &mut Option<u8>,
)
    ensures { least.new ≡ noted (spec.when when.now (env place.now known.now) ++ site.Leaves place.now.in_loop ∷ []) least.old }
{
    if let Some(e) = when {
        condition(e.get(), place, known, least);
    }
    must(least, 8, place.in_loop);
}

fn gives(
    value: &Option<Shared<Expr>>,
    place: &Place<'_>,
    known: &Scopes<'_>,
    least: &mut Option<u8>,
)
    ensures { least.new ≡ noted (spec.gives value.now (env place.now known.now)) least.old }
{
    match value {
        None => must(least, 7, place.gives.is_none()),
        Some(e) => {
            let typed = expression(e.get(), place, known, least);
            must(least, 7, place.gives.is_some());
            must(least, 4, alike(type_in(place.gives), typed.ty));
        }
    }
}

fn raise(path: &Option<Path>, place: &Place<'_>, known: &Scopes<'_>, least: &mut Option<u8>)
    ensures { least.new ≡ noted (spec.raises path.now (env place.now known.now)) least.old }
{
    match path {
        None => must(least, 8, place.in_handler),
        Some(path) => raises(raised(place.seen, known, path), least),
    }
}

fn call_with(
    path: &Path,
    list: &List<Shared<Expr>>,
    place: &Place<'_>,
    known: &Scopes<'_>,
    least: &mut Option<u8>,
)
    ensures { least.new ≡ noted (spec.call_sites path.now (Some list.now) (env place.now known.now)) least.old }
{
    let head = called_head(path, place, known);
    calls(subprogram(head), list.len(), least);
    arguments(list, parameters_of(head), place, known, least);
}

/// The head of what is called with arguments; a built-in function is no procedure.
fn called_head<'a>(path: &Path, place: &Place<'a>, known: &Scopes<'a>) -> Option<&'a Head>
    ensures { option_copied result ≡ spec.unless_builtin (builtin_at path.now.name path.now.member) (names.applied place.now.seen.now.view known.now path.now) }
{
    match builtin(path) {
        Some(_) => None,
        None => applied(place.seen, known, path),
    }
}

fn subprogram(head: Option<&Head>) -> Option<Meaning<'_>>
    ensures { option_map lent result ≡ option_map Subprogram (option_copied head.entry) }
{
    match head {
        Some(head) => Some(Meaning::Subprogram(head)),
        None => None,
    }
}

fn call(
    path: &Path,
    list: &Option<List<Shared<Expr>>>,
    place: &Place<'_>,
    known: &Scopes<'_>,
    least: &mut Option<u8>,
)
    ensures { least.new ≡ noted (spec.call_sites path.now list.now (env place.now known.now)) least.old }
{
    match list {
        None => calls(called(place.seen, known, path), 0, least),
        Some(list) => call_with(path, list, place, known, least),
    }
}

fn sql(
    alloc: Global,
    it: &SqlStmt,
    place: &Place<'_>,
    known: &Scopes<'_>,
    least: &mut Option<u8>,
) -> Result<(), NoMemory>
    ensures { OnOk result (least.new ≡ noted (spec.sql_sites it.now (env place.now known.now)) least.old) }
{
    match it {
        SqlStmt::SelectInto(q, targets) => {
            let fields = query(alloc, q.get(), place, known, least)?;
            into(fields.as_ref(), targets.as_slice(), place, known, least);
            Ok(())
        }
        SqlStmt::Insert(i) => insert(alloc, i.get(), place, known, least),
        SqlStmt::Update(u) => update(alloc, u.get(), place, known, least),
        SqlStmt::Delete(d) => delete(alloc, d.get(), place, known, least),
        SqlStmt::Transaction(_) => Ok(()),
    }
}

fn cursor(name: &Name, place: &Place<'_>, known: &Scopes<'_>, least: &mut Option<u8>)
    ensures { least.new ≡ noted (spec.cursor_sites name.now (env place.now known.now)) least.old }
{
    cursors(plain(place.seen, known, name), least);
}

fn cursor_statement(it: &CursorStmt, place: &Place<'_>, known: &Scopes<'_>, least: &mut Option<u8>)
    ensures { least.new ≡ noted (spec.cursor_stmt_sites it.now (env place.now known.now)) least.old }
{
    match it {
        CursorStmt::Open(name) | CursorStmt::Close(name) => cursor(name, place, known, least),
        CursorStmt::Fetch(name, targets) => {
            cursor(name, place, known, least);
            into(known.fields(name), targets.as_slice(), place, known, least);
        }
    }
}

fn copied(
    alloc: Global,
    fields: Option<&Shared<List<Field>>>,
) -> Result<Option<Shared<List<Field>>>, NoMemory>
    ensures { IfOk result (λ copy. copy ≡ option_copied fields.entry) }
{
    match fields {
        Some(fields) => Ok(Some(fields.clone_in(alloc)?)),
        None => Ok(None),
    }
}

/// What a loop's rows come from, and their columns.
fn rows(
    alloc: Global,
    from: &RowsFrom,
    place: &Place<'_>,
    known: &Scopes<'_>,
    least: &mut Option<u8>,
) -> Result<Option<Shared<List<Field>>>, NoMemory>
    ensures least { OnOk result (least.new ≡ noted (spec.rows_sites from.now (env place.now known.now)) least.old) }
    ensures fields { IfOk result (λ fields. fields ≡ spec.rows_fields from.now (env place.now known.now)) }
{
    match from {
        RowsFrom::Cursor(name) => {
            cursor(name, place, known, least);
            copied(alloc, known.fields(name))
        }
        RowsFrom::Query(q) => query(alloc, q.get(), place, known, least),
    }
}

/// Makes a loop's record known.
fn add_record<'a>(
    alloc: Global,
    rows_of: &'a Rows,
    place: &Place<'_>,
    known: &mut Scopes<'a>,
    least: &mut Option<u8>,
) -> Result<(), NoMemory>
    ensures least { OnOk result (least.new ≡ noted (spec.rows_sites rows_of.now.from (env place.now known.old) ++ site.Loops (spec.rows_fields rows_of.now.from (env place.now known.old)) ∷ []) least.old) }
    ensures known { OnOk result (known.new ≡ with_fields rows_of.now.record Record (spec.rows_fields rows_of.now.from (env place.now known.old)) ∷ known.old) }
{
    let fields = rows(alloc, &rows_of.from, place, known, least)?;
    loops(alloc, fields.as_ref(), least)?;
    known.add_with(&rows_of.record, Meaning::Record, fields)
}

/// Makes the variable of a loop over numbers known.
fn add_variable<'a>(
    range: &'a Range,
    place: &Place<'_>,
    known: &mut Scopes<'a>,
    least: &mut Option<u8>,
) -> Result<(), NoMemory>
    ensures least { OnOk result (least.new ≡ noted (spec.range_sites range.now (env place.now known.old)) least.old) }
    ensures known { OnOk result (known.new ≡ entry range.now.name (Constant (Some ValueType.Number)) ∷ known.old) }
{
    wanted(ValueType::Number, range.low.get(), place, known, least);
    wanted(ValueType::Number, range.high.get(), place, known, least);
    known.add(&range.name, Meaning::Constant(Some(ValueType::Number)))
}

fn print(e: &Expr, place: &Place<'_>, known: &Scopes<'_>, least: &mut Option<u8>)
    ensures { least.new ≡ noted (spec.print_sites e.now (env place.now known.now)) least.old }
{
    let typed = expression(e, place, known, least);
    must(least, 4, is_plain(typed.ty));
}

fn raise_number(
    number: u64,
    text: &Expr,
    place: &Place<'_>,
    known: &Scopes<'_>,
    least: &mut Option<u8>,
)
    ensures { least.new ≡ noted (site.RaisesNumber number ∷ wanted ValueType.Text (reading_of text.now) (env place.now known.now)) least.old }
{
    must(least, 4, 20000 <= number && number <= 20999);
    wanted(ValueType::Text, text, place, known, least);
}

/// Judges a statement.
#[cycle(statement)]
fn statement<'a>(
    alloc: Global,
    it: &'a Stmt,
    place: &Place<'a>,
    known: &mut Scopes<'a>,
    least: &mut Option<u8>,
) -> Result<(), NoMemory>
    ensures least { OnOk result (least.new ≡ noted (spec.in_statement it.now (env place.now known.old)) least.old) }
    ensures known { OnOk result (known.new ≡ known.old) }
{
    match it {
        Stmt::Null => Ok(()),
        Stmt::Assign(to, e) => {
            let typed = expression(e.get(), place, known, least);
            target(to, typed.ty, place, known, least);
            Ok(())
        }
        Stmt::Block(inner) => block(alloc, inner.get(), place, known, least),
        Stmt::Return(value) => {
            gives(value, place, known, least);
            Ok(())
        }
        Stmt::Raise(path) => {
            raise(path, place, known, least);
            Ok(())
        }
        Stmt::If(list, otherwise) => {
            branches(alloc, list, place, known, least)?;
            statements(alloc, otherwise, place, known, least)
        }
        Stmt::Loop(body) => statements(alloc, body, &place.within_loop(), known, least),
        Stmt::While(e, body) => {
            condition(e.get(), place, known, least);
            statements(alloc, body, &place.within_loop(), known, least)
        }
        Stmt::ForRange(range, body) => for_range(alloc, body, range, place, known, least),
        Stmt::ForRows(rows, body) => for_rows(alloc, body, rows, place, known, least),
        Stmt::Exit(when) => {
            leaves(when, place, known, least);
            Ok(())
        }
        Stmt::Continue(when) => {
            leaves(when, place, known, least);
            Ok(())
        }
        Stmt::Call(path, list) => {
            call(path, list, place, known, least);
            Ok(())
        }
        Stmt::Sql(it) => sql(alloc, it, place, known, least),
        Stmt::Cursor(it) => {
            cursor_statement(it, place, known, least);
            Ok(())
        }
        Stmt::PutLine(e) => {
            print(e.get(), place, known, least);
            Ok(())
        }
        Stmt::RaiseApplicationError(number, text) => {
            raise_number(*number, text.get(), place, known, least);
            Ok(())
        }
    }
}

/// Judges a loop over numbers.
#[cycle(statement)]
fn for_range<'a>(
    alloc: Global,
    body: &'a List<Shared<Stmt>>,
    range: &'a Range,
    place: &Place<'a>,
    known: &mut Scopes<'a>,
    least: &mut Option<u8>,
) -> Result<(), NoMemory>
    ensures least { OnOk result (least.new ≡ noted (spec.range_sites range.now (env place.now known.old) ++ spec.each (map spec.in_statement body.now) (spec.in_range range.now (env place.now known.old))) least.old) }
    ensures known { OnOk result (known.new ≡ known.old) }
{
    let depth = known.depth();
    add_variable(range, place, known, least)?;
    let inner = place.within_loop();
    statements(alloc, body, &inner, known, least)?;
    known.cut(depth);
    Ok(())
}

/// Judges a loop over rows.
#[cycle(statement)]
fn for_rows<'a>(
    alloc: Global,
    body: &'a List<Shared<Stmt>>,
    rows_of: &'a Rows,
    place: &Place<'a>,
    known: &mut Scopes<'a>,
    least: &mut Option<u8>,
) -> Result<(), NoMemory>
    ensures least { OnOk result (least.new ≡ noted ((spec.rows_sites rows_of.now.from (env place.now known.old) ++ site.Loops (spec.rows_fields rows_of.now.from (env place.now known.old)) ∷ []) ++ spec.each (map spec.in_statement body.now) (spec.in_rows rows_of.now (env place.now known.old))) least.old) }
    ensures known { OnOk result (known.new ≡ known.old) }
{
    let depth = known.depth();
    add_record(alloc, rows_of, place, known, least)?;
    let inner = place.within_loop();
    statements(alloc, body, &inner, known, least)?;
    known.cut(depth);
    Ok(())
}

/// Judges statements in order.
#[cycle(statement)]
pub fn statements<'a>(
    alloc: Global,
    list: &'a List<Shared<Stmt>>,
    place: &Place<'a>,
    known: &mut Scopes<'a>,
    least: &mut Option<u8>,
) -> Result<(), NoMemory>
    ensures least { OnOk result (least.new ≡ noted (spec.each (map spec.in_statement list.now) (env place.now known.old)) least.old) }
    ensures known { OnOk result (known.new ≡ known.old) }
{
    for it in list.as_slice() {
        statement(alloc, it.get(), place, known, least)?;
    }
    Ok(())
}

#[cycle(statement)]
fn branches<'a>(
    alloc: Global,
    list: &'a List<Branch>,
    place: &Place<'a>,
    known: &mut Scopes<'a>,
    least: &mut Option<u8>,
) -> Result<(), NoMemory>
    ensures least { OnOk result (least.new ≡ noted (spec.each (map spec.in_branch list.now) (env place.now known.old)) least.old) }
    ensures known { OnOk result (known.new ≡ known.old) }
{
    for it in list.as_slice() {
        branch(alloc, it, place, known, least)?;
    }
    Ok(())
}

#[cycle(statement)]
fn branch<'a>(
    alloc: Global,
    it: &'a Branch,
    place: &Place<'a>,
    known: &mut Scopes<'a>,
    least: &mut Option<u8>,
) -> Result<(), NoMemory>
    ensures least { OnOk result (least.new ≡ noted (spec.in_branch it.now (env place.now known.old)) least.old) }
    ensures known { OnOk result (known.new ≡ known.old) }
{
    condition(it.condition.get(), place, known, least);
    statements(alloc, &it.statements, place, known, least)
}

fn catches<'a>(list: &[Path], place: &Place<'a>, known: &Scopes<'a>, least: &mut Option<u8>)
    ensures { least.new ≡ noted (spec.catches list.now (env place.now known.now)) least.old }
{
    for path in list {
        raises(raised(place.seen, known, path), least);
    }
}

fn caught<'a>(it: &Caught, place: &Place<'a>, known: &Scopes<'a>, least: &mut Option<u8>)
    ensures { least.new ≡ noted (spec.caught_sites it.now (env place.now known.now)) least.old }
{
    match it {
        Caught::Others => {}
        Caught::Named(list) => catches(list.as_slice(), place, known, least),
    }
}

#[cycle(statement)]
fn handler<'a>(
    alloc: Global,
    it: &'a Handler,
    place: &Place<'a>,
    known: &mut Scopes<'a>,
    least: &mut Option<u8>,
) -> Result<(), NoMemory>
    ensures least { OnOk result (least.new ≡ noted (spec.inside_of (spec.in_handler it.now) (env place.now known.old)) least.old) }
    ensures known { OnOk result (known.new ≡ known.old) }
{
    caught(&it.caught, place, known, least);
    statements(alloc, &it.statements, &place.within_handler(), known, least)
}

#[cycle(statement)]
fn each_handler<'a>(
    alloc: Global,
    list: &'a List<Handler>,
    place: &Place<'a>,
    known: &mut Scopes<'a>,
    least: &mut Option<u8>,
) -> Result<(), NoMemory>
    ensures least { OnOk result (least.new ≡ noted (spec.each (map spec.inside_of (map spec.in_handler list.now)) (env place.now known.old)) least.old) }
    ensures known { OnOk result (known.new ≡ known.old) }
{
    for it in list.as_slice() {
        handler(alloc, it, place, known, least)?;
    }
    Ok(())
}

/// Judges the handlers of a block.
#[cycle(statement)]
pub fn handlers<'a>(
    alloc: Global,
    list: &'a List<Handler>,
    place: &Place<'a>,
    known: &mut Scopes<'a>,
    least: &mut Option<u8>,
) -> Result<(), NoMemory>
    ensures least { OnOk result (least.new ≡ noted (spec.handlers (map spec.in_handler list.now) (env place.now known.old)) least.old) }
    ensures known { OnOk result (known.new ≡ known.old) }
{
    handles(alloc, list.as_slice(), place, &*known, least)?;
    each_handler(alloc, list, place, known, least)
}

/// Judges a block.
#[cycle(statement)]
pub fn block<'a>(
    alloc: Global,
    it: &'a Block,
    place: &Place<'a>,
    known: &mut Scopes<'a>,
    least: &mut Option<u8>,
) -> Result<(), NoMemory>
    ensures least { OnOk result (least.new ≡ noted (spec.in_body it.now (env place.now known.old)) least.old) }
    ensures known { OnOk result (known.new ≡ known.old) }
{
    let depth = known.depth();
    let list = it.declarations.as_slice();
    declares(alloc, list, least)?;
    pragmas(alloc, place.outermost, list, least)?;
    declarations(alloc, list, place, known, least)?;
    let inner = place.within_block();
    statements(alloc, &it.statements, &inner, known, least)?;
    handlers(alloc, &it.handlers, &inner, known, least)?;
    known.cut(depth);
    Ok(())
}
