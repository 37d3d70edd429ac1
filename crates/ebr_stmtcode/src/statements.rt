//! Statements and blocks.

ghost use Rattle.std.specs.Prelude.{◌≡◌, ◌∷◌, ◌++◌, [], map, suc, IfOk, OnOk};
ghost use Rattle.ebr_code.specs.declared.instruction.Instruction.{Do, Guard};
ghost use Rattle.ebr_code.specs.declared.instruction.Operation.TheVariants as does;
ghost use Rattle.ebr_run.specs.Scope as scope;
ghost use Rattle.ebr_run.specs.Statements as run;
ghost use Rattle.ebr_code.specs.Codes as spec;
ghost use Rattle.ebr_stmtcode.specs.inside.Choices as inside;
ghost use Rattle.ebr_stmtcode.specs.inside.Sources.{source};

use crate::choices::{Choice, choose};
use crate::cursors::{Source, cursor_statement};
use crate::declare::declarations;
use crate::exceptions::{caught, raise};
use crate::leaving::{assign, give, leave, print, raise_number};
use crate::loops::{numbers, plain_loop, while_loop};
use crate::rows::{rows_loop, source_of};
use crate::sql::sql;
use ebr_ast::{Block, Branch, Expr, Handler, Range, Rows, Stmt};
use ebr_base::{CloneIn, List, Name, NoMemory, Shared};
use ebr_code::{Code, Instruction, Operation};
use ebr_exprcode::{act, call_statement, expression};
use ebr_places::Around;
use std::alloc::Global;

/// One more.
pub fn next(count: usize) -> Result<usize, NoMemory>
    ensures { IfOk result (λ more. more ≡ suc count) }
{
    match count.checked_add(1) {
        Some(more) => Ok(more),
        None => Err(NoMemory),
    }
}

/// Adds the code of a statement.
#[cycle(statement)]
fn statement<'a>(
    alloc: Global,
    it: &'a Stmt,
    around: &mut Around<'a>,
    out: &mut List<Instruction>,
) -> Result<(), NoMemory>
    ensures code { OnOk result (out.new ≡ out.old ++ spec.stmt_code it.now around.old) }
    ensures around { OnOk result (around.new ≡ around.old) }
{
    match it {
        Stmt::Null => Ok(()),
        Stmt::Assign(to, e) => assign(alloc, to, e.get(), around, out),
        Stmt::Block(inner) => block(alloc, inner.get(), around, out),
        Stmt::Return(value) => give(alloc, value, around, out),
        Stmt::Raise(path) => raise(alloc, path, around, out),
        Stmt::If(list, otherwise) => {
            let otherwise = otherwise_of(alloc, otherwise, around)?;
            branches(alloc, list, otherwise, around, out)
        }
        Stmt::Loop(list) => {
            let body = statements(alloc, list, around)?;
            plain_loop(alloc, body, out)
        }
        Stmt::While(e, list) => {
            let body = statements(alloc, list, around)?;
            while_loop(alloc, e.get(), body, around, out)
        }
        Stmt::ForRange(range, list) => for_range(alloc, list, range, around, out),
        Stmt::ForRows(rows, list) => for_rows(alloc, list, rows, around, out),
        Stmt::Exit(when) => leave(alloc, true, when, around, out),
        Stmt::Continue(when) => leave(alloc, false, when, around, out),
        Stmt::Call(path, list) => call_statement(alloc, path, list, around, out),
        Stmt::Sql(it) => sql(alloc, it, around, out),
        Stmt::Cursor(it) => cursor_statement(alloc, it, around, out),
        Stmt::PutLine(e) => print(alloc, e.get(), around, out),
        Stmt::RaiseApplicationError(number, text) => raise_number(
            alloc,
            *number,
            text.get(),
            around,
            out,
        ),
    }
}

/// Into a statement of a list, which begins with a step.
fn begin(at: usize, around: &mut Around<'_>, out: &mut List<Instruction>) -> Result<(), NoMemory>
    ensures code { OnOk result (out.new ≡ out.old ++ Do does.Step ∷ []) }
    ensures around { OnOk result (around.new ≡ scope.part at around.old) }
{
    act(out, Operation::Step)?;
    around.enter_part(at)
}

/// A statement of a list, which begins with a step.
#[cycle(statement)]
fn step<'a>(
    alloc: Global,
    it: &'a Stmt,
    at: usize,
    around: &mut Around<'a>,
    out: &mut List<Instruction>,
) -> Result<(), NoMemory>
    ensures code { OnOk result (out.new ≡ out.old ++ Do does.Step ∷ spec.stmt_code it.now (scope.part at around.old)) }
    ensures around { OnOk result (around.new ≡ around.old) }
{
    begin(at, around, out)?;
    let done = statement(alloc, it, around, out);
    around.leave_part();
    done
}

/// The instructions of statements in order.
#[cycle(statement)]
fn steps<'a>(
    alloc: Global,
    list: &'a List<Shared<Stmt>>,
    around: &mut Around<'a>,
) -> Result<List<Instruction>, NoMemory>
    ensures code { IfOk result (λ code. code ≡ spec.all 0 (map spec.stmt_code list.now) around.old) }
    ensures around { OnOk result (around.new ≡ around.old) }
{
    let mut code = List::new(alloc);
    for (at, it) in list.as_slice().iter().enumerate() {
        step(alloc, it.get(), at, around, &mut code)?;
    }
    Ok(code)
}

/// The code of statements in order.
#[cycle(statement)]
fn statements<'a>(
    alloc: Global,
    list: &'a List<Shared<Stmt>>,
    around: &mut Around<'a>,
) -> Result<Code, NoMemory>
    ensures code { IfOk result (λ code. code ≡ spec.all 0 (map spec.stmt_code list.now) around.old) }
    ensures around { OnOk result (around.new ≡ around.old) }
{
    let code = steps(alloc, list, around)?;
    Ok(Shared::new(alloc, code)?)
}

/// The instructions behind ELSE.
#[cycle(statement)]
fn otherwise_of<'a>(
    alloc: Global,
    list: &'a List<Shared<Stmt>>,
    around: &mut Around<'a>,
) -> Result<List<Instruction>, NoMemory>
    ensures code { IfOk result (λ code. code ≡ spec.all 0 (map spec.stmt_code list.now) (scope.part 0 around.old)) }
    ensures around { OnOk result (around.new ≡ around.old) }
{
    around.enter_part(0)?;
    let code = steps(alloc, list, around);
    around.leave_part();
    code
}

/// The code of the statements that are the part of a tree at a place.
#[cycle(statement)]
pub fn body_at<'a>(
    alloc: Global,
    list: &'a List<Shared<Stmt>>,
    at: usize,
    around: &mut Around<'a>,
) -> Result<Code, NoMemory>
    ensures code { IfOk result (λ code. code ≡ spec.all 0 (map spec.stmt_code list.now) (scope.part at around.old)) }
    ensures around { OnOk result (around.new ≡ around.old) }
{
    around.enter_part(at)?;
    let code = statements(alloc, list, around);
    around.leave_part();
    code
}

/// A condition, whose statements are known.
fn choice(alloc: Global, e: &Expr, body: Code, around: &Around<'_>) -> Result<Choice, NoMemory>
    ensures { IfOk result (λ choice. choice ≡ record { condition = spec.expr_code e.now around.now; body = body }) }
{
    let mut condition = List::new(alloc);
    expression(alloc, e, around, &mut condition)?;
    Ok(Choice { condition, body })
}

/// A condition and its statements.
#[cycle(statement)]
fn branch<'a>(
    alloc: Global,
    it: &'a Branch,
    at: usize,
    around: &mut Around<'a>,
) -> Result<Choice, NoMemory>
    ensures choice { IfOk result (λ choice. choice ≡ inside.choice at (inside.branch_code it.now) around.old) }
    ensures around { OnOk result (around.new ≡ around.old) }
{
    let body = body_at(alloc, &it.statements, next(at)?, around)?;
    choice(alloc, it.condition.get(), body, around)
}

/// The branches of IF.
#[cycle(statement)]
fn choices<'a>(
    alloc: Global,
    list: &'a List<Branch>,
    around: &mut Around<'a>,
) -> Result<List<Choice>, NoMemory>
    ensures choices { IfOk result (λ found. found ≡ inside.choices 0 (map inside.branch_code list.now) around.old) }
    ensures around { OnOk result (around.new ≡ around.old) }
{
    let mut found = List::new(alloc);
    for (at, it) in list.as_slice().iter().enumerate() {
        found.push(branch(alloc, it, at, around)?)?;
    }
    Ok(found)
}

/// IF, where the code behind ELSE is known.
#[cycle(statement)]
fn branches<'a>(
    alloc: Global,
    list: &'a List<Branch>,
    otherwise: List<Instruction>,
    around: &mut Around<'a>,
    out: &mut List<Instruction>,
) -> Result<(), NoMemory>
    ensures code { OnOk result (out.new ≡ out.old ++ inside.chosen (inside.choices 0 (map inside.branch_code list.now) around.old) otherwise) }
    ensures around { OnOk result (around.new ≡ around.old) }
{
    let found = choices(alloc, list, around)?;
    choose(alloc, found, otherwise, out)
}

/// The bounds of a loop over numbers.
fn bounds(
    alloc: Global,
    range: &Range,
    around: &Around<'_>,
    out: &mut List<Instruction>,
) -> Result<(), NoMemory>
    ensures { OnOk result (out.new ≡ out.old ++ (spec.expr_code range.now.low around.now ++ spec.expr_code range.now.high around.now)) }
{
    expression(alloc, range.low.get(), around, out)?;
    expression(alloc, range.high.get(), around, out)
}

/// The statements of a loop over numbers.
#[cycle(statement)]
fn counted<'a>(
    alloc: Global,
    list: &'a List<Shared<Stmt>>,
    name: &'a Name,
    around: &mut Around<'a>,
) -> Result<Code, NoMemory>
    ensures code { IfOk result (λ code. code ≡ spec.all 0 (map spec.stmt_code list.now) (scope.with_counter name.now around.old)) }
    ensures around { OnOk result (around.new ≡ around.old) }
{
    let mark = around.mark();
    around.add_counter(name)?;
    let code = statements(alloc, list, around);
    around.back(&mark);
    code
}

/// A loop over numbers.
#[cycle(statement)]
fn for_range<'a>(
    alloc: Global,
    list: &'a List<Shared<Stmt>>,
    range: &'a Range,
    around: &mut Around<'a>,
    out: &mut List<Instruction>,
) -> Result<(), NoMemory>
    ensures code { OnOk result (out.new ≡ out.old ++ spec.range_code range.now (spec.all 0 (map spec.stmt_code list.now)) around.old) }
    ensures around { OnOk result (around.new ≡ around.old) }
{
    bounds(alloc, range, around, out)?;
    let variable = around.variables();
    let body = counted(alloc, list, &range.name, around)?;
    numbers(variable, range.reversed, body, out)
}

/// Into a loop over rows: its record, and a cursor without a name.
fn enter_rows<'a>(
    alloc: Global,
    name: &'a Name,
    from: &Source,
    around: &mut Around<'a>,
) -> Result<(), NoMemory>
    ensures { OnOk result (around.new ≡ run.in_rows name.now (source from.now) around.old) }
{
    let fields = from.fields.clone_in(alloc)?;
    around.add_record(alloc, name, fields)?;
    around.add_hidden_cursor()
}

/// The statements of a loop over rows.
#[cycle(statement)]
fn over_rows<'a>(
    alloc: Global,
    list: &'a List<Shared<Stmt>>,
    name: &'a Name,
    from: &Source,
    around: &mut Around<'a>,
) -> Result<Code, NoMemory>
    ensures code { IfOk result (λ code. code ≡ spec.all 0 (map spec.stmt_code list.now) (run.in_rows name.now (source from.now) around.old)) }
    ensures around { OnOk result (around.new ≡ around.old) }
{
    let mark = around.mark();
    enter_rows(alloc, name, from, around)?;
    let code = statements(alloc, list, around);
    around.back(&mark);
    code
}

/// A loop over the rows of a cursor or a query.
#[cycle(statement)]
fn loop_over<'a>(
    alloc: Global,
    list: &'a List<Shared<Stmt>>,
    name: &'a Name,
    from: &Source,
    around: &mut Around<'a>,
    out: &mut List<Instruction>,
) -> Result<(), NoMemory>
    ensures code { OnOk result (out.new ≡ out.old ++ spec.over_rows_code (source from.now) name.now (spec.all 0 (map spec.stmt_code list.now)) around.old) }
    ensures around { OnOk result (around.new ≡ around.old) }
{
    let variable = around.variables();
    let body = over_rows(alloc, list, name, from, around)?;
    rows_loop(alloc, from, variable, body, out)
}

/// A loop over rows.
#[cycle(statement)]
fn for_rows<'a>(
    alloc: Global,
    list: &'a List<Shared<Stmt>>,
    rows: &'a Rows,
    around: &mut Around<'a>,
    out: &mut List<Instruction>,
) -> Result<(), NoMemory>
    ensures code { OnOk result (out.new ≡ out.old ++ spec.rows_code (run.source_of rows.now.from around.old) rows.now (spec.all 0 (map spec.stmt_code list.now)) around.old) }
    ensures around { OnOk result (around.new ≡ around.old) }
{
    match source_of(alloc, &rows.from, around)? {
        Some(from) => loop_over(alloc, list, &rows.record, from.get(), around, out),
        None => act(out, Operation::Broken),
    }
}

/// Into the handler at a place.
fn enter_handler(at: usize, around: &mut Around<'_>) -> Result<(), NoMemory>
    ensures { OnOk result (around.new ≡ scope.within_handler (scope.part (suc at) around.old)) }
{
    around.enter_part(next(at)?)?;
    around.enter_handler()
}

/// A handler.
#[cycle(statement)]
fn handler<'a>(
    alloc: Global,
    it: &'a Handler,
    at: usize,
    around: &mut Around<'a>,
) -> Result<ebr_code::Handler, NoMemory>
    ensures handler { IfOk result (λ handler. handler ≡ inside.handling at (spec.handler_code it.now) around.old) }
    ensures around { OnOk result (around.new ≡ around.old) }
{
    enter_handler(at, around)?;
    let body = statements(alloc, &it.statements, around)?;
    around.leave_handler();
    around.leave_part();
    let caught = caught(alloc, &it.caught, around)?;
    Ok(ebr_code::Handler { caught, body })
}

/// The handlers of a block.
#[cycle(statement)]
pub fn handlers<'a>(
    alloc: Global,
    list: &'a List<Handler>,
    around: &mut Around<'a>,
) -> Result<List<ebr_code::Handler>, NoMemory>
    ensures handlers { IfOk result (λ found. found ≡ spec.handlers_code 0 (map spec.handler_code list.now) around.old) }
    ensures around { OnOk result (around.new ≡ around.old) }
{
    let mut found = List::new(alloc);
    for (at, it) in list.as_slice().iter().enumerate() {
        found.push(handler(alloc, it, at, around)?)?;
    }
    Ok(found)
}

/// Guards statements by handlers.
fn guard(
    alloc: Global,
    body: Code,
    place: usize,
    found: List<ebr_code::Handler>,
    out: &mut List<Instruction>,
) -> Result<(), NoMemory>
    ensures { OnOk result (out.new ≡ out.old ++ Guard body place found ∷ []) }
{
    let found = Shared::new(alloc, found)?;
    out.push(Instruction::Guard(body, place, found))
}

/// The statements of a block with their handlers, behind its declarations.
#[cycle(statement)]
fn guarded_block<'a>(
    alloc: Global,
    it: &'a Block,
    around: &mut Around<'a>,
    out: &mut List<Instruction>,
) -> Result<(), NoMemory>
    ensures code { OnOk result (out.new ≡ out.old ++ inside.guarded_block it.now around.old) }
    ensures around { OnOk result (around.new ≡ around.old) }
{
    let body = body_at(alloc, &it.statements, 0, around)?;
    let found = handlers(alloc, &it.handlers, around)?;
    guard(alloc, body, around.handlers(), found, out)
}

/// Adds the code of a block.
#[cycle(statement)]
pub fn block<'a>(
    alloc: Global,
    it: &'a Block,
    around: &mut Around<'a>,
    out: &mut List<Instruction>,
) -> Result<(), NoMemory>
    ensures code { OnOk result (out.new ≡ out.old ++ spec.block_code it.now around.old) }
    ensures around { OnOk result (around.new ≡ around.old) }
{
    let mark = around.mark();
    declarations(alloc, it.declarations.as_slice(), around, out)?;
    let done = guarded_block(alloc, it, around, out);
    around.back(&mark);
    done
}

/// Adds the code of statements with their handlers, behind declarations.
pub fn guarded<'a>(
    alloc: Global,
    list: &'a List<Shared<Stmt>>,
    handled: &'a List<Handler>,
    around: &mut Around<'a>,
    out: &mut List<Instruction>,
) -> Result<(), NoMemory>
    ensures { OnOk result (out.new ≡ out.old ++ spec.guarded_code (map spec.stmt_code list.now) (map spec.handler_code handled.now) around.old) }
{
    let body = body_at(alloc, list, 0, around)?;
    let found = handlers(alloc, handled, around)?;
    guard(alloc, body, around.handlers(), found, out)
}
