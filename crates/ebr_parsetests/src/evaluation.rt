//! The values of expressions that no checked statement has, from their texts.
//!
//! That operands of other types or of another number are ORA-00932 where they are computed, and the code of what has no value in
//! a statement of SQL, are own.

use ebr_base::{Bytes, Code, MAX_COUNT, NoMemory, Shared, Stop, Value};
use ebr_expr::{Row, eval};
use ebr_exprparse::expr;
use ebr_exprtree::Expr;
use ebr_lexer::{LexStop, Token, lex};
use ebr_value::text_of;
use std::alloc::Global;
use std::process::Abort;
use std::test::Fail;

fn text_of_code(alloc: Global, code: Code) -> Result<Bytes, NoMemory> {
    let mut text = Bytes::new(alloc);
    code.append_to(&mut text)?;
    Ok(text)
}

fn text_of_value(alloc: Global, value: &Value) -> Result<Bytes, NoMemory> {
    match value {
        Value::Null => Bytes::from_slice(alloc, b"NULL"),
        _ => text_of(alloc, value),
    }
}

/// What was given, as it is printed.
fn printed(alloc: Global, given: Result<Value, Stop>) -> Result<Bytes, NoMemory> {
    match given {
        Ok(value) => text_of_value(alloc, &value),
        Err(Stop::Raised(code)) => text_of_code(alloc, code),
        Err(Stop::NoMemory) => Err(NoMemory),
    }
}

/// What tokens give, for no row and no binds; nothing where they spell no expression.
fn of_tokens(alloc: Global, tokens: &[Token]) -> Result<Bytes, NoMemory> {
    if tokens.len() >= MAX_COUNT {
        return Err(NoMemory);
    }
    match expr(alloc, tokens, 0)? {
        Some((tree, _)) => printed(alloc, eval(alloc, tree.get(), &Row::new(alloc), &[])),
        None => Ok(Bytes::new(alloc)),
    }
}

/// What a text gives.
fn value_text(alloc: Global, text: &str) -> Result<Bytes, NoMemory> {
    if text.len() >= MAX_COUNT {
        return Err(NoMemory);
    }
    match lex(alloc, text.as_bytes()) {
        Ok(tokens) => of_tokens(alloc, tokens.as_slice()),
        Err(LexStop::Fault { code, .. }) => text_of_code(alloc, code),
        Err(LexStop::NoMemory) => Err(NoMemory),
    }
}

/// What the text gives, where its row says otherwise.
fn fault(alloc: Global, text: &str, wanted: &str) -> Result<Option<String>, NoMemory> {
    let found = value_text(alloc, text)?;
    if found.as_slice() == wanted.as_bytes() {
        return Ok(None);
    }
    Ok(Some(format!(in alloc; "{text} gives {found:?}")?))
}

/// The first row of a table, and the rows behind it; None where no row is left. A row is a text and what it gives, with
/// `~` behind each. One literal is proved at once, and an array of texts row by row.
fn first_row(table: &'static str) -> Option<(&'static str, &'static str, &'static str)> {
    let Some((text, rest)) = table.split_once('~') else {
        return None;
    };
    match rest.split_once('~') {
        Some((given, rest)) => Some((text, given, rest)),
        None => Some((text, "what the row lacks", "")),
    }
}

/// The first fault of the rows.
fn first_fault(alloc: Global, table: &'static str) -> Result<Option<String>, NoMemory> {
    let mut left = table;
    for _ in 0..table.len() {
        let Some((text, wanted, rest)) = first_row(left) else {
            return Ok(None);
        };
        let found = fault(alloc, text, wanted)?;
        if found.is_some() {
            return Ok(found);
        }
        left = rest;
    }
    Ok(None)
}

/// Each text of the table gives what stands beside it.
fn all_give(rt: &impl Abort, alloc: Global, table: &'static str) -> Result<(), Fail> {
    match first_fault(alloc, table)? {
        Some(fault) => panic!(rt; "{fault}"),
        None => Ok(()),
    }
}

/// Operands of other types, or of another number, are refused behind the operands before them, and not where they aren't
/// computed.
static OPERANDS: &str = r#"
+'a'~ORA-00932~
+TRUE~ORA-00932~
-'a'~ORA-00932~
1 + 'a'~ORA-00932~
'a' + TRUNC(1 / 0)~ORA-01476~
'x' || TRUE~ORA-00932~
'1' || 2 - 2~ORA-00932~
NVL(1, 'a')~ORA-00932~
MOD(7)~ORA-00932~
MOD(7, 2, 1)~ORA-00932~
SUBSTR('a', 1, 1, 1)~ORA-00932~
ABS()~ORA-00932~
ABS(1, TRUNC(1 / 0))~ORA-01476~
1 = '1'~ORA-00932~
TRUE < FALSE~ORA-00932~
NOT 1~ORA-00932~
FALSE AND 1~FALSE~
TRUE AND 1~ORA-00932~
1 AND FALSE~ORA-00932~
TRUE AND FALSE AND TRUNC(1 / 0) = 1 AND 2~FALSE~
0 BETWEEN 1 AND 'x'~FALSE~
2 BETWEEN 1 AND 'x'~ORA-00932~
1 IN (1, 'a')~TRUE~
1 IN ('a', 1)~ORA-00932~
'a' LIKE 1~ORA-00932~
"#;

#[test]
fn operands_are_tested_where_they_are_computed(rt: HostRuntime) -> Result<(), Fail> {
    all_give(&rt, rt.alloc(), OPERANDS)
}

/// What has no value in a statement of SQL where no names are known.
static UNKNOWN: &str = r#"
a~ORA-00904~
a.b~ORA-00904~
:NEW.a~ORA-00904~
SQLCODE~ORA-00904~
INSERTING~ORA-00904~
SQL%ROWCOUNT~ORA-00904~
f(1)~ORA-00904~
f(TRUNC(1 / 0))~ORA-00904~
TRUNC(1)~ORA-00904~
p.MOD(1, 2)~ORA-00904~
COUNT(1)~ORA-00904~
FALSE AND a = 1~FALSE~
"#;

#[test]
fn what_has_no_value_is_refused(rt: HostRuntime) -> Result<(), Fail> {
    all_give(&rt, rt.alloc(), UNKNOWN)
}

/// What an expression gives for no row and no binds.
fn of_tree(alloc: Global, e: Shared<Expr>) -> Result<Bytes, NoMemory> {
    printed(alloc, eval(alloc, e.get(), &Row::new(alloc), &[]))
}

#[test]
fn places_that_are_not_there_have_no_value(rt: HostRuntime) -> Result<(), Fail> {
    let place = of_tree(rt.alloc(), Shared::new(rt.alloc(), Expr::Place(0))?)?;
    assert!(rt; place.as_slice() == "ORA-00904".as_bytes());
    let bind = of_tree(rt.alloc(), Shared::new(rt.alloc(), Expr::Bind(0))?)?;
    assert!(rt; bind.as_slice() == "ORA-00904".as_bytes());
    Ok(())
}
