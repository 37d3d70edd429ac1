//! Scripts with the kinds of their pieces, and stored texts.

use ebr_ast::Statement;
use ebr_base::{Bytes, Code, List, NoMemory};
use ebr_script::{Piece, PieceKind, pieces, stored, text_of};
use std::alloc::Global;
use std::test::Fail;

/// What a piece is: a tree of a kind, or the number of its code.
#[derive(Clone, Copy, Debug, PartialEq, Eq)]
enum Told {
    Sql,
    Transaction,
    SetEdition,
    Definition,
    Block,
    Ora(u32),
    Ebr(u32),
}

fn kind_of_tree(tree: &Statement) -> Told {
    match tree {
        Statement::Sql(_) => Told::Sql,
        Statement::Transaction(_) => Told::Transaction,
        Statement::SetEdition(_) => Told::SetEdition,
        Statement::Definition(_) => Told::Definition,
        Statement::Block(_) => Told::Block,
    }
}

fn kind_of(piece: &Piece) -> Told {
    match &piece.what {
        PieceKind::Tree(tree) => kind_of_tree(tree),
        PieceKind::Refused(Code::Ora(number)) => Told::Ora(*number),
        PieceKind::Refused(Code::Ebr(number)) => Told::Ebr(*number),
    }
}

/// A piece that is expected: where it stands, and what it is.
type Row = (u32, u32, Told);

/// Whether a piece stands there and is so.
fn is(piece: &Piece, row: &Row) -> bool {
    (piece.from, piece.to, kind_of(piece)) == *row
}

fn all_are(found: &[Piece], rows: &[Row]) -> bool {
    if found.len() != rows.len() {
        return false;
    }
    for (piece, row) in found.iter().zip(rows) {
        if !is(piece, row) {
            return false;
        }
    }
    true
}

/// The pieces of a script, which may not be long.
fn short_pieces(alloc: Global, script: &[u8]) -> Result<List<Piece>, NoMemory> {
    if script.len() >= 100000 {
        return Err(NoMemory);
    }
    pieces(alloc, script)
}

fn has_kinds(alloc: Global, script: &[u8], rows: &[Row]) -> Result<bool, NoMemory> {
    let found = short_pieces(alloc, script)?;
    Ok(all_are(found.as_slice(), rows))
}

static KINDS: [(&[u8], &[Row]); 21] = [
    (b"", &[]),
    (b" -- only\n/* comments */\n / \n", &[]),
    (b"COMMIT", &[(0, 6, Told::Transaction)]),
    (
        b"COMMIT;SELECT 1 FROM dual",
        &[(0, 6, Told::Transaction), (7, 25, Told::Sql)],
    ),
    (
        b"-- c\n  COMMIT WORK ;/* c */ROLLBACK",
        &[(7, 19, Told::Transaction), (27, 35, Told::Transaction)],
    ),
    (
        b"CREATE EDITION v2;ALTER SESSION SET EDITION = v2;",
        &[(0, 17, Told::Definition), (18, 48, Told::SetEdition)],
    ),
    (
        b"DROP PROCEDURE p;x",
        &[(0, 16, Told::Definition), (17, 18, Told::Ora(900))],
    ),
    (
        b"CREATE OR REPLACE EDITIONING VIEW v AS SELECT c FROM t;",
        &[(0, 54, Told::Definition)],
    ),
    (
        b"CREATE PROCEDURE p IS BEGIN NULL; END;\n/\nCALL p();",
        &[(0, 39, Told::Definition), (41, 49, Told::Block)],
    ),
    (b"BEGIN NULL; END;", &[(0, 16, Told::Block)]),
    (
        b"CALL a(';'); / b",
        &[(0, 11, Told::Block), (13, 16, Told::Ora(900))],
    ),
    (b"CALL p", &[(0, 6, Told::Ora(6550))]),
    (b"BEGIN\n/\n", &[(0, 6, Told::Ora(6550))]),
    (b"CREATE FUNCTION;", &[(0, 16, Told::Ora(900))]),
    (b";", &[(0, 0, Told::Ora(900))]),
    (b"SELECT 4\n/\n2 FROM dual;", &[(0, 22, Told::Ora(900))]),
    (b"SELECT 'a; COMMIT;\nCOMMIT;\n", &[(0, 27, Told::Ebr(21))]),
    (
        b"BEGIN '\n/\n';",
        &[(0, 8, Told::Ebr(21)), (10, 12, Told::Ebr(21))],
    ),
    (
        b"CREATE PROCEDURE /*\n/\n*/ a;",
        &[(0, 20, Told::Ebr(21)), (22, 26, Told::Ora(900))],
    ),
    (b"DECLARE ?", &[(0, 9, Told::Ebr(20))]),
    (
        b"SELECT 1234567890123456789; COMMIT",
        &[(0, 26, Told::Ebr(22)), (28, 34, Told::Transaction)],
    ),
];

#[test]
fn pieces_have_their_kinds_or_codes(rt: HostRuntime) -> Result<(), Fail> {
    for (script, rows) in &KINDS {
        assert!(rt; has_kinds(rt.alloc(), script, rows)?, "{script:?}");
    }
    Ok(())
}

/// A text, another so many times, and a third.
fn repeated(
    alloc: Global,
    front: &[u8],
    text: &[u8],
    count: usize,
    back: &[u8],
) -> Result<Bytes, NoMemory> {
    let mut whole = Bytes::new(alloc);
    whole.extend(front)?;
    for _ in 0..count {
        whole.extend(text)?;
    }
    whole.extend(back)?;
    Ok(whole)
}

/// What the first piece is.
fn first_told(alloc: Global, script: &[u8]) -> Result<Option<Told>, NoMemory> {
    let found = short_pieces(alloc, script)?;
    match found.get(0) {
        Some(piece) => Ok(Some(kind_of(piece))),
        None => Ok(None),
    }
}

/// Front, middle, how many times, back; and what the first piece is.
type Limit = (&'static [u8], &'static [u8], usize, &'static [u8], Told);

fn is_told(alloc: Global, row: &Limit) -> Result<bool, NoMemory> {
    let (front, text, count, back, told) = *row;
    let script = repeated(alloc, front, text, count, back)?;
    Ok(first_told(alloc, script.as_slice())? == Some(told))
}

static LIMITS: [Limit; 7] = [
    (b"", b"a", 128, b"", Told::Ora(900)),
    (b"", b"a", 129, b"", Told::Ebr(23)),
    (b"'", b"a", 32767, b"'", Told::Ora(900)),
    (b"'", b"a", 32768, b"'", Told::Ebr(24)),
    (b"", b"(", 64, b"", Told::Ora(900)),
    (b"", b"(", 65, b"", Told::Ebr(25)),
    (b"CALL ", b"(", 65, b"?", Told::Ebr(20)),
];

#[test]
fn long_words_and_strings_and_deep_nesting_are_refused(rt: HostRuntime) -> Result<(), Fail> {
    for row in &LIMITS {
        assert!(rt; is_told(rt.alloc(), row)?);
    }
    Ok(())
}

fn is_stored(alloc: Global, text: &[u8]) -> Result<bool, NoMemory> {
    if text.len() >= 100 {
        return Err(NoMemory);
    }
    Ok(stored(alloc, text)?.is_some())
}

static STORED: [(&[u8], bool); 7] = [
    (b"CREATE PROCEDURE p IS BEGIN NULL; END;", true),
    (
        b" -- c\n create editioning view v as select c from t /* d */\n",
        true,
    ),
    (b"", false),
    (b"CREATE PROCEDURE p IS BEGIN NULL; END; x", false),
    (b"CREATE PROCEDURE p IS BEGIN NULL; END; 'x", false),
    (b"CREATE TABLE t (a NUMBER)", false),
    (b"DROP PROCEDURE p", false),
];

#[test]
fn stored_texts_create_objects(rt: HostRuntime) -> Result<(), Fail> {
    for (text, stores) in &STORED {
        assert!(rt; is_stored(rt.alloc(), text)? == *stores, "{text:?}");
    }
    Ok(())
}

/// Whether the first piece of the script has this stored text.
fn keeps(alloc: Global, script: &[u8], text: &[u8]) -> Result<bool, NoMemory> {
    if script.len() >= 100 {
        return Err(NoMemory);
    }
    let found = pieces(alloc, script)?;
    match found.get(0) {
        Some(piece) => Ok(text_of(script, piece) == text),
        None => Ok(false),
    }
}

static TEXTS: [(&[u8], &[u8]); 4] = [
    (b"/* x */ a /* y */ b -- z\n;c", b"a /* y */ b"),
    (
        b"-- x\nCREATE PROCEDURE p IS BEGIN NULL; END;\n\n-- y\n/\n",
        b"CREATE PROCEDURE p IS BEGIN NULL; END;",
    ),
    (b";", b""),
    (b"a 'b", b""),
];

#[test]
fn the_stored_text_goes_from_the_first_token_to_the_last(rt: HostRuntime) -> Result<(), Fail> {
    for (script, text) in &TEXTS {
        assert!(rt; keeps(rt.alloc(), script, text)?, "{script:?}");
    }
    Ok(())
}
