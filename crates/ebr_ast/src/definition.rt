//! Definitions, and whole statements of a script.

use crate::sql::{SqlTree, Transaction};
use crate::statement::{Block, DeclaredType};
use crate::unit::UnitTree;
use ebr_base::{List, Name, Shared};

/// A statement of a script.
#[derive(Drop)]
pub enum Statement {
    Sql(SqlTree),
    Transaction(Transaction),
    /// `ALTER SESSION SET EDITION = n`.
    SetEdition(Name),
    Definition(Definition),
    /// A block, or a CALL, which means the block that holds this one call.
    Block(Shared<Block>),
}

/// A statement that changes the catalogue.
#[derive(Drop)]
pub enum Definition {
    /// `CREATE EDITION name AS CHILD OF parent`; without a parent it is the last edition.
    CreateEdition {
        name: Name,
        parent: Option<Name>,
    },
    DropEdition {
        name: Name,
        cascade: bool,
    },
    /// `ALTER DATABASE DEFAULT EDITION = n`.
    DefaultEdition(Name),
    /// `CREATE TABLE name (columns, PRIMARY KEY (key))`; without the clause `key` is empty.
    CreateTable {
        name: Name,
        columns: List<ColumnTree>,
        key: List<Name>,
    },
    /// `ALTER TABLE table ADD column type`.
    AddColumn {
        table: Name,
        column: Name,
        ty: DeclaredType,
    },
    DropTable(Name),
    /// `ALTER TRIGGER name ENABLE`, or DISABLE.
    AlterTrigger {
        name: Name,
        enabled: bool,
    },
    DropObject {
        kind: ObjectKind,
        name: Name,
    },
    /// `CREATE OR REPLACE` of a unit or an editioning view, or CREATE without replacing.
    CreateObject {
        replace: bool,
        unit: UnitTree,
    },
}

/// A column in CREATE TABLE.
#[derive(Drop)]
pub struct ColumnTree {
    pub name: Name,
    pub ty: DeclaredType,
    pub constraints: List<ColumnConstraint>,
}

#[derive(Clone, Copy, Debug)]
pub enum ColumnConstraint {
    NotNull,
    PrimaryKey,
}

/// The kind of object that a DROP names.
#[derive(Clone, Copy, Debug)]
pub enum ObjectKind {
    Procedure,
    Function,
    Package,
    PackageBody,
    Trigger,
    View,
}
