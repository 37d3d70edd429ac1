//! Queries.

use ebr_base::{List, Name, Shared};
use ebr_exprtree::Expr;

/// A query: `SELECT list FROM sources WHERE filter ORDER BY order FOR UPDATE`.
#[derive(Drop)]
pub struct Query {
    pub list: SelectList,
    /// One source or more.
    pub sources: List<Source>,
    pub filter: Option<Shared<Expr>>,
    /// The keys of ORDER BY; none where it isn't there.
    pub order: List<SortKey>,
    pub for_update: bool,
}

/// What a query gives.
#[derive(Drop)]
pub enum SelectList {
    /// `*`.
    All,
    Items(List<Item>),
}

/// An item of a list, with its alias.
#[derive(Drop)]
pub struct Item {
    pub what: ItemKind,
    pub alias: Option<Name>,
}

#[derive(Drop)]
pub enum ItemKind {
    Expr(Shared<Expr>),
    Aggregate(Aggregate),
}

/// A function over all rows.
#[derive(Drop)]
pub enum Aggregate {
    /// `COUNT(*)`.
    CountRows,
    Count(Shared<Expr>),
    Sum(Shared<Expr>),
    Min(Shared<Expr>),
    Max(Shared<Expr>),
}

/// Where rows come from.
#[derive(Drop)]
pub enum Source {
    Dual,
    Named { name: Name, alias: Option<Name> },
}

/// A key of ORDER BY.
#[derive(Drop)]
pub struct SortKey {
    pub key: Shared<Expr>,
    pub descending: bool,
}
