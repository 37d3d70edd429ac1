//! What the bodies of a statement's triggers stand on.

use ebr_base::{List, TableId, TxId};
use std::marker::Model;

/// A table that a statement of this transaction is changing.
#[derive(Drop)]
pub struct Under {
    pub table: TableId,
    pub tx: TxId,
}

impl Model for Under {
    ghost use Rattle.ebr_exec.specs.Places.{Under as Changing};

    ghost Value = { Changing };

    ghost view = { λ u. record { table = u.table; tx = u.tx } };
}

/// The transaction of the statement; the tables that it and the statements around it are changing; the steps that its bodies may make
/// together; how many levels there are below it.
#[derive(Drop)]
pub struct Site {
    pub t: TxId,
    pub changing: List<Under>,
    pub left: u32,
    pub levels: u32,
}
