//! Instructions that ask.

ghost use Rattle.std.specs.Prelude.{◌≡◌, OnOk, IfOk};
ghost use Rattle.ebr_run.specs.Statements as spec;
ghost use Rattle.ebr_code.specs.Instructions.{operate};
ghost use Rattle.ebr_code.specs.declared.instruction.Operation.TheVariants as does;
ghost use Rattle.ebr_running.specs.Rest.{Computes};

use crate::running::{Flow, Pending, Running};
use ebr_asks::Ask;
use ebr_ast::{SqlTree, Transaction};
use ebr_base::{CloneIn, NoMemory, Shared};
use ebr_code::Lookup;
use std::alloc::Global;

impl Running {
    /// Asks a statement, with so many operands as its binds.
    pub fn sql(
        &mut self,
        alloc: Global,
        stmt: &Shared<SqlTree>,
        binds: usize,
        lookup: &Shared<Lookup>,
    ) -> Result<(), NoMemory>
        requires { self.old.flow ≡ Flow.Normal }
        ensures { OnOk result (Computes self.old self.new (operate (does.Sql stmt.now binds lookup.now))) }
    {
        self.lookup = lookup.clone_in(alloc)?;
        let stmt = stmt.clone_in(alloc)?;
        let binds = Shared::new(alloc, self.operands.take(binds)?)?;
        self.operands.clear();
        self.ask = Ask::Sql {
            stmt,
            binds,
            left: self.left.saturating_sub(self.steps),
        };
        self.pending = Pending::Lookup;
        self.flow = Flow::Waiting;
        Ok(())
    }

    /// Asks for the end of a transaction, a savepoint, or the way back to one.
    pub fn transact(&mut self, alloc: Global, transaction: &Transaction) -> Result<(), NoMemory>
        requires { self.old.flow ≡ Flow.Normal }
        ensures { OnOk result (Computes self.old self.new (operate (does.Transact transaction.now))) }
    {
        self.ask = transaction_ask(alloc, transaction)?;
        self.operands.clear();
        self.pending = Pending::Done;
        self.flow = Flow::Waiting;
        Ok(())
    }
}

fn transaction_ask(alloc: Global, transaction: &Transaction) -> Result<Ask, NoMemory>
    ensures { IfOk result (λ ask. ask ≡ spec.transact transaction.now) }
{
    match transaction {
        Transaction::Commit => Ok(Ask::Commit),
        Transaction::Rollback => Ok(Ask::Rollback),
        Transaction::RollbackTo(name) => Ok(Ask::BackTo(name.clone_in(alloc)?)),
        Transaction::Savepoint(name) => Ok(Ask::Savepoint(name.clone_in(alloc)?)),
    }
}
