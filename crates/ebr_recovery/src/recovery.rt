//! The database of records, one after the other.

ghost use Rattle.std.specs.Prelude.{◌≡◌, [], All, IfErr, IfOk, OnOk};
ghost use Rattle.ebr_cross.specs.Catalogue.{ForLists, as_catalogue};
ghost use Rattle.ebr_cross.specs.Following.{MayFollow};
ghost use Rattle.ebr_cross.specs.Records.{with_record};
ghost use Rattle.ebr_record.specs.declared.record.Record.TheVariants as left;
ghost use Rattle.ebr_core.specs.inside.Defined.{IsNew};
ghost use Rattle.ebr_core.specs.inside.Tables.{with_table_of};
ghost use Rattle.ebr_recovery.specs.declared.fault.RecoveryFault.TheVariants.{NoMemory as wants};
ghost use Rattle.ebr_recovery.specs.Recovery.{Extends, ForRecords, HasRoom, IsRecovery, Recovers, StandsAt};
ghost use Rattle.ebr_recovery.specs.inside.Plans.{IsDefinition};

use crate::fault::{ListFault, RecoveryFault, fault_at};
use crate::held::without;
use crate::plan::plan;
use crate::rows::all_suit;
use ebr_base::{Change, CloneIn, List, NoMemory};
use ebr_core::add_table;
use ebr_cross::{Catalogue, CatalogueRecord};
use ebr_record::Record;
use ebr_tx::{LoadFault, Transactions};
use std::alloc::Global;

/// The catalogue and the data of some records, with so many sessions, none of which has begun a transaction.
///
/// The catalogue before a record is carried out tells what the record speaks of by number: the name of a table that is dropped,
/// say.
#[derive(Drop)]
pub struct Recovery {
    pub catalogue: Catalogue,
    pub transactions: Transactions,
}

impl Recovery {
    /// That of no record.
    pub fn new(alloc: Global, sessions: u32) -> Result<Recovery, NoMemory>
        ensures { IfOk result (λ r. StandsAt sessions [] r) }
    {
        let catalogue = Catalogue::new(alloc)?;
        let transactions = Transactions::new(alloc, sessions)?;
        Ok(Recovery {
            catalogue,
            transactions,
        })
    }

    /// Carries out the record that comes next, just where it is allowed behind those before it. One that isn't allowed leaves all as
    /// it is. Where there was no memory nothing is said of what stands, which is to be dropped then.
    ///
    /// What is tested, by the tables of Oracle Database SQL Language Reference 19c and limits of our own: `Allowed` of
    /// `ebr_allowed` tells it, kind by kind.
    pub fn next(&mut self, alloc: Global, r: &Record) -> Result<(), RecoveryFault>
        requires stands { IsRecovery self.old }
        requires room { HasRoom r.now }
        ensures { ForRecords self.old (λ sessions records. Recovers sessions records r.now self.new result) }
    {
        match r {
            Record::Commit(changes) => self.load(alloc, changes),
            _ => self.define(alloc, r),
        }
    }

    /// Carries out these records, one after the other, up to the first one that isn't allowed behind those before it, whose place it
    /// tells.
    pub fn extend(&mut self, alloc: Global, records: &[Record]) -> Result<(), ListFault>
        requires stands { IsRecovery self.old }
        requires room { All HasRoom records.now }
        ensures { ForRecords self.old (λ sessions before. Extends sessions before records.now self.new result) }
    {
        for (at, r) in records.iter().enumerate() {
            if let Err(fault) = self.next(alloc, r) {
                return Err(fault_at(fault, at));
            }
        }
        Ok(())
    }

    /// Loads a commit. What needs the catalogue is tested here, and the rest where it is loaded.
    fn load(&mut self, alloc: Global, changes: &List<Change>) -> Result<(), RecoveryFault>
        requires { IsRecovery self.old }
        ensures { ForRecords self.old (λ sessions records. Recovers sessions records (left.Commit changes.now) self.new result) }
    {
        if !all_suit(&self.catalogue.tables, changes.as_slice()) {
            return Err(RecoveryFault::NotAllowed);
        }
        let changes = changes.clone_in(alloc)?;
        match self.transactions.load(changes) {
            Ok(()) => Ok(()),
            Err(LoadFault::NotAllowed) => Err(RecoveryFault::NotAllowed),
            Err(LoadFault::NoMemory) => Err(RecoveryFault::NoMemory),
        }
    }

    /// Carries out what a definition left.
    fn define(&mut self, alloc: Global, r: &Record) -> Result<(), RecoveryFault>
        requires stands { IsRecovery self.old }
        requires room { HasRoom r.now }
        requires definition { IsDefinition r.now }
        ensures { ForRecords self.old (λ sessions records. Recovers sessions records r.now self.new result) }
    {
        match plan(alloc, &self.catalogue, r) {
            Ok(made) => {
                let done = self.carry_out(alloc, &made);
                without(made, done)
            }
            Err(fault) => Err(fault),
        }
    }

    /// Carries out what a record changes in the catalogue, and makes a table of it known to the transactions.
    fn carry_out(&mut self, alloc: Global, made: &CatalogueRecord) -> Result<(), RecoveryFault>
        requires follows { MayFollow self.old.catalogue made.now }
        requires new { IsNew self.old.transactions.contents made.now }
        ensures catalogue { ForLists self.old.catalogue (λ lists. OnOk result (self.new.catalogue ≡ as_catalogue (with_record lists made.now))) }
        ensures data { OnOk result (self.new.transactions.contents ≡ with_table_of self.old.transactions.contents made.now) }
        ensures fault { IfErr result (λ fault. fault ≡ wants) }
    {
        self.catalogue.carry_out(alloc, made)?;
        add_table(alloc, &mut self.transactions, made)?;
        Ok(())
    }
}
