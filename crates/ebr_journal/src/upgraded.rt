//! A journal with the mark, as a keeper of records.

ghost use Rattle.std.specs.Prelude.{◌≡◌, IsTrue};
ghost use Rattle.ebr_encoding.specs.declared.form.Form.TheVariants.{Long};

use crate::journal::Journal;
use ebr_outside::Disk;
use ebr_record::{JournalFault, Keep, Record};
use std::marker::Model;

/// A journal that takes records in the long form, which each record has that has a payload.
#[derive(Drop)]
pub struct Upgraded<D: Disk> {
    journal: Journal<D>,
}

impl<D: Disk> Model for Upgraded<D> {
    ghost use Rattle.std.specs.Prelude.{◌≡◌};
    ghost use Rattle.ebr_encoding.specs.declared.form.Form.TheVariants.{Long};
    ghost use Rattle.ebr_journal.specs.Keeper.{JournalState};

    ghost Value = { JournalState D };

    ghost view = { λ u. u.journal };

    ghost invariant = { λ u. u.journal.form ≡ Long };
}

impl<D: Disk> Upgraded<D> {
    /// A journal with the mark, as `Journal::upgrade` leaves it.
    pub fn new(journal: Journal<D>) -> Upgraded<D>
        requires { journal.form ≡ Long }
        ensures { result ≡ journal }
    {
        Upgraded { journal }
    }

    /// The journal.
    pub fn into_journal(self) -> Journal<D>
        ensures { result ≡ self }
    {
        let Upgraded { journal } = self;
        journal
    }
}

impl<D: Disk> Keep for Upgraded<D> {
    ghost use Rattle.ebr_journal.specs.Keeper.{as_keeper, leaves_less};

    ghost as_keeper = { as_keeper D.as_medium };

    ghost leaves_less = { leaves_less D.as_medium D.leaves_less };

    fn is_stopped(&self) -> bool {
        self.journal.is_stopped()
    }

    fn keep(&mut self, r: &Record) -> Result<(), JournalFault> {
        self.journal.append(r)
    }
}
