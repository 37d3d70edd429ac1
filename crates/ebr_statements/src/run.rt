//! The statement of a session.

ghost use Rattle.std.specs.Prelude.{◌≡◌, false, OnErr};
ghost use Rattle.ebr_ast.specs.Views.{IsInOrder};
ghost use Rattle.ebr_database.specs.Shows.{Tells, base_of};
ghost use Rattle.ebr_exec.specs.Places.{names_of, own_place};
ghost use Rattle.ebr_bodies.specs.OtherWorlds.{IsApart};
ghost use Rattle.ebr_bodies.specs.Statements as spec;
ghost use Rattle.ebr_statements.specs.Fits.{Fits, ForViews, IsAsBefore, Remains};

use crate::cycle::statement;
use ebr_asks::Answer;
use ebr_ast::{EditionView, Origin, SqlTree};
use ebr_base::{List, TxId, Value};
use ebr_database::Halt;
use ebr_exec::World;
use ebr_record::Keep;
use ebr_units::Units;
use std::alloc::Global;

/// How deep statements may stand in the bodies of triggers.
const MOST_LEVELS: u32 = 50;

/// A session's statement in its transaction, against what its edition sees. The bodies of its triggers may take `left` steps, and
/// there is room for so much that a session carries. Where it gives up, its transaction is as it was before, and what autonomous
/// transactions committed stays; a query then changes nothing, and asks nothing of the keeper.
///
/// Editions are apart: over every second catalogue that agrees with this one for the statement, it answers the same, leaves the same
/// data and makes the same records. The second one agrees where the session's edition sees the same in both, and where the questions
/// which triggers fire, as far as this statement asked them, are answered alike, by triggers whose bodies run in the edition of the
/// statement that fires them or in one that sees the same in both. It asks them for ORA-04098: where an earlier test refuses it, it
/// has asked nothing. How many bytes the records take is no matter, unless EBR-0042 arises in one of the two.
pub fn run_sql<K: Keep>(
    alloc: Global,
    world: &mut World<K, Units>,
    t: TxId,
    v: &EditionView,
    s: &SqlTree,
    binds: &[Value],
    left: u32,
    room: u32,
) -> Result<Answer, Halt>
    requires order { IsInOrder v.now }
    requires tables { v.now.tables ≡ world.old.catalogue.tables.living }
    requires fit { Fits world.old.catalogue world.old.book world.old.tx.contents t }
    ensures exact { ForViews world.old.catalogue world.old.book v.now (λ c.
        Tells (spec.Stmt (names_of c) 50 (own_place v.now.edition t) s.now binds.now left room (base_of world.old.tx.contents (K.as_keeper world.old.keeper)))
        (base_of world.new.tx.contents (K.as_keeper world.new.keeper)) (K.as_keeper world.old.keeper) (K.as_keeper world.new.keeper) result) }
    ensures apart { ForViews world.old.catalogue world.old.book v.now (λ c.
        IsApart (names_of c) 50 (own_place v.now.edition t) s.now binds.now left room (base_of world.old.tx.contents (K.as_keeper world.old.keeper)) result world.new.tx.contents) }
    ensures catalogue { world.new.catalogue ≡ world.old.catalogue }
    ensures remains { Remains world.old.catalogue t (λ u table. false) world.old.book world.old.tx.contents world.new.book world.new.tx.contents }
    ensures as_before { OnErr result (IsAsBefore s.now t world.old.tx.contents world.new.tx.contents world.old.keeper world.new.keeper) }
{
    let changing = List::new(alloc);
    statement(
        alloc,
        &world.catalogue,
        &mut world.book,
        &mut world.tx,
        &mut world.keeper,
        v,
        Origin::Plain,
        t,
        &changing,
        s,
        binds,
        left,
        room,
        MOST_LEVELS,
    )
}
