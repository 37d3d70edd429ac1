//! The engine, with the history of all asks.

ghost use Rattle.std.specs.Prelude.{◌≡◌, ◌≤◌, ◌↔◌, [], true, length, IsTrue, IfErr, IfOk, None};
ghost use Rattle.ebr_core.specs.Apart.{IsApart};
ghost use Rattle.ebr_core.specs.Asked.{AreFit, IsFit};
ghost use Rattle.ebr_core.specs.Engine.{AnswersAsk, HasLegalHistory, IsEmpty, book_at, database_of, no_books, with_book};
ghost use Rattle.ebr_asks.specs.declared.ask.Ask.TheVariants.{Leave as leaves};
ghost use Rattle.ebr_core.specs.History.{IsLive, is_short};
ghost use Rattle.ebr_core.specs.Kept.{StopsWithin};
ghost use Rattle.ebr_core.specs.Machine.{Reply};
ghost use Rattle.ebr_core.specs.Recovered.{AreRecovered, IsReady};

use crate::current::Current;
use crate::parts::Parts;
use ebr_asks::{Answer, Ask, Entry};
use ebr_base::{List, NoMemory, SessionId, Shared};
use ebr_cross::Catalogue;
use ebr_exec::World;
use ebr_record::{Keep, Record};
use ebr_tx::Transactions;
use ebr_units::Book;
use std::alloc::Global;
use std::marker::Model;

/// The edition machine: a database, its sessions, numbered from 1, and the history of their asks, which begins with the database of
/// the records that were recovered. Every answer makes one entry.
#[derive(Drop)]
pub struct Engine<K: Keep> {
    parts: Parts<K>,
}

impl<K: Keep> Model for Engine<K> {
    ghost use Rattle.std.specs.Coded.{codes};
    ghost use Rattle.ebr_asks.specs.contracts.ask.Ask as a;
    ghost use Rattle.ebr_asks.specs.contracts.entry.Entry as x;
    ghost use Rattle.ebr_ast.specs.contracts.view.EditionView as v;
    ghost use Rattle.ebr_record.specs.contracts.record.Record as r;
    ghost use Rattle.ebr_core.specs.Engine.{EngineState};
    ghost use Rattle.ebr_core.specs.inside.Parts.{IsEngine, state_of};

    ghost Value = { EngineState K };

    ghost coded = { Prim.hlevel (codes, a.the_row.coded, x.the_row.coded, r.the_row.coded, v.the_row.coded, K.code) };

    ghost view = { λ e. state_of K.as_keeper e.parts };

    ghost invariant = { λ e. IsEngine K.as_keeper e.parts };
}

impl<K: Keep> Engine<K> {
    /// An engine with an empty database and so many live sessions, over a keeper that has kept nothing.
    pub fn start(alloc: Global, keeper: K, sessions: u32) -> Result<Engine<K>, NoMemory>
        requires { IsEmpty (K.as_keeper keeper) }
        ensures { IfOk result (λ e. e ≡ record { history = []; recovered = []; books = no_books sessions; keeper = keeper }) }
    {
        let catalogue = Catalogue::new(alloc)?;
        let transactions = Transactions::new(alloc, sessions)?;
        let none = List::new(alloc);
        match Engine::over(alloc, keeper, none, catalogue, transactions, sessions) {
            Ok(engine) => Ok(engine),
            Err(_) => Err(NoMemory),
        }
    }

    /// An engine over the database of the records that were recovered, with so many live sessions in its default edition. The
    /// catalogue and the data, in which no transaction has begun, are those of the records, and the keeper keeps what comes behind
    /// them. Where there is no memory it gives the keeper back.
    pub fn over(
        alloc: Global,
        keeper: K,
        recovered: List<Record>,
        catalogue: Catalogue,
        transactions: Transactions,
        sessions: u32,
    ) -> Result<Engine<K>, K>
        requires are { AreRecovered recovered sessions catalogue transactions.contents }
        requires ready { IsReady recovered (K.as_keeper keeper) }
        ensures engine { IfOk result (λ e. e ≡ record { history = []; recovered = recovered; books = no_books sessions; keeper = keeper }) }
        ensures keeper { IfErr result (λ k. k ≡ keeper) }
    {
        match Parts::over(alloc, keeper, recovered, catalogue, transactions, sessions) {
            Ok(parts) => Ok(Engine { parts }),
            Err(keeper) => Err(keeper),
        }
    }

    /// Answers one ask of a live session. Where the answer is a view, the book of it is set aside for `take_book`.
    ///
    /// A call that begins and a query that locks no rows, for which there is no memory, leave all as it was, and the session may make
    /// Leave alone then. Once an answer was DiskFault, or any other ask found no memory, every ask is answered Stopped, and the session
    /// has left.
    ///
    /// Where the keeper tells it, a stop at any moment of the call leaves the records kept before it and the first of those that the
    /// ask makes, whatever the answer is.
    ///
    /// Editions are apart: in every second database that differs from this one in its catalogue alone, and whose catalogue agrees with
    /// this one for the ask, the answer would be the same, and so would the records made; what is left would differ in its catalogue
    /// alone, and the session's edition would see the same in it. The second catalogue agrees where the session's edition sees the same
    /// in both; where the ask makes an object or alters a trigger, as many objects must have been defined and dropped in that edition;
    /// and where it is a statement, the triggers that it fires must agree, as `ebr_statements::run_sql` has it. Nothing is said of the
    /// choice of an edition and of definitions of editions, nor where EBR-0042 arises in one of the two.
    pub fn answer(&mut self, s: SessionId, ask: Ask) -> Answer
        requires live { IsLive (database_of self.old) s }
        requires fit { IsFit ask }
        requires short { is_short self.old.history s ≡ true → ask ≡ leaves }
        ensures answers { AnswersAsk K.as_keeper self.old self.new s ask result }
        ensures stops { StopsWithin (K.as_keeper self.old.keeper) (K.as_keeper self.new.keeper) (Reply (database_of self.old) s ask).records }
        ensures apart { IsApart (database_of self.old) s ask result (database_of self.new) }
    {
        self.parts.answer(s, ask)
    }

    /// Whether a session is there, and hasn't left. Sessions are numbered from 1, and each has a place for a book.
    pub fn live(&self, s: SessionId) -> bool
        ensures live { IsTrue result ↔ IsLive (database_of self.now) s }
        ensures range { IsTrue result → (1 ≤ s.0) × (s.0 ≤ length self.now.books) }
    {
        self.parts.live(s)
    }

    /// The book of the view that the session was answered last, where it wasn't taken yet.
    pub fn take_book(&mut self, s: SessionId) -> Option<Shared<Book>>
        ensures book { result ≡ book_at self.old.books s.0 }
        ensures taken { self.new ≡ record self.old { books = with_book self.old.books s.0 None } }
    {
        self.parts.take_book(s)
    }

    /// The history.
    pub fn history(&self) -> &[Entry]
        ensures history { result.now ≡ self.now.history }
        ensures legal { HasLegalHistory self.now }
        ensures fit { AreFit self.now.history }
    {
        self.parts.history.as_slice()
    }

    /// The records of the database with which the history began.
    pub fn recovered(&self) -> &[Record]
        ensures { result.now ≡ self.now.recovered }
    {
        self.parts.recovered.as_slice()
    }

    /// The records of the database with which the history began, the history, and the keeper.
    pub fn into_parts(self) -> (List<Record>, List<Entry>, K)
        ensures recovered { result.0 ≡ self.recovered }
        ensures history { result.1 ≡ self.history }
        ensures keeper { result.2 ≡ self.keeper }
        ensures legal { HasLegalHistory self }
        ensures fit { AreFit self.history }
    {
        let Engine { parts } = self;
        let Parts {
            recovered,
            history,
            current,
            ..
        } = parts;
        let Current { world, .. } = current;
        let World { keeper, .. } = world;
        (recovered, List::from_vec(history), keeper)
    }
}
