//! The parts of the engine, and how it answers.

ghost use Rattle.std.specs.Prelude.{◌≡◌, ◌≢◌, ◌<◌, ◌≤◌, ◌+◌, ◌-◌, ℕ, List as Sequence, [], true, false, length, replicate, slice_set, IfErr, IfOk, OnOk, None, vec_len, vec_capacity};
ghost use Rattle.ebr_asks.specs.declared.ask.Ask.TheVariants.{Leave as leaves};
ghost use Rattle.ebr_asks.specs.declared.answer.Answer.TheVariants.{Done as done, NoMemory as wanting, Stopped as stopped};
ghost use Rattle.ebr_core.specs.Asked.{IsFit};
ghost use Rattle.ebr_record.specs.declared.record.Record.{Record as Made};
ghost use Rattle.ebr_seats.specs.Seats.{Begin};
ghost use Rattle.ebr_core.specs.Engine.{AnswersAsk, book_at, no_books, with_book};
ghost use Rattle.ebr_core.specs.History.{IsLive, is_light, is_short};
ghost use Rattle.ebr_core.specs.Machine as spec;
ghost use Rattle.ebr_core.specs.Recovered.{AreRecovered, IsReady};
ghost use Rattle.ebr_core.specs.inside.Held.{ComesWith, ForSession, Holds, IsHeld, IsReplied, Tries};
ghost use Rattle.ebr_core.specs.inside.Parts.{Adds, ArePlaces, GivesUp, HasRoom, IsEngine, IsSound, Keeps, database, entry, last_answer, lives_at, state_of};

use crate::current::{Current, Given, counted_reply, is_light};
use crate::leaving::counted_leave;
use crate::views::Views;
use ebr_asks::{Answer, Ask, Entry};
use ebr_base::{EditionNo, List, NoMemory, SessionId, Shared};
use ebr_cross::Catalogue;
use ebr_database::Halt;
use ebr_exec::World;
use ebr_record::{Keep, Record};
use ebr_seats::{Seat, first_seats, place};
use ebr_tx::Transactions;
use ebr_units::{Book, Units};
use std::alloc::Global;
use std::mem;

/// What the engine is made of.
#[derive(Drop)]
pub struct Parts<K> {
    pub alloc: Global,
    pub current: Current<K>,
    /// Which sessions are live.
    pub living: Vec<bool>,
    /// For each session the book of the view that it was answered last, until it is taken.
    pub books: Vec<Option<Shared<Book>>>,
    pub history: Vec<Entry>,
    /// The records of the database with which the history began.
    pub recovered: List<Record>,
    /// An ask met a fault of the disk, or found no memory.
    pub stopped: bool,
}

/// What so many sessions have beside their database: a seat, whether they live, a book that is set aside, and the history.
#[derive(Drop)]
struct Places {
    seats: Vec<Seat>,
    living: Vec<bool>,
    books: Vec<Option<Shared<Book>>>,
    history: Vec<Entry>,
}

impl<K: Keep> Parts<K> {
    /// With so many live sessions and an empty history, over the records that were recovered, of which the catalogue and the data
    /// are. Where there is no memory it gives the keeper back.
    pub fn over(
        alloc: Global,
        keeper: K,
        recovered: List<Record>,
        catalogue: Catalogue,
        transactions: Transactions,
        sessions: u32,
    ) -> Result<Parts<K>, K>
        requires are { AreRecovered recovered sessions catalogue transactions.contents }
        requires ready { IsReady recovered (K.as_keeper keeper) }
        ensures sound { IfOk result (λ p. IsEngine K.as_keeper p) }
        ensures state { IfOk result (λ p. state_of K.as_keeper p ≡ record { history = []; recovered = recovered; books = no_books sessions; keeper = keeper }) }
        ensures keeper { IfErr result (λ k. k ≡ keeper) }
    {
        match places_for(alloc, sessions, catalogue.chain.default()) {
            Ok(places) => Ok(Parts {
                alloc,
                current: first_current(alloc, keeper, catalogue, transactions, places.seats),
                living: places.living,
                books: places.books,
                history: places.history,
                recovered,
                stopped: false,
            }),
            Err(NoMemory) => Err(keeper),
        }
    }

    /// Answers one ask of a live session.
    pub fn answer(&mut self, s: SessionId, ask: Ask) -> Answer
        requires sound { IsEngine K.as_keeper self.old }
        requires live { IsLive (database K.as_keeper self.old) s }
        requires fit { IsFit ask }
        requires short { is_short self.old.history.items s ≡ true → ask ≡ leaves }
        ensures sound { IsEngine K.as_keeper self.new }
        ensures answers { AnswersAsk K.as_keeper (state_of K.as_keeper self.old) (state_of K.as_keeper self.new) s ask result }
    {
        if self.stopped {
            return self.stop(s);
        }
        if let Ask::Leave = ask {
            return self.leave(s);
        }
        self.reply(s, ask)
    }

    /// Answers that the engine has stopped. The session leaves.
    fn stop(&mut self, s: SessionId) -> Answer
        requires { HasRoom K.as_keeper self.old s }
        ensures answer { result ≡ stopped }
        ensures adds { Adds K.as_keeper self.old self.new s (entry s leaves stopped) None (slice_set self.old.living.items (s.0 - 1) false) }
        ensures current { self.new.current ≡ self.old.current }
    {
        put_at(&mut self.living, place(s), false);
        self.add(s, Ask::Leave, Answer::Stopped, None);
        Answer::Stopped
    }

    /// Answers a Leave, which takes no memory.
    fn leave(&mut self, s: SessionId) -> Answer
        requires room { HasRoom K.as_keeper self.old s }
        requires held { IsHeld K.as_keeper self.old.current s }
        ensures answer { result ≡ done }
        ensures adds { Adds K.as_keeper self.old self.new s (entry s leaves done) None (slice_set self.old.living.items (s.0 - 1) false) }
        ensures reply { ForSession K.as_keeper self.old.current s (λ db e x. IsReplied K.as_keeper self.old.current self.new.current done (spec.Reply db s leaves)) }
    {
        counted_leave(&mut self.current, s);
        put_at(&mut self.living, place(s), false);
        self.add(s, Ask::Leave, Answer::Done, None);
        Answer::Done
    }

    /// Answers an ask that isn't Leave, while the engine runs.
    fn reply(&mut self, s: SessionId, ask: Ask) -> Answer
        requires sound { IsSound K.as_keeper self.old }
        requires runs { self.old.stopped ≡ false }
        requires live { IsLive (database K.as_keeper self.old) s }
        requires stays { ask ≢ leaves }
        requires fit { IsFit ask }
        requires short { is_short self.old.history.items s ≡ true → ask ≡ leaves }
        ensures sound { IsSound K.as_keeper self.new }
        ensures answers { AnswersAsk K.as_keeper (state_of K.as_keeper self.old) (state_of K.as_keeper self.new) s ask result }
    {
        match self.try_reply(s, &ask) {
            Ok((given, copy)) => self.give(s, ask, given, copy),
            Err(why) => {
                if is_light(&ask) {
                    return self.pass_by(s, ask);
                }
                self.give_up(s, ask, why)
            }
        }
    }

    /// Answers that there is no memory for an ask that leaves all as it was.
    fn pass_by(&mut self, s: SessionId, ask: Ask) -> Answer
        requires { HasRoom K.as_keeper self.old s }
        ensures answer { result ≡ wanting }
        ensures adds { Adds K.as_keeper self.old self.new s (entry s ask wanting) None self.old.living.items }
        ensures current { self.new.current ≡ self.old.current }
    {
        self.add(s, ask, Answer::NoMemory, None);
        Answer::NoMemory
    }

    /// Gives an answer, of which this is a copy.
    fn give(&mut self, s: SessionId, ask: Ask, given: Given, copy: Answer) -> Answer
        requires { HasRoom K.as_keeper self.old s }
        ensures answer { result ≡ given.0 }
        ensures adds { Adds K.as_keeper self.old self.new s (entry s ask copy) given.1 self.old.living.items }
        ensures current { self.new.current ≡ self.old.current }
    {
        let (answer, book) = given;
        self.add(s, ask, copy, book);
        answer
    }

    /// Replies to an ask that isn't Leave, with a copy of the answer for the history, and makes room for its entry.
    fn try_reply(&mut self, s: SessionId, ask: &Ask) -> Result<(Given, Answer), Halt>
        requires held { IsHeld K.as_keeper self.old.current s }
        requires stays { ask.now ≢ leaves }
        requires fit { IsFit ask.now }
        ensures keeps { Keeps K.as_keeper self.old self.new }
        ensures reply { ForSession K.as_keeper self.old.current s (λ db e x. Tries K.as_keeper (is_light ask.now) self.old.current self.new.current db result (spec.Reply db s ask.now)) }
        ensures book { IfOk result (λ pair. ComesWith ask.now pair.0.0 pair.0.1) }
        ensures room { OnOk result (vec_len self.new.history + (length self.new.living.items + length self.new.living.items + 1) ≤ vec_capacity self.new.history) }
    {
        self.make_room()?;
        counted_reply(self.alloc, &mut self.current, s, ask)
    }

    /// Room for an entry, and for two more of each session.
    fn make_room(&mut self) -> Result<(), NoMemory>
        ensures keeps { Keeps K.as_keeper self.old self.new }
        ensures current { self.new.current ≡ self.old.current }
        ensures room { OnOk result (vec_len self.new.history + (length self.new.living.items + length self.new.living.items + 1) ≤ vec_capacity self.new.history) }
    {
        let sessions = self.living.len();
        self.history.reserve(sessions + sessions + 1)?;
        Ok(())
    }

    /// Gives up, with a last entry.
    fn give_up(&mut self, s: SessionId, ask: Ask, why: Halt) -> Answer
        requires { HasRoom K.as_keeper self.old s }
        ensures answer { result ≡ last_answer why }
        ensures gives { GivesUp K.as_keeper self.old self.new s (entry s ask (last_answer why)) }
        ensures current { self.new.current ≡ self.old.current }
    {
        self.add(s, ask, last_answer(why), None);
        self.stopped = true;
        last_answer(why)
    }

    /// Adds an entry to the history, where there is room for it, and sets a book aside.
    fn add(&mut self, session: SessionId, ask: Ask, answer: Answer, book: Option<Shared<Book>>)
        requires { HasRoom K.as_keeper self.old session }
        ensures adds { Adds K.as_keeper self.old self.new session (entry session ask answer) book self.old.living.items }
        ensures current { self.new.current ≡ self.old.current }
    {
        put_at(&mut self.books, place(session), book);
        self.history.push_reserved(Entry {
            session,
            ask,
            answer,
        });
    }

    /// Whether a session is live.
    pub fn live(&self, s: SessionId) -> bool
        ensures { result ≡ lives_at self.now.living.items s.0 }
    {
        if s.0 == 0 || place(s) >= self.living.len() {
            return false;
        }
        self.living[place(s)]
    }

    /// The book of a session, where one is set aside, which it is no more then.
    pub fn take_book(&mut self, s: SessionId) -> Option<Shared<Book>>
        requires { IsEngine K.as_keeper self.old }
        ensures sound { IsEngine K.as_keeper self.new }
        ensures book { result ≡ book_at self.old.books.items s.0 }
        ensures state { state_of K.as_keeper self.new ≡ record (state_of K.as_keeper self.old) { books = with_book self.old.books.items s.0 None } }
    {
        take_at(&mut self.books, s)
    }
}

/// The places of so many sessions, in an edition, with room for two entries of each.
fn places_for(alloc: Global, sessions: u32, e: EditionNo) -> Result<Places, NoMemory>
    ensures { IfOk result (λ p. ArePlaces p sessions e) }
{
    let mut history = Vec::new(alloc);
    history.reserve(sessions as usize + sessions as usize)?;
    let seats = first_seats(alloc, sessions, e)?;
    let living = all_live(alloc, sessions)?;
    let books = empty_books(alloc, sessions)?;
    Ok(Places {
        seats,
        living,
        books,
        history,
    })
}

/// The database of a catalogue and of data in which no transaction has begun.
fn first_current<K: Keep>(
    alloc: Global,
    keeper: K,
    catalogue: Catalogue,
    tx: Transactions,
    seats: Vec<Seat>,
) -> Current<K>
    ensures holds { (records : Sequence Made) (n : ℕ) → AreRecovered records n catalogue tx.contents → Begin n catalogue.chain.default seats.items → IsReady records (K.as_keeper keeper)
        → Holds K.as_keeper result (spec.Build records n) }
    ensures keeper { result.world.keeper ≡ keeper }
{
    Current {
        world: World {
            catalogue,
            book: Units::new(alloc),
            tx,
            keeper,
        },
        views: Views::new(alloc),
        seats,
    }
}

/// The answer with which the engine gives up.
fn last_answer(why: Halt) -> Answer
    ensures { result ≡ last_answer why }
{
    match why {
        Halt::DiskFault => Answer::DiskFault,
        Halt::Stopped | Halt::NoMemory => Answer::NoMemory,
    }
}

/// Puts a value in the place of another one.
fn put_at<T: Drop>(items: &mut Vec<T>, at: usize, value: T)
    requires { at < length items.old.items }
    ensures { items.new.items ≡ slice_set items.old.items at value }
{
    items[at] = value;
}

/// The book of a session, where one is set aside, which it is no more then.
fn take_at(books: &mut Vec<Option<Shared<Book>>>, s: SessionId) -> Option<Shared<Book>>
    ensures book { result ≡ book_at books.old.items s.0 }
    ensures taken { books.new.items ≡ with_book books.old.items s.0 None }
{
    if s.0 == 0 || place(s) >= books.len() {
        return None;
    }
    mem::replace(&mut books[place(s)], None)
}

/// So many live sessions.
fn all_live(alloc: Global, sessions: u32) -> Result<Vec<bool>, NoMemory>
    ensures { IfOk result (λ living. living.items ≡ replicate sessions true) }
{
    let mut living = Vec::new(alloc);
    for _turn in 0..sessions {
        living.push(true)?;
    }
    Ok(living)
}

/// No book for any of so many sessions.
fn empty_books(alloc: Global, sessions: u32) -> Result<Vec<Option<Shared<Book>>>, NoMemory>
    ensures { IfOk result (λ books. books.items ≡ no_books sessions) }
{
    let mut books = Vec::new(alloc);
    for _turn in 0..sessions {
        books.push(None)?;
    }
    Ok(books)
}
