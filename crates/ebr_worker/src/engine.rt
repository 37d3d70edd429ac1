//! The engine, asked by its sessions.

ghost use Rattle.std.specs.Prelude.{◌≡◌, [], true, IfOk, length};
ghost use Rattle.ebr_asks.specs.declared.ask.Ask.TheVariants.{Leave as leaves};
ghost use Rattle.ebr_session.specs.Has.{IsFit};
ghost use Rattle.ebr_core.specs.Engine.{database_of, no_books};
ghost use Rattle.ebr_core.specs.History.{IsLive, is_short};
ghost use Rattle.ebr_worker.specs.Paced.{IsSession};
ghost use Rattle.ebr_worker.specs.Replies.{Replies};
ghost use Rattle.ebr_worker.specs.Work.{Stands, Turned};
ghost use Rattle.ebr_worker.specs.inside.Memory.{nothing_kept};

use crate::memory::MemoryKeep;
use crate::worker::Worker;
use ebr_asks::{Answer, Ask};
use ebr_base::{NoMemory, SessionId, Shared};
use ebr_core::Engine;
use ebr_outside::Sink;
use ebr_record::Keep;
use ebr_units::Book;
use std::alloc::Global;

/// An engine with an empty database and so many live sessions.
pub fn empty_engine(alloc: Global, sessions: u32) -> Result<Engine<MemoryKeep>, NoMemory>
    ensures { IfOk result (λ e. e ≡ record { history = []; recovered = []; books = no_books sessions; keeper = nothing_kept }) }
{
    let keeper = MemoryKeep::new(alloc)?;
    Engine::start(alloc, keeper, sessions)
}

/// Has one ask of a session answered. With a view comes the book of it.
pub fn answer<K: Keep>(
    engine: &mut Engine<K>,
    session: SessionId,
    ask: Ask,
) -> (Answer, Option<Shared<Book>>)
    requires seat { IsSession (length engine.old.books) session }
    requires live { IsLive (database_of engine.old) session }
    requires fit { IsFit ask }
    requires short { is_short engine.old.history session ≡ true → ask ≡ leaves }
    ensures { Replies K.as_keeper engine.old engine.new session ask result.0 result.1 }
{
    let answer = engine.answer(session, ask);
    let book = engine.take_book(session);
    (answer, book)
}

/// A turn of a worker whose asks the engine answers.
pub fn turn<K: Keep, S: Sink>(worker: &mut Worker<S>, engine: &mut Engine<K>)
    requires { Stands worker.old engine.old }
    ensures { Turned K.as_keeper worker.old worker.new engine.old engine.new }
{
    worker.turn(engine);
}
