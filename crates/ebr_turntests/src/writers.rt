//! Writers at work.
ghost use Rattle.std.specs.Prelude.{◌≡◌, ◌≤◌, ◌<◌, ◌+◌, ◌^◌, ℕ, [], ◌∷◌, length, slice_index_or, IfOk, IfErr, None};
ghost use Rattle.ebr_turn.specs.Chairs.{items, opener};
ghost use Rattle.ebr_turn.specs.declared.view.Stage.TheVariants.{Idle};
ghost use Rattle.ebr_turntests.specs.Ready.{IsReady, Wrote};
ghost use Rattle.ebr_turntests.specs.Rows.{gave, AllNew, AllWritten, HasWritten, Gathers, HasAll};
ghost use Rattle.ebr_turntests.specs.declared.writer.Writer.{Writer as Writing};

use crate::book::Book;
use crate::writer::Writer;
use ebr_turn::{Chair, Turn, Unmade};
use std::alloc::{AllocError, Global};
use std::sync::Wait;
use std::thread;
use std::thread::Threads;

/// Appends the numbers from 1 to the writer's count, under its number.
pub fn write<R: Wait>(rt: &R, turn: &Turn<Book>, writer: &mut Writer)
    requires at { writer.old.chair.turn ≡ turn.now.id }
    requires ready { IsReady writer.old }
    ensures { Wrote writer.old writer.new }
{
    for i in 0..writer.count {
        let book = turn
            .enter(rt, &mut writer.chair)
            .append(rt, writer.number, i + 1);
        turn.leave(&mut writer.chair, book);
    }
}

/// A chair for each number from 1 to `writers`. Where there is no memory, no chair was made.
pub fn seat_all(
    alloc: Global,
    turn: &Turn<Book>,
    first: &mut Chair<Book>,
    writers: u32,
    count: u32,
) -> Result<Vec<Writer, Global>, AllocError>
    requires at { first.old.turn ≡ turn.now.id }
    requires first { first.old.view ≡ opener [] (writers + 1) }
    ensures at { first.new.turn ≡ first.old.turn }
    ensures ok { IfOk result (λ ws. (length ws.items ≡ writers) × (first.new.view ≡ gave writers (writers + 1)) × AllNew first.old.turn count ws.items) }
    ensures err { IfErr result (λ _. first.new.view ≡ first.old.view) }
{
    let mut seats = Vec::with_capacity(alloc, writers as usize)?;
    for before in 0..writers {
        let number = before + 1;
        let chair = turn.split(first, number);
        seats.push_reserved(Writer {
            chair,
            number,
            count,
        });
    }
    Ok(seats)
}

/// Takes all chairs into the first one.
pub fn join_all(
    turn: &Turn<Book>,
    first: &mut Chair<Book>,
    mut seats: Vec<Writer, Global>,
    count: u32,
)
    requires at { first.old.turn ≡ turn.now.id }
    requires first { (first.old.view.stage ≡ Idle) × (first.old.view.number ≡ None) × (first.old.view.kept ≡ []) }
    requires written { AllWritten turn.now.id count seats.items }
    ensures at { first.new.turn ≡ first.old.turn }
    ensures first { (first.new.view.stage ≡ Idle) × (first.new.view.share ≡ first.old.view.share + length seats.items) }
    ensures gathers { Gathers count 0 (length seats.items) first.new.view }
{
    while let Some(writer) = seats.pop() {
        turn.join(first, writer.into_chair());
    }
    seats.destroy_empty();
}

/// All writers write, each in a thread of its own.
pub fn work<R: Threads + Wait + Sync>(
    rt: &R,
    turn: &Turn<Book>,
    seats: &mut [Writer],
    threads: usize,
    count: u32,
)
    requires few { (count ≤ 2 ^ 31) × (0 < threads) }
    requires new { AllNew turn.now.id count seats.old }
    ensures written { (k : ℕ) (d : Writing) → k < length seats.old → HasWritten turn.now.id count k (slice_index_or seats.new k d) }
{
    let _ = count;
    thread::for_each_mut(
        rt,
        seats,
        threads,
        &|_place: usize, writer: &mut Writer|
            requires { (writer.now.chair.turn ≡ turn.now.id) × IsReady writer.now }
            ensures { Wrote writer.entry.now writer.exit.now }
        { write(rt, turn, writer) },
    );
}

/// One chair, with the number 1, writes one item.
pub fn write_one<R: Wait>(rt: &R, alloc: Global, item: u32) -> Result<Book, AllocError>
    ensures { IfOk result (λ b. items 1 b.entries.items ≡ item ∷ []) }
{
    let (turn, mut first) = match Turn::new(alloc, Book::new(alloc), 2) {
        Ok(made) => made,
        Err(Unmade { value: _ }) => return Err(AllocError),
    };
    let mut one = turn.split(&mut first, 1);
    let book = turn.enter(rt, &mut one).append(rt, 1, item);
    turn.leave(&mut one, book);
    turn.join(&mut first, one);
    Ok(turn.close(first))
}

/// So many writers write the numbers from 1 to `count`.
pub fn write_all<R: Threads + Wait + Sync>(
    rt: &R,
    alloc: Global,
    writers: u32,
    count: u32,
) -> Result<Book, AllocError>
    requires { (count ≤ 2 ^ 31) × (writers < 2 ^ 31) }
    ensures { IfOk result (λ b. HasAll writers count b.entries.items) }
{
    let (turn, mut first) = match Turn::new(alloc, Book::new(alloc), writers + 1) {
        Ok(made) => made,
        Err(Unmade { value: _ }) => return Err(AllocError),
    };
    let mut seats = match seat_all(alloc, &turn, &mut first, writers, count) {
        Ok(seats) => seats,
        Err(AllocError) => {
            turn.close(first);
            return Err(AllocError);
        }
    };
    let threads = seats.len().max(1);
    work(rt, &turn, &mut seats, threads, count);
    join_all(&turn, &mut first, seats, count);
    Ok(turn.close(first))
}
