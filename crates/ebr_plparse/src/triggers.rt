//! Triggers.

ghost use Rattle.std.specs.Prelude.{◌≡◌};
ghost use Rattle.ebr_grammar.specs.Outcome.{Reads};
ghost use Rattle.ebr_grammar.specs.Reading.{with_first};
ghost use Rattle.ebr_plparse.specs.Productions.{reads_by};
ghost use Rattle.ebr_plparse.specs.Triggers as grammar;

use ebr_ast::{Block, Direction, Op, Timing, Trigger};
use ebr_base::{List, Name, Shared};
use ebr_grammar::{Kind, ReadStop, Tokens, shared};
use ebr_stmtparse::read_block;
use std::alloc::Global;

/// When a trigger fires, and on what table or editioning view.
#[derive(Drop)]
pub struct EventClause {
    pub timing: Timing,
    pub events: List<Op>,
    pub on: Name,
}

/// Whether a trigger is a crossedition trigger, and whether it is enabled.
#[derive(Clone, Copy)]
pub struct TriggerOptions {
    pub crossedition: Option<Direction>,
    pub enabled: bool,
}

fn timing(tokens: &mut Tokens<'_>) -> Result<Timing, ReadStop>
    ensures { Reads (reads_by grammar.timing tokens.old) result tokens.new }
{
    if tokens.eat(Kind::Before) {
        return Ok(Timing::Before);
    }
    tokens.expect(Kind::After)?;
    Ok(Timing::After)
}

fn event(tokens: &mut Tokens<'_>) -> Result<Op, ReadStop>
    ensures { Reads (reads_by grammar.event tokens.old) result tokens.new }
{
    if tokens.eat(Kind::Insert) {
        return Ok(Op::Insert);
    }
    if tokens.eat(Kind::Update) {
        return Ok(Op::Update);
    }
    tokens.expect(Kind::Delete)?;
    Ok(Op::Delete)
}

/// The events behind the first, and with it.
fn more_events(alloc: Global, tokens: &mut Tokens<'_>, first: Op) -> Result<List<Op>, ReadStop>
    ensures { Reads (with_first first (reads_by grammar.more_events tokens.old)) result tokens.new }
{
    let mut found = List::new(alloc);
    found.push(first)?;
    for _turn in 0..tokens.left() {
        if !tokens.eat(Kind::Or) {
            return Ok(found);
        }
        let next = event(tokens)?;
        found.push(next)?;
    }
    Ok(found)
}

fn events(alloc: Global, tokens: &mut Tokens<'_>) -> Result<List<Op>, ReadStop>
    ensures { Reads (reads_by grammar.events tokens.old) result tokens.new }
{
    let first = event(tokens)?;
    more_events(alloc, tokens, first)
}

/// `FOR EACH ROW`.
fn each_row(tokens: &mut Tokens<'_>) -> Result<(), ReadStop>
    ensures { Reads (reads_by grammar.each_row tokens.old) result tokens.new }
{
    tokens.expect(Kind::For)?;
    tokens.expect(Kind::Each)?;
    tokens.expect(Kind::Row)?;
    Ok(())
}

/// What stands behind ON.
fn on_rows(alloc: Global, tokens: &mut Tokens<'_>) -> Result<Name, ReadStop>
    ensures { Reads (reads_by grammar.on_rows tokens.old) result tokens.new }
{
    let on = tokens.name(alloc)?;
    each_row(tokens)?;
    Ok(on)
}

/// What stands behind a trigger's name, up to FOR EACH ROW.
fn event_clause(alloc: Global, tokens: &mut Tokens<'_>) -> Result<EventClause, ReadStop>
    ensures { Reads (reads_by grammar.event_clause tokens.old) result tokens.new }
{
    let timing = timing(tokens)?;
    let events = events(alloc, tokens)?;
    tokens.expect(Kind::On)?;
    let on = on_rows(alloc, tokens)?;
    Ok(EventClause { timing, events, on })
}

fn crossedition(tokens: &mut Tokens<'_>) -> Result<Option<Direction>, ReadStop>
    ensures { Reads (reads_by grammar.crossedition tokens.old) result tokens.new }
{
    if tokens.eat(Kind::Forward) {
        tokens.expect(Kind::Crossedition)?;
        Ok(Some(Direction::Forward))
    } else if tokens.eat(Kind::Reverse) {
        tokens.expect(Kind::Crossedition)?;
        Ok(Some(Direction::Reverse))
    } else {
        Ok(None)
    }
}

/// Whether a trigger is enabled.
fn enabled(tokens: &mut Tokens<'_>) -> Result<bool, ReadStop>
    ensures { Reads (reads_by grammar.enabled tokens.old) result tokens.new }
{
    if tokens.eat(Kind::Enable) {
        return Ok(true);
    }
    if tokens.eat(Kind::Disable) {
        return Ok(false);
    }
    Ok(true)
}

fn trigger_options(tokens: &mut Tokens<'_>) -> Result<TriggerOptions, ReadStop>
    ensures { Reads (reads_by grammar.trigger_options tokens.old) result tokens.new }
{
    let crossedition = crossedition(tokens)?;
    let enabled = enabled(tokens)?;
    Ok(TriggerOptions {
        crossedition,
        enabled,
    })
}

/// What stands behind FOR EACH ROW.
fn action(alloc: Global, tokens: &mut Tokens<'_>) -> Result<(TriggerOptions, Block), ReadStop>
    ensures { Reads (reads_by grammar.action tokens.old) result tokens.new }
{
    let options = trigger_options(tokens)?;
    let body = read_block(alloc, tokens)?;
    Ok((options, body))
}

/// A trigger of its parts.
fn trigger_of(name: Name, clause: EventClause, action: (TriggerOptions, Block)) -> Trigger
    ensures { result ≡ grammar.trigger_tree name clause action.0 action.1 }
{
    let (options, body) = action;
    Trigger {
        name,
        timing: clause.timing,
        events: clause.events,
        on: clause.on,
        crossedition: options.crossedition,
        enabled: options.enabled,
        body,
    }
}

/// What stands behind a trigger's name.
fn trigger_rest(
    alloc: Global,
    tokens: &mut Tokens<'_>,
    name: Name,
) -> Result<Shared<Trigger>, ReadStop>
    ensures { Reads (with_first name (reads_by grammar.trigger_rest tokens.old)) result tokens.new }
{
    let clause = event_clause(alloc, tokens)?;
    let action = action(alloc, tokens)?;
    shared(alloc, trigger_of(name, clause, action))
}

/// What stands behind TRIGGER.
pub fn read_trigger(alloc: Global, tokens: &mut Tokens<'_>) -> Result<Shared<Trigger>, ReadStop>
    ensures { Reads (reads_by grammar.trigger tokens.old) result tokens.new }
{
    let name = tokens.name(alloc)?;
    trigger_rest(alloc, tokens, name)
}
