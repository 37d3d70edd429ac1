//! Kinds of triggers.

ghost use Rattle.std.specs.Prelude.{◌≡◌};
ghost use Rattle.std.specs.List.{list_any};
ghost use Rattle.ebr_fire.specs.Fires as spec;

use ebr_ast::{Direction, Object, Op, Timing, Trigger, UnitTree};
use ebr_base::{Class, Name, ObjectKey};

/// A kind of trigger: which way it crosses editions, where it does, one of its events, and its timing.
#[derive(Clone, Copy)]
pub struct Kind {
    pub crossedition: Option<Direction>,
    pub op: Op,
    pub timing: Timing,
}

/// Whether an object is an enabled trigger of a kind on a name.
pub fn is_fired(kind: Kind, on: &Name, object: &Object) -> bool
    ensures { result ≡ spec.is_fired kind on.now object.now }
{
    object.enabled && is_trigger_on(kind, on, &object.tree)
}

fn is_trigger_on(kind: Kind, on: &Name, tree: &UnitTree) -> bool
    ensures { result ≡ spec.is_trigger_on kind on.now tree.now }
{
    match tree {
        UnitTree::Trigger(trigger) => stands_on(kind, on, trigger.get()),
        _ => false,
    }
}

fn stands_on(kind: Kind, on: &Name, trigger: &Trigger) -> bool
    ensures { result ≡ spec.stands_on kind on.now trigger.now }
{
    *on == trigger.on
        && same_direction(kind.crossedition, trigger.crossedition)
        && same_timing(kind.timing, trigger.timing)
        && has_event(trigger.events.as_slice(), kind.op)
}

fn has_event(events: &[Op], op: Op) -> bool
    ensures { result ≡ list_any (spec.same_op op) events.now }
{
    events.iter().any(|event| same_op(op, *event))
}

fn same_op(a: Op, b: Op) -> bool
    ensures { result ≡ spec.same_op a b }
{
    matches!(
        (a, b),
        (Op::Insert, Op::Insert) | (Op::Update, Op::Update) | (Op::Delete, Op::Delete)
    )
}

fn same_timing(a: Timing, b: Timing) -> bool
    ensures { result ≡ spec.same_timing a b }
{
    matches!(
        (a, b),
        (Timing::Before, Timing::Before) | (Timing::After, Timing::After)
    )
}

fn same_direction(a: Option<Direction>, b: Option<Direction>) -> bool
    ensures { result ≡ spec.same_direction a b }
{
    matches!(
        (a, b),
        (None, None)
            | (Some(Direction::Forward), Some(Direction::Forward))
            | (Some(Direction::Reverse), Some(Direction::Reverse))
    )
}

/// Whether a key is a trigger's.
pub fn is_trigger_key(key: &ObjectKey) -> bool
    ensures { result ≡ spec.is_trigger_key key.now }
{
    matches!(key.class, Class::Trigger)
}
