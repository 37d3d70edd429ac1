//! Expressions in code.

ghost use Rattle.std.specs.Prelude.{◌≡◌, ◌∷◌, [], Some, None, map, drop, option_map};
ghost use Rattle.std.specs.Option.{option_copied};
ghost use Rattle.ebr_validity.specs.Sites as site;
ghost use Rattle.ebr_validity.specs.Expressions as spec;
ghost use Rattle.ebr_scope.specs.Names as names;
ghost use Rattle.ebr_rules.specs.Noted.{noted};
ghost use Rattle.ebr_scope.specs.Lent.{lent, env};
ghost use Rattle.ebr_expr.specs.Operators.{builtin_at};

use crate::judge::{applies, asks, is_after, operand};
use crate::verdict::must;
use ebr_ast::{Addend, Attribute, Comparison, Expr, Head, Parameter, Path, RowImage};
use ebr_base::{List, Name, Shared};
use ebr_expr::builtin;
use ebr_fields::image_type;
use ebr_scope::{
    Meaning, Place, Scopes, applied, is_out, is_target, meant, parameter_type, plain, result_type,
};
use ebr_sqlcheck::{
    ValueType, adds, alike, builtin_type, compares, first_known, sum_type, taken, takes_any_type,
    takes_count, type_of_text,
};
use ebr_validity::Typed;
use ebr_value::Builtin;

/// A value that can't be assigned.
fn only_value(ty: Option<ValueType>) -> Typed
    ensures { result ≡ spec.only_value ty }
{
    Typed { ty, target: false }
}

fn value(ty: ValueType) -> Typed
    ensures { result ≡ spec.only_value (Some ty) }
{
    only_value(Some(ty))
}

/// The type of a name as an operand, as far as it is known.
fn operand_type(meaning: Option<Meaning<'_>>, place: &Place<'_>) -> Option<ValueType>
    ensures { result ≡ spec.operand_type (env place.now []) (option_map lent meaning.entry) }
{
    match meaning {
        Some(Meaning::Variable(ty))
        | Some(Meaning::Constant(ty))
        | Some(Meaning::Parameter(_, ty)) => ty,
        Some(Meaning::Subprogram(head)) => result_type(place.seen, &head.result),
        Some(Meaning::Exception) | Some(Meaning::Cursor) | Some(Meaning::Record) | None => None,
    }
}

fn name(path: &Path, place: &Place<'_>, known: &Scopes<'_>, least: &mut Option<u8>) -> Typed
    ensures typed { result ≡ (spec.name_reading (env place.now []) (names.meant place.now.seen.now.view known.now path.now)).typed }
    ensures least { least.new ≡ noted (spec.name_reading (env place.now []) (names.meant place.now.seen.now.view known.now path.now)).sites least.old }
{
    let meaning = meant(place.seen, known, path);
    operand(meaning, least);
    Typed {
        ty: operand_type(meaning, place),
        target: is_target(meaning),
    }
}

/// Whether `:NEW.c` or `:OLD.c` takes a value; outside triggers another rule refuses it.
fn is_image_target(image: RowImage, place: &Place<'_>) -> bool
    ensures { result ≡ spec.is_image_target image place.now.timing }
{
    match image {
        RowImage::New => !is_after(place.timing),
        RowImage::Old => false,
    }
}

/// `:NEW.c` or `:OLD.c`: it stands in a trigger, and there is such a column.
pub fn images(ty: Option<ValueType>, place: &Place<'_>, least: &mut Option<u8>)
    ensures { least.new ≡ noted (site.Images place.now.timing ty ∷ []) least.old }
{
    must(least, 12, place.timing.is_some() && ty.is_some());
}

fn image(image: RowImage, name: &Name, place: &Place<'_>, least: &mut Option<u8>) -> Typed
    ensures typed { result ≡ (spec.image_reading (env place.now []) image name.now).typed }
    ensures least { least.new ≡ noted (spec.image_reading (env place.now []) image name.now).sites least.old }
{
    let ty = image_type(name, place);
    images(ty, place, least);
    Typed {
        ty,
        target: is_image_target(image, place),
    }
}

/// INSERTING, UPDATING or DELETING.
pub fn fires(place: &Place<'_>, least: &mut Option<u8>)
    ensures { least.new ≡ noted (site.Fires place.now.timing ∷ []) least.old }
{
    must(least, 12, place.timing.is_some());
}

fn attribute_type(attribute: Attribute) -> ValueType
    ensures { result ≡ spec.attribute_type attribute }
{
    match attribute {
        Attribute::RowCount => ValueType::Number,
        Attribute::Found | Attribute::NotFound | Attribute::IsOpen => ValueType::Boolean,
    }
}

fn attribute(cursor: &Option<Name>, place: &Place<'_>, known: &Scopes<'_>, least: &mut Option<u8>)
    ensures { least.new ≡ noted (spec.attribute_sites (env place.now known.now) cursor.now) least.old }
{
    match cursor {
        Some(name) => asks(plain(place.seen, known, name), least),
        None => {}
    }
}

/// A place of a row or of binds.
fn placed(least: &mut Option<u8>) -> Typed
    ensures typed { result ≡ spec.only_value None }
    ensures least { least.new ≡ noted (site.Placed ∷ []) least.old }
{
    must(least, 12, false);
    only_value(None)
}

/// Judges an expression, and tells its type and whether it may be assigned.
#[cycle(expression)]
pub fn expression(e: &Expr, place: &Place<'_>, known: &Scopes<'_>, least: &mut Option<u8>) -> Typed
    ensures typed { result ≡ (spec.reading_of e.now (env place.now known.now)).typed }
    ensures least { least.new ≡ noted (spec.reading_of e.now (env place.now known.now)).sites least.old }
{
    match e {
        Expr::Number(_) => value(ValueType::Number),
        Expr::Text(content) => only_value(type_of_text(content)),
        Expr::Null => only_value(None),
        Expr::Boolean(_) => value(ValueType::Boolean),
        Expr::Name(path) => name(path, place, known, least),
        Expr::Call(path, operands) => call(path, operands, place, known, least),
        Expr::Quotient(a, b) => {
            wanted(ValueType::Number, a.get(), place, known, least);
            wanted(ValueType::Number, b.get(), place, known, least);
            value(ValueType::Number)
        }
        Expr::Row(row, column) => image(*row, column, place, least),
        Expr::SqlCode => value(ValueType::Number),
        Expr::Firing(_) => {
            fires(place, least);
            value(ValueType::Boolean)
        }
        Expr::Attribute(cursor, what) => {
            attribute(cursor, place, known, least);
            value(attribute_type(*what))
        }
        Expr::Plus(a) => {
            wanted(ValueType::Number, a.get(), place, known, least);
            value(ValueType::Number)
        }
        Expr::Minus(a) => {
            wanted(ValueType::Number, a.get(), place, known, least);
            value(ValueType::Number)
        }
        Expr::Product(a, more) => {
            wanted(ValueType::Number, a.get(), place, known, least);
            all_wanted(ValueType::Number, more, place, known, least);
            value(ValueType::Number)
        }
        Expr::Sum(a, more) => {
            let a = expression(a.get(), place, known, least);
            sum_from(a.ty, more, place, known, least)
        }
        Expr::Compare(comparison, a, b) => {
            let a = expression(a.get(), place, known, least);
            compared(*comparison, a.ty, b.get(), place, known, least);
            value(ValueType::Boolean)
        }
        Expr::IsNull(a, _) => {
            expression(a.get(), place, known, least);
            value(ValueType::Boolean)
        }
        Expr::Between(x, a, b, _) => {
            let x = expression(x.get(), place, known, least);
            compared(
                Comparison::GreaterOrEqual,
                x.ty,
                a.get(),
                place,
                known,
                least,
            );
            compared(Comparison::LessOrEqual, x.ty, b.get(), place, known, least);
            value(ValueType::Boolean)
        }
        Expr::In(x, list, _) => {
            let x = expression(x.get(), place, known, least);
            all_compared(x.ty, list, place, known, least);
            value(ValueType::Boolean)
        }
        Expr::Like(a, b, _) => {
            wanted(ValueType::Text, a.get(), place, known, least);
            wanted(ValueType::Text, b.get(), place, known, least);
            value(ValueType::Boolean)
        }
        Expr::Not(a) => {
            wanted(ValueType::Boolean, a.get(), place, known, least);
            value(ValueType::Boolean)
        }
        Expr::And(a, more) => {
            wanted(ValueType::Boolean, a.get(), place, known, least);
            all_wanted(ValueType::Boolean, more, place, known, least);
            value(ValueType::Boolean)
        }
        Expr::Or(a, more) => {
            wanted(ValueType::Boolean, a.get(), place, known, least);
            all_wanted(ValueType::Boolean, more, place, known, least);
            value(ValueType::Boolean)
        }
        Expr::Place(_) => placed(least),
        Expr::Bind(_) => placed(least),
    }
}

/// Judges an operand where a type is wanted.
#[cycle(expression)]
pub fn wanted(
    ty: ValueType,
    e: &Expr,
    place: &Place<'_>,
    known: &Scopes<'_>,
    least: &mut Option<u8>,
)
    ensures { least.new ≡ noted (spec.wanted ty (spec.reading_of e.now) (env place.now known.now)) least.old }
{
    let typed = expression(e, place, known, least);
    must(least, 4, alike(Some(ty), typed.ty));
}

#[cycle(expression)]
fn all_wanted(
    ty: ValueType,
    list: &List<Shared<Expr>>,
    place: &Place<'_>,
    known: &Scopes<'_>,
    least: &mut Option<u8>,
)
    ensures { least.new ≡ noted (spec.all_wanted ty (map spec.reading_of list.now) (env place.now known.now)) least.old }
{
    for e in list.as_slice() {
        wanted(ty, e.get(), place, known, least);
    }
}

/// Whether two operands may be compared.
fn compares_with(
    comparison: Comparison,
    a: Option<ValueType>,
    b: Option<ValueType>,
    least: &mut Option<u8>,
)
    ensures { least.new ≡ noted (site.Compares comparison a b ∷ []) least.old }
{
    must(
        least,
        4,
        compares(comparison, a) && compares(comparison, b) && alike(a, b),
    );
}

/// Judges an operand that is compared with one whose type has been read.
#[cycle(expression)]
fn compared(
    comparison: Comparison,
    ty: Option<ValueType>,
    e: &Expr,
    place: &Place<'_>,
    known: &Scopes<'_>,
    least: &mut Option<u8>,
)
    ensures { least.new ≡ noted (spec.compared comparison ty (spec.reading_of e.now) (env place.now known.now)) least.old }
{
    let typed = expression(e, place, known, least);
    compares_with(comparison, ty, typed.ty, least);
}

/// The equalities of `x IN (..)`, where the type of x has been read.
#[cycle(expression)]
fn all_compared(
    ty: Option<ValueType>,
    list: &List<Shared<Expr>>,
    place: &Place<'_>,
    known: &Scopes<'_>,
    least: &mut Option<u8>,
)
    ensures { least.new ≡ noted (spec.all_compared Comparison.Equal ty (map spec.reading_of list.now) (env place.now known.now)) least.old }
{
    for e in list.as_slice() {
        compared(Comparison::Equal, ty, e.get(), place, known, least);
    }
}

/// A sum with one term more.
#[cycle(expression)]
fn added_to(
    ty: Option<ValueType>,
    addend: &Addend,
    place: &Place<'_>,
    known: &Scopes<'_>,
    least: &mut Option<u8>,
)
    ensures { least.new ≡ noted (spec.added_sites ty (spec.term_of addend.now) (env place.now known.now)) least.old }
{
    must(least, 4, adds(addend.operator, ty));
    let term = expression(addend.term.get(), place, known, least);
    must(least, 4, adds(addend.operator, term.ty));
}

/// The terms of a sum behind one whose type has been read.
#[cycle(expression)]
fn sum_from(
    first: Option<ValueType>,
    more: &List<Addend>,
    place: &Place<'_>,
    known: &Scopes<'_>,
    least: &mut Option<u8>,
) -> Typed
    ensures typed { result ≡ (spec.sum_from first (map spec.term_of more.now) (env place.now known.now)).typed }
    ensures least { least.new ≡ noted (spec.sum_from first (map spec.term_of more.now) (env place.now known.now)).sites least.old }
{
    let mut ty = first;
    for addend in more.as_slice() {
        added_to(ty, addend, place, known, least);
        ty = Some(sum_type(addend.operator));
    }
    only_value(ty)
}

/// A call of a built-in function, or else of another one.
#[cycle(expression)]
fn call(
    path: &Path,
    operands: &List<Shared<Expr>>,
    place: &Place<'_>,
    known: &Scopes<'_>,
    least: &mut Option<u8>,
) -> Typed
    ensures typed { result ≡ (spec.call_reading (builtin_at path.now.name path.now.member) path.now (map spec.reading_of operands.now) (env place.now known.now)).typed }
    ensures least { least.new ≡ noted (spec.call_reading (builtin_at path.now.name path.now.member) path.now (map spec.reading_of operands.now) (env place.now known.now)).sites least.old }
{
    match builtin(path) {
        Some(f) => {
            must(least, 4, takes_count(f, operands.len()));
            builtin_operands(f, operands, place, known, least)
        }
        None => {
            // `known` is lent anew: in a cycle of calls a parameter isn't passed on at a shorter lifetime.
            let head = applied(place.seen, &*known, path);
            applies(head, operands.len(), least);
            arguments(operands, parameters_of(head), place, known, least);
            only_value(head_type(head, place))
        }
    }
}

/// The operands of a built-in function, and what it gives.
#[cycle(expression)]
fn builtin_operands(
    f: Builtin,
    operands: &List<Shared<Expr>>,
    place: &Place<'_>,
    known: &Scopes<'_>,
    least: &mut Option<u8>,
) -> Typed
    ensures typed { result ≡ (spec.builtin_operands f (map spec.reading_of operands.now) (env place.now known.now)).typed }
    ensures least { least.new ≡ noted (spec.builtin_operands f (map spec.reading_of operands.now) (env place.now known.now)).sites least.old }
{
    if takes_any_type(f) {
        return one_type(operands, place, known, least);
    }
    operands_of(f, operands, place, known, least);
    value(builtin_type(f))
}

/// Operands of any one type, which is that of the whole.
#[cycle(expression)]
fn one_type(
    operands: &List<Shared<Expr>>,
    place: &Place<'_>,
    known: &Scopes<'_>,
    least: &mut Option<u8>,
) -> Typed
    ensures typed { result ≡ (spec.one_type None (map spec.reading_of operands.now) (env place.now known.now)).typed }
    ensures least { least.new ≡ noted (spec.one_type None (map spec.reading_of operands.now) (env place.now known.now)).sites least.old }
{
    let mut ty = None;
    for e in operands.as_slice() {
        let typed = expression(e.get(), place, known, least);
        must(least, 4, alike(ty, typed.ty));
        ty = first_known(ty, typed.ty);
    }
    only_value(ty)
}

/// The operands of a function, each of its type.
#[cycle(expression)]
fn operands_of(
    f: Builtin,
    operands: &List<Shared<Expr>>,
    place: &Place<'_>,
    known: &Scopes<'_>,
    least: &mut Option<u8>,
)
    ensures { least.new ≡ noted (spec.operands_from f 0 (map spec.reading_of operands.now) (env place.now known.now)) least.old }
{
    for (at, e) in operands.as_slice().iter().enumerate() {
        wanted(taken(f, at), e.get(), place, known, least);
    }
}

pub fn parameters_of(head: Option<&Head>) -> &[Parameter]
    ensures { result.now ≡ spec.parameters_of (option_copied head.entry) }
{
    match head {
        Some(head) => head.parameters.as_slice(),
        None => &[],
    }
}

fn head_type(head: Option<&Head>, place: &Place<'_>) -> Option<ValueType>
    ensures { result ≡ spec.head_type (env place.now []) (option_copied head.entry) }
{
    match head {
        Some(head) => result_type(place.seen, &head.result),
        None => None,
    }
}

/// Judges arguments, each against its parameter.
#[cycle(expression)]
pub fn arguments(
    list: &List<Shared<Expr>>,
    parameters: &[Parameter],
    place: &Place<'_>,
    known: &Scopes<'_>,
    least: &mut Option<u8>,
)
    ensures { least.new ≡ noted (spec.arguments (map spec.reading_of list.now) parameters.now (env place.now known.now)) least.old }
{
    let mut rest = parameters;
    for e in list.as_slice() {
        let typed = expression(e.get(), place, known, least);
        rest = passed(rest, typed, place, least);
    }
}

/// Judges an argument against the first of the parameters that are left, and gives the others.
fn passed<'p>(
    parameters: &'p [Parameter],
    typed: Typed,
    place: &Place<'_>,
    least: &mut Option<u8>,
) -> &'p [Parameter]
    ensures rest { result.now ≡ drop 1 parameters.now }
    ensures least { least.new ≡ noted (spec.passed (env place.now []) parameters.now typed) least.old }
{
    match parameters.split_first() {
        None => parameters,
        Some((parameter, rest)) => {
            must(
                least,
                4,
                alike(parameter_type(place.seen, &parameter.ty), typed.ty),
            );
            must(least, 6, !is_out(parameter.mode) || typed.target);
            rest
        }
    }
}
