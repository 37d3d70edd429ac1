//! The types of expressions.

ghost use Rattle.std.specs.Prelude.{◌≡◌, map};
ghost use Rattle.ebr_expr.specs.Operators.{builtin_at};
ghost use Rattle.ebr_sqlcheck.specs.Types.{type_in};
ghost use Rattle.ebr_sqlcheck.specs.Checked.{each};
ghost use Rattle.ebr_sqlcheck.specs.Operands as spec;
ghost use Rattle.ebr_sqlcheck.specs.inside.Terms as inside;

use crate::function::{builtin_type, taken, takes_any_type, takes_count};
use crate::lookup::Relations;
use crate::mention::name_type;
use crate::value_type::{ValueType, alike, first_known, is_plain, type_in, type_of_text};
use crate::variables::Variables;
use crate::verdict::{NOT_THERE, WRONG_TYPE, must};
use ebr_base::{Code, List, Name, Shared};
use ebr_expr::builtin;
use ebr_exprtree::{Addend, AdditiveOperator, Comparison, Expr, Path, RowImage};
use ebr_value::Builtin;

/// Whether an operand fits.
pub fn must_fit(fits: bool) -> Result<(), Code>
    ensures { result ≡ spec.must_fit fits }
{
    must(WRONG_TYPE, fits)
}

/// Whether a comparison takes an operand of a type: BOOLEAN has `=` and `<>` alone.
pub fn compares(comparison: Comparison, ty: Option<ValueType>) -> bool
    ensures { result ≡ spec.compares comparison ty }
{
    match comparison {
        Comparison::Equal | Comparison::NotEqual => true,
        _ => is_plain(ty),
    }
}

/// Whether an operand of a type stands beside an operator of a sum.
pub fn adds(operator: AdditiveOperator, ty: Option<ValueType>) -> bool
    ensures { result ≡ spec.adds operator ty }
{
    match operator {
        AdditiveOperator::Add | AdditiveOperator::Subtract => alike(Some(ValueType::Number), ty),
        AdditiveOperator::Concatenate => is_plain(ty),
    }
}

pub fn sum_type(operator: AdditiveOperator) -> ValueType
    ensures { result ≡ spec.sum_type operator }
{
    match operator {
        AdditiveOperator::Add | AdditiveOperator::Subtract => ValueType::Number,
        AdditiveOperator::Concatenate => ValueType::Text,
    }
}

fn image_type<V: Variables>(image: RowImage, name: &Name, others: &V) -> Option<ValueType>
    ensures { result ≡ type_in ((V.others others.now).image image name.now) }
{
    type_in(others.image(image, name))
}

fn bind_type<V: Variables>(at: u32, others: &V) -> Option<ValueType>
    ensures { result ≡ type_in ((V.others others.now).bind at) }
{
    type_in(others.bind(at))
}

/// The type of an expression, as far as it is known, or the code of its first fault: ORA-00932 for an operand of another
/// type than its operator or function takes, and for a wrong number of operands; ORA-00904 for a function that isn't built
/// in, and for what only code has.
///
/// An operand is tested as soon as it was read, and a function at its name, before its operands. A name is taken to be
/// there; one that isn't has no known type.
///
/// Oracle Database SQL Language Reference 19c, Expressions and Conditions.
#[cycle(typing)]
pub fn typed<V: Variables>(
    e: &Expr,
    relations: &Relations<'_, '_>,
    others: &V,
) -> Result<Option<ValueType>, Code>
    ensures { result ≡ spec.typed relations.now (V.others others.now) e.now }
{
    match e {
        Expr::Number(_) => Ok(Some(ValueType::Number)),
        Expr::Text(content) => Ok(type_of_text(content)),
        Expr::Null => Ok(None),
        Expr::Boolean(_) => Ok(Some(ValueType::Boolean)),
        Expr::Name(path) => Ok(name_type(path, relations, others)),
        Expr::Row(image, name) => Ok(image_type(*image, name, others)),
        Expr::Place(_) => Ok(None),
        Expr::Bind(at) => Ok(bind_type(*at, others)),
        Expr::Call(path, operands) => call(path, operands, relations, others),
        Expr::Quotient(a, b) => {
            wants(ValueType::Number, a.get(), relations, others)?;
            of_type(ValueType::Number, b.get(), relations, others)
        }
        Expr::Plus(a) => of_type(ValueType::Number, a.get(), relations, others),
        Expr::Minus(a) => of_type(ValueType::Number, a.get(), relations, others),
        Expr::Product(a, more) => {
            wants(ValueType::Number, a.get(), relations, others)?;
            all_of_type(ValueType::Number, more, relations, others)
        }
        Expr::Sum(a, more) => {
            let a = typed(a.get(), relations, others)?;
            sum_from(a, more, relations, others)
        }
        Expr::Compare(comparison, a, b) => {
            let a = typed(a.get(), relations, others)?;
            compare(*comparison, a, b.get(), relations, others)
        }
        Expr::IsNull(a, _) => {
            typed(a.get(), relations, others)?;
            Ok(Some(ValueType::Boolean))
        }
        Expr::Between(x, a, b, _) => {
            let x = typed(x.get(), relations, others)?;
            compared(Comparison::GreaterOrEqual, x, a.get(), relations, others)?;
            compare(Comparison::LessOrEqual, x, b.get(), relations, others)
        }
        Expr::In(x, list, _) => {
            let x = typed(x.get(), relations, others)?;
            is_among(x, list, relations, others)
        }
        Expr::Like(a, b, _) => {
            wants(ValueType::Text, a.get(), relations, others)?;
            wants(ValueType::Text, b.get(), relations, others)?;
            Ok(Some(ValueType::Boolean))
        }
        Expr::Not(a) => of_type(ValueType::Boolean, a.get(), relations, others),
        Expr::And(a, more) => {
            wants(ValueType::Boolean, a.get(), relations, others)?;
            all_of_type(ValueType::Boolean, more, relations, others)
        }
        Expr::Or(a, more) => {
            wants(ValueType::Boolean, a.get(), relations, others)?;
            all_of_type(ValueType::Boolean, more, relations, others)
        }
        Expr::SqlCode => Err(NOT_THERE),
        Expr::Firing(_) => Err(NOT_THERE),
        Expr::Attribute(_, _) => Err(NOT_THERE),
    }
}

/// An operand where a type is wanted.
#[cycle(typing)]
#[tactic(auto, unfolding(crate::specs::Operands::wants))]
pub fn wants<V: Variables>(
    wanted: ValueType,
    e: &Expr,
    relations: &Relations<'_, '_>,
    others: &V,
) -> Result<(), Code>
    ensures { result ≡ spec.wants wanted (spec.typed relations.now (V.others others.now) e.now) }
{
    let ty = typed(e, relations, others)?;
    must_fit(alike(Some(wanted), ty))
}

/// An operand of a type, which is that of the whole.
#[cycle(typing)]
fn of_type<V: Variables>(
    ty: ValueType,
    e: &Expr,
    relations: &Relations<'_, '_>,
    others: &V,
) -> Result<Option<ValueType>, Code>
    ensures { result ≡ spec.gives ty (spec.wants ty (spec.typed relations.now (V.others others.now) e.now)) }
{
    wants(ty, e, relations, others)?;
    Ok(Some(ty))
}

#[cycle(typing)]
fn all_want<V: Variables>(
    wanted: ValueType,
    list: &List<Shared<Expr>>,
    relations: &Relations<'_, '_>,
    others: &V,
) -> Result<(), Code>
    ensures { result ≡ spec.all_want wanted (map (spec.typed relations.now (V.others others.now)) list.now) }
{
    for e in list.as_slice() {
        wants(wanted, e.get(), relations, others)?;
    }
    Ok(())
}

/// Operands of a type, which is that of the whole.
#[cycle(typing)]
fn all_of_type<V: Variables>(
    ty: ValueType,
    list: &List<Shared<Expr>>,
    relations: &Relations<'_, '_>,
    others: &V,
) -> Result<Option<ValueType>, Code>
    ensures { result ≡ spec.gives ty (spec.all_want ty (map (spec.typed relations.now (V.others others.now)) list.now)) }
{
    all_want(ty, list, relations, others)?;
    Ok(Some(ty))
}

/// A comparison of an operand, whose type has been read, with another one.
#[cycle(typing)]
#[tactic(auto, unfolding(crate::specs::Operands::compared))]
fn compared<V: Variables>(
    comparison: Comparison,
    ty: Option<ValueType>,
    e: &Expr,
    relations: &Relations<'_, '_>,
    others: &V,
) -> Result<(), Code>
    ensures { result ≡ spec.compared comparison ty (spec.typed relations.now (V.others others.now) e.now) }
{
    must_fit(compares(comparison, ty))?;
    let other = typed(e, relations, others)?;
    must_fit(compares(comparison, other) && alike(ty, other))
}

/// The type of a comparison.
#[cycle(typing)]
fn compare<V: Variables>(
    comparison: Comparison,
    ty: Option<ValueType>,
    e: &Expr,
    relations: &Relations<'_, '_>,
    others: &V,
) -> Result<Option<ValueType>, Code>
    ensures { result ≡ spec.gives ValueType.Boolean (spec.compared comparison ty (spec.typed relations.now (V.others others.now) e.now)) }
{
    compared(comparison, ty, e, relations, others)?;
    Ok(Some(ValueType::Boolean))
}

/// The equalities of `x IN (..)`, where the type of x has been read.
#[cycle(typing)]
fn equalities<V: Variables>(
    ty: Option<ValueType>,
    list: &List<Shared<Expr>>,
    relations: &Relations<'_, '_>,
    others: &V,
) -> Result<(), Code>
    ensures { result ≡ each (map (spec.compared Comparison.Equal ty) (map (spec.typed relations.now (V.others others.now)) list.now)) }
{
    for e in list.as_slice() {
        compared(Comparison::Equal, ty, e.get(), relations, others)?;
    }
    Ok(())
}

/// The type of `x IN (..)`, where that of x has been read.
#[cycle(typing)]
fn is_among<V: Variables>(
    ty: Option<ValueType>,
    list: &List<Shared<Expr>>,
    relations: &Relations<'_, '_>,
    others: &V,
) -> Result<Option<ValueType>, Code>
    ensures { result ≡ spec.gives ValueType.Boolean (each (map (spec.compared Comparison.Equal ty) (map (spec.typed relations.now (V.others others.now)) list.now))) }
{
    equalities(ty, list, relations, others)?;
    Ok(Some(ValueType::Boolean))
}

/// The type of a sum with one operand more.
#[cycle(typing)]
#[tactic(auto, unfolding(crate::specs::Operands::added_to))]
fn added<V: Variables>(
    ty: Option<ValueType>,
    operator: AdditiveOperator,
    e: &Expr,
    relations: &Relations<'_, '_>,
    others: &V,
) -> Result<Option<ValueType>, Code>
    ensures { result ≡ spec.added_to ty (record { operator = operator; operand = spec.typed relations.now (V.others others.now) e.now }) }
{
    must_fit(adds(operator, ty))?;
    let operand = typed(e, relations, others)?;
    must_fit(adds(operator, operand))?;
    Ok(Some(sum_type(operator)))
}

/// The type of a sum with one term more.
#[cycle(typing)]
fn added_to<V: Variables>(
    ty: Option<ValueType>,
    addend: &Addend,
    relations: &Relations<'_, '_>,
    others: &V,
) -> Result<Option<ValueType>, Code>
    ensures { result ≡ spec.added_to ty (inside.typed_term relations.now (V.others others.now) addend.now) }
{
    added(ty, addend.operator, addend.term.get(), relations, others)
}

/// The type of a sum, where that of its first operand has been read.
#[cycle(typing)]
#[tactic(auto, unfolding(crate::specs::Operands::sum_from))]
fn sum_from<V: Variables>(
    first: Option<ValueType>,
    more: &List<Addend>,
    relations: &Relations<'_, '_>,
    others: &V,
) -> Result<Option<ValueType>, Code>
    ensures { result ≡ spec.sum_from first (map (inside.typed_term relations.now (V.others others.now)) more.now) }
{
    let mut ty = first;
    for addend in more.as_slice() {
        ty = added_to(ty, addend, relations, others)?;
    }
    Ok(ty)
}

/// The type of a function with its operands.
#[cycle(typing)]
#[tactic(auto, using(crate::proofs::Laws::mapped_length), unfolding(crate::specs::Operands::called))]
fn call<V: Variables>(
    path: &Path,
    operands: &List<Shared<Expr>>,
    relations: &Relations<'_, '_>,
    others: &V,
) -> Result<Option<ValueType>, Code>
    ensures { result ≡ spec.called (builtin_at path.now.name path.now.member) (map (spec.typed relations.now (V.others others.now)) operands.now) }
{
    let Some(f) = builtin(path) else {
        return Err(NOT_THERE);
    };
    if !takes_count(f, operands.len()) {
        return Err(WRONG_TYPE);
    }
    applied(f, operands, relations, others)
}

#[cycle(typing)]
fn applied<V: Variables>(
    f: Builtin,
    operands: &List<Shared<Expr>>,
    relations: &Relations<'_, '_>,
    others: &V,
) -> Result<Option<ValueType>, Code>
    ensures { result ≡ spec.applied f (map (spec.typed relations.now (V.others others.now)) operands.now) }
{
    if takes_any_type(f) {
        return one_type(operands, relations, others);
    }
    operands_of(f, operands, relations, others)?;
    Ok(Some(builtin_type(f)))
}

/// Operands of any one type, which is that of the whole.
#[cycle(typing)]
#[tactic(auto, unfolding(crate::specs::Operands::one_type))]
fn one_type<V: Variables>(
    operands: &List<Shared<Expr>>,
    relations: &Relations<'_, '_>,
    others: &V,
) -> Result<Option<ValueType>, Code>
    ensures { result ≡ spec.one_type None (map (spec.typed relations.now (V.others others.now)) operands.now) }
{
    let mut ty = None;
    for e in operands.as_slice() {
        let next = typed(e.get(), relations, others)?;
        if !alike(ty, next) {
            return Err(WRONG_TYPE);
        }
        ty = first_known(ty, next);
    }
    Ok(ty)
}

/// The operands of a function, each of its type.
#[cycle(typing)]
#[tactic(auto, unfolding(crate::specs::Operands::operands_from))]
fn operands_of<V: Variables>(
    f: Builtin,
    operands: &List<Shared<Expr>>,
    relations: &Relations<'_, '_>,
    others: &V,
) -> Result<(), Code>
    ensures { result ≡ spec.operands_from f 0 (map (spec.typed relations.now (V.others others.now)) operands.now) }
{
    for (at, e) in operands.as_slice().iter().enumerate() {
        wants(taken(f, at), e.get(), relations, others)?;
    }
    Ok(())
}
