//! The names in expressions.

ghost use Rattle.std.specs.Prelude.{◌≡◌, map};
ghost use Rattle.ebr_sqlcheck.specs.Checked.{each, must_be_there};
ghost use Rattle.ebr_sqlcheck.specs.Names as spec;
ghost use Rattle.ebr_sqlcheck.specs.inside.Terms as inside;

use crate::lookup::{Relations, column_meant};
use crate::relation::Meant;
use crate::value_type::{ValueType, type_in};
use crate::variables::Variables;
use crate::verdict::{AMBIGUOUS, NOT_THERE, must_be_there};
use ebr_base::{Code, List, Name, Shared};
use ebr_exprtree::{Addend, Expr, Path, RowImage};

/// Whether a name is a column of one source, or else a variable.
fn name_is<V: Variables>(path: &Path, relations: &Relations<'_, '_>, others: &V) -> Result<(), Code>
    ensures { result ≡ spec.name_is (V.others others.now) path.now (spec.column_meant relations.now path.now) }
{
    match column_meant(relations, path) {
        Meant::Nothing => must_be_there(others.variable(path)),
        Meant::Column(_) => Ok(()),
        Meant::Several => Err(AMBIGUOUS),
    }
}

/// The type of a name, as far as it is known.
pub fn name_type<V: Variables>(
    path: &Path,
    relations: &Relations<'_, '_>,
    others: &V,
) -> Option<ValueType>
    ensures { result ≡ spec.name_type (V.others others.now) path.now (spec.column_meant relations.now path.now) }
{
    match column_meant(relations, path) {
        Meant::Nothing => type_in(others.variable(path)),
        Meant::Column(ty) => Some(ty),
        Meant::Several => None,
    }
}

fn image_is<V: Variables>(image: RowImage, name: &Name, others: &V) -> Result<(), Code>
    ensures { result ≡ must_be_there ((V.others others.now).image image name.now) }
{
    must_be_there(others.image(image, name))
}

fn bind_is<V: Variables>(at: u32, others: &V) -> Result<(), Code>
    ensures { result ≡ must_be_there ((V.others others.now).bind at) }
{
    must_be_there(others.bind(at))
}

/// The first fault of a name in an expression, in reading order: ORA-00904 for one that is neither a column nor among the
/// others, and EBR-0018 for one that is a column of several sources.
///
/// Oracle Database SQL Language Reference 19c, Column Expressions; Oracle Database PL/SQL Language Reference 19c, Name
/// Resolution.
#[cycle(names)]
pub fn names_in<V: Variables>(
    e: &Expr,
    relations: &Relations<'_, '_>,
    others: &V,
) -> Result<(), Code>
    ensures { result ≡ spec.names_in relations.now (V.others others.now) e.now }
{
    match e {
        Expr::Name(path) => name_is(path, relations, others),
        Expr::Row(image, name) => image_is(*image, name, others),
        Expr::Place(_) => Err(NOT_THERE),
        Expr::Bind(at) => bind_is(*at, others),
        Expr::Call(_, operands) => all_names(operands, relations, others),
        Expr::Plus(a) => names_in(a.get(), relations, others),
        Expr::Minus(a) => names_in(a.get(), relations, others),
        Expr::Quotient(a, b) => {
            names_in(a.get(), relations, others)?;
            names_in(b.get(), relations, others)
        }
        Expr::Product(a, more) => {
            names_in(a.get(), relations, others)?;
            all_names(more, relations, others)
        }
        Expr::Sum(a, more) => {
            names_in(a.get(), relations, others)?;
            term_names(more, relations, others)
        }
        Expr::Compare(_, a, b) => {
            names_in(a.get(), relations, others)?;
            names_in(b.get(), relations, others)
        }
        Expr::IsNull(a, _) => names_in(a.get(), relations, others),
        Expr::Between(x, a, b, _) => {
            names_in(x.get(), relations, others)?;
            names_in(a.get(), relations, others)?;
            names_in(b.get(), relations, others)
        }
        Expr::In(a, more, _) => {
            names_in(a.get(), relations, others)?;
            all_names(more, relations, others)
        }
        Expr::Like(a, b, _) => {
            names_in(a.get(), relations, others)?;
            names_in(b.get(), relations, others)
        }
        Expr::Not(a) => names_in(a.get(), relations, others),
        Expr::And(a, more) => {
            names_in(a.get(), relations, others)?;
            all_names(more, relations, others)
        }
        Expr::Or(a, more) => {
            names_in(a.get(), relations, others)?;
            all_names(more, relations, others)
        }
        Expr::Number(_) => Ok(()),
        Expr::Text(_) => Ok(()),
        Expr::Null => Ok(()),
        Expr::Boolean(_) => Ok(()),
        Expr::SqlCode => Ok(()),
        Expr::Firing(_) => Ok(()),
        Expr::Attribute(_, _) => Ok(()),
    }
}

#[cycle(names)]
fn all_names<V: Variables>(
    list: &List<Shared<Expr>>,
    relations: &Relations<'_, '_>,
    others: &V,
) -> Result<(), Code>
    ensures { result ≡ each (map (spec.names_in relations.now (V.others others.now)) list.now) }
{
    for e in list.as_slice() {
        names_in(e.get(), relations, others)?;
    }
    Ok(())
}

#[cycle(names)]
fn term_names<V: Variables>(
    terms: &List<Addend>,
    relations: &Relations<'_, '_>,
    others: &V,
) -> Result<(), Code>
    ensures { result ≡ each (map (inside.names_in_term relations.now (V.others others.now)) terms.now) }
{
    for addend in terms.as_slice() {
        term_name(addend, relations, others)?;
    }
    Ok(())
}

#[cycle(names)]
fn term_name<V: Variables>(
    addend: &Addend,
    relations: &Relations<'_, '_>,
    others: &V,
) -> Result<(), Code>
    ensures { result ≡ inside.names_in_term relations.now (V.others others.now) addend.now }
{
    names_in(addend.term.get(), relations, others)
}
