//! What a package's specification may have, and what its body must.

ghost use Rattle.std.specs.Prelude.{◌≡◌, ◌∷◌, [], Some, map, filter_map};
ghost use Rattle.std.specs.List.{list_all};
ghost use Rattle.ebr_ast.specs.Views.{unit_named};
ghost use Rattle.ebr_names.specs.Headers.{head_in};
ghost use Rattle.ebr_validity.specs.Sites as site;
ghost use Rattle.ebr_validity.specs.Rules as rules;
ghost use Rattle.ebr_validity.specs.Units as units;
ghost use Rattle.ebr_rules.specs.Noted.{noted};

use ebr_ast::{
    Decl, Head, Mode, PackageBody, PackageItem, Parameter, ParameterType, Subprogram, Subprograms,
    UnitTree,
};
use ebr_base::Class;
use ebr_names::object;
use ebr_rules::must;
use ebr_scope::Seen;

fn is_no_cursor(item: &PackageItem) -> bool
    ensures { result ≡ rules.is_no_cursor item.now }
{
    match item {
        PackageItem::Decl(declaration) => isnt_cursor(declaration),
        PackageItem::Head(_) => true,
    }
}

fn isnt_cursor(declaration: &Decl) -> bool
    ensures { result ≡ rules.is_no_cursor (PackageItem.Decl declaration.now) }
{
    match declaration {
        Decl::Cursor(_, _) => false,
        Decl::Variable { .. } | Decl::Exception(_) | Decl::ExceptionInit(_, _) | Decl::Autonomous =>
            true,
    }
}

fn has_no_cursor(items: &[PackageItem]) -> bool
    ensures { result ≡ list_all rules.is_no_cursor items.now }
{
    items.iter().all(|item| is_no_cursor(item))
}

/// A specification has no cursor.
pub fn specifies(items: &[PackageItem], least: &mut Option<u8>)
    ensures { least.new ≡ noted (site.Specifies items.now ∷ []) least.old }
{
    must(least, 11, has_no_cursor(items));
}

fn same_mode(a: Option<Mode>, b: Option<Mode>) -> bool
    ensures { result ≡ rules.same_mode a b }
{
    match (a, b) {
        (None, None) => true,
        (Some(Mode::In), Some(Mode::In)) => true,
        (Some(Mode::Out), Some(Mode::Out)) => true,
        (Some(Mode::InOut), Some(Mode::InOut)) => true,
        _ => false,
    }
}

fn same_type(a: &ParameterType, b: &ParameterType) -> bool
    ensures { result ≡ rules.same_parameter_type a.now b.now }
{
    match (a, b) {
        (ParameterType::Number, ParameterType::Number) => true,
        (ParameterType::Integer, ParameterType::Integer) => true,
        (ParameterType::Varchar2, ParameterType::Varchar2) => true,
        (ParameterType::Boolean, ParameterType::Boolean) => true,
        (ParameterType::OfColumn(n, m), ParameterType::OfColumn(other, column)) => {
            *n == *other && *m == *column
        }
        _ => false,
    }
}

fn same_parameter(a: &Parameter, b: &Parameter) -> bool
    ensures { result ≡ rules.same_parameter a.now b.now }
{
    a.name == b.name && same_mode(a.mode, b.mode) && same_type(&a.ty, &b.ty)
}

fn same_parameters(a: &[Parameter], b: &[Parameter]) -> bool
    ensures { result ≡ rules.same_parameters a.now b.now }
{
    let mut left = a;
    let mut right = b;
    while let (Some((first, rest)), Some((other, others))) = (
        left.split_first(),
        right.split_first(),
    ) {
        if !same_parameter(first, other) {
            return false;
        }
        left = rest;
        right = others;
    }
    left.is_empty() && right.is_empty()
}

fn same_result(a: &Option<ParameterType>, b: &Option<ParameterType>) -> bool
    ensures { result ≡ rules.same_result a.now b.now }
{
    match (a, b) {
        (None, None) => true,
        (Some(a), Some(b)) => same_type(a, b),
        _ => false,
    }
}

/// Whether two heads are equal word for word.
fn same_head(a: &Head, b: &Head) -> bool
    ensures { result ≡ rules.same_head a.now b.now }
{
    a.name == b.name
        && same_parameters(a.parameters.as_slice(), b.parameters.as_slice())
        && same_result(&a.result, &b.result)
}

fn has_head(subprograms: &[Subprogram], head: &Head) -> bool
    ensures { result ≡ rules.is_defined (map units.head_of_subprogram subprograms.now) head.now }
{
    for subprogram in subprograms {
        if same_head(head, &subprogram.head) {
            return true;
        }
    }
    false
}

/// Whether a head is that of a subprogram. The first subprogram of its name is looked at first: where it has another head, the
/// body isn't right, or it has this name twice, which is a fault too.
fn is_defined(subprograms: &Subprograms, head: &Head) -> bool
    ensures { result ≡ rules.is_defined (map units.head_of_subprogram subprograms.now) head.now }
{
    match subprograms.named(&head.name) {
        Some(first) => {
            if same_head(head, &first.head) {
                return true;
            }
            has_head(subprograms.as_slice(), head)
        }
        None => false,
    }
}

fn are_defined(subprograms: &Subprograms, items: &[PackageItem]) -> bool
    ensures { result ≡ list_all (rules.is_defined (map units.head_of_subprogram subprograms.now)) (filter_map head_in items.now) }
{
    for item in items {
        if let PackageItem::Head(head) = item {
            if !is_defined(subprograms, head) {
                return false;
            }
        }
    }
    true
}

fn defines(subprograms: &Subprograms, tree: &UnitTree) -> bool
    ensures { result ≡ rules.implements (Some tree.now) (map units.head_of_subprogram subprograms.now) }
{
    match tree {
        UnitTree::Package(_, items) => are_defined(subprograms, items.get().as_slice()),
        _ => false,
    }
}

/// A body has a visible specification, and each of its subprograms with an equal head.
pub fn implements(body: &PackageBody, seen: &Seen<'_>, least: &mut Option<u8>)
    ensures { least.new ≡ noted (site.Implements (units.tree_of (unit_named body.now.name seen.now.view.objects)) (map units.head_of_subprogram body.now.subprograms) ∷ []) least.old }
{
    match object(seen.get(), Class::Unit, &body.name) {
        Some(object) => must(least, 11, defines(&body.subprograms, &object.tree)),
        None => must(least, 11, false),
    }
}
