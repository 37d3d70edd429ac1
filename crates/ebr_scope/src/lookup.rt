//! What names in code stand for.

ghost use Rattle.std.specs.Prelude.{◌≡◌, [], option_map, option_and_then, find};
ghost use Rattle.std.specs.Option.{option_copied, unwrap_or};
ghost use Rattle.std.specs.Str.{bytes_eq};
ghost use Rattle.ebr_scope.specs.Names as spec;
ghost use Rattle.ebr_scope.specs.Declarations as declared;
ghost use Rattle.ebr_scope.specs.Meanings as meanings;
ghost use Rattle.ebr_scope.specs.Lent.{lent};

use crate::column::declared_type;
use crate::field::Field;
use crate::meaning::Meaning;
use crate::place::Seen;
use crate::scopes::{Scopes, head_in};
use ebr_ast::{Decl, Head, Object, PackageItem, PackageItems, Path, UnitTree};
use ebr_base::{Class, List, Name, Shared};
use ebr_names::object;
use ebr_sqlcheck::ValueType;

/// The head of the visible procedure or function of a name.
pub fn visible_head<'a>(seen: &Seen<'a>, name: &Name) -> Option<&'a Head>
    ensures { option_copied result ≡ spec.visible_head seen.now.view name.now }
{
    match object(seen.get(), Class::Unit, name) {
        Some(object) => head_of(&object.tree),
        None => None,
    }
}

fn head_of(tree: &UnitTree) -> Option<&Head>
    ensures { option_copied result ≡ spec.head_of tree.now }
{
    match tree {
        UnitTree::Subprogram(unit) => Some(&unit.get().head),
        _ => None,
    }
}

/// The specification of the visible package of a name; none where there is no such package.
pub fn visible_package<'a>(seen: &Seen<'a>, name: &Name) -> Option<&'a PackageItems>
    ensures { unwrap_or (option_copied result) [] ≡ spec.visible_items seen.now.view name.now }
{
    match object(seen.get(), Class::Unit, name) {
        Some(object) => package_of(&object.tree),
        None => None,
    }
}

fn package_of(tree: &UnitTree) -> Option<&PackageItems>
    ensures { unwrap_or (option_copied result) [] ≡ spec.items_of tree.now }
{
    match tree {
        UnitTree::Package(_, items) => Some(items.get()),
        _ => None,
    }
}

/// What the specification of the visible package of a name has.
pub fn visible_items<'a>(seen: &Seen<'a>, name: &Name) -> &'a [PackageItem]
    ensures { result.now ≡ spec.visible_items seen.now.view name.now }
{
    match visible_package(seen, name) {
        Some(items) => items.as_slice(),
        None => &[],
    }
}

/// The name that a declaration declares; a pragma declares none.
pub fn decl_name(declaration: &Decl) -> Option<&Name>
    ensures { option_copied result ≡ declared.decl_name declaration.now }
{
    match declaration {
        Decl::Variable { name, .. } => Some(name),
        Decl::Exception(name) => Some(name),
        Decl::Cursor(name, _) => Some(name),
        Decl::ExceptionInit(_, _) | Decl::Autonomous => None,
    }
}

/// The name of what a specification has.
pub fn item_name(item: &PackageItem) -> Option<&Name>
    ensures { option_copied result ≡ declared.item_name item.now }
{
    match item {
        PackageItem::Decl(declaration) => decl_name(declaration),
        PackageItem::Head(head) => Some(&head.name),
    }
}

/// What a specification has under a name.
#[tactic(auto, using(crate::proofs::Items::same_item))]
pub fn item_named<'a>(items: &'a PackageItems, name: &Name) -> Option<&'a PackageItem>
    ensures { option_copied result ≡ declared.item_named name.now items.now }
{
    items.named(name)
}

/// A variable, or a constant.
pub fn variable<'a>(constant: bool, ty: Option<ValueType>) -> Meaning<'a>
    ensures { lent result ≡ declared.variable constant ty }
{
    if constant {
        Meaning::Constant(ty)
    } else {
        Meaning::Variable(ty)
    }
}

fn decl_meaning<'a>(seen: &Seen<'a>, declaration: &Decl) -> Option<Meaning<'a>>
    ensures { option_map lent result ≡ declared.decl_meaning seen.now.view declaration.now }
{
    match declaration {
        Decl::Variable { constant, ty, .. } => Some(variable(*constant, declared_type(seen, ty))),
        Decl::Exception(_) => Some(Meaning::Exception),
        Decl::Cursor(_, _) => Some(Meaning::Cursor),
        Decl::ExceptionInit(_, _) | Decl::Autonomous => None,
    }
}

fn item_meaning<'a>(seen: &Seen<'a>, item: &'a PackageItem) -> Option<Meaning<'a>>
    ensures { option_map lent result ≡ declared.item_meaning seen.now.view item.now }
{
    match item {
        PackageItem::Decl(declaration) => decl_meaning(seen, declaration),
        PackageItem::Head(head) => Some(Meaning::Subprogram(head)),
    }
}

/// What the visible package of a name has under another one.
fn visible_item<'a>(seen: &Seen<'a>, n: &Name, m: &Name) -> Option<&'a PackageItem>
    ensures { option_copied result ≡ declared.item_named m.now (spec.visible_items seen.now.view n.now) }
{
    match visible_package(seen, n) {
        Some(items) => item_named(items, m),
        None => None,
    }
}

/// `n.m` as a member of the visible package n.
#[tactic(auto, unfolding(crate::specs::Names::member))]
fn member<'a>(seen: &Seen<'a>, n: &Name, m: &Name) -> Option<Meaning<'a>>
    ensures { option_map lent result ≡ spec.member seen.now.view n.now m.now }
{
    match visible_item(seen, n, m) {
        Some(item) => item_meaning(seen, item),
        None => None,
    }
}

/// The type of a field: none where there is no such field, and inside that none where it isn't known.
pub fn field(fields: Option<&Shared<List<Field>>>, name: &Name) -> Option<Option<ValueType>>
    ensures { result ≡ meanings.field (option_copied fields.entry) name.now }
{
    match fields {
        Some(fields) => field_type(fields.get().as_slice(), name),
        None => Some(None),
    }
}

fn field_type(fields: &[Field], name: &Name) -> Option<Option<ValueType>>
    ensures { result ≡ option_map (λ f. f.ty) (find (meanings.is_field name.now) fields.now) }
{
    match fields.iter().find(|field| is_field(field, name)) {
        Some(field) => Some(field.ty),
        None => None,
    }
}

fn is_field(field: &Field, name: &Name) -> bool
    ensures { result ≡ meanings.is_field name.now field.now }
{
    match &field.name {
        Some(named) => *name == *named,
        None => false,
    }
}

fn field_meaning<'a>(known: &Scopes<'a>, n: &Name, m: &Name) -> Option<Meaning<'a>>
    ensures { option_map lent result ≡ spec.field_meaning (spec.entry_fields (meanings.innermost n.now known.now)) m.now }
{
    match field(known.fields(n), m) {
        Some(ty) => Some(Meaning::Constant(ty)),
        None => None,
    }
}

fn is_record(meaning: Option<Meaning<'_>>) -> bool
    ensures { result ≡ spec.is_record (option_map lent meaning.entry) }
{
    match meaning {
        Some(Meaning::Record) => true,
        Some(Meaning::Variable(_))
        | Some(Meaning::Constant(_))
        | Some(Meaning::Parameter(_, _))
        | Some(Meaning::Exception)
        | Some(Meaning::Cursor)
        | Some(Meaning::Subprogram(_))
        | None => false,
    }
}

/// `n.m`: a field of the record n where the innermost n is one, and else a member of the visible package n.
fn member_meant<'a>(seen: &Seen<'a>, known: &Scopes<'a>, n: &Name, m: &Name) -> Option<Meaning<'a>>
    ensures { option_map lent result ≡ spec.member_meant seen.now.view known.now n.now m.now }
{
    if is_record(known.find(n)) {
        field_meaning(known, n, m)
    } else {
        member(seen, n, m)
    }
}

fn is_function(head: &Head) -> bool
    ensures { result ≡ spec.is_function head.now }
{
    head.result.is_some()
}

fn visible_function<'a>(seen: &Seen<'a>, name: &Name) -> Option<Meaning<'a>>
    ensures { option_map lent result ≡ option_and_then spec.only_function (spec.visible_head seen.now.view name.now) }
{
    match visible_head(seen, name) {
        Some(head) => only_function(head),
        None => None,
    }
}

fn only_function(head: &Head) -> Option<Meaning<'_>>
    ensures { option_map lent result ≡ spec.only_function head.now }
{
    if is_function(head) {
        Some(Meaning::Subprogram(head))
    } else {
        None
    }
}

fn visible_procedure<'a>(seen: &Seen<'a>, name: &Name) -> Option<Meaning<'a>>
    ensures { option_map lent result ≡ option_and_then spec.only_procedure (spec.visible_head seen.now.view name.now) }
{
    match visible_head(seen, name) {
        Some(head) => only_procedure(head),
        None => None,
    }
}

fn only_procedure(head: &Head) -> Option<Meaning<'_>>
    ensures { option_map lent result ≡ spec.only_procedure head.now }
{
    if is_function(head) {
        None
    } else {
        Some(Meaning::Subprogram(head))
    }
}

/// A name as an operand, a target or a cursor: what is declared, and last a function that the edition sees.
#[tactic(auto, unfolding(crate::specs::Names::meant_at))]
pub fn plain<'a>(seen: &Seen<'a>, known: &Scopes<'a>, name: &Name) -> Option<Meaning<'a>>
    ensures { option_map lent result ≡ spec.meant_at seen.now.view known.now name.now None }
{
    match known.find(name) {
        Some(meaning) => Some(meaning),
        None => visible_function(seen, name),
    }
}

/// The same of `n` or `n.m`.
#[tactic(auto, unfolding(crate::specs::Names::meant_at))]
pub fn meant<'a>(seen: &Seen<'a>, known: &Scopes<'a>, path: &Path) -> Option<Meaning<'a>>
    ensures { option_map lent result ≡ spec.meant seen.now.view known.now path.now }
{
    match &path.member {
        None => plain(seen, known, &path.name),
        Some(member) => member_meant(seen, known, &path.name, member),
    }
}

/// A name in a call statement without arguments: what is declared, and last a procedure that the edition sees.
#[tactic(auto, unfolding(crate::specs::Names::called_at))]
pub fn called<'a>(seen: &Seen<'a>, known: &Scopes<'a>, path: &Path) -> Option<Meaning<'a>>
    ensures { option_map lent result ≡ spec.called seen.now.view known.now path.now }
{
    match &path.member {
        None => plainly_called(seen, known, &path.name),
        Some(member) => member_meant(seen, known, &path.name, member),
    }
}

#[tactic(auto, unfolding(crate::specs::Names::called_at))]
fn plainly_called<'a>(seen: &Seen<'a>, known: &Scopes<'a>, name: &Name) -> Option<Meaning<'a>>
    ensures { option_map lent result ≡ spec.called_at seen.now.view known.now name.now None }
{
    match known.find(name) {
        Some(meaning) => Some(meaning),
        None => visible_procedure(seen, name),
    }
}

/// A name with arguments that isn't built in: a subprogram of the enclosing package, and else of the edition; `n.m` is a
/// member of the visible package n.
#[tactic(auto, unfolding(crate::specs::Names::applied_at))]
pub fn applied<'a>(seen: &Seen<'a>, known: &Scopes<'a>, path: &Path) -> Option<&'a Head>
    ensures { option_copied result ≡ spec.applied seen.now.view known.now path.now }
{
    match &path.member {
        None => plainly_applied(seen, known, &path.name),
        Some(m) => applied_member(seen, &path.name, m),
    }
}

#[tactic(auto, unfolding(crate::specs::Names::applied_at))]
fn plainly_applied<'a>(seen: &Seen<'a>, known: &Scopes<'a>, name: &Name) -> Option<&'a Head>
    ensures { option_copied result ≡ spec.applied_at seen.now.view known.now name.now None }
{
    match known.subprogram(name) {
        Some(head) => Some(head),
        None => visible_head(seen, name),
    }
}

fn applied_member<'a>(seen: &Seen<'a>, n: &Name, m: &Name) -> Option<&'a Head>
    ensures { option_copied result ≡ option_and_then meanings.head_in (spec.member seen.now.view n.now m.now) }
{
    match member(seen, n, m) {
        Some(meaning) => head_in(meaning),
        None => None,
    }
}

fn is_named(name: &[u8], word: &[u8]) -> bool
    ensures { result ≡ bytes_eq name.now word.now }
{
    name == word
}

/// Whether an exception has this name everywhere.
#[tactic(auto, unfolding(crate::specs::Names::is_predefined))]
fn is_predefined(name: &[u8]) -> bool
    ensures { result ≡ spec.is_predefined name.now }
{
    is_named(name, b"NO_DATA_FOUND")
        || is_named(name, b"TOO_MANY_ROWS")
        || is_named(name, b"ZERO_DIVIDE")
        || is_named(name, b"VALUE_ERROR")
        || is_named(name, b"DUP_VAL_ON_INDEX")
        || is_named(name, b"INVALID_CURSOR")
        || is_named(name, b"CURSOR_ALREADY_OPEN")
        || is_named(name, b"INVALID_NUMBER")
}

/// A name behind RAISE or WHEN.
#[tactic(auto, unfolding(crate::specs::Names::raised_at))]
pub fn raised<'a>(seen: &Seen<'a>, known: &Scopes<'a>, path: &Path) -> Option<Meaning<'a>>
    ensures { option_map lent result ≡ spec.raised seen.now.view known.now path.now }
{
    match &path.member {
        None => plainly_raised(known, &path.name),
        Some(member) => member_meant(seen, known, &path.name, member),
    }
}

fn plainly_raised<'a>(known: &Scopes<'a>, name: &Name) -> Option<Meaning<'a>>
    ensures { option_map lent result ≡ spec.declared_or (meanings.innermost name.now known.now) (spec.predefined name.now) }
{
    match known.find(name) {
        Some(meaning) => Some(meaning),
        None => predefined(name),
    }
}

fn predefined<'a>(name: &Name) -> Option<Meaning<'a>>
    ensures { option_map lent result ≡ spec.predefined name.now }
{
    if is_predefined(name.as_slice()) {
        Some(Meaning::Exception)
    } else {
        None
    }
}
