//! Items of a query's list.

ghost use Rattle.std.specs.Prelude.{Some, ◌≡◌, IfOk};
ghost use Rattle.ebr_grammar.specs.Outcome.{Reads};
ghost use Rattle.ebr_grammar.specs.Reading.{with_first};
ghost use Rattle.ebr_exprtree.specs.declared.expression.Expr.{out-Expr};
ghost use Rattle.ebr_sqlparse.specs.Productions as productions;
ghost use Rattle.ebr_sqlparse.specs.Items as spec;
ghost use Rattle.ebr_sqlparse.specs.Statements as grammar;
ghost use Rattle.ebr_sqlparse.specs.inside.Aliased as inside;

use ebr_ast::{Aggregate, Expr, Item, ItemKind, Path, SelectList};
use ebr_base::{CloneIn, List, Name, NoMemory, Shared};
use ebr_exprparse::read_expression;
use ebr_grammar::{Kind, ReadStop, Tokens};
use std::alloc::Global;

/// An aggregate that takes an expression.
#[derive(Clone, Copy, Debug, PartialEq, Eq)]
pub enum Function {
    Count,
    Sum,
    Min,
    Max,
}

/// What productions name.
#[derive(Clone, Copy, Debug, PartialEq, Eq)]
pub enum Part {
    /// What an item of a list is, without its alias.
    What,
}

/// Whether `COUNT ( *` stands in front.
#[tactic(auto, unfolding(crate::specs::Items::counts_rows))]
fn counts_rows(tokens: &Tokens<'_>) -> bool
    ensures { result ≡ spec.counts_rows tokens.now }
{
    tokens.sees(Kind::Count)
        && tokens.sees_later(1, &[Kind::LeftParen])
        && tokens.sees_later(2, &[Kind::Star])
}

/// The aggregate whose name stands in front.
#[tactic(auto, unfolding(crate::specs::Items::function_ahead))]
fn function_ahead(tokens: &Tokens<'_>) -> Option<Function>
    ensures { result ≡ spec.function_ahead tokens.now }
{
    if tokens.sees(Kind::Count) {
        Some(Function::Count)
    } else if tokens.sees(Kind::Sum) {
        Some(Function::Sum)
    } else if tokens.sees(Kind::Min) {
        Some(Function::Min)
    } else if tokens.sees(Kind::Max) {
        Some(Function::Max)
    } else {
        None
    }
}

fn aggregate_of(function: Function, argument: Shared<Expr>) -> Aggregate
    ensures { result ≡ spec.aggregate_of function argument }
{
    match function {
        Function::Count => Aggregate::Count(argument),
        Function::Sum => Aggregate::Sum(argument),
        Function::Min => Aggregate::Min(argument),
        Function::Max => Aggregate::Max(argument),
    }
}

/// The only argument of a call without a member.
fn only_argument(
    alloc: Global,
    path: &Path,
    arguments: &List<Shared<Expr>>,
) -> Result<Option<Shared<Expr>>, NoMemory>
    ensures { IfOk result (λ r. r ≡ spec.one path.now.member arguments.now) }
{
    if path.member.is_some() {
        return Ok(None);
    }
    match arguments.as_slice() {
        [argument] => Ok(Some(argument.clone_in(alloc)?)),
        _ => Ok(None),
    }
}

fn argument_of(alloc: Global, tree: &Expr) -> Result<Option<Shared<Expr>>, NoMemory>
    ensures { IfOk result (λ r. r ≡ spec.only_argument (out-Expr tree.now)) }
{
    match tree {
        Expr::Call(path, arguments) => only_argument(alloc, path, arguments),
        _ => Ok(None),
    }
}

/// An expression that begins with the name of an aggregate.
#[tactic(auto, unfolding(crate::specs::Items::item_of_call))]
fn item_of_call(alloc: Global, function: Function, tree: Shared<Expr>) -> Result<ItemKind, NoMemory>
    ensures { IfOk result (λ w. w ≡ spec.item_of_call function tree) }
{
    match argument_of(alloc, tree.get())? {
        Some(argument) => Ok(ItemKind::Aggregate(aggregate_of(function, argument))),
        None => Ok(ItemKind::Expr(tree)),
    }
}

fn item_alias(alloc: Global, tokens: &mut Tokens<'_>) -> Result<Option<Name>, ReadStop>
    ensures { Reads (productions.reads_by grammar.item_alias tokens.old) result tokens.new }
{
    if tokens.eat(Kind::As) {
        Ok(Some(tokens.name(alloc)?))
    } else {
        tokens.maybe_name(alloc)
    }
}

/// `COUNT ( * )`, with the alias that stands behind it.
fn count_of_rows(alloc: Global, tokens: &mut Tokens<'_>) -> Result<Item, ReadStop>
    ensures { Reads (inside.aliased (spec.read_rows tokens.old)) result tokens.new }
{
    tokens.expect(Kind::Count)?;
    tokens.expect(Kind::LeftParen)?;
    tokens.expect(Kind::Star)?;
    tokens.expect(Kind::RightParen)?;
    let alias = item_alias(alloc, tokens)?;
    Ok(Item {
        what: ItemKind::Aggregate(Aggregate::CountRows),
        alias,
    })
}

/// What an expression is that begins with this name of an aggregate, or with none.
fn item_of(
    alloc: Global,
    function: Option<Function>,
    tree: Shared<Expr>,
) -> Result<ItemKind, NoMemory>
    ensures { IfOk result (λ w. w ≡ spec.item_of function tree) }
{
    match function {
        Some(function) => item_of_call(alloc, function, tree),
        None => Ok(ItemKind::Expr(tree)),
    }
}

/// The item of an expression, with the alias that stands behind it.
fn with_alias(
    alloc: Global,
    tokens: &mut Tokens<'_>,
    function: Option<Function>,
    tree: Shared<Expr>,
) -> Result<Item, ReadStop>
    ensures { Reads (inside.aliased (Some (spec.item_of function tree, tokens.old))) result tokens.new }
{
    let alias = item_alias(alloc, tokens)?;
    let what = item_of(alloc, function, tree)?;
    Ok(Item { what, alias })
}

/// An expression, or the aggregate that it is, with the alias that stands behind it.
fn computed(alloc: Global, tokens: &mut Tokens<'_>) -> Result<Item, ReadStop>
    ensures { Reads (inside.aliased (spec.read_plain tokens.old)) result tokens.new }
{
    let function = function_ahead(tokens);
    let tree = read_expression(alloc, tokens)?;
    with_alias(alloc, tokens, function, tree)
}

fn item(alloc: Global, tokens: &mut Tokens<'_>) -> Result<Item, ReadStop>
    ensures { Reads (productions.reads_by grammar.item tokens.old) result tokens.new }
{
    if counts_rows(tokens) {
        count_of_rows(alloc, tokens)
    } else {
        computed(alloc, tokens)
    }
}

/// The items behind the first, and with it.
fn more_items(alloc: Global, tokens: &mut Tokens<'_>, first: Item) -> Result<List<Item>, ReadStop>
    ensures { Reads (with_first first (productions.reads_by grammar.more_items tokens.old)) result tokens.new }
{
    let mut found = List::new(alloc);
    found.push(first)?;
    for _turn in 0..tokens.left() {
        if !tokens.eat(Kind::Comma) {
            return Ok(found);
        }
        let next = item(alloc, tokens)?;
        found.push(next)?;
    }
    Ok(found)
}

/// `item {, item}`.
fn items(alloc: Global, tokens: &mut Tokens<'_>) -> Result<List<Item>, ReadStop>
    ensures { Reads (productions.reads_by grammar.items tokens.old) result tokens.new }
{
    let first = item(alloc, tokens)?;
    more_items(alloc, tokens, first)
}

/// Reads the list of a query.
///
/// Oracle Database SQL Language Reference 19c, SELECT: `*`, or items with commas between them, each
/// with its alias, before which AS may stand.
pub fn read_select_list(alloc: Global, tokens: &mut Tokens<'_>) -> Result<SelectList, ReadStop>
    ensures { Reads (productions.reads_by grammar.select_list tokens.old) result tokens.new }
{
    if tokens.eat(Kind::Star) {
        Ok(SelectList::All)
    } else {
        Ok(SelectList::Items(items(alloc, tokens)?))
    }
}
