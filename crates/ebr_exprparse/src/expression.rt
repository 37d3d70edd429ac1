//! Expressions, a method for each production.

ghost use Rattle.ebr_grammar.specs.Reading.{with_first};
ghost use Rattle.ebr_grammar.specs.Outcome.{Reads};
ghost use Rattle.ebr_exprparse.specs.Expressions as spec;
ghost use Rattle.ebr_exprparse.specs.inside.Reading as inside;
ghost use Rattle.ebr_exprparse.specs.inside.Nests.{Nests};

use crate::level::Level;
use crate::trees::{
    Read, Tree, between, compared, conjoined, disjoined, like, name_or_call, negated, path,
    product, quotient, summed, tree_of,
};
use crate::words::read_one_of;
use ebr_base::{List, Name, Shared};
use ebr_exprtree::{Addend, AdditiveOperator, Attribute, Comparison, Expr, Op, RowImage};
use ebr_grammar::{Kind, ReadStop, Tokens, ended, shared};
use std::alloc::Global;

/// The productions of expressions.
#[derive(Clone, Copy)]
pub struct Grammar<F> {
    pub alloc: Global,
    /// How deep expressions may still nest.
    pub depth: usize,
    /// Reads a nested expression.
    pub expr: F,
}

impl<F: Fn(Global, &mut Tokens<'_>, usize, Level) -> Result<Read, ReadStop>> Grammar<F> {
    /// What is nested, to one level less.
    fn nested_read(&self, tokens: &mut Tokens<'_>, level: Level) -> Result<Read, ReadStop>
        requires { Nests self.now.depth (F.pre self.now.expr) (F.post self.now.expr) }
        ensures { Reads (spec.read_within self.now.depth level tokens.old) result tokens.new }
    {
        (self.expr)(self.alloc, tokens, self.depth, level)
    }

    fn inner(&self, tokens: &mut Tokens<'_>) -> Result<Tree, ReadStop>
        requires { Nests self.now.depth (F.pre self.now.expr) (F.post self.now.expr) }
        ensures { Reads (inside.reads_at self.now.depth spec.inner tokens.old) result tokens.new }
    {
        tree_of(self.nested_read(tokens, Level::Whole))
    }

    fn inner_sum(&self, tokens: &mut Tokens<'_>) -> Result<Tree, ReadStop>
        requires { Nests self.now.depth (F.pre self.now.expr) (F.post self.now.expr) }
        ensures { Reads (inside.reads_at self.now.depth spec.inner_sum tokens.old) result tokens.new }
    {
        tree_of(self.nested_read(tokens, Level::Sum))
    }

    /// The items behind the first, and with it.
    fn more_items(&self, tokens: &mut Tokens<'_>, first: Tree) -> Result<List<Tree>, ReadStop>
        requires { Nests self.now.depth (F.pre self.now.expr) (F.post self.now.expr) }
        ensures { Reads (with_first first (inside.reads_at self.now.depth spec.more_items tokens.old)) result tokens.new }
    {
        let mut found = List::new(self.alloc);
        found.push(first)?;
        for _turn in 0..tokens.left() {
            if !tokens.eat(Kind::Comma) {
                return Ok(found);
            }
            let next = self.inner(tokens)?;
            found.push(next)?;
        }
        Ok(found)
    }

    fn list(&self, tokens: &mut Tokens<'_>) -> Result<List<Tree>, ReadStop>
        requires { Nests self.now.depth (F.pre self.now.expr) (F.post self.now.expr) }
        ensures { Reads (inside.reads_at self.now.depth spec.list tokens.old) result tokens.new }
    {
        let first = self.inner(tokens)?;
        self.more_items(tokens, first)
    }

    /// What stands behind the parenthesis.
    fn arguments(&self, tokens: &mut Tokens<'_>) -> Result<List<Tree>, ReadStop>
        requires { Nests self.now.depth (F.pre self.now.expr) (F.post self.now.expr) }
        ensures { Reads (inside.reads_at self.now.depth spec.arguments tokens.old) result tokens.new }
    {
        if tokens.eat(Kind::RightParen) {
            return Ok(List::new(self.alloc));
        }
        let found = self.list(tokens)?;
        ended(tokens, Kind::RightParen, found)
    }

    fn maybe_arguments(&self, tokens: &mut Tokens<'_>) -> Result<Option<List<Tree>>, ReadStop>
        requires { Nests self.now.depth (F.pre self.now.expr) (F.post self.now.expr) }
        ensures { Reads (inside.reads_at self.now.depth spec.maybe_arguments tokens.old) result tokens.new }
    {
        if tokens.eat(Kind::LeftParen) {
            Ok(Some(self.arguments(tokens)?))
        } else {
            Ok(None)
        }
    }

    /// What stands behind the dot.
    fn member(&self, tokens: &mut Tokens<'_>, first: Name) -> Result<Tree, ReadStop>
        requires { Nests self.now.depth (F.pre self.now.expr) (F.post self.now.expr) }
        ensures { Reads (with_first first (inside.reads_at self.now.depth spec.member tokens.old)) result tokens.new }
    {
        let second = tokens.name(self.alloc)?;
        let maybe_arguments = self.maybe_arguments(tokens)?;
        shared(
            self.alloc,
            name_or_call(path(first, Some(second)), maybe_arguments),
        )
    }

    /// What stands behind `%`.
    #[tactic(auto, unfolding(crate::specs::Expressions::attribute, ebr_grammar::specs::Reading::reads))]
    fn attribute(&self, tokens: &mut Tokens<'_>) -> Result<Attribute, ReadStop>
        requires { Nests self.now.depth (F.pre self.now.expr) (F.post self.now.expr) }
        ensures { Reads (inside.reads_at self.now.depth spec.attribute tokens.old) result tokens.new }
    {
        read_one_of(
            tokens,
            &[
                (Kind::Found, Attribute::Found),
                (Kind::Notfound, Attribute::NotFound),
                (Kind::Rowcount, Attribute::RowCount),
                (Kind::Isopen, Attribute::IsOpen),
            ],
        )
    }

    /// What stands behind `SQL %`.
    #[tactic(auto, unfolding(crate::specs::Expressions::statement_attribute, ebr_grammar::specs::Reading::reads))]
    fn statement_attribute(&self, tokens: &mut Tokens<'_>) -> Result<Attribute, ReadStop>
        requires { Nests self.now.depth (F.pre self.now.expr) (F.post self.now.expr) }
        ensures { Reads (inside.reads_at self.now.depth spec.statement_attribute tokens.old) result tokens.new }
    {
        read_one_of(
            tokens,
            &[
                (Kind::Found, Attribute::Found),
                (Kind::Notfound, Attribute::NotFound),
                (Kind::Rowcount, Attribute::RowCount),
            ],
        )
    }

    /// What stands behind SQL.
    fn sql_attribute(&self, tokens: &mut Tokens<'_>) -> Result<Tree, ReadStop>
        requires { Nests self.now.depth (F.pre self.now.expr) (F.post self.now.expr) }
        ensures { Reads (inside.reads_at self.now.depth spec.sql_attribute tokens.old) result tokens.new }
    {
        tokens.expect(Kind::Percent)?;
        let attribute = self.statement_attribute(tokens)?;
        shared(self.alloc, Expr::Attribute(None, attribute))
    }

    fn divisor(&self, tokens: &mut Tokens<'_>) -> Result<Tree, ReadStop>
        requires { Nests self.now.depth (F.pre self.now.expr) (F.post self.now.expr) }
        ensures { Reads (inside.reads_at self.now.depth spec.divisor tokens.old) result tokens.new }
    {
        let divisor = self.inner_sum(tokens)?;
        ended(tokens, Kind::RightParen, divisor)
    }

    /// What stands behind the first argument of TRUNC, where no `/` follows it.
    fn trunc_call(&self, tokens: &mut Tokens<'_>, name: Name, first: Read) -> Result<Tree, ReadStop>
        requires { Nests self.now.depth (F.pre self.now.expr) (F.post self.now.expr) }
        ensures { Reads (inside.tree_behind name (with_first first (inside.reads_at self.now.depth spec.trunc_call tokens.old))) result tokens.new }
    {
        let (tree, _) = first;
        let arguments = self.more_items(tokens, tree)?;
        tokens.expect(Kind::RightParen)?;
        shared(self.alloc, Expr::Call(path(name, None), arguments))
    }

    /// What stands behind the first argument of TRUNC.
    fn trunc_end(&self, tokens: &mut Tokens<'_>, name: Name, first: Read) -> Result<Tree, ReadStop>
        requires { Nests self.now.depth (F.pre self.now.expr) (F.post self.now.expr) }
        ensures { Reads (inside.tree_behind name (with_first first (inside.reads_at self.now.depth spec.trunc_end tokens.old))) result tokens.new }
    {
        if tokens.eat(Kind::Slash) {
            let divisor = self.divisor(tokens)?;
            quotient(self.alloc, first, divisor)
        } else {
            self.trunc_call(tokens, name, first)
        }
    }

    /// What stands in the parentheses of TRUNC.
    fn trunc_arguments(&self, tokens: &mut Tokens<'_>, name: Name) -> Result<Tree, ReadStop>
        requires { Nests self.now.depth (F.pre self.now.expr) (F.post self.now.expr) }
        ensures { Reads (inside.tree_behind name (inside.reads_at self.now.depth spec.trunc_arguments tokens.old)) result tokens.new }
    {
        if tokens.eat(Kind::RightParen) {
            return shared(
                self.alloc,
                Expr::Call(path(name, None), List::new(self.alloc)),
            );
        }
        let first = self.nested_read(tokens, Level::Whole)?;
        self.trunc_end(tokens, name, first)
    }

    /// What stands behind TRUNC.
    fn trunc_tail(&self, tokens: &mut Tokens<'_>, name: Name) -> Result<Tree, ReadStop>
        requires { Nests self.now.depth (F.pre self.now.expr) (F.post self.now.expr) }
        ensures { Reads (inside.tree_behind name (inside.reads_at self.now.depth spec.trunc_tail tokens.old)) result tokens.new }
    {
        if tokens.eat(Kind::LeftParen) {
            self.trunc_arguments(tokens, name)
        } else if tokens.eat(Kind::Dot) {
            self.member(tokens, name)
        } else if tokens.eat(Kind::Percent) {
            let attribute = self.attribute(tokens)?;
            shared(self.alloc, Expr::Attribute(Some(name), attribute))
        } else {
            shared(self.alloc, Expr::Name(path(name, None)))
        }
    }

    /// What stands behind another name.
    fn name_tail(&self, tokens: &mut Tokens<'_>, name: Name) -> Result<Tree, ReadStop>
        requires { Nests self.now.depth (F.pre self.now.expr) (F.post self.now.expr) }
        ensures { Reads (with_first name (inside.reads_at self.now.depth spec.name_tail tokens.old)) result tokens.new }
    {
        if tokens.eat(Kind::Dot) {
            self.member(tokens, name)
        } else if tokens.eat(Kind::Percent) {
            let attribute = self.attribute(tokens)?;
            shared(self.alloc, Expr::Attribute(Some(name), attribute))
        } else {
            let maybe_arguments = self.maybe_arguments(tokens)?;
            shared(self.alloc, name_or_call(path(name, None), maybe_arguments))
        }
    }

    /// What stands behind the parenthesis, up to the closing one.
    fn closed(&self, tokens: &mut Tokens<'_>) -> Result<Tree, ReadStop>
        requires { Nests self.now.depth (F.pre self.now.expr) (F.post self.now.expr) }
        ensures { Reads (inside.reads_at self.now.depth spec.closed tokens.old) result tokens.new }
    {
        let tree = self.inner(tokens)?;
        ended(tokens, Kind::RightParen, tree)
    }

    #[tactic(auto, unfolding(crate::specs::Expressions::row_image, ebr_grammar::specs::Reading::reads))]
    fn row_image(&self, tokens: &mut Tokens<'_>) -> Result<RowImage, ReadStop>
        requires { Nests self.now.depth (F.pre self.now.expr) (F.post self.now.expr) }
        ensures { Reads (inside.reads_at self.now.depth spec.row_image tokens.old) result tokens.new }
    {
        read_one_of(
            tokens,
            &[(Kind::New, RowImage::New), (Kind::Old, RowImage::Old)],
        )
    }

    /// What stands behind the colon.
    fn row_column(&self, tokens: &mut Tokens<'_>) -> Result<Tree, ReadStop>
        requires { Nests self.now.depth (F.pre self.now.expr) (F.post self.now.expr) }
        ensures { Reads (inside.reads_at self.now.depth spec.row_column tokens.old) result tokens.new }
    {
        let image = self.row_image(tokens)?;
        tokens.expect(Kind::Dot)?;
        let name = tokens.name(self.alloc)?;
        shared(self.alloc, Expr::Row(image, name))
    }

    /// A word that stands for itself.
    fn constant(&self, tokens: &mut Tokens<'_>) -> Result<Tree, ReadStop>
        requires { Nests self.now.depth (F.pre self.now.expr) (F.post self.now.expr) }
        ensures { Reads (inside.reads_at self.now.depth spec.constant tokens.old) result tokens.new }
    {
        if tokens.eat(Kind::Null) {
            return shared(self.alloc, Expr::Null);
        }
        if tokens.eat(Kind::True) {
            return shared(self.alloc, Expr::Boolean(true));
        }
        if tokens.eat(Kind::False) {
            return shared(self.alloc, Expr::Boolean(false));
        }
        if tokens.eat(Kind::Sqlcode) {
            return shared(self.alloc, Expr::SqlCode);
        }
        if tokens.eat(Kind::Inserting) {
            return shared(self.alloc, Expr::Firing(Op::Insert));
        }
        if tokens.eat(Kind::Updating) {
            return shared(self.alloc, Expr::Firing(Op::Update));
        }
        tokens.expect(Kind::Deleting)?;
        shared(self.alloc, Expr::Firing(Op::Delete))
    }

    /// A name with what stands behind it.
    fn reference(&self, tokens: &mut Tokens<'_>) -> Result<Tree, ReadStop>
        requires { Nests self.now.depth (F.pre self.now.expr) (F.post self.now.expr) }
        ensures { Reads (inside.reads_at self.now.depth spec.reference tokens.old) result tokens.new }
    {
        if tokens.sees(Kind::Trunc) {
            let name = tokens.name_among(self.alloc, &[Kind::Trunc])?;
            self.trunc_tail(tokens, name)
        } else {
            let name = tokens.name_but(self.alloc, &[Kind::Trunc])?;
            self.name_tail(tokens, name)
        }
    }

    fn primary(&self, tokens: &mut Tokens<'_>) -> Result<Tree, ReadStop>
        requires { Nests self.now.depth (F.pre self.now.expr) (F.post self.now.expr) }
        ensures { Reads (inside.reads_at self.now.depth spec.primary tokens.old) result tokens.new }
    {
        if tokens.sees(Kind::NumberLiteral) {
            let number = tokens.number()?;
            shared(self.alloc, Expr::Number(number))
        } else if tokens.sees(Kind::TextLiteral) {
            let content = tokens.content(self.alloc)?;
            shared(self.alloc, Expr::Text(content))
        } else if tokens.eat(Kind::LeftParen) {
            self.closed(tokens)
        } else if tokens.sees_any(&[
            Kind::Null,
            Kind::True,
            Kind::False,
            Kind::Sqlcode,
            Kind::Inserting,
            Kind::Updating,
            Kind::Deleting,
        ]) {
            self.constant(tokens)
        } else if tokens.eat(Kind::Colon) {
            self.row_column(tokens)
        } else if tokens.eat(Kind::Sql) {
            self.sql_attribute(tokens)
        } else {
            self.reference(tokens)
        }
    }

    fn factor(&self, tokens: &mut Tokens<'_>) -> Result<Tree, ReadStop>
        requires { Nests self.now.depth (F.pre self.now.expr) (F.post self.now.expr) }
        ensures { Reads (inside.reads_at self.now.depth spec.factor tokens.old) result tokens.new }
    {
        if tokens.eat(Kind::Plus) {
            let operand = self.primary(tokens)?;
            Ok(Shared::new(self.alloc, Expr::Plus(operand))?)
        } else if tokens.eat(Kind::Minus) {
            let operand = self.primary(tokens)?;
            Ok(Shared::new(self.alloc, Expr::Minus(operand))?)
        } else {
            self.primary(tokens)
        }
    }

    fn more_factors(&self, tokens: &mut Tokens<'_>) -> Result<List<Tree>, ReadStop>
        requires { Nests self.now.depth (F.pre self.now.expr) (F.post self.now.expr) }
        ensures { Reads (inside.reads_at self.now.depth spec.more_factors tokens.old) result tokens.new }
    {
        let mut found = List::new(self.alloc);
        for _turn in 0..tokens.left() {
            if !tokens.eat(Kind::Star) {
                return Ok(found);
            }
            let next = self.factor(tokens)?;
            found.push(next)?;
        }
        Ok(found)
    }

    fn term(&self, tokens: &mut Tokens<'_>) -> Result<Tree, ReadStop>
        requires { Nests self.now.depth (F.pre self.now.expr) (F.post self.now.expr) }
        ensures { Reads (inside.reads_at self.now.depth spec.term tokens.old) result tokens.new }
    {
        let first = self.factor(tokens)?;
        let more = self.more_factors(tokens)?;
        product(self.alloc, first, more)
    }

    #[tactic(auto, unfolding(crate::specs::Expressions::operator, ebr_grammar::specs::Reading::reads))]
    fn operator(&self, tokens: &mut Tokens<'_>) -> Result<AdditiveOperator, ReadStop>
        requires { Nests self.now.depth (F.pre self.now.expr) (F.post self.now.expr) }
        ensures { Reads (inside.reads_at self.now.depth spec.operator tokens.old) result tokens.new }
    {
        read_one_of(
            tokens,
            &[
                (Kind::Plus, AdditiveOperator::Add),
                (Kind::Minus, AdditiveOperator::Subtract),
                (Kind::Concat, AdditiveOperator::Concatenate),
            ],
        )
    }

    fn addend(&self, tokens: &mut Tokens<'_>) -> Result<Addend, ReadStop>
        requires { Nests self.now.depth (F.pre self.now.expr) (F.post self.now.expr) }
        ensures { Reads (inside.reads_at self.now.depth spec.addend tokens.old) result tokens.new }
    {
        let operator = self.operator(tokens)?;
        let term = self.term(tokens)?;
        Ok(Addend { operator, term })
    }

    fn more_terms(&self, tokens: &mut Tokens<'_>) -> Result<List<Addend>, ReadStop>
        requires { Nests self.now.depth (F.pre self.now.expr) (F.post self.now.expr) }
        ensures { Reads (inside.reads_at self.now.depth spec.more_terms tokens.old) result tokens.new }
    {
        let mut found = List::new(self.alloc);
        for _turn in 0..tokens.left() {
            if !tokens.sees_any(&[Kind::Plus, Kind::Minus, Kind::Concat]) {
                return Ok(found);
            }
            let next = self.addend(tokens)?;
            found.push(next)?;
        }
        Ok(found)
    }

    fn sum(&self, tokens: &mut Tokens<'_>) -> Result<Tree, ReadStop>
        requires { Nests self.now.depth (F.pre self.now.expr) (F.post self.now.expr) }
        ensures { Reads (inside.reads_at self.now.depth spec.sum tokens.old) result tokens.new }
    {
        let first = self.term(tokens)?;
        let more = self.more_terms(tokens)?;
        summed(self.alloc, first, more)
    }

    fn closed_list(&self, tokens: &mut Tokens<'_>) -> Result<List<Tree>, ReadStop>
        requires { Nests self.now.depth (F.pre self.now.expr) (F.post self.now.expr) }
        ensures { Reads (inside.reads_at self.now.depth spec.closed_list tokens.old) result tokens.new }
    {
        tokens.expect(Kind::LeftParen)?;
        let items = self.list(tokens)?;
        ended(tokens, Kind::RightParen, items)
    }

    /// What stands behind IN.
    fn in_list(&self, tokens: &mut Tokens<'_>, left: Tree, negated: bool) -> Result<Tree, ReadStop>
        requires { Nests self.now.depth (F.pre self.now.expr) (F.post self.now.expr) }
        ensures { Reads (with_first left (inside.reads_at self.now.depth (spec.in_list negated) tokens.old)) result tokens.new }
    {
        let items = self.closed_list(tokens)?;
        shared(self.alloc, Expr::In(left, items, negated))
    }

    fn range_end(&self, tokens: &mut Tokens<'_>) -> Result<Tree, ReadStop>
        requires { Nests self.now.depth (F.pre self.now.expr) (F.post self.now.expr) }
        ensures { Reads (inside.reads_at self.now.depth spec.range_end tokens.old) result tokens.new }
    {
        tokens.expect(Kind::And)?;
        self.sum(tokens)
    }

    /// What stands behind BETWEEN.
    fn range(&self, tokens: &mut Tokens<'_>, left: Tree, negated: bool) -> Result<Tree, ReadStop>
        requires { Nests self.now.depth (F.pre self.now.expr) (F.post self.now.expr) }
        ensures { Reads (with_first left (inside.reads_at self.now.depth (spec.range negated) tokens.old)) result tokens.new }
    {
        let low = self.sum(tokens)?;
        let high = self.range_end(tokens)?;
        between(self.alloc, left, low, high, negated)
    }

    /// What stands behind LIKE.
    fn pattern(&self, tokens: &mut Tokens<'_>, left: Tree, negated: bool) -> Result<Tree, ReadStop>
        requires { Nests self.now.depth (F.pre self.now.expr) (F.post self.now.expr) }
        ensures { Reads (with_first left (inside.reads_at self.now.depth (spec.pattern negated) tokens.old)) result tokens.new }
    {
        let right = self.sum(tokens)?;
        like(self.alloc, left, right, negated)
    }

    /// What stands behind IS.
    fn null_test(&self, tokens: &mut Tokens<'_>, left: Tree) -> Result<Tree, ReadStop>
        requires { Nests self.now.depth (F.pre self.now.expr) (F.post self.now.expr) }
        ensures { Reads (with_first left (inside.reads_at self.now.depth spec.null_test tokens.old)) result tokens.new }
    {
        let negated = tokens.eat(Kind::Not);
        tokens.expect(Kind::Null)?;
        shared(self.alloc, Expr::IsNull(left, negated))
    }

    /// IN, BETWEEN or LIKE with what stands behind it.
    fn membership(
        &self,
        tokens: &mut Tokens<'_>,
        left: Tree,
        negated: bool,
    ) -> Result<Tree, ReadStop>
        requires { Nests self.now.depth (F.pre self.now.expr) (F.post self.now.expr) }
        ensures { Reads (with_first left (inside.reads_at self.now.depth (spec.membership negated) tokens.old)) result tokens.new }
    {
        if tokens.eat(Kind::In) {
            self.in_list(tokens, left, negated)
        } else if tokens.eat(Kind::Between) {
            self.range(tokens, left, negated)
        } else {
            tokens.expect(Kind::Like)?;
            self.pattern(tokens, left, negated)
        }
    }

    /// A test of the operand that stands before it.
    fn test(&self, tokens: &mut Tokens<'_>, left: Tree) -> Result<Tree, ReadStop>
        requires { Nests self.now.depth (F.pre self.now.expr) (F.post self.now.expr) }
        ensures { Reads (with_first left (inside.reads_at self.now.depth spec.test tokens.old)) result tokens.new }
    {
        if tokens.eat(Kind::Is) {
            self.null_test(tokens, left)
        } else if tokens.eat(Kind::Not) {
            self.membership(tokens, left, true)
        } else {
            self.membership(tokens, left, false)
        }
    }

    #[tactic(auto, unfolding(crate::specs::Expressions::sign, ebr_grammar::specs::Reading::reads))]
    fn sign(&self, tokens: &mut Tokens<'_>) -> Result<Comparison, ReadStop>
        requires { Nests self.now.depth (F.pre self.now.expr) (F.post self.now.expr) }
        ensures { Reads (inside.reads_at self.now.depth spec.sign tokens.old) result tokens.new }
    {
        read_one_of(
            tokens,
            &[
                (Kind::Equal, Comparison::Equal),
                (Kind::NotEqual, Comparison::NotEqual),
                (Kind::Less, Comparison::Less),
                (Kind::AtMost, Comparison::LessOrEqual),
                (Kind::Greater, Comparison::Greater),
                (Kind::AtLeast, Comparison::GreaterOrEqual),
            ],
        )
    }

    /// A sign of comparison with its right operand.
    fn signed(&self, tokens: &mut Tokens<'_>, left: Tree) -> Result<Tree, ReadStop>
        requires { Nests self.now.depth (F.pre self.now.expr) (F.post self.now.expr) }
        ensures { Reads (with_first left (inside.reads_at self.now.depth spec.signed tokens.old)) result tokens.new }
    {
        let by = self.sign(tokens)?;
        let right = self.sum(tokens)?;
        compared(self.alloc, by, left, right)
    }

    /// What stands behind the first sum of a comparison.
    fn comparison_tail(&self, tokens: &mut Tokens<'_>, left: Tree) -> Result<Read, ReadStop>
        requires { Nests self.now.depth (F.pre self.now.expr) (F.post self.now.expr) }
        ensures { Reads (with_first left (inside.reads_at self.now.depth spec.comparison_tail tokens.old)) result tokens.new }
    {
        if tokens.sees_any(&[
            Kind::Equal,
            Kind::NotEqual,
            Kind::Less,
            Kind::AtMost,
            Kind::Greater,
            Kind::AtLeast,
        ]) {
            Ok((self.signed(tokens, left)?, false))
        } else if tokens.sees_any(&[Kind::Is, Kind::Not, Kind::In, Kind::Between, Kind::Like]) {
            Ok((self.test(tokens, left)?, false))
        } else {
            Ok((left, true))
        }
    }

    fn comparison(&self, tokens: &mut Tokens<'_>) -> Result<Read, ReadStop>
        requires { Nests self.now.depth (F.pre self.now.expr) (F.post self.now.expr) }
        ensures { Reads (inside.reads_at self.now.depth spec.comparison tokens.old) result tokens.new }
    {
        let left = self.sum(tokens)?;
        self.comparison_tail(tokens, left)
    }

    fn negation(&self, tokens: &mut Tokens<'_>) -> Result<Read, ReadStop>
        requires { Nests self.now.depth (F.pre self.now.expr) (F.post self.now.expr) }
        ensures { Reads (inside.reads_at self.now.depth spec.negation tokens.old) result tokens.new }
    {
        if tokens.eat(Kind::Not) {
            let found = self.comparison(tokens)?;
            let (operand, _) = found;
            Ok(negated(self.alloc, operand)?)
        } else {
            self.comparison(tokens)
        }
    }

    fn negated_tree(&self, tokens: &mut Tokens<'_>) -> Result<Tree, ReadStop>
        requires { Nests self.now.depth (F.pre self.now.expr) (F.post self.now.expr) }
        ensures { Reads (inside.reads_at self.now.depth spec.negated_tree tokens.old) result tokens.new }
    {
        tree_of(self.negation(tokens))
    }

    fn more_negations(&self, tokens: &mut Tokens<'_>) -> Result<List<Tree>, ReadStop>
        requires { Nests self.now.depth (F.pre self.now.expr) (F.post self.now.expr) }
        ensures { Reads (inside.reads_at self.now.depth spec.more_negations tokens.old) result tokens.new }
    {
        let mut found = List::new(self.alloc);
        for _turn in 0..tokens.left() {
            if !tokens.eat(Kind::And) {
                return Ok(found);
            }
            let next = self.negated_tree(tokens)?;
            found.push(next)?;
        }
        Ok(found)
    }

    fn conjunction(&self, tokens: &mut Tokens<'_>) -> Result<Read, ReadStop>
        requires { Nests self.now.depth (F.pre self.now.expr) (F.post self.now.expr) }
        ensures { Reads (inside.reads_at self.now.depth spec.conjunction tokens.old) result tokens.new }
    {
        let first = self.negation(tokens)?;
        let more = self.more_negations(tokens)?;
        Ok(conjoined(self.alloc, first, more)?)
    }

    fn conjoined_tree(&self, tokens: &mut Tokens<'_>) -> Result<Tree, ReadStop>
        requires { Nests self.now.depth (F.pre self.now.expr) (F.post self.now.expr) }
        ensures { Reads (inside.reads_at self.now.depth spec.conjoined_tree tokens.old) result tokens.new }
    {
        tree_of(self.conjunction(tokens))
    }

    fn more_conjunctions(&self, tokens: &mut Tokens<'_>) -> Result<List<Tree>, ReadStop>
        requires { Nests self.now.depth (F.pre self.now.expr) (F.post self.now.expr) }
        ensures { Reads (inside.reads_at self.now.depth spec.more_conjunctions tokens.old) result tokens.new }
    {
        let mut found = List::new(self.alloc);
        for _turn in 0..tokens.left() {
            if !tokens.eat(Kind::Or) {
                return Ok(found);
            }
            let next = self.conjoined_tree(tokens)?;
            found.push(next)?;
        }
        Ok(found)
    }

    pub fn read_disjunction(&self, tokens: &mut Tokens<'_>) -> Result<Read, ReadStop>
        requires { Nests self.now.depth (F.pre self.now.expr) (F.post self.now.expr) }
        ensures { Reads (inside.reads_at self.now.depth spec.disjunction tokens.old) result tokens.new }
    {
        let first = self.conjunction(tokens)?;
        let more = self.more_conjunctions(tokens)?;
        Ok(disjoined(self.alloc, first, more)?)
    }

    /// A sum where it stands alone.
    pub fn read_sum_alone(&self, tokens: &mut Tokens<'_>) -> Result<Read, ReadStop>
        requires { Nests self.now.depth (F.pre self.now.expr) (F.post self.now.expr) }
        ensures { Reads (inside.reads_at self.now.depth spec.sum_alone tokens.old) result tokens.new }
    {
        let tree = self.sum(tokens)?;
        Ok((tree, true))
    }
}
