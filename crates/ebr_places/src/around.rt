//! What is known at a place in code.

ghost use Rattle.std.specs.Prelude.{◌≡◌, ◌-◌, ◌+◌, [], map, suc, take, drop, length, filter_map, Some, None, Option, OnOk, IfOk, option_map, find};
ghost use Rattle.std.specs.Option.{option_copied};
ghost use Rattle.ebr_ast.specs.declared.query.Query.{Query as Asked};
ghost use Rattle.ebr_ast.specs.declared.statement.Decl.TheVariants as decl;
ghost use Rattle.ebr_exprtree.specs.declared.expression.Expr.{Expr};
ghost use Rattle.ebr_names.specs.Columns.{column_named};
ghost use Rattle.ebr_names.specs.Headers.{head_in};
ghost use Rattle.ebr_scope.specs.Lent as checked;
ghost use Rattle.ebr_scope.specs.Meanings as known;
ghost use Rattle.ebr_fields.specs.Columns.{fields_of};
ghost use Rattle.ebr_run.specs.Binds.{bound_query};
ghost use Rattle.ebr_run.specs.Scope as spec;
ghost use Rattle.ebr_run.specs.Statements.{with_decl};
ghost use Rattle.ebr_run.specs.Units.{outside};
ghost use Rattle.ebr_places.specs.Lent.{lent, bound, part};

use crate::codes::Codes;
use crate::denoted::{Bound, Denoted, Part};
use crate::exceptions::declared_exception;
use crate::kinds::{column_among, declared_type, parameter_type};
use crate::members::{packaged, subprogram_of};
use crate::names::Names;
use ebr_ast::{DeclaredType, Head, PackageItem, Parameter, Query, Subprogram};
use ebr_base::{Class, CloneIn, ColType, List, Name, NoMemory, ObjectKey, Shared, both};
use ebr_fields::fields;
use ebr_names::ViewColumn;
use ebr_run::{Location, VariableType};
use ebr_scope::{Field, Meaning, Place, Seen, variable};
use ebr_sqlcheck::ValueType;
use std::alloc::Global;
use std::marker::Model;

/// What is known at a place in code, which contracts see as an `Env`.
#[derive(Drop)]
pub struct Around<'a> {
    seen: &'a Seen<'a>,
    names: Names<'a>,
    unit: Option<ObjectKey>,
    path: Vec<usize>,
    owner: Option<Name>,
    variables: usize,
    cursors: usize,
    handlers: usize,
    result: Option<VariableType>,
    columns: &'a [ViewColumn],
}

impl<'a> Model for Around<'a> {
    ghost use Rattle.ebr_run.specs.Scope.{Env};
    ghost use Rattle.ebr_ast.specs.contracts.query.Query as q;
    ghost use Rattle.ebr_ast.specs.contracts.view.EditionView as e;
    ghost use Rattle.std.specs.Coded.{codes};

    ghost Value = { Env };

    ghost coded = { Prim.hlevel (codes, q.the_row.coded, e.the_row.coded) };

    ghost view = { λ a. record { view = a.seen.now.view; scope = a.names; unit = a.unit; path = a.path.items; owner = a.owner; variables = a.variables; cursors = a.cursors; handlers = a.handlers; result = a.result; columns = a.columns.now } };
}

/// How many names, variables and cursors there are.
#[derive(Clone, Copy)]
pub struct Mark {
    pub depth: usize,
    pub variables: usize,
    pub cursors: usize,
}

/// What declarations were those of, and how many variables and cursors there were.
#[derive(Drop)]
pub struct Frame {
    pub owner: Option<Name>,
    pub variables: usize,
    pub cursors: usize,
}

/// One more.
fn next(count: usize) -> Result<usize, NoMemory>
    ensures { IfOk result (λ more. more ≡ suc count) }
{
    match count.checked_add(1) {
        Some(more) => Ok(more),
        None => Err(NoMemory),
    }
}

fn sum(a: usize, b: usize) -> Result<usize, NoMemory>
    ensures { IfOk result (λ c. c ≡ a + b) }
{
    match a.checked_add(b) {
        Some(c) => Ok(c),
        None => Err(NoMemory),
    }
}

/// Where something is among a package's or among its subprogram's.
fn location(alloc: Global, owner: &Option<Name>, at: usize) -> Result<Location, NoMemory>
    ensures { IfOk result (λ l. l ≡ spec.location owner.now at) }
{
    match owner {
        Some(owner) => Ok(Location::Member(owner.clone_in(alloc)?, at)),
        None => Ok(Location::Own(at)),
    }
}

fn part_at(alloc: Global, first: usize, at: usize, field: &Field) -> Result<Part, NoMemory>
    ensures { IfOk result (λ p. part p ≡ record { name = field.now.name; variable = first + at; ty = field.now.ty }) }
{
    let variable = sum(first, at)?;
    let name = field.name.clone_in(alloc)?;
    Ok(Part {
        name,
        variable,
        ty: field.ty,
    })
}

/// The fields of a loop's record, the first of which is the variable at a place.
fn parts_from(alloc: Global, first: usize, fields: &[Field]) -> Result<List<Part>, NoMemory>
    ensures { IfOk result (λ parts. map part parts ≡ spec.parts_from first fields.now) }
{
    let mut parts = List::new(alloc);
    for (at, field) in fields.iter().enumerate() {
        parts.push(part_at(alloc, first, at, field)?)?;
    }
    Ok(parts)
}

fn known_fields(fields: &Option<Shared<List<Field>>>) -> &[Field]
    ensures { result.now ≡ spec.known_fields fields.now }
{
    match fields {
        Some(fields) => fields.get().as_slice(),
        None => &[],
    }
}

impl<'a> Around<'a> {
    /// Outside everything, in the text of an object. It takes no memory.
    pub fn outside(alloc: Global, seen: &'a Seen<'a>, unit: Option<ObjectKey>) -> Around<'a>
        ensures { result ≡ outside seen.now.view unit }
    {
        Around {
            seen,
            names: Names::new(alloc),
            unit,
            path: Vec::new(alloc),
            owner: None,
            variables: 0,
            cursors: 0,
            handlers: 0,
            result: None,
            columns: &[],
        }
    }

    /// What the edition sees.
    pub fn seen(&self) -> &'a Seen<'a>
        ensures { result.now.view ≡ self.now.view }
    {
        self.seen
    }

    /// How many variables there are.
    pub fn variables(&self) -> usize
        ensures { result ≡ self.now.variables }
    {
        self.variables
    }

    /// How many cursors there are.
    pub fn cursors(&self) -> usize
        ensures { result ≡ self.now.cursors }
    {
        self.cursors
    }

    /// How many handlers the code stands in.
    pub fn handlers(&self) -> usize
        ensures { result ≡ self.now.handlers }
    {
        self.handlers
    }

    /// What the enclosing function gives.
    pub fn result(&self) -> Option<VariableType>
        ensures { result ≡ self.now.result }
    {
        self.result
    }

    /// What the innermost declaration of a name stands for.
    pub fn find(&self, name: &Name) -> Option<&Denoted<'a>>
        ensures { option_map lent (option_copied result) ≡ spec.innermost name.now self.now.scope }
    {
        self.names.find(name)
    }

    /// The innermost subprogram of a name.
    pub fn subprogram(&self, name: &Name) -> Option<&Denoted<'a>>
        ensures { option_map lent (option_copied result) ≡ option_map spec.denoted_of (find (spec.is_subprogram_of name.now) self.now.scope) }
    {
        self.names.subprogram(name)
    }

    /// The place of a column of the trigger's row.
    pub fn column_place(&self, name: &Name) -> Option<usize>
        ensures { result ≡ spec.column_place self.now name.now }
    {
        self.columns.iter().position(|column| *name == column.name)
    }

    /// A column of the trigger's row.
    pub fn column(&self, name: &Name) -> Option<&'a ViewColumn>
        ensures { option_copied result ≡ column_named name.now self.now.columns }
    {
        column_among(self.columns, name)
    }

    /// Where the next variable is.
    pub fn next_variable(&self, alloc: Global) -> Result<Location, NoMemory>
        ensures { IfOk result (λ l. l ≡ spec.next_variable self.now) }
    {
        location(alloc, &self.owner, self.variables)
    }

    /// Where the next cursor is.
    pub fn next_cursor(&self, alloc: Global) -> Result<Location, NoMemory>
        ensures { IfOk result (λ l. l ≡ spec.next_cursor self.now) }
    {
        location(alloc, &self.owner, self.cursors)
    }

    /// The columns of a query: none where a source has no columns.
    pub fn fields(&self, alloc: Global, q: &Query) -> Result<Option<Shared<List<Field>>>, NoMemory>
        ensures { IfOk result (λ fields. fields ≡ fields_of (spec.to_checks self.now) q.now) }
    {
        let place = Place {
            columns: self.columns,
            ..Place::outside(self.seen)
        };
        fields(alloc, q, &place, self.names.known())
    }

    /// Into the part of the tree at a place.
    pub fn enter_part(&mut self, at: usize) -> Result<(), NoMemory>
        ensures { OnOk result (self.new ≡ spec.part at self.old) }
    {
        self.path.push(at)?;
        Ok(())
    }

    /// Out of the part that was entered last.
    pub fn leave_part(&mut self)
        ensures { self.new ≡ record self.old { path = take (length self.old.path - 1) self.old.path } }
    {
        self.path.pop();
    }

    /// Into a handler.
    pub fn enter_handler(&mut self) -> Result<(), NoMemory>
        ensures { OnOk result (self.new ≡ spec.within_handler self.old) }
    {
        self.handlers = next(self.handlers)?;
        Ok(())
    }

    /// Out of a handler.
    pub fn leave_handler(&mut self)
        ensures { self.new ≡ record self.old { handlers = self.old.handlers - 1 } }
    {
        self.handlers = self.handlers.saturating_sub(1);
    }

    /// How many names, variables and cursors there are.
    pub fn mark(&self) -> Mark
        ensures { result ≡ record { depth = length self.now.scope; variables = self.now.variables; cursors = self.now.cursors } }
    {
        Mark {
            depth: self.names.depth(),
            variables: self.variables,
            cursors: self.cursors,
        }
    }

    /// Takes away all names but the outermost ones, and sets the counts back.
    pub fn back(&mut self, mark: &Mark)
        ensures { self.new ≡ record self.old { scope = drop (length self.old.scope - mark.now.depth) self.old.scope; variables = mark.now.variables; cursors = mark.now.cursors } }
    {
        self.names.cut(mark.depth);
        self.variables = mark.variables;
        self.cursors = mark.cursors;
    }

    /// A name for the variable at a place, and one variable more.
    fn add_counted(
        &mut self,
        name: &'a Name,
        meaning: Meaning<'a>,
        location: Location,
        ty: VariableType,
    ) -> Result<(), NoMemory>
        ensures { OnOk result (self.new ≡ record (spec.knows (spec.named name.now (checked.lent meaning.entry) (spec.Variable location (Some ty))) self.old) { variables = suc self.old.variables }) }
    {
        let variables = next(self.variables)?;
        self.names.add(
            name,
            meaning,
            None,
            None,
            Denoted::Variable(location, Some(ty)),
        )?;
        self.variables = variables;
        Ok(())
    }

    /// The variable of a loop over numbers.
    pub fn add_counter(&mut self, name: &'a Name) -> Result<(), NoMemory>
        ensures { OnOk result (self.new ≡ spec.with_counter name.now self.old) }
    {
        let at = Location::Own(self.variables);
        self.add_counted(
            name,
            Meaning::Constant(Some(ValueType::Number)),
            at,
            VariableType::Plain(ColType::Num(18)),
        )
    }

    /// The record of a loop over rows, whose fields are variables.
    pub fn add_record(
        &mut self,
        alloc: Global,
        name: &'a Name,
        fields: Option<Shared<List<Field>>>,
    ) -> Result<(), NoMemory>
        ensures { OnOk result (self.new ≡ spec.with_record name.now fields self.old) }
    {
        let known = known_fields(&fields);
        let variables = sum(known.len(), self.variables)?;
        let parts = parts_from(alloc, self.variables, known)?;
        let parts = Shared::new(alloc, parts)?;
        let copy = fields.clone_in(alloc)?;
        self.names.add(name, Meaning::Record, fields, copy, Denoted::Record(parts))?;
        self.variables = variables;
        Ok(())
    }

    /// One cursor more, which has no name.
    pub fn add_hidden_cursor(&mut self) -> Result<(), NoMemory>
        ensures { OnOk result (self.new ≡ record self.old { cursors = suc self.old.cursors }) }
    {
        self.cursors = next(self.cursors)?;
        Ok(())
    }

    /// A declared variable or constant.
    pub fn add_variable(
        &mut self,
        alloc: Global,
        name: &'a Name,
        constant: bool,
        ty: &DeclaredType,
    ) -> Result<(), NoMemory>
        ensures { OnOk result ((e : Option Expr) → self.new ≡ with_decl [] (decl.Variable name.now constant ty.now e) self.old) }
    {
        let kind = declared_type(alloc, self.seen, ty)?;
        let at = self.next_variable(alloc)?;
        let meaning = variable(constant, ebr_scope::declared_type(self.seen, ty));
        self.add_counted(name, meaning, at, kind)
    }

    /// An exception, among the declarations that it stands in.
    pub fn add_exception(
        &mut self,
        alloc: Global,
        name: &'a Name,
        among: &Codes<'_>,
    ) -> Result<(), NoMemory>
        ensures { OnOk result (self.new ≡ with_decl among.now (decl.Exception name.now) self.old) }
    {
        let code = among.code(name);
        let owner = self.owner.clone_in(alloc)?;
        let fault = declared_exception(alloc, &self.unit, self.path.as_slice(), name, code)?;
        self.names.add(
            name,
            Meaning::Exception,
            None,
            None,
            Denoted::Exception(owner, fault),
        )
    }

    /// A cursor with its query, as it was bound here, and its columns.
    pub fn add_cursor(
        &mut self,
        alloc: Global,
        name: &'a Name,
        query: Bound<Query>,
        fields: Option<Shared<List<Field>>>,
    ) -> Result<(), NoMemory>
        ensures { OnOk result ((q : Asked) → bound query ≡ bound_query self.old q → fields ≡ fields_of (spec.to_checks self.old) q → self.new ≡ with_decl [] (decl.Cursor name.now q) self.old) }
    {
        let cursors = next(self.cursors)?;
        let at = self.next_cursor(alloc)?;
        let (first, copy) = both(alloc, &fields, &fields)?;
        self.names.add(
            name,
            Meaning::Cursor,
            first,
            copy,
            Denoted::Cursor(at, query, fields),
        )?;
        self.cursors = cursors;
        Ok(())
    }

    /// The parameters of a subprogram.
    pub fn add_parameters(&mut self, alloc: Global, list: &'a [Parameter]) -> Result<(), NoMemory>
        ensures { OnOk result (self.new ≡ spec.with_parameters list.now self.old) }
    {
        for it in list {
            let kind = parameter_type(alloc, self.seen, &it.ty)?;
            let meaning = Meaning::Parameter(it.mode, ebr_scope::parameter_type(self.seen, &it.ty));
            let at = Location::Own(self.variables);
            self.add_counted(&it.name, meaning, at, kind)?;
        }
        Ok(())
    }

    fn add_subprogram(&mut self, head: &'a Head, denoted: Denoted<'a>) -> Result<(), NoMemory>
        ensures { OnOk result (self.new ≡ spec.knows (spec.named head.now.name (known.Subprogram head.now) (lent denoted.entry)) self.old) }
    {
        self.names
            .add(&head.name, Meaning::Subprogram(head), None, None, denoted)
    }

    /// The heads of a package's specification.
    pub fn add_heads(
        &mut self,
        alloc: Global,
        owner: &Name,
        items: &'a [PackageItem],
    ) -> Result<(), NoMemory>
        ensures { OnOk result (self.new ≡ spec.with_heads owner.now (filter_map head_in items.now) self.old) }
    {
        for item in items {
            if let PackageItem::Head(head) = item {
                let denoted = packaged(alloc, self.seen, owner, head)?;
                self.add_subprogram(head, denoted)?;
            }
        }
        Ok(())
    }

    /// The subprograms of a package's body.
    pub fn add_subprograms(
        &mut self,
        alloc: Global,
        owner: &Name,
        list: &'a [Subprogram],
    ) -> Result<(), NoMemory>
        ensures { OnOk result (self.new ≡ spec.with_subprograms owner.now 0 list.now self.old) }
    {
        for (at, subprogram) in list.iter().enumerate() {
            let head = &subprogram.head;
            let denoted = subprogram_of(alloc, Class::Body, owner, at, head)?;
            self.add_subprogram(head, denoted)?;
        }
        Ok(())
    }

    /// Declarations from here on are those of a package.
    pub fn set_owner(&mut self, owner: Name)
        ensures { self.new ≡ record self.old { owner = Some owner } }
    {
        self.owner = Some(owner);
    }

    /// The code from here on stands in the text of an object.
    pub fn set_unit(&mut self, unit: ObjectKey)
        ensures { self.new ≡ record self.old { unit = Some unit } }
    {
        self.unit = Some(unit);
    }

    /// The columns of what the trigger is on.
    pub fn set_columns(&mut self, columns: &'a [ViewColumn])
        ensures { self.new ≡ record self.old { columns = columns.now } }
    {
        self.columns = columns;
    }

    /// Into what has variables and cursors of its own. `leave_frame` wants what is given back.
    pub fn enter_frame(&mut self) -> Frame
        ensures frame { result ≡ record { owner = self.old.owner; variables = self.old.variables; cursors = self.old.cursors } }
        ensures entered { self.new ≡ record self.old { owner = None; variables = 0; cursors = 0 } }
    {
        let frame = Frame {
            owner: self.owner.take(),
            variables: self.variables,
            cursors: self.cursors,
        };
        self.variables = 0;
        self.cursors = 0;
        frame
    }

    /// Out of it.
    pub fn leave_frame(&mut self, frame: Frame)
        ensures { self.new ≡ record self.old { owner = frame.owner; variables = frame.variables; cursors = frame.cursors } }
    {
        let Frame {
            owner,
            variables,
            cursors,
        } = frame;
        self.owner = owner;
        self.variables = variables;
        self.cursors = cursors;
    }

    /// What the enclosing function gives, from here on.
    pub fn set_result(&mut self, ty: Option<VariableType>)
        ensures { self.new ≡ record self.old { result = ty } }
    {
        self.result = ty;
    }
}
