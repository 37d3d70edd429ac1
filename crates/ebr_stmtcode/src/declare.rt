//! Declarations.

ghost use Rattle.std.specs.Prelude.{◌≡◌, ◌∷◌, ◌++◌, [], Some, OnOk};
ghost use Rattle.ebr_ast.specs.declared.statement.Decl.TheVariants as decl;
ghost use Rattle.ebr_code.specs.declared.instruction.Instruction.{Do};
ghost use Rattle.ebr_code.specs.declared.instruction.Operation.TheVariants as does;
ghost use Rattle.ebr_run.specs.Scope as scope;
ghost use Rattle.ebr_run.specs.Statements.{with_decl, with_decls, with_decls_among};
ghost use Rattle.ebr_code.specs.Codes as spec;

use crate::held::without;
use ebr_ast::{Decl, DeclaredType, Expr, Query};
use ebr_base::{List, Name, NoMemory, Shared, Value};
use ebr_binds::query;
use ebr_code::{Instruction, Operation};
use ebr_exprcode::{act, expression};
use ebr_places::{Around, Codes, declared_type};
use std::alloc::Global;

fn initial(
    alloc: Global,
    value: &Option<Shared<Expr>>,
    around: &Around<'_>,
    out: &mut List<Instruction>,
) -> Result<(), NoMemory>
    ensures { OnOk result (out.new ≡ out.old ++ spec.initial_code value.now around.now) }
{
    match value {
        None => act(out, Operation::Push(Value::Null)),
        Some(e) => expression(alloc, e.get(), around, out),
    }
}

/// The first value of a variable.
fn first_value(
    alloc: Global,
    ty: &DeclaredType,
    value: &Option<Shared<Expr>>,
    around: &Around<'_>,
    out: &mut List<Instruction>,
) -> Result<(), NoMemory>
    ensures { OnOk result (out.new ≡ out.old ++ (spec.initial_code value.now around.now ++ Do (does.Assign (scope.next_variable around.now) (Some (scope.declared_type around.now.view ty.now))) ∷ [])) }
{
    initial(alloc, value, around, out)?;
    let ty = declared_type(alloc, around.seen(), ty)?;
    let place = around.next_variable(alloc)?;
    act(out, Operation::Assign(place, Some(ty)))
}

/// A cursor, which is closed at first.
fn cursor<'a>(
    alloc: Global,
    name: &'a Name,
    q: &Query,
    around: &mut Around<'a>,
    out: &mut List<Instruction>,
) -> Result<(), NoMemory>
    ensures code { OnOk result (out.new ≡ out.old ++ Do (does.Reset (scope.next_cursor around.old)) ∷ []) }
    ensures around { OnOk result (around.new ≡ with_decl [] (decl.Cursor name.now q.now) around.old) }
{
    let place = around.next_cursor(alloc)?;
    act(out, Operation::Reset(place))?;
    let fields = around.fields(alloc, q)?;
    let bound = query(alloc, around, q)?;
    around.add_cursor(alloc, name, bound, fields)
}

/// Adds the code of a declaration, which stands among others, and makes its name known.
pub fn declaration<'a>(
    alloc: Global,
    it: &'a Decl,
    among: &Codes<'_>,
    around: &mut Around<'a>,
    out: &mut List<Instruction>,
) -> Result<(), NoMemory>
    ensures code { OnOk result (out.new ≡ out.old ++ spec.decl_code it.now around.old) }
    ensures around { OnOk result (around.new ≡ with_decl among.now it.now around.old) }
{
    match it {
        Decl::Variable {
            name,
            constant,
            ty,
            initial,
        } => {
            first_value(alloc, ty, initial, around, out)?;
            around.add_variable(alloc, name, *constant, ty)
        }
        Decl::Cursor(name, q) => cursor(alloc, name, q.get(), around, out),
        Decl::Exception(name) => around.add_exception(alloc, name, among),
        Decl::ExceptionInit(_, _) => Ok(()),
        Decl::Autonomous => Ok(()),
    }
}

/// Adds the code of declarations in order, and makes their names known.
pub fn declarations<'a>(
    alloc: Global,
    list: &'a [Decl],
    around: &mut Around<'a>,
    out: &mut List<Instruction>,
) -> Result<(), NoMemory>
    ensures code { OnOk result (out.new ≡ out.old ++ spec.decls_code list.now around.old) }
    ensures around { OnOk result (around.new ≡ with_decls list.now around.old) }
{
    let among = Codes::of(alloc, list)?;
    let done = declared(alloc, list, &among, around, out);
    without(among, done)
}

/// Adds the code of declarations that stand among others, and makes their names known.
fn declared<'a>(
    alloc: Global,
    list: &'a [Decl],
    among: &Codes<'_>,
    around: &mut Around<'a>,
    out: &mut List<Instruction>,
) -> Result<(), NoMemory>
    ensures code { OnOk result (out.new ≡ out.old ++ spec.decls_code_among among.now list.now around.old) }
    ensures around { OnOk result (around.new ≡ with_decls_among among.now list.now around.old) }
{
    for it in list {
        declaration(alloc, it, among, around, out)?;
    }
    Ok(())
}
