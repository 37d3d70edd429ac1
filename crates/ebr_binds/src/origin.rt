//! What gives a name its value, and the bind in its place.

ghost use Rattle.std.specs.Prelude.{◌≡◌, ◌++◌, length, option_map, IfOk, OnOk};
ghost use Rattle.ebr_places.specs.Lent.{lent};
ghost use Rattle.ebr_run.specs.Binds as spec;
ghost use Rattle.ebr_run.specs.Scope as scope;
ghost use Rattle.ebr_sqlcheck.specs.Names as names;
ghost use Rattle.ebr_binds.specs.inside.Origins as origins;

use ebr_ast::{Expr, Path, RowImage};
use ebr_base::{CloneIn, List, Name, NoMemory, Shared};
use ebr_places::{Around, Denoted, meant};
use ebr_run::Bind;
use ebr_sqlcheck::{Meant, Relations, column_meant};
use std::alloc::Global;

/// What gives a variable its value; nothing where something else was found.
fn variable_origin(alloc: Global, found: &Option<Denoted<'_>>) -> Result<Option<Bind>, NoMemory>
    ensures { IfOk result (λ origin. origin ≡ origins.variable_origin (option_map lent found.now)) }
{
    match found {
        Some(Denoted::Variable(location, _)) => {
            Ok(Some(Bind::Variable(location.clone_in(alloc)?)))
        }
        _ => Ok(None),
    }
}

/// What gives a name that is no column its value; nothing where it is no variable.
fn other_origin(alloc: Global, path: &Path, around: &Around<'_>) -> Result<Option<Bind>, NoMemory>
    ensures { IfOk result (λ origin. origin ≡ origins.variable_origin (scope.meant around.now path.now)) }
{
    let found = meant(alloc, around, path)?;
    variable_origin(alloc, &found)
}

/// What gives a name its value; nothing where it is a column or no variable.
pub fn name_origin(
    alloc: Global,
    path: &Path,
    relations: &Relations<'_, '_>,
    around: &Around<'_>,
) -> Result<Option<Bind>, NoMemory>
    ensures { IfOk result (λ origin. origin ≡ origins.name_origin around.now path.now (names.column_meant relations.now path.now)) }
{
    match column_meant(relations, path) {
        Meant::Nothing => other_origin(alloc, path, around),
        Meant::Column(_) | Meant::Several => Ok(None),
    }
}

/// What gives `:NEW.c` or `:OLD.c` its value; nothing where there is no such column.
pub fn image_origin(image: RowImage, column: &Name, around: &Around<'_>) -> Option<Bind>
    ensures { result ≡ origins.image_origin image (scope.column_place around.now column.now) }
{
    match (around.column_place(column), image) {
        (Some(at), RowImage::New) => Some(Bind::New(at)),
        (Some(at), RowImage::Old) => Some(Bind::Old(at)),
        (None, _) => None,
    }
}

/// The number of a bind.
fn number(at: usize) -> Result<u32, NoMemory>
    ensures { IfOk result (λ n. n ≡ at) }
{
    match u32::try_from(at) {
        Ok(n) => Ok(n),
        Err(_) => Err(NoMemory),
    }
}

/// A bind in place of what gives it its value.
fn as_bind(alloc: Global, origin: Bind, binds: &mut List<Bind>) -> Result<Shared<Expr>, NoMemory>
    ensures tree { IfOk result (λ tree. tree ≡ (spec.as_bind origin (length binds.old)).tree) }
    ensures binds { OnOk result (binds.new ≡ binds.old ++ (spec.as_bind origin (length binds.old)).binds) }
{
    let tree = Shared::new(alloc, Expr::Bind(number(binds.len())?))?;
    binds.push(origin)?;
    Ok(tree)
}

/// A bind where something gives it its value, and else the expression as it is.
pub fn bind_or(
    alloc: Global,
    e: &Shared<Expr>,
    origin: Option<Bind>,
    binds: &mut List<Bind>,
) -> Result<Shared<Expr>, NoMemory>
    ensures tree { IfOk result (λ tree. tree ≡ (origins.bind_or e.now origin (length binds.old)).tree) }
    ensures binds { OnOk result (binds.new ≡ binds.old ++ (origins.bind_or e.now origin (length binds.old)).binds) }
{
    match origin {
        Some(origin) => as_bind(alloc, origin, binds),
        None => e.clone_in(alloc),
    }
}
