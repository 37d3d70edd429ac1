//! Names in code: what is declared around a part of the code, and what names stand for there.
//!
//! What is used above: `meant`, `plain`, `called`, `applied` and `raised` are the words of these names of `specs/Names.antt`
//! over what the edition sees and the declared names (`Scopes`, the innermost first).
//!
//! That calls succeed with ample memory is tested alone (the cases).
#![tactic(auto)]

mod column;
mod field;
mod lookup;
mod meaning;
mod nest;
mod place;
mod scopes;

pub use column::{column_type_of, declared_type, parameter_type, result_type};
pub use field::Field;
pub use lookup::{
    applied, called, decl_name, item_name, item_named, meant, plain, raised, variable,
    visible_head, visible_items, visible_package,
};
pub use meaning::{Meaning, is_out, is_target, variable_type};
pub use nest::{Nest, is_pushed};
pub use place::{OwnPackage, Place, Seen};
pub use scopes::Scopes;
