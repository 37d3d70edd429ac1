//! Names in what an edition sees: `resolve` says what a name means, `columns` which columns stand behind it, and `header`
//! what a unit declares to others.
//!
//! What is used above: `resolve` is `resolved`, `columns` is `columns_named`, and `header` is `header_of` of the visible
//! object, of `specs/`; `object` and `table` are `object_of` and `table_named`, and `order_of` is the order of objects.
//!
//! That calls succeed with ample memory is tested alone.
#![tactic(auto)]

mod column;
mod heads;
mod lookup;
mod ordered;
mod target;
mod visible;

pub use column::{ViewColumn, columns};
pub use heads::Header;
pub use lookup::{object, order_of, search, shared_object, table};
pub use ordered::is_in_order;
pub use target::{Target, resolve};
pub use visible::header;
