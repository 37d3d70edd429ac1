//! Journals that are opened, stopped and continued.

mod continued;
mod damage;
mod stops;
