//! The journal's records as bytes, both ways.
//!
//! `encode` writes a record's payload, whose bytes `ebr_record` defines, and says that the record is spelled so: its bytes are
//! read as this record and no other one. `decode` reads what bytes spell. `Bad` comes exactly where they spell no record of the
//! form: the short form that a journal begins in, or the long one that it goes on in.
#![tactic(auto)]

mod fault;
mod form;
mod payloads;
mod readable;
mod reader;
mod records;
mod writable;
mod writer;

pub use fault::DecodeErr;
pub use form::{Form, has_form};
pub use payloads::encode;
pub use records::decode;
