//! Canonical bencoding (BEP 3).
#![tactic(auto)]

mod dictionary;
mod doc;
mod ends;
mod error;
mod law;
mod number;
mod reader;
mod value;
mod writer;

pub use dictionary::{field, field_text};
pub use doc::Doc;
pub use error::BencodeError;
pub use law::{first_fault_is_one, spellings_are_prefix_free};
pub use reader::{MAX_NESTING, parse};
pub use value::Value;
pub use writer::write;
