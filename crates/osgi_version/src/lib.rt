//! Texts, lists and OSGi versions: the values that every other crate stands on.
#![tactic(auto)]

mod field;
mod field_reading;
mod interval;
mod list;
mod memory;
mod range;
mod reading;
mod text;
mod twin;
mod version;

pub use field::{push_field, push_number};
pub use field_reading::read_field;
pub use list::List;
pub use memory::NoMemory;
pub use range::{Ceiling, Range};
pub use text::{Text, TextFault};
pub use twin::Twin;
pub use version::{Version, VersionFault};
