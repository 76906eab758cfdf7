//! The keys and values of a p2.inf, the advice of Equinox p2: where the keys of one owner stand, the host that a folder's
//! name gives, the variables that stand for it, the forms that values have, and what stands for those that are missing.
#![tactic(auto)]

mod copies;
mod host;
mod keys;
mod names;
mod number;
mod reading;
mod value;
mod variables;

pub use copies::{
    copy_filter, copy_range_or_any, copy_range_or_below, copy_text_or, copy_text_or_empty,
    copy_version_or,
};
pub use host::host_of;
pub use keys::{HOST, Place, class_of, is_host, key_at, place_of};
pub use names::NameSet;
pub use reading::{Class, Value, value_of};
pub use variables::replaced;
