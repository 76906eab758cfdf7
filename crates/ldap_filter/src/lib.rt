//! LDAP filters (RFC 1960, as OSGi Core takes them, "Filter Syntax"), and the environments that they are tested in.
#![tactic(auto)]

mod env;
mod env_fault;
mod env_set;
mod filter;
mod filter_fault;
mod frame;
mod parsing;
mod pieces;
mod reading;
mod scan;
mod test;
mod truth;
mod value;
mod writing;

pub use env::Env;
pub use env_fault::EnvFault;
pub use env_set::is_env_key;
pub use filter::Filter;
pub use filter_fault::FilterFault;
pub use test::Test;
