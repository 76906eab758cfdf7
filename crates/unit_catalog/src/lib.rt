//! Numbered units with distinct names, found by name, by id, by what they update and by what they provide.
#![tactic(auto)]

mod catalog;
mod fault;
mod index;
mod indexes;
mod keys;
mod looking;
mod lookups;
mod provider_index;
mod wanted;

pub use catalog::Catalog;
pub use fault::CatalogFault;
pub use provider_index::ProviderIndex;
