//! The files of artifacts: what a source says that they have to be.
#![tactic(auto)]

mod artifact_path;
mod digest_line;
mod digests;

pub use digests::{DigestFault, Digests, read_digests};
