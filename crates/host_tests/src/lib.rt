//! A test of a whole install over the host.
#![tactic(auto)]

#[cfg(test)]
mod install;
