//! Rows of a suite: lines of fields, as the programs read them that hold the crates against worked answers.
#![tactic(auto)]

mod row;

pub use row::Row;
