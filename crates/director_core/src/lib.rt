//! The top call: one command, from its words to its last line.
#![tactic(auto)]

mod built;
mod command;
mod decision;
mod first_install;
mod laying;
mod look_up;
mod performing;
mod plan;
mod planning;
mod refusing;
mod state_lines;
mod writing;

pub use command::run;
