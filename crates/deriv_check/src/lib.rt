//! Derivations over pseudo-Boolean constraints, and their checker.
#![tactic(auto)]

mod checker;
mod colon;
mod constraint_reader;
mod derivation;
mod evidence_reader;
mod evidence_writer;
mod field_reader;
mod hints;
pub mod laws;
mod line_reader;
mod lines;
mod normality;
mod numbers;
mod origin_reader;
mod scratch;
mod stop;
mod term_reader;
mod usage;
mod word_writer;
mod words;

pub use checker::check;
pub use derivation::{CheckFault, Derivation, Evidence, Line, Verdict, Why};
pub use evidence_reader::read_evidence;
pub use evidence_writer::write_evidence;
pub use usage::used;
