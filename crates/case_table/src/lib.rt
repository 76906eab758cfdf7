//! Tables of cases: names with their codes, where no two rows have one name or one code.
//!
//! A table is written once, as a macro that hands its rows to another: `table!` makes the table of them, and
//! `case_at!` and `code_at!` write the matches between codes and cases, so that a caller names cases and never codes:
//!
//! ```text
//! macro_rules! phases {
//!     ($with:ident $(, $arg:expr)?) => {
//!         $with!($($arg;)? "collect" = 0 => Phase::Collect, "configure" = 1 => Phase::Configure)
//!     };
//! }
//!
//! phases!(case_at, phases!(table).find(name)?)   // Some(Phase::Collect) for the name `collect`
//! ```
#![tactic(auto)]

mod macros;
mod table;

pub use table::CaseTable;
