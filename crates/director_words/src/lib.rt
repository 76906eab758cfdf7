//! What a command's words ask for, and what is answered: requests, statuses and the lines that are printed.
#![tactic(auto)]

mod command;
mod fields;
mod limit;
mod number;
mod pair;
mod printing;
mod refused;
mod request;
mod root;
mod source_why;
mod status;
mod values;

pub use limit::LimitName;
pub use printing::{add_line, done_line, lines, plan_line, short_line};
pub use request::{DEFAULT_BUDGET, Request, RequestFault, read_request};
pub use root::Root;
pub use source_why::SourceWhy;
pub use status::Status;
