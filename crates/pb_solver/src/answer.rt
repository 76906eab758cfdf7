use deriv_check::Derivation;
use pb_core::Assignment;

/// What is known of a problem.
#[derive(Debug, Drop)]
pub enum Answer {
    /// Every variable has a value, and all constraints are satisfied.
    Model(Assignment),
    /// No assignment satisfies the problem: the derivation's last clause is empty.
    Refuted(Derivation),
    /// As many clauses were learned as were allowed.
    Spent(Derivation),
}
