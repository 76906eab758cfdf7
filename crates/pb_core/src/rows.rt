ghost use Rattle.std.specs.Prelude.{◌≡◌};
ghost use Rattle.pb_core.specs.Slack.{greatest_coef};

use crate::literal::Term;
use osgi_version::List;

/// A constraint whose slack is kept, with its greatest coefficient.
#[derive(Debug, Drop)]
pub(crate) struct Row {
    pub(crate) terms: List<Term>,
    pub(crate) degree: u64,
    pub(crate) greatest: u64,
}

/// The greatest coefficient, or 0 where there is no term.
pub(crate) fn greatest_coef(terms: &[Term]) -> u64
    ensures { result ≡ greatest_coef terms.now }
{
    let mut greatest: u64 = 0;
    for term in terms {
        greatest = greatest.max(term.coef);
    }
    greatest
}
