//! The words of the refusals.

ghost use Rattle.std.specs.Prelude.{◌≡◌};
ghost use Rattle.case_table.specs.CaseTable.{rows};
ghost use Rattle.instr_text.specs.Words.{words, refusal_code, refusal_word};

use crate::fault::InstrRefusal;
use case_table::CaseTable;

/// The words, in the order of the kinds of refusals.
fn words() -> CaseTable<11>
    ensures { rows result ≡ words }
{
    CaseTable::new(
        b"BadSyntax\nUnknownAction\nLeftOutAction\nMissingParam\nUnknownParam\nRepeatedParam\nBadParam\nUnknownVariable\nOutsideFolder\nBadPath\nNoMemory\n",
        [0, 1, 2, 3, 4, 5, 6, 7, 8, 9, 10],
    )
}

fn code(refusal: &InstrRefusal) -> u16
    ensures { result ≡ refusal_code refusal.now }
{
    match refusal {
        InstrRefusal::BadSyntax { .. } => 0,
        InstrRefusal::UnknownAction(_) => 1,
        InstrRefusal::LeftOutAction(_) => 2,
        InstrRefusal::MissingParam(_) => 3,
        InstrRefusal::UnknownParam(_) => 4,
        InstrRefusal::RepeatedParam(_) => 5,
        InstrRefusal::BadParam(_) => 6,
        InstrRefusal::UnknownVariable(_) => 7,
        InstrRefusal::OutsideFolder(_) => 8,
        InstrRefusal::BadPath(_) => 9,
        InstrRefusal::NoMemory => 10,
    }
}

impl InstrRefusal {
    /// The word that stands for this kind of refusal.
    #[tactic(auto, unfolding(crate::specs::Words::refusal_word))]
    pub fn word(&self) -> &'static [u8]
        ensures { result.now ≡ refusal_word self.now }
    {
        words().name(code(self)).unwrap_or(b"")
    }
}
