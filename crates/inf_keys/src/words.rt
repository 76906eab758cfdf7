//! The first words of parts with more than one word, but of single ones.

ghost use Rattle.std.specs.Prelude.{◌≡◌};
ghost use Rattle.case_table.specs.CaseTable.{rows};
ghost use Rattle.case_table.specs.Rows.{beside};
ghost use Rattle.inf_keys.specs.NameTables.{numbered, words, word_name, word_place};

use case_table::{CaseTable, case_at, code_at, table};

#[derive(Clone, Copy, Debug, PartialEq, Eq)]
pub(crate) enum Word {
    Properties,
    Provides,
    Requires,
    Artifacts,
    Instructions,
    MetaRequirements,
    Licenses,
    HostRequirements,
}

macro_rules! words {
    ($with:ident $(, $arg:expr)?) => {
        $with!(
            $($arg;)?
            "properties" = 0 => Word::Properties,
            "provides" = 1 => Word::Provides,
            "requires" = 2 => Word::Requires,
            "artifacts" = 3 => Word::Artifacts,
            "instructions" = 4 => Word::Instructions,
            "metaRequirements" = 5 => Word::MetaRequirements,
            "licenses" = 6 => Word::Licenses,
            "hostRequirements" = 7 => Word::HostRequirements,
        )
    };
}

fn words() -> CaseTable<8>
    ensures { rows result ≡ numbered words }
{
    words!(table)
}

pub(crate) fn find_word(name: &[u8]) -> Option<Word>
    ensures { result ≡ beside words name.now }
{
    let code = words().find(name)?;
    words!(case_at, code)
}

pub(crate) fn word_code(word: Word) -> u16
    ensures { result ≡ word_place word }
{
    words!(code_at, word)
}

pub(crate) fn word_name(word: Word) -> &'static [u8]
    ensures { result.now ≡ word_name word }
{
    match words().name(word_code(word)) {
        Some(name) => name,
        None => unreachable!(),
    }
}
