//! The words that lines begin with.

ghost use Rattle.std.specs.Prelude.{◌≡◌};
ghost use Rattle.case_table.specs.CaseTable.{rows};
ghost use Rattle.case_table.specs.Rows.{beside};
ghost use Rattle.unit_lines.specs.Words.{kinds, kind_rows};

use case_table::{CaseTable, case_at, table};

/// What a line says, by its word.
#[derive(Clone, Copy)]
pub(crate) enum Kind {
    Name,
    Singleton,
    Filter,
    Update,
    Touchpoint,
    Property,
    Provided,
    Required,
    Artifact,
    Phase,
    End,
}

macro_rules! kinds {
    ($with:ident $(, $arg:expr)?) => {
        $with!(
            $($arg;)?
            "unit" = 0 => Kind::Name,
            "singleton" = 1 => Kind::Singleton,
            "filter" = 2 => Kind::Filter,
            "update" = 3 => Kind::Update,
            "touchpoint" = 4 => Kind::Touchpoint,
            "property" = 5 => Kind::Property,
            "provides" = 6 => Kind::Provided,
            "requires" = 7 => Kind::Required,
            "artifact" = 8 => Kind::Artifact,
            "phase" = 9 => Kind::Phase,
            "end" = 10 => Kind::End,
        )
    };
}

fn kinds() -> CaseTable<11>
    ensures { rows result ≡ kind_rows }
{
    kinds!(table)
}

/// The kind of the lines with this word.
pub(crate) fn find_kind(word: &[u8]) -> Option<Kind>
    ensures { result ≡ beside kinds word.now }
{
    let code = kinds().find(word)?;
    kinds!(case_at, code)
}
