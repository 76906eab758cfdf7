//! The names of phases.

ghost use Rattle.std.specs.Prelude.{◌≡◌};
ghost use Rattle.case_table.specs.CaseTable.{rows};
ghost use Rattle.case_table.specs.Rows.{beside};
ghost use Rattle.unit_lines.specs.Phases.{phases, phase_rows, phase_name, phase_place};

use case_table::{CaseTable, case_at, code_at, table};
use unit_model::Phase;

macro_rules! phases {
    ($with:ident $(, $arg:expr)?) => {
        $with!(
            $($arg;)?
            "collect" = 0 => Phase::Collect,
            "unconfigure" = 1 => Phase::Unconfigure,
            "uninstall" = 2 => Phase::Uninstall,
            "install" = 3 => Phase::Install,
            "configure" = 4 => Phase::Configure,
        )
    };
}

fn phases() -> CaseTable<5>
    ensures { rows result ≡ phase_rows }
{
    phases!(table)
}

pub(crate) fn find_phase(name: &[u8]) -> Option<Phase>
    ensures { result ≡ beside phases name.now }
{
    let code = phases().find(name)?;
    phases!(case_at, code)
}

fn phase_code(phase: Phase) -> u16
    ensures { result ≡ phase_place phase }
{
    phases!(code_at, phase)
}

pub(crate) fn phase_name(phase: Phase) -> &'static [u8]
    ensures { result.now ≡ phase_name phase }
{
    match phases().name(phase_code(phase)) {
        Some(name) => name,
        None => unreachable!(),
    }
}
