//! The names of actions and parameters.

ghost use Rattle.std.specs.Prelude.{◌≡◌};
ghost use Rattle.case_table.specs.CaseTable.{rows};
ghost use Rattle.instr_parser.specs.Tables.{actions, left_out, params};

use case_table::CaseTable;

pub(crate) const MKDIR: u16 = 0;

pub(crate) const RMDIR: u16 = 1;

pub(crate) const REMOVE: u16 = 2;

pub(crate) const COPY: u16 = 3;

pub(crate) const CLEANUPCOPY: u16 = 4;

pub(crate) const CHMOD: u16 = 5;

pub(crate) const LN: u16 = 6;

/// The actions, in the order of their codes.
pub(crate) const KINDS: [u16; 7] = [MKDIR, RMDIR, REMOVE, COPY, CLEANUPCOPY, CHMOD, LN];

pub(crate) const PATH: u16 = 0;

pub(crate) const SOURCE: u16 = 1;

pub(crate) const TARGET: u16 = 2;

pub(crate) const OVERWRITE: u16 = 3;

pub(crate) const TARGET_DIR: u16 = 4;

pub(crate) const TARGET_FILE: u16 = 5;

pub(crate) const PERMISSIONS: u16 = 6;

pub(crate) const LINK_TARGET: u16 = 7;

pub(crate) const LINK_NAME: u16 = 8;

/// The names of the actions, in the order of their codes.
pub(crate) fn actions() -> CaseTable<7>
    ensures { rows result ≡ actions }
{
    CaseTable::new(
        b"mkdir\nrmdir\nremove\ncopy\ncleanupcopy\nchmod\nln\n",
        KINDS,
    )
}

/// The actions that the format has and that aren't taken.
pub(crate) fn left_out() -> CaseTable<3>
    ensures { rows result ≡ left_out }
{
    CaseTable::new(
        b"unzip\ncleanupzip\ncheckAndPromptNativePackage\n",
        [0, 1, 2],
    )
}

/// The names of the parameters.
pub(crate) fn params() -> CaseTable<9>
    ensures { rows result ≡ params }
{
    CaseTable::new(
        b"path\nsource\ntarget\noverwrite\ntargetDir\ntargetFile\npermissions\nlinkTarget\nlinkName\n",
        [
            PATH,
            SOURCE,
            TARGET,
            OVERWRITE,
            TARGET_DIR,
            TARGET_FILE,
            PERMISSIONS,
            LINK_TARGET,
            LINK_NAME,
        ],
    )
}
