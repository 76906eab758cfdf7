ghost use Rattle.std.specs.Prelude.{◌≡◌, ◌≢◌, ◌+◌, ◌≤◌, ◌<◌, ◌==◌, not, length, drop, IsTrue, IfSome, IfNone, All};
ghost use Rattle.std.specs.List.{take_while};
ghost use Rattle.std.specs.Option.{option_copied};
ghost use Rattle.case_table.specs.Rows.{rows_of, is_table, has_distinct_rows, code_of, name_of, IsOneByName, IsOneByCode};

const LF: u8 = b'\n';

/// Rows of a name and a code. No two have one name, and no two have one code.
#[derive(Debug, Drop)]
pub struct CaseTable<const N: usize> {
    names: &'static [u8],
    codes: [u16; N],
    ghost is_table: { IsTrue (is_table names.now codes) },
}

/// How many bytes the first name has.
fn name_length(names: &[u8]) -> usize
    ensures value { result ≡ length (take_while (λ b. not (b == 10)) names.now) }
    ensures within { result ≤ length names.now }
{
    names.iter().take_while(|byte| **byte != LF).count()
}

/// The names behind the LF that the bytes begin with.
fn behind_end(bytes: &[u8]) -> &[u8]
    ensures { result.now ≡ drop 1 bytes.now }
{
    match bytes {
        [_, names @ ..] => names,
        [] => bytes,
    }
}

impl<const N: usize> CaseTable<N> {
    ghost use Rattle.case_table.specs.CaseTable.{rows};

    /// The table of these names, each ended by LF, and these codes: the k-th name has the k-th code.
    pub const fn new(names: &'static [u8], codes: [u16; N]) -> CaseTable<N>
        requires { IsTrue (is_table names.now codes) }
        ensures { rows result ≡ rows_of names.now codes.entry }
    {
        CaseTable { names, codes }
    }

    /// The code of the one row with this name. Walks over the rows.
    pub fn find(&self, name: &[u8]) -> Option<u16>
        ensures value { result ≡ code_of (rows self.now) name.now }
        ensures one { IfSome result (λ code. IsOneByName (rows self.now) (name.now, code)) }
        ensures none { IfNone result (All (λ row. row.0 ≢ name.now) (rows self.now)) }
    {
        let mut rest = self.names;
        for code in &self.codes {
            let (first, end) = rest.split_at(name_length(rest));
            if name == first {
                return Some(*code);
            }
            rest = behind_end(end);
        }
        None
    }

    /// The name of the one row with this code. Walks over the rows.
    pub fn name(&self, code: u16) -> Option<&'static [u8]>
        ensures value { option_copied result ≡ name_of (rows self.now) code }
        ensures one { IfSome result (λ name. IsOneByCode (rows self.now) (name.now, code)) }
        ensures none { IfNone result (All (λ row. row.1 ≢ code) (rows self.now)) }
    {
        let mut rest = self.names;
        for other in &self.codes {
            let (first, end) = rest.split_at(name_length(rest));
            if code == *other {
                return Some(first);
            }
            rest = behind_end(end);
        }
        None
    }
}
