/// The table of these cases.
#[macro_export]
macro_rules! table {
    ($($name:literal = $code:literal => $case:path),+ $(,)?) => {
        $crate::CaseTable::new(concat!($($name, "\n"),+).as_bytes(), [$($code),+])
    };
}

/// The case with this code, if there is one.
#[macro_export]
macro_rules! case_at {
    ($wanted:expr; $($name:literal = $code:literal => $case:path),+ $(,)?) => {
        match $wanted {
            $($code => Some($case),)+
            _ => None,
        }
    };
}

/// The code of this case.
#[macro_export]
macro_rules! code_at {
    ($wanted:expr; $($name:literal = $code:literal => $case:path),+ $(,)?) => {
        match $wanted {
            $($case => $code,)+
        }
    };
}
