/// The form that a parameter's value has to have.
#[derive(Clone, Copy, Debug, PartialEq, Eq)]
pub(crate) enum Form {
    /// A place in the install folder.
    Place,
    /// A place in the install folder, or the artifact.
    Source,
    Names,
    Plain,
    Flag,
    Mode,
}

/// What is amiss with a value.
#[derive(Clone, Copy, Debug, PartialEq, Eq)]
pub(crate) enum Fault {
    /// It leads out of the folder.
    Outside,
    /// Its names are no path.
    Path,
    /// It isn't in its form.
    Form,
}

/// A parameter that an action takes.
#[derive(Clone, Copy, Debug)]
pub(crate) struct Slot {
    pub(crate) code: u16,
    pub(crate) form: Form,
    /// Whether the action needs it.
    pub(crate) is_needed: bool,
}
