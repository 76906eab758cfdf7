/// What a key is.
#[derive(Clone, Copy, Debug, PartialEq, Eq)]
pub enum Reading<T> {
    /// It names a part.
    Meaning(T),
    /// It is taken and says nothing.
    Silent,
    /// The format has it, and it isn't taken.
    LeftOut,
    /// The format doesn't have it.
    Unknown,
}
