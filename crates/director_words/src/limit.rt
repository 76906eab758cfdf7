ghost use Rattle.std.specs.Prelude.{◌≡◌};
ghost use Rattle.director_words.specs.Limit.{limit_word_of};

/// What passed its limit.
#[derive(Clone, Copy, Debug, PartialEq, Eq)]
pub enum LimitName {
    /// The units of a source.
    Units,
    /// The requirements of one unit.
    Requirements,
    /// The bytes of one file.
    FileBytes,
    /// The bytes of one description.
    InfBytes,
    /// The bytes of all descriptions of a source.
    SourceBytes,
}

impl LimitName {
    /// The name as it is printed.
    pub(crate) fn word(self) -> &'static [u8]
        ensures { result.now ≡ limit_word_of self }
    {
        match self {
            LimitName::Units => b"Units",
            LimitName::Requirements => b"Requirements",
            LimitName::FileBytes => b"FileBytes",
            LimitName::InfBytes => b"InfBytes",
            LimitName::SourceBytes => b"SourceBytes",
        }
    }
}
