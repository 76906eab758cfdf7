use inf_reader::InfRefusal;

/// Why a folder of a source is refused.
#[derive(Debug, PartialEq, Eq, Drop)]
pub enum SourceWhy {
    /// The line of its description, from 1, that has an escape of no character.
    Line(u64),
    /// What is amiss in the pairs of its description.
    Inf(InfRefusal),
}
