ghost use Rattle.std.specs.Prelude.{◌≡◌};
ghost use Rattle.folder_core.specs.declared.node.After.TheVariants as after;
ghost use Rattle.director_words.specs.declared.status.Status.TheVariants as status;

use crate::limit::LimitName;
use crate::source_why::SourceWhy;
use folder_core::After;
use osgi_version::{NoMemory, Text};

/// How a command ended.
#[derive(Debug, PartialEq, Eq, Drop)]
pub enum Status {
    /// The result holds, as the last line says.
    Done,
    /// The words denote no request.
    Usage,
    /// A folder of the source has a description that is refused.
    SourceRefused { folder: Text, why: SourceWhy },
    /// A named root isn't there: the word as it was given.
    Unknown(Text),
    /// The folder failed.
    FolderFault(After),
    /// The source failed.
    SourceFault,
    /// The output failed. `committed` is the state that this command has committed.
    SinkFault { committed: Option<u32> },
    /// What is there passes `most`.
    Limit { what: LimitName, most: u64 },
    /// Memory ran out.
    NoMemory(After),
    /// What the command met isn't built yet.
    NotBuilt,
}

impl Status {
    ghost use Rattle.director_words.specs.Status.{code_of};

    /// The exit status.
    pub fn code(&self) -> u8
        ensures { result ≡ code_of self.now }
    {
        match self {
            Status::Done => 0,
            Status::NotBuilt => 1,
            Status::Usage => 2,
            Status::SourceRefused { .. } => 3,
            Status::Unknown(_) => 4,
            Status::FolderFault(_) => 9,
            Status::SourceFault => 10,
            Status::SinkFault { .. } => 12,
            Status::Limit { .. } => 15,
            Status::NoMemory(_) => 17,
        }
    }
}

/// Want of memory while nothing has been changed.
impl From<NoMemory> for Status {
    ghost from_gives = { λ _ s. s ≡ status.NoMemory after.Unchanged };

    fn from(_error: NoMemory) -> Status {
        Status::NoMemory(After::Unchanged)
    }
}
