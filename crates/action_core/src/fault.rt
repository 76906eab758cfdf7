ghost use Rattle.std.specs.Prelude.{◌≡◌};
ghost use Rattle.action_core.specs.declared.fault.ActionFault.TheVariants as fault;

use folder_core::Path;
use osgi_version::NoMemory;
use thiserror::Error;

/// Why an action refuses a call. Each names the path that shows it.
#[derive(Debug, PartialEq, Eq, Drop, Error)]
pub enum ActionFault {
    /// A path has more than 64 names. These are its first 64.
    #[error("a path is too deep")]
    TooDeep(Path),
    #[error("the folder of the profile isn't to be changed")]
    InstallFolder(Path),
    /// The way to a path leads through this link.
    #[error("a link stands on the way")]
    ThroughLink(Path),
    #[error("nothing holds the path")]
    NoParent(Path),
    #[error("nothing stands there")]
    NotThere(Path),
    #[error("something stands there")]
    Present(Path),
    #[error("no directory stands there")]
    NotDirectory(Path),
    #[error("the directory isn't empty")]
    NotEmpty(Path),
    #[error("no file stands there")]
    NotFile(Path),
    /// The target of a copy lies below its source.
    #[error("a directory would be copied into itself")]
    IntoItself(Path),
    #[error("out of memory")]
    NoMemory,
}

impl From<NoMemory> for ActionFault {
    ghost from_gives = { λ _ e. e ≡ fault.NoMemory };

    fn from(_error: NoMemory) -> ActionFault {
        ActionFault::NoMemory
    }
}
