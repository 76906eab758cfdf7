ghost use Rattle.std.specs.Prelude.{◌≡◌};
ghost use Rattle.host_adapters.specs.declared.arguments.ArgumentsFault.TheVariants as arguments_fault;

use osgi_version::{NoMemory, Text};
use std::alloc::AllocFailed;
use std::env;
use std::env::Env;
use std::io::ErrorKind;

/// What the program is called with: `FOLDER SOURCE COMMAND ..`.
#[derive(Drop)]
pub struct Arguments {
    pub folder: String,
    pub source: String,
    pub words: Vec<Text>,
}

/// Why there are no arguments: there are fewer than two words, or one isn't UTF-8, or memory ran out.
#[derive(Clone, Copy, Debug, PartialEq, Eq)]
pub enum ArgumentsFault {
    Usage,
    NoMemory,
}

impl From<NoMemory> for ArgumentsFault {
    ghost from_gives = { λ _ e. e ≡ arguments_fault.NoMemory };

    fn from(_error: NoMemory) -> ArgumentsFault {
        ArgumentsFault::NoMemory
    }
}

impl<T: Drop> From<AllocFailed<T>> for ArgumentsFault {
    ghost from_gives = { λ _ e. e ≡ arguments_fault.NoMemory };

    fn from(_error: AllocFailed<T>) -> ArgumentsFault {
        ArgumentsFault::NoMemory
    }
}

impl Arguments {
    /// The words behind the program's own name.
    pub fn read<R: Env + AllocGlobal>(runtime: &R) -> Result<Arguments, ArgumentsFault> {
        let mut given = match env::args(runtime) {
            Ok(given) => given,
            Err(error) if error.kind() == ErrorKind::OutOfMemory => {
                return Err(ArgumentsFault::NoMemory);
            }
            Err(_) => return Err(ArgumentsFault::Usage),
        };
        let (Some(_), Some(folder), Some(source)) = (given.next(), given.next(), given.next())
        else {
            return Err(ArgumentsFault::Usage);
        };
        let mut words = Vec::new(runtime.alloc());
        for word in given {
            words.push(Text::from_str(runtime.alloc(), word.as_str())?)?;
        }
        Ok(Arguments {
            folder,
            source,
            words,
        })
    }
}
