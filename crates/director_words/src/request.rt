ghost use Rattle.std.specs.Prelude.{◌≡◌, ◌⊎◌, IfOk};
ghost use Rattle.director_words.specs.declared.request.RequestFault.TheVariants as fault;
ghost use Rattle.director_words.specs.Request.{Asks, HasValues, verb_of};

use crate::command::{Verb, command_named};
use crate::fields::{Plan, one_number, plan_of_pairs, plan_of_roots, profile_of, size_of};
use crate::values::{Values, read_values};
use osgi_version::{List, NoMemory, Text, Twin};
use std::alloc::Global;
use thiserror::Error;

/// How many lines a derivation may have where the words name no budget.
pub const DEFAULT_BUDGET: u32 = 10_000;

/// What a command asks for.
#[derive(Debug, PartialEq, Eq, Drop)]
pub enum Request {
    /// To add the named units to the roots of a profile.
    Install {
        profile: Text,
        budget: u32,
        roots: List<Text>,
    },
    /// To take the named roots away from those of a profile.
    Remove {
        profile: Text,
        budget: u32,
        roots: List<Text>,
    },
    /// To replace each named root that has an updater by it, or each root where none is named.
    Update {
        profile: Text,
        budget: u32,
        roots: List<Text>,
    },
    /// To change the environment of a profile by words `KEY=VALUE`. An empty value takes the key away.
    SetEnv {
        profile: Text,
        budget: u32,
        pairs: List<Text>,
    },
    /// To go back to the units, roots and environment of a state.
    Revert {
        profile: Text,
        number: u32,
    },
    /// To show the current state of a profile.
    Show {
        profile: Text,
    },
    /// To show the states of a profile.
    History {
        profile: Text,
    },
    /// To check what is stored of all profiles.
    Verify,
    /// To undo a change that was cut off.
    Recover,
    /// To check a problem and a derivation on the input.
    Check,
    /// To run the commands on the lines of the input.
    Script,
    /// To plan and perform a made source of this size over a folder in memory.
    Trial {
        size: u32,
    },
}

impl Twin for Request {
    fn copy(&self) -> Result<Request, NoMemory> {
        Ok(match self {
            Request::Install {
                profile,
                budget,
                roots,
            } => Request::Install {
                profile: profile.copy()?,
                budget: *budget,
                roots: roots.copy()?,
            },
            Request::Remove {
                profile,
                budget,
                roots,
            } => Request::Remove {
                profile: profile.copy()?,
                budget: *budget,
                roots: roots.copy()?,
            },
            Request::Update {
                profile,
                budget,
                roots,
            } => Request::Update {
                profile: profile.copy()?,
                budget: *budget,
                roots: roots.copy()?,
            },
            Request::SetEnv {
                profile,
                budget,
                pairs,
            } => Request::SetEnv {
                profile: profile.copy()?,
                budget: *budget,
                pairs: pairs.copy()?,
            },
            Request::Revert { profile, number } => Request::Revert {
                profile: profile.copy()?,
                number: *number,
            },
            Request::Show { profile } => Request::Show {
                profile: profile.copy()?,
            },
            Request::History { profile } => Request::History {
                profile: profile.copy()?,
            },
            Request::Verify => Request::Verify,
            Request::Recover => Request::Recover,
            Request::Check => Request::Check,
            Request::Script => Request::Script,
            Request::Trial { size } => Request::Trial { size: *size },
        })
    }
}

/// Why words are no request.
#[derive(Clone, Copy, Debug, PartialEq, Eq, Error)]
pub enum RequestFault {
    #[error("the words denote no request")]
    Usage,
    #[error("out of memory")]
    NoMemory,
}

impl From<NoMemory> for RequestFault {
    ghost from_gives = { λ _ e. e ≡ fault.NoMemory };

    fn from(_error: NoMemory) -> RequestFault {
        RequestFault::NoMemory
    }
}

/// Reads a command's words, of which the first is its name:
///
/// ```text
/// install -p PROFILE [-b BUDGET] ROOT..
/// remove  -p PROFILE [-b BUDGET] ROOT..
/// update  -p PROFILE [-b BUDGET] [ROOT..]
/// set     -p PROFILE [-b BUDGET] KEY=VALUE..
/// revert  -p PROFILE NUMBER
/// list    -p PROFILE
/// history -p PROFILE
/// verify, recover, check, script
/// trial   SIZE
/// ```
///
/// `--profile` stands for `-p` and `--budget` for `-b`. A budget is 1 to 50,000, a size 1 to 4,096, and a number
/// has no sign and no leading zero. `Usage` comes exactly where the words denote no request.
pub fn read_request(alloc: Global, words: &[Text]) -> Result<Request, RequestFault>
    ensures found { IfOk result (Asks words.now) }
    // Words that ask for something are read, unless memory runs out.
    ensures only { (request : Request) → Asks words.now request → (result ≡ Ok request) ⊎ (result ≡ Err fault.NoMemory) }
{
    let Some(name) = words.first() else {
        return Err(RequestFault::Usage);
    };
    let Some(syntax) = command_named(name.as_str()) else {
        return Err(RequestFault::Usage);
    };
    let values = read_values(alloc, name.as_str(), syntax, words)?;
    request_of(alloc, syntax.verb, values)
}

fn request_of(alloc: Global, verb: Verb, values: Values) -> Result<Request, RequestFault>
    ensures verb { IfOk result (λ request. verb_of request ≡ verb) }
    ensures found { IfOk result (HasValues values) }
    ensures only { (request : Request) → verb_of request ≡ verb → HasValues values request
        → (result ≡ Ok request) ⊎ (result ≡ Err fault.NoMemory) }
{
    match verb {
        Verb::Install => {
            let Plan {
                profile,
                budget,
                operands: roots,
            } = plan_of_roots(alloc, values)?;
            Ok(Request::Install {
                profile,
                budget,
                roots,
            })
        }
        Verb::Remove => {
            let Plan {
                profile,
                budget,
                operands: roots,
            } = plan_of_roots(alloc, values)?;
            Ok(Request::Remove {
                profile,
                budget,
                roots,
            })
        }
        Verb::Update => {
            let Plan {
                profile,
                budget,
                operands: roots,
            } = plan_of_roots(alloc, values)?;
            Ok(Request::Update {
                profile,
                budget,
                roots,
            })
        }
        Verb::SetEnv => {
            let Plan {
                profile,
                budget,
                operands: pairs,
            } = plan_of_pairs(alloc, values)?;
            Ok(Request::SetEnv {
                profile,
                budget,
                pairs,
            })
        }
        Verb::Revert => {
            let number = one_number(alloc, values.operands.items())?;
            let profile = profile_of(values.profile)?;
            Ok(Request::Revert { profile, number })
        }
        Verb::Show => Ok(Request::Show {
            profile: profile_of(values.profile)?,
        }),
        Verb::History => Ok(Request::History {
            profile: profile_of(values.profile)?,
        }),
        Verb::Verify => Ok(Request::Verify),
        Verb::Recover => Ok(Request::Recover),
        Verb::Check => Ok(Request::Check),
        Verb::Script => Ok(Request::Script),
        Verb::Trial => Ok(Request::Trial {
            size: size_of(alloc, values.operands.items())?,
        }),
    }
}
