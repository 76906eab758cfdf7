//! Sets of names of units.

ghost use Rattle.std.specs.Prelude.{◌≡◌, ◌||◌, [], not, IfOk, OnOk, OnErr};
ghost use Rattle.unit_model.specs.declared.name.UnitName.{UnitName};
ghost use Rattle.inf_values.specs.NameKeys.{name_in, is_among};
ghost use Rattle.inf_values.specs.SameName.{same_name};

use osgi_version::NoMemory;
use std::alloc::Global;
use std::collections::BTreeSet;
use std::marker::Model;
use unit_model::UnitName;

/// The name of a unit, in an order in which equal names alone are tied.
#[derive(Debug, PartialEq, Eq, PartialOrd, Ord, Drop)]
pub(crate) struct NameKey {
    id: String,
    major: u32,
    minor: u32,
    micro: u32,
    qualifier: String,
}

/// Names of units, each of which is found among them in a time that hardly rises with their number.
#[derive(Drop)]
pub struct NameSet {
    keys: BTreeSet<NameKey>,
}

impl Model for NameSet {
    ghost use Rattle.std.specs.Prelude.{List};
    ghost use Rattle.unit_model.specs.declared.name.UnitName.{UnitName as Name};
    ghost use Rattle.inf_values.specs.NameKeys.{names_in};

    ghost Value = { List Name };

    ghost view = { λ a. names_in a.keys };
}

impl NameSet {
    pub fn new(alloc: Global) -> NameSet
        ensures { result ≡ [] }
    {
        NameSet {
            keys: BTreeSet::new(alloc),
        }
    }

    /// Adds the name, and says whether it is new. An `Err` changes nothing.
    pub fn add(&mut self, alloc: Global, name: &UnitName) -> Result<bool, NoMemory>
        ensures new { IfOk result (λ new. new ≡ not (is_among self.old name.now)) }
        ensures added { OnOk result ((other : UnitName) → is_among self.new other ≡ (is_among self.old other || same_name name.now other)) }
        ensures err { OnErr result (self.new ≡ self.old) }
    {
        let key = key_of(alloc, name)?;
        let new = self.keys.insert(key)?;
        Ok(new)
    }
}

fn key_of(alloc: Global, name: &UnitName) -> Result<NameKey, NoMemory>
    ensures { IfOk result (λ key. name_in key ≡ name.now) }
{
    let version = &name.version;
    let id = String::from_str(alloc, name.id.as_str())?;
    let qualifier = String::from_str(alloc, version.qualifier.as_str())?;
    Ok(NameKey {
        id,
        major: version.major,
        minor: version.minor,
        micro: version.micro,
        qualifier,
    })
}
