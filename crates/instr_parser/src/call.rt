use folder_core::Name;
use osgi_version::{List, NoMemory, Text, Twin};

/// An action, by its code. Codes follow the order of the table of actions.
#[derive(Clone, Copy, Debug, PartialEq, Eq)]
pub struct ActionKind(pub u16);

/// Where a place begins.
#[derive(Clone, Copy, Debug, PartialEq, Eq)]
pub enum Base {
    /// At the folder that the profile is installed to.
    Install,
    /// At the unit's first artifact. No name follows it.
    Artifact,
}

/// The value of a parameter.
#[derive(Debug, PartialEq, Eq, Drop)]
pub enum Value {
    /// The names that lead from the base to a path, at most 60.
    Place { base: Base, names: List<Name> },
    /// The names that a path is lengthened by, 1 to 60.
    Names(List<Name>),
    /// 1 to 4,096 bytes without NUL.
    Plain(Text),
    Flag(bool),
    /// At most 0o777.
    Mode(u16),
}

/// A parameter, by its code in the table of parameters, and its value.
#[derive(Debug, PartialEq, Eq, Drop)]
pub struct Param {
    pub code: u16,
    pub value: Value,
}

/// A call of an action. Its parameters stand in the table's order, which is that of their codes.
#[derive(Debug, PartialEq, Eq, Drop)]
pub struct Call {
    pub kind: ActionKind,
    pub params: List<Param>,
}

impl Twin for ActionKind {
    fn copy(&self) -> Result<ActionKind, NoMemory> {
        Ok(*self)
    }
}

impl Twin for Base {
    fn copy(&self) -> Result<Base, NoMemory> {
        Ok(*self)
    }
}

impl Twin for Value {
    fn copy(&self) -> Result<Value, NoMemory> {
        match self {
            Value::Place { base, names } => Ok(Value::Place {
                base: *base,
                names: names.copy()?,
            }),
            Value::Names(names) => Ok(Value::Names(names.copy()?)),
            Value::Plain(text) => Ok(Value::Plain(text.copy()?)),
            Value::Flag(flag) => Ok(Value::Flag(*flag)),
            Value::Mode(mode) => Ok(Value::Mode(*mode)),
        }
    }
}

impl Twin for Param {
    fn copy(&self) -> Result<Param, NoMemory> {
        let value = self.value.copy()?;
        Ok(Param {
            code: self.code,
            value,
        })
    }
}

impl Twin for Call {
    fn copy(&self) -> Result<Call, NoMemory> {
        let params = self.params.copy()?;
        Ok(Call {
            kind: self.kind,
            params,
        })
    }
}
