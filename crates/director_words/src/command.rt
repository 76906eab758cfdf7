ghost use Rattle.std.specs.Prelude.{◌≡◌, map};
ghost use Rattle.director_words.specs.Command.{command_named, named_in, row_of};

/// What a command does.
#[derive(Clone, Copy, Debug, PartialEq, Eq)]
pub(crate) enum Verb {
    Install,
    Remove,
    Update,
    SetEnv,
    Revert,
    Show,
    History,
    Verify,
    Recover,
    Check,
    Script,
    Trial,
}

/// The flags that a command takes.
#[derive(Clone, Copy, Debug, PartialEq, Eq)]
pub(crate) enum Flags {
    None,
    /// `-p`, which is required.
    Profile,
    /// `-p`, which is required, and `-b`: those of a command that looks for a plan.
    Plan,
}

/// How many values a command takes beside its flags.
#[derive(Clone, Copy, Debug, PartialEq, Eq)]
pub(crate) enum Operands {
    None,
    One,
    /// One or more.
    Several,
    /// Any number, none too.
    Any,
}

/// The syntax of a command.
#[derive(Clone, Copy, Debug, PartialEq, Eq)]
pub(crate) struct Syntax {
    pub(crate) verb: Verb,
    pub(crate) flags: Flags,
    pub(crate) operands: Operands,
}

/// A row of the table: the command's name, what it does, the flags that it takes, and how many values beside them.
type Row = (&'static str, Verb, Flags, Operands);

/// The table of commands.
static COMMANDS: [Row; 12] = [
    ("install", Verb::Install, Flags::Plan, Operands::Several),
    ("remove", Verb::Remove, Flags::Plan, Operands::Several),
    ("update", Verb::Update, Flags::Plan, Operands::Any),
    ("set", Verb::SetEnv, Flags::Plan, Operands::Several),
    ("revert", Verb::Revert, Flags::Profile, Operands::One),
    ("list", Verb::Show, Flags::Profile, Operands::None),
    ("history", Verb::History, Flags::Profile, Operands::None),
    ("verify", Verb::Verify, Flags::None, Operands::None),
    ("recover", Verb::Recover, Flags::None, Operands::None),
    ("check", Verb::Check, Flags::None, Operands::None),
    ("script", Verb::Script, Flags::None, Operands::None),
    ("trial", Verb::Trial, Flags::None, Operands::One),
];

/// The syntax of the command of this name.
pub(crate) fn command_named(name: &str) -> Option<Syntax>
    ensures { result ≡ command_named name.now }
{
    named_in(&COMMANDS, name)
}

fn named_in(rows: &[Row], name: &str) -> Option<Syntax>
    ensures { result ≡ named_in (map row_of rows.now) name.now }
{
    for (word, verb, flags, operands) in rows {
        if *word == name {
            return Some(Syntax {
                verb: *verb,
                flags: *flags,
                operands: *operands,
            });
        }
    }
    None
}
