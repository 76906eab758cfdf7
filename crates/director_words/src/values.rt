ghost use Rattle.std.specs.Prelude.{◌≡◌, ◌≢◌, map, false, IfOk};
ghost use Rattle.std.specs.Option.{option_map};
ghost use Rattle.clap.specs.Words.{app_of, found_of, rows_of, rule_of};
ghost use Rattle.director_words.specs.declared.request.RequestFault.TheVariants as fault;
ghost use Rattle.director_words.specs.Values.{IsTaken, values_found, values_in, app_named, with_flags, with_operands, profile_rule, budget_rule, value_rule, values_rule};

use crate::command::{Flags, Operands, Syntax};
use crate::request::RequestFault;
use clap::error::ErrorKind;
use clap::{Arg, ArgMatches, Command};
use osgi_version::{List, NoMemory, Text};
use std::alloc::Global;

/// What a command's words give, each as it stands.
#[derive(Debug, PartialEq, Eq, Drop)]
pub(crate) struct Values {
    pub(crate) profile: Option<Text>,
    pub(crate) budget: Option<Text>,
    pub(crate) operands: List<Text>,
}

/// Reads the words of the command of this name and syntax, of which the first is the name.
pub(crate) fn read_values(
    alloc: Global,
    name: &str,
    syntax: Syntax,
    words: &[Text],
) -> Result<Values, RequestFault>
    ensures taken { IfOk result (λ _. IsTaken name.now syntax words.now) }
    ensures found { IfOk result (λ values. values ≡ values_found name.now syntax words.now) }
    ensures only { IsTaken name.now syntax words.now → result ≢ Err fault.Usage }
{
    let texts = texts_of(alloc, words)?;
    parse(alloc, name, syntax, texts.as_slice())
}

fn parse<'a>(
    alloc: Global,
    name: &'a str,
    syntax: Syntax,
    words: &'a [&'a str],
) -> Result<Values, RequestFault>
    ensures taken { IfOk result (λ _. IsTaken name.entry.now syntax (map (λ word. word.now) words.entry.now)) }
    ensures found { IfOk result (λ values. values ≡ values_found name.entry.now syntax (map (λ word. word.now) words.entry.now)) }
    ensures only { IsTaken name.entry.now syntax (map (λ word. word.now) words.entry.now) → result ≢ Err fault.Usage }
{
    let command = command_named(alloc, name, syntax)?;
    match command.try_get_matches_from(words) {
        Ok(matches) => Ok(values_of(alloc, &matches)?),
        Err(error) => match error.kind() {
            ErrorKind::OutOfMemory => Err(RequestFault::NoMemory),
            _ => Err(RequestFault::Usage),
        },
    }
}

fn texts_of<'a>(alloc: Global, words: &'a [Text]) -> Result<Vec<&'a str>, NoMemory>
    ensures { IfOk result (λ texts. map (λ text. text.now) texts.items ≡ words.entry.now) }
{
    let mut texts = Vec::new(alloc);
    for word in words {
        texts.push(word.as_str())?;
    }
    Ok(texts)
}

fn command_named<'a>(alloc: Global, name: &'a str, syntax: Syntax) -> Result<Command<'a>, NoMemory>
    ensures { IfOk result (λ command. app_of command ≡ app_named name.entry.now syntax) }
{
    let command = Command::new(alloc, name)
        .disable_help_flag(true)
        .disable_version_flag(true);
    let command = with_flags(alloc, command, syntax.flags)?;
    with_operands(alloc, command, syntax.operands)
}

fn with_flags<'a>(
    alloc: Global,
    command: Command<'a>,
    flags: Flags,
) -> Result<Command<'a>, NoMemory>
    ensures { IfOk result (λ more. app_of more ≡ with_flags flags (app_of command.entry)) }
{
    match flags {
        Flags::None => Ok(command),
        Flags::Profile => Ok(command.arg(profile_flag(alloc))?),
        Flags::Plan => Ok(command.arg(profile_flag(alloc))?.arg(budget_flag(alloc))?),
    }
}

fn profile_flag<'a>(alloc: Global) -> Arg<'a>
    ensures rule { rule_of result ≡ profile_rule }
    ensures local { result.global ≡ false }
{
    Arg::new(alloc, "profile")
        .short('p')
        .long("profile")
        .required(true)
}

fn budget_flag<'a>(alloc: Global) -> Arg<'a>
    ensures rule { rule_of result ≡ budget_rule }
    ensures local { result.global ≡ false }
{
    Arg::new(alloc, "budget").short('b').long("budget")
}

fn with_operands<'a>(
    alloc: Global,
    command: Command<'a>,
    operands: Operands,
) -> Result<Command<'a>, NoMemory>
    ensures { IfOk result (λ more. app_of more ≡ with_operands operands (app_of command.entry)) }
{
    match operands {
        Operands::None => Ok(command),
        Operands::One => Ok(command.arg(value(alloc))?),
        Operands::Several => Ok(command.arg(several_values(alloc, true))?),
        Operands::Any => Ok(command.arg(several_values(alloc, false))?),
    }
}

fn value<'a>(alloc: Global) -> Arg<'a>
    ensures rule { rule_of result ≡ value_rule }
    ensures local { result.global ≡ false }
{
    Arg::new(alloc, "value").required(true)
}

fn several_values<'a>(alloc: Global, required: bool) -> Arg<'a>
    ensures rule { rule_of result ≡ values_rule required }
    ensures local { result.global ≡ false }
{
    Arg::new(alloc, "value").num_args(1..).required(required)
}

fn values_of(alloc: Global, matches: &ArgMatches<'_>) -> Result<Values, NoMemory>
    ensures { IfOk result (λ values. values ≡ values_in (rows_of (found_of matches.now))) }
{
    Ok(Values {
        profile: copied(alloc, matches.get_str("profile"))?,
        budget: copied(alloc, matches.get_str("budget"))?,
        operands: all_copied(alloc, matches.get_strs("value").unwrap_or(&[]))?,
    })
}

fn copied(alloc: Global, text: Option<&str>) -> Result<Option<Text>, NoMemory>
    ensures { IfOk result (λ copied. copied ≡ option_map (λ t. t.now) text.entry) }
{
    match text {
        Some(text) => Ok(Some(Text::from_str(alloc, text)?)),
        None => Ok(None),
    }
}

fn all_copied(alloc: Global, texts: &[&str]) -> Result<List<Text>, NoMemory>
    ensures { IfOk result (λ copied. copied ≡ map (λ t. t.now) texts.entry.now) }
{
    let mut copied = List::new(alloc);
    for text in texts {
        copied.push(Text::from_str(alloc, *text)?)?;
    }
    Ok(copied)
}
