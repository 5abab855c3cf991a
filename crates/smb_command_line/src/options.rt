//! The options of commands, as rows of a table.

use clap::builder::ValueParser;
use clap::{Arg, ArgAction, Command};
use std::alloc::{AllocError, Global};

/// What an option takes, with the name that its help gives the value.
#[derive(Clone, Copy)]
pub(crate) enum Takes {
    /// Nothing: the option is there, or it isn't.
    Nothing,
    Text(&'static str),
    /// A text each time that it is there.
    Texts(&'static str),
    /// A text that may begin with a hyphen and a digit, so that it is not taken for another option.
    Size(&'static str),
    /// One of these words.
    Word(&'static str, &'static [&'static str]),
    /// A number, this one at least.
    Number(&'static str, u64),
    /// A number above 0, this one at most.
    NumberUpTo(&'static str, u64),
    /// A text, in the first place behind the command, and not behind the option's name.
    First(&'static str),
    /// One of these words, in the first place behind the command.
    FirstWord(&'static str, &'static [&'static str]),
    /// A text, in the second place behind the command.
    Second(&'static str),
    /// A text, in the third place behind the command.
    Third(&'static str),
}

/// When an option has to be there.
#[derive(Clone, Copy)]
pub(crate) enum Needed {
    Never,
    Always,
    /// Where another option has this value.
    With(&'static str, &'static str),
}

/// An option of a command.
#[derive(Clone, Copy)]
pub(crate) struct OptionRow {
    /// Without the two hyphens before it.
    pub(crate) name: &'static str,
    pub(crate) takes: Takes,
    pub(crate) needed: Needed,
    /// The options beside which it is not taken.
    pub(crate) bars: &'static [&'static str],
    pub(crate) help: &'static str,
}

/// A command, with its options in the order of its help.
#[derive(Clone, Copy)]
pub(crate) struct CommandRow {
    pub(crate) name: &'static str,
    pub(crate) about: &'static str,
    /// The end of its help.
    pub(crate) examples: &'static str,
    pub(crate) options: &'static [OptionRow],
}

/// An option that takes this.
fn taking<'a>(arg: Arg<'a>, name: &'static str, takes: Takes) -> Arg<'a> {
    match takes {
        Takes::Nothing => arg.long(name).action(ArgAction::SetTrue),
        Takes::Text(value) => arg.long(name).value_name(value),
        Takes::Texts(value) => arg.long(name).value_name(value).action(ArgAction::Append),
        Takes::Size(value) => arg
            .long(name)
            .value_name(value)
            .allow_negative_numbers(true),
        Takes::Word(value, words) => arg
            .long(name)
            .value_name(value)
            .value_parser(ValueParser::Names(words)),
        Takes::Number(value, least) => arg
            .long(name)
            .value_name(value)
            .value_parser(ValueParser::Unsigned(least, u64::MAX)),
        Takes::NumberUpTo(value, most) => arg
            .long(name)
            .value_name(value)
            .value_parser(ValueParser::Unsigned(1, most)),
        Takes::First(value) => arg.index(1).value_name(value),
        Takes::FirstWord(value, words) => arg
            .index(1)
            .value_name(value)
            .value_parser(ValueParser::Names(words)),
        Takes::Second(value) => arg.index(2).value_name(value),
        Takes::Third(value) => arg.index(3).value_name(value),
    }
}

/// An option that has to be there then.
fn requiring<'a>(arg: Arg<'a>, needed: Needed) -> Result<Arg<'a>, AllocError> {
    match needed {
        Needed::Never => Ok(arg),
        Needed::Always => Ok(arg.required(true)),
        Needed::With(option, value) => arg.required_if_eq(option, value),
    }
}

/// The option of a row.
fn option_of<'a>(alloc: Global, row: &OptionRow) -> Result<Arg<'a>, AllocError> {
    let arg = taking(
        Arg::new(alloc, row.name).help(row.help),
        row.name,
        row.takes,
    );
    requiring(arg, row.needed)?.conflicts_with_all(row.bars)
}

/// The command of a row.
pub(crate) fn command_of<'a>(alloc: Global, row: &CommandRow) -> Result<Command<'a>, AllocError> {
    let mut command = Command::new(alloc, row.name)
        .about(row.about)
        .after_help(row.examples);
    for option in row.options {
        command = command.arg(option_of(alloc, option)?)?;
    }
    Ok(command)
}
