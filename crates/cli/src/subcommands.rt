//! The subcommands, their options and their arguments, as rows of data, and what clap reads by them.

use clap::{Arg, ArgAction, Command, value_parser};
use std::alloc::{AllocError, Global};

/// What stands behind the name of an option, or in the place of an argument.
#[derive(Clone, Copy)]
enum Value {
    /// An option without a value.
    Flag,
    /// An option's text, which may be left out.
    Text,
    /// An option's text, and what it is where it is left out.
    TextOr(&'static str),
    /// The text of an option that has to be there.
    NeededText,
    /// The texts of an option that may be there several times, or be left out.
    Texts,
    /// The number of a port, of an option that has to be there.
    Port,
    /// A number from 1 on, of an option that has to be there.
    Count,
    /// The text of an argument that has to be there.
    Argument,
    /// The numbers behind the arguments.
    Numbers,
}

/// An option or an argument: its name, how the help calls its value, what it says of it, and what the value is.
#[derive(Clone, Copy)]
struct Argument {
    name: &'static str,
    value_name: &'static str,
    value: Value,
    help: &'static str,
}

/// A subcommand: its name, what the help says of it, its options and arguments, and what stands behind them in its help.
#[derive(Clone, Copy)]
pub(crate) struct Subcommand {
    name: &'static str,
    about: &'static str,
    arguments: &'static [Argument],
    after_help: &'static str,
}

/// Where more stands.
const MAN_PAGE: &str = "`man office` has examples, the replies, and what each fault means.";

/// The kinds of faults that `canon` tells, and where more stands.
const KINDS: &str = "Kinds:
  1   the text isn't UTF-8
  2   a line of no form
  3   a piece that isn't quoted as it has to be
  4   a backslash without a known letter behind it
  5   a line that can't stand there
  6   a form that isn't due
  7   an entry whose msgctxt and msgid were there before
  8   a charset other than UTF-8
  9   past a limit; line 0 stands for the whole text
  10  out of memory

`man office` has examples, the replies, and what each fault means.";

pub(crate) const INIT: Subcommand = Subcommand {
    name: "init",
    about: "Makes an office in a new file, and prints ready",
    arguments: &[
        Argument {
            name: "store",
            value_name: "FILE",
            value: Value::NeededText,
            help: "The file, an SQLite database",
        },
        Argument {
            name: "manager",
            value_name: "NAME",
            value: Value::NeededText,
            help: "Who manages the office",
        },
    ],
    after_help: MAN_PAGE,
};

pub(crate) const DELIVER: Subcommand = Subcommand {
    name: "deliver",
    about: "Reads a JSON request a line from standard input, and prints STATUS BODY for each",
    arguments: &[
        Argument {
            name: "store",
            value_name: "FILE",
            value: Value::Text,
            help: "The file that the office is in; without it, it stands in memory",
        },
        Argument {
            name: "manager",
            value_name: "NAME",
            value: Value::TextOr("root"),
            help: "Who manages the office that opens empty",
        },
        Argument {
            name: "demo",
            value_name: "",
            value: Value::Flag,
            help: "Opens the demo office: a template with `Hello`, and the language de",
        },
        Argument {
            name: "export",
            value_name: "LANG",
            value: Value::Text,
            help: "Prints the language's PO text behind the replies",
        },
        Argument {
            name: "domain",
            value_name: "NAME",
            value: Value::TextOr("main"),
            help: "The language's domain",
        },
        Argument {
            name: "stop-at-lost",
            value_name: "",
            value: Value::Flag,
            help: "Delivers nothing behind the first line that is answered 500, 503 or 507",
        },
    ],
    after_help: MAN_PAGE,
};

pub(crate) const EXPORT: Subcommand = Subcommand {
    name: "export",
    about: "Prints a language's PO text, or writes those of several into files; length and SHA-256 go to the second output",
    arguments: &[
        Argument {
            name: "store",
            value_name: "FILE",
            value: Value::NeededText,
            help: "The file that the office is in",
        },
        Argument {
            name: "domain",
            value_name: "NAME",
            value: Value::TextOr("main"),
            help: "The language's domain",
        },
        Argument {
            name: "lang",
            value_name: "LANG",
            value: Value::Texts,
            help: "The language; with --into, of several each",
        },
        Argument {
            name: "all",
            value_name: "",
            value: Value::Flag,
            help: "All languages of the domain, with --into, in the place of --lang",
        },
        Argument {
            name: "into",
            value_name: "FOLDER",
            value: Value::Text,
            help: "Writes the text of each language into the folder's file LANG.po, and prints none",
        },
    ],
    after_help: MAN_PAGE,
};

pub(crate) const RECORDS: Subcommand = Subcommand {
    name: "records",
    about: "Prints number and status of each record as a line of JSON, in the order in which the office took them",
    arguments: &[
        Argument {
            name: "store",
            value_name: "FILE",
            value: Value::NeededText,
            help: "The file that the office is in",
        },
        Argument {
            name: "after",
            value_name: "NUMBER",
            value: Value::Text,
            help: "Prints those behind the record of this number alone",
        },
    ],
    after_help: MAN_PAGE,
};

pub(crate) const SERVE: Subcommand = Subcommand {
    name: "serve",
    about: "Serves an office over HTTP on 127.0.0.1, one connection after another",
    arguments: &[
        Argument {
            name: "store",
            value_name: "FILE",
            value: Value::NeededText,
            help: "The file that the office is in",
        },
        Argument {
            name: "port",
            value_name: "P",
            value: Value::Port,
            help: "The port to listen on, from 1 to 65535",
        },
        Argument {
            name: "connections",
            value_name: "K",
            value: Value::Count,
            help: "Ends behind so many connections, from 1 to 4294967295",
        },
    ],
    after_help: MAN_PAGE,
};

pub(crate) const SEND: Subcommand = Subcommand {
    name: "send",
    about: "Sends a file's requests to an office that serves, and prints STATUS BODY for each, or none",
    arguments: &[
        Argument {
            name: "port",
            value_name: "P",
            value: Value::Port,
            help: "The port of 127.0.0.1 that the office listens on",
        },
        Argument {
            name: "file",
            value_name: "FILE",
            value: Value::NeededText,
            help: "The file of requests, a line of JSON each",
        },
        Argument {
            name: "tries",
            value_name: "T",
            value: Value::Count,
            help: "Sends each request so often at most, from 1 to 4294967295",
        },
    ],
    after_help: MAN_PAGE,
};

pub(crate) const PLURAL: Subcommand = Subcommand {
    name: "plural",
    about: "Prints N INDEX a line: the number of the form that the rule gives at N",
    arguments: &[
        Argument {
            name: "value",
            value_name: "VALUE",
            value: Value::Argument,
            help: "The value of a header's Plural-Forms field",
        },
        Argument {
            name: "n",
            value_name: "N",
            value: Value::Numbers,
            help: "Numbers from 0 to 4294967295",
        },
    ],
    after_help: MAN_PAGE,
};

const CANON: Subcommand = Subcommand {
    name: "canon",
    about: "Reads a PO text from standard input, and prints it in canonical form, or only po line L kind K",
    arguments: &[],
    after_help: KINDS,
};

const SUBCOMMANDS: [Subcommand; 8] = [INIT, DELIVER, EXPORT, RECORDS, SERVE, SEND, PLURAL, CANON];

const VERSION: &str = "0.2.0-dev";

/// An option or an argument that isn't a flag, with its value.
fn with_value<'a>(arg: Arg<'a>, value: Value) -> Arg<'a> {
    match value {
        Value::Flag | Value::Text | Value::Texts => arg,
        Value::TextOr(text) => arg.default_value(text),
        Value::NeededText | Value::Argument => arg.required(true),
        Value::Port => arg
            .required(true)
            .value_parser(value_parser!(u16).range(1..)),
        Value::Count => arg
            .required(true)
            .value_parser(value_parser!(u32).range(1..)),
        Value::Numbers => arg
            .required(true)
            .num_args(1..)
            .value_parser(value_parser!(u32)),
    }
}

/// What clap does with the text of an option that comes again: it is refused, or kept behind those before it.
fn action_of(value: Value) -> ArgAction {
    match value {
        Value::Texts => ArgAction::Append,
        _ => ArgAction::Set,
    }
}

/// An option or an argument as clap has it.
fn arg_of<'a>(alloc: Global, argument: Argument) -> Arg<'a> {
    let arg = Arg::new(alloc, argument.name).help(argument.help);
    match argument.value {
        Value::Flag => arg.long(argument.name).action(ArgAction::SetTrue),
        Value::Argument | Value::Numbers => with_value(
            arg.value_name(argument.value_name),
            argument.value,
        ),
        _ => with_value(
            arg.long(argument.name)
                .value_name(argument.value_name)
                .action(action_of(argument.value)),
            argument.value,
        ),
    }
}

/// A subcommand as clap has it.
pub(crate) fn command_of<'a>(
    alloc: Global,
    subcommand: Subcommand,
) -> Result<Command<'a>, AllocError> {
    let mut command = Command::new(alloc, subcommand.name)
        .about(subcommand.about)
        .after_help(subcommand.after_help)
        .version(VERSION);
    for argument in subcommand.arguments {
        command = command.arg(arg_of(alloc, *argument))?;
    }
    Ok(command)
}

/// A command with a subcommand, if there was memory for that. (A command is dropped in one place here, since each such place is dear to
/// prove.)
fn with_subcommand<'a>(
    command: Command<'a>,
    subcommand: Result<Command<'a>, AllocError>,
) -> Result<Command<'a>, AllocError> {
    match subcommand {
        Ok(subcommand) => command.subcommand(subcommand),
        Err(fault) => {
            drop(command);
            Err(fault)
        }
    }
}

fn bare_command<'a>(alloc: Global) -> Result<Command<'a>, AllocError> {
    Ok(
        Command::new(alloc, "office")
            .bin_name("office")?
            .about("A translation office in which a request that comes again acts once")
            .after_help(MAN_PAGE)
            .version(VERSION)
            .subcommand_required(true)
            .arg_required_else_help(true),
    )
}

/// The whole command line.
pub(crate) fn office_command<'a>(alloc: Global) -> Result<Command<'a>, AllocError> {
    let mut command = bare_command(alloc)?;
    for subcommand in SUBCOMMANDS {
        command = with_subcommand(command, command_of(alloc, subcommand))?;
    }
    Ok(command)
}
