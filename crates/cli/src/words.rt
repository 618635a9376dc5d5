//! The words of the command line.

use crate::subcommands::{
    DELIVER, EXPORT, INIT, PLURAL, RECORDS, SEND, SERVE, Subcommand, command_of, office_command,
};
use clap::error::ErrorKind;
use clap::{ArgMatches, Command, Error};
use commands::{AtLost, FAILED};
use sql_columns::number_from;
use std::alloc::{AllocError, Global};
use tables::Start;
use units::{Lang, Name};
use uuid::Uuid;

/// What the words ask for.
#[derive(Drop)]
pub(crate) enum Asked<'a> {
    Init(Init<'a>),
    Deliver(Deliver<'a>),
    Export(Export<'a>),
    Records(Records<'a>),
    Serve(Serve<'a>),
    Send(SendFile<'a>),
    Plural(Plural<'a>),
    Canon,
}

/// The options of `init`: the new file, and the office that it begins with.
#[derive(Drop)]
pub(crate) struct Init<'a> {
    pub(crate) store: &'a str,
    pub(crate) start: Start,
}

/// The options of `deliver`.
#[derive(Drop)]
pub(crate) struct Deliver<'a> {
    /// The file that the office is in; in memory where there is none.
    pub(crate) store: Option<&'a str>,
    /// The office that opens: empty with one manager, or the demo office.
    pub(crate) start: Start,
    /// The domain of the language.
    pub(crate) domain: Name,
    /// The language to export at the end.
    pub(crate) export: Option<Lang>,
    /// What becomes of the lines behind one that is lost.
    pub(crate) at_lost: AtLost,
}

/// The options of `export`: the file, the domain, and what becomes of the texts of its languages.
#[derive(Drop)]
pub(crate) struct Export<'a> {
    pub(crate) store: &'a str,
    pub(crate) domain: Name,
    pub(crate) texts: Texts<'a>,
}

/// What becomes of the texts of languages.
#[derive(Drop)]
pub(crate) enum Texts<'a> {
    /// That of one is printed.
    Printed(Lang),
    /// Each is put into a file of this folder.
    Filed(&'a str, Langs),
}

/// Languages of a domain.
#[derive(Drop)]
pub(crate) enum Langs {
    /// These, in this order.
    Named(Vec<Lang>),
    /// All that it has.
    All,
}

/// The options of `records`: the file, and the number of the record behind which the records are wanted.
#[derive(Drop)]
pub(crate) struct Records<'a> {
    pub(crate) store: &'a str,
    pub(crate) after: Option<Uuid>,
}

/// The options of `serve`: the file that the office is in, the port, and how many connections are served.
#[derive(Drop)]
pub(crate) struct Serve<'a> {
    pub(crate) store: &'a str,
    pub(crate) port: u16,
    pub(crate) connections: u32,
}

/// The options of `send`: the port that the office listens on, the file of requests, and how often each is sent at most.
#[derive(Drop)]
pub(crate) struct SendFile<'a> {
    pub(crate) port: u16,
    pub(crate) file: &'a str,
    pub(crate) tries: u32,
}

/// The words of `plural`: the value of a `Plural-Forms` field, and the numbers to tell the forms of.
#[derive(Drop)]
pub(crate) struct Plural<'a> {
    pub(crate) value: &'a str,
    pub(crate) numbers: Vec<u32>,
}

/// What is wrong with words, of whichever subcommand.
fn wrong_words(alloc: Global, kind: ErrorKind, text: &str) -> Result<Error, AllocError> {
    let mut command = office_command(alloc)?;
    let error = command.error(kind, text);
    drop(command);
    error
}

/// The error, or that memory was wanting for it.
fn or_memory(error: Result<Error, AllocError>) -> Error {
    match error {
        Ok(error) => error,
        Err(fault) => Error::from(fault),
    }
}

fn asked_of<'a>(alloc: Global, matches: &ArgMatches<'a>) -> Result<Asked<'a>, Error> {
    match matches.subcommand() {
        Some(("init", found)) => init_options(alloc, found),
        Some(("deliver", found)) => deliver_options(alloc, found),
        Some(("export", found)) => export_options(alloc, found),
        Some(("records", found)) => records_options(alloc, found),
        Some(("serve", found)) => serve_options(alloc, found),
        Some(("send", found)) => send_options(alloc, found),
        Some(("plural", found)) => plural_options(alloc, found),
        Some(("canon", _)) => Ok(Asked::Canon),
        _ => Err(or_memory(wrong_words(
            alloc,
            ErrorKind::MissingSubcommand,
            "a subcommand is wanted",
        ))),
    }
}

/// What to tell of words that aren't UTF-8.
pub(crate) fn no_text(alloc: Global) -> Error {
    or_memory(wrong_words(
        alloc,
        ErrorKind::ValueValidation,
        "the words have to be UTF-8",
    ))
}

/// Whether the words are those of `office canon`, as far as can be told before they are read.
pub(crate) fn are_canon(words: &[String]) -> bool {
    matches!(words, [_, word] if word.as_str() == "canon")
}

/// What the words ask for; or what to tell of them: help, the version, or what is wrong with them.
pub(crate) fn read_words<'a>(alloc: Global, words: &'a [String]) -> Result<Asked<'a>, Error> {
    let matches = office_command(alloc)?.try_get_matches_from(words)?;
    let asked = asked_of(alloc, &matches);
    drop(matches);
    asked
}

/// The exit status where the words ask for nothing to do: 0 for help and the version, 1 where memory ran out, 2 for wrong words.
pub(crate) fn error_code(error: &Error) -> u8 {
    match error.kind() {
        ErrorKind::OutOfMemory => FAILED,
        _ => error.exit_code() as u8,
    }
}

/// Whether a number that clap has read is written as this program writes it: in digits, without a sign and without zeros in front.
fn is_plain(text: &str) -> bool {
    text.as_bytes().iter().all(|byte| byte.is_ascii_digit())
        && (text == "0" || !text.starts_with('0'))
}

/// Whether the numbers of these options are.
fn are_plain(found: &ArgMatches<'_>, names: &[&str]) -> bool {
    for name in names {
        if !is_plain(found.get_str(*name).unwrap_or("")) {
            return false;
        }
    }
    true
}

/// The numbers behind `plural`; none where one is written otherwise. clap has read each of them.
fn numbers(alloc: Global, found: &ArgMatches<'_>) -> Result<Option<Vec<u32>>, AllocError> {
    let mut numbers = Vec::new(alloc);
    for text in found.get_strs("n").unwrap_or(&[]) {
        match text.parse::<u32>() {
            Ok(number) if is_plain(*text) => numbers.push(number)?,
            _ => return Ok(None),
        }
    }
    Ok(Some(numbers))
}

fn plural_options<'a>(alloc: Global, found: &ArgMatches<'a>) -> Result<Asked<'a>, Error> {
    match numbers(alloc, found)? {
        Some(numbers) => Ok(Asked::Plural(Plural {
            value: found.get_str("value").unwrap_or(""),
            numbers,
        })),
        None => Err(or_memory(wrong_value(command_of(alloc, PLURAL), "office plural", NO_NUMBER))),
    }
}

/// The options of `serve`; clap has read each number.
fn serve_options<'a>(alloc: Global, found: &ArgMatches<'a>) -> Result<Asked<'a>, Error> {
    if !are_plain(found, &["port", "connections"]) {
        return Err(or_memory(wrong_value(command_of(alloc, SERVE), "office serve", NO_NUMBER)));
    }
    Ok(Asked::Serve(Serve {
        store: found.get_str("store").unwrap_or(""),
        port: found.get_one("port").unwrap_or(0),
        connections: found.get_one("connections").unwrap_or(0),
    }))
}

/// The options of `send`; clap has read each number.
fn send_options<'a>(alloc: Global, found: &ArgMatches<'a>) -> Result<Asked<'a>, Error> {
    if !are_plain(found, &["port", "tries"]) {
        return Err(or_memory(wrong_value(command_of(alloc, SEND), "office send", NO_NUMBER)));
    }
    Ok(Asked::Send(SendFile {
        port: found.get_one("port").unwrap_or(0),
        file: found.get_str("file").unwrap_or(""),
        tries: found.get_one("tries").unwrap_or(0),
    }))
}

const NO_NUMBER: &str = "a number is written in digits, without a sign and without zeros in front";

const NO_NAME: &str =
    "a NAME is 1 to 32 bytes of a-z, 0-9, `.`, `-` and `_`, the first of them a letter";

const NO_LANG: &str =
    "a LANG is 2 to 16 ASCII letters, digits, `_`, `-` and `@`, the first of them a letter";

const NO_LANGS: &str =
    "one LANG is wanted, or with --into FOLDER several of them, or --all in their place";

const NO_REQUEST: &str =
    "a NUMBER is that of a request: 36 characters, hyphenated and in lower case";

/// What is wrong with a value of a subcommand, whose usage begins so.
fn wrong_value<'a>(
    subcommand: Result<Command<'a>, AllocError>,
    usage: &str,
    text: &str,
) -> Result<Error, AllocError> {
    let mut command = subcommand?.bin_name(usage)?;
    let error = command.error(ErrorKind::ValueValidation, text);
    drop(command);
    error
}

/// The name that an option of a subcommand has, whose usage begins so. clap has put the text that stands for a name left out.
fn name_of(
    alloc: Global,
    found: &ArgMatches<'_>,
    option: &str,
    subcommand: Subcommand,
    usage: &str,
) -> Result<Name, Error> {
    match Name::try_new(found.get_str(option).unwrap_or("")) {
        Some(name) => Ok(name),
        None => Err(or_memory(wrong_value(command_of(alloc, subcommand), usage, NO_NAME))),
    }
}

/// The language of this code, in a subcommand whose usage begins so.
fn lang_of(alloc: Global, text: &str, subcommand: Subcommand, usage: &str) -> Result<Lang, Error> {
    match Lang::try_new(text) {
        Some(lang) => Ok(lang),
        None => Err(or_memory(wrong_value(command_of(alloc, subcommand), usage, NO_LANG))),
    }
}

fn init_options<'a>(alloc: Global, found: &ArgMatches<'a>) -> Result<Asked<'a>, Error> {
    let manager = name_of(alloc, found, "manager", INIT, "office init")?;
    Ok(Asked::Init(Init {
        store: found.get_str("store").unwrap_or(""),
        start: Start::Opening(manager),
    }))
}

/// The languages of these codes.
fn langs_of(alloc: Global, codes: &[&str]) -> Result<Vec<Lang>, Error> {
    let mut langs = Vec::new(alloc);
    for code in codes {
        langs.push(lang_of(alloc, *code, EXPORT, "office export")?)?;
    }
    Ok(langs)
}

fn no_langs(alloc: Global) -> Error {
    or_memory(wrong_value(command_of(alloc, EXPORT), "office export", NO_LANGS))
}

/// The languages whose texts are put into files.
fn filed_langs(alloc: Global, found: &ArgMatches<'_>) -> Result<Langs, Error> {
    let codes = found.get_strs("lang").unwrap_or(&[]);
    match (found.get_flag("all"), codes.is_empty()) {
        (true, true) => Ok(Langs::All),
        (false, false) => Ok(Langs::Named(langs_of(alloc, codes)?)),
        _ => Err(no_langs(alloc)),
    }
}

/// What becomes of the texts of the languages that are wanted.
fn texts_of<'a>(alloc: Global, found: &ArgMatches<'a>) -> Result<Texts<'a>, Error> {
    match (
        found.get_str("into"),
        found.get_flag("all"),
        found.get_strs("lang"),
    ) {
        (Some(folder), ..) if !folder.is_empty() => {
            Ok(Texts::Filed(folder, filed_langs(alloc, found)?))
        }
        (None, false, Some([code])) => {
            Ok(Texts::Printed(lang_of(alloc, *code, EXPORT, "office export")?))
        }
        _ => Err(no_langs(alloc)),
    }
}

fn export_options<'a>(alloc: Global, found: &ArgMatches<'a>) -> Result<Asked<'a>, Error> {
    let texts = texts_of(alloc, found)?;
    let domain = name_of(alloc, found, "domain", EXPORT, "office export")?;
    Ok(Asked::Export(Export {
        store: found.get_str("store").unwrap_or(""),
        domain,
        texts,
    }))
}

/// The request's number that is written so.
fn number_of(alloc: Global, text: &str) -> Result<Uuid, Error> {
    match number_from(text) {
        Ok(number) => Ok(number),
        Err(_) => {
            Err(or_memory(wrong_value(command_of(alloc, RECORDS), "office records", NO_REQUEST)))
        }
    }
}

fn records_options<'a>(alloc: Global, found: &ArgMatches<'a>) -> Result<Asked<'a>, Error> {
    let after = match found.get_str("after") {
        Some(text) => Some(number_of(alloc, text)?),
        None => None,
    };
    Ok(Asked::Records(Records {
        store: found.get_str("store").unwrap_or(""),
        after,
    }))
}

fn start(is_demo: bool, manager: Name) -> Start {
    if is_demo {
        Start::Demo
    } else {
        Start::Opening(manager)
    }
}

/// What becomes of the lines behind a lost one, by whether the list is to stop there.
fn at_lost(stops: bool) -> AtLost {
    if stops { AtLost::End } else { AtLost::GoOn }
}

fn deliver_options<'a>(alloc: Global, found: &ArgMatches<'a>) -> Result<Asked<'a>, Error> {
    let manager = name_of(alloc, found, "manager", DELIVER, "office deliver")?;
    let domain = name_of(alloc, found, "domain", DELIVER, "office deliver")?;
    let export = match found.get_str("export") {
        Some(text) => Some(lang_of(alloc, text, DELIVER, "office deliver")?),
        None => None,
    };
    Ok(Asked::Deliver(Deliver {
        store: found.get_str("store"),
        start: start(found.get_flag("demo"), manager),
        domain,
        export,
        at_lost: at_lost(found.get_flag("stop-at-lost")),
    }))
}
