//! What a row of the office in a file comes to.
use crate::desks::start;
use crate::stream_rows::command::domain_and_lang;
use crate::stream_rows::command_told::told;
use crate::stream_rows::deeds::Deed;
use crate::stream_rows::files::{in_file, written};
use crate::stream_rows::spoilt::spoilt;
use crate::stream_rows::stage::Stage;
use crate::stream_rows::streams::Streams;
use crate::stream_rows::words::{has, word_behind, words_and_text};
use std::alloc::Global;
use uuid::Uuid;

/// What a command came to, and the file afterwards.
#[derive(Drop)]
pub(crate) struct Outcome {
    pub(crate) told: String,
    pub(crate) file: Vec<u8>,
}

/// Makes an office in the file.
fn init(alloc: Global, file: &[u8], streams: &mut Streams<'_>, who: &str) -> Option<(u8, Vec<u8>)> {
    match start(who) {
        Some(start) => in_file(alloc, file, Deed::Make(&start), streams),
        None => None,
    }
}

/// Delivers lines to the office in the file, and then exports a language, if one is named; or exports one alone.
fn deliver_or_export(
    alloc: Global,
    file: &[u8],
    streams: &mut Streams<'_>,
    words: &str,
) -> Option<(u8, Vec<u8>)> {
    let (domain, lang) = domain_and_lang(word_behind(words, "export"))?;
    if has(words, "deliver") {
        in_file(alloc, file, Deed::Deliver(&domain, lang.as_ref()), streams)
    } else {
        in_file(alloc, file, Deed::Export(&domain, lang.as_ref()?), streams)
    }
}

/// Lists the records of the office in the file, or those behind that of a number.
fn list(
    alloc: Global,
    file: &[u8],
    streams: &mut Streams<'_>,
    number: Option<&str>,
) -> Option<(u8, Vec<u8>)> {
    let after = match number {
        Some(text) => Some(Uuid::try_parse(text).ok()?),
        None => None,
    };
    in_file(alloc, file, Deed::Records(&after), streams)
}

/// Runs the words' command on the file, or looks at a unit of it.
fn run(
    alloc: Global,
    file: &[u8],
    streams: &mut Streams<'_>,
    words: &str,
) -> Option<(u8, Vec<u8>)> {
    if let Some(place) = words.strip_prefix("unit ") {
        return in_file(alloc, file, Deed::Unit(place), streams);
    }
    if has(words, "records") {
        return list(alloc, file, streams, word_behind(words, "records"));
    }
    match word_behind(words, "init") {
        Some(who) => init(alloc, file, streams, who),
        None => deliver_or_export(alloc, file, streams, words),
    }
}

/// What the words' command comes to on the file, with these lines to read.
pub(crate) fn come(alloc: Global, file: &[u8], words: &str, lines: &[u8]) -> Option<Outcome> {
    let mut streams = Streams::new(alloc, words, lines, usize::MAX);
    let (status, file) = run(alloc, file, &mut streams, words)?;
    let told = told(alloc, status, &streams, false)?;
    Some(Outcome { told, file })
}

/// What the words' command comes to on the file of the rows above, which is then as the command left it.
fn come_to_stage(alloc: Global, stage: &mut Stage, words: &str, text: &str) -> Option<String> {
    let lines = stage.texts.bytes_of(text)?;
    let Outcome { told, file } = come(alloc, stage.file.as_slice(), words, lines.as_slice())?;
    stage.file = file;
    Some(told)
}

/// What comes of a copy of the file that statements spoil.
fn spoil(alloc: Global, stage: &Stage, statements: &str) -> Option<String> {
    let line = stage.texts.bytes_of("<hallo>")?;
    spoilt(alloc, stage.file.as_slice(), statements, line.as_slice())
}

/// What a row of the office in a file comes to.
pub(crate) fn file_told(alloc: Global, stage: &mut Stage, deed: &str) -> Option<String> {
    let (words, text) = words_and_text(deed);
    let text = text.unwrap_or("");
    match words {
        "new" => stage.file.clear(),
        "sql" => stage.file = written(alloc, stage.file.as_slice(), text)?,
        "spoil" => return spoil(alloc, stage, text),
        _ => return come_to_stage(alloc, stage, words, text),
    }
    Some(String::new(alloc))
}
