//! The command of a row.
use crate::desks::desk_opened;
use crate::places::Place;
use crate::stream_rows::streams::Streams;
use crate::stream_rows::words::{has, word_behind};
use commands::{AtLost, canon_text, deliver_lines, export_text, plural_lines};
use std::alloc::Global;
use units::{Lang, Name};

/// The exit status of the words' command over these streams. None where the words can't be read.
pub(crate) fn status(
    alloc: Global,
    streams: &mut Streams<'_>,
    words: &str,
    text: &[u8],
) -> Option<u8> {
    if let Some(office) = word_behind(words, "deliver") {
        deliver(alloc, streams, office, word_behind(words, "export"))
    } else if let Some(office) = word_behind(words, "export") {
        export(alloc, streams, office, text)
    } else if has(words, "plural") {
        plural(alloc, streams, words, text)
    } else if has(words, "canon") {
        Some(canon_text(
            alloc,
            &mut streams.source,
            &mut streams.output,
            &mut streams.faults,
        ))
    } else {
        None
    }
}

/// The domain and the language that a word names; the domain `main` where there is no word.
pub(crate) fn domain_and_lang(word: Option<&str>) -> Option<(Name, Option<Lang>)> {
    let Some(word) = word else {
        return Some((Name::main_domain(), None));
    };
    let (domain, lang) = Place::of(word).named()?;
    Some((domain, Some(lang)))
}

fn deliver(
    alloc: Global,
    streams: &mut Streams<'_>,
    office: &str,
    export: Option<&str>,
) -> Option<u8> {
    let (domain, lang) = domain_and_lang(export)?;
    let mut desk = desk_opened(alloc, office)?;
    let status = deliver_lines(
        alloc,
        &mut desk,
        &mut streams.source,
        &mut streams.output,
        &mut streams.faults,
        &domain,
        lang.as_ref(),
        AtLost::GoOn,
    );
    drop(desk);
    Some(status)
}

fn export(alloc: Global, streams: &mut Streams<'_>, office: &str, place: &[u8]) -> Option<u8> {
    let (domain, lang) = Place::of(str::from_utf8(place).ok()?).named()?;
    let mut desk = desk_opened(alloc, office)?;
    let status = export_text(
        &mut desk,
        &domain,
        &lang,
        &mut streams.output,
        &mut streams.faults,
    );
    drop(desk);
    Some(status)
}

fn put_numbers(numbers: &mut Vec<u32>, words: &str) -> Option<()> {
    for word in words.split(' ') {
        if !word.is_empty() {
            numbers.push(word.parse::<u32>().ok()?).ok()?;
        }
    }
    Some(())
}

/// The numbers behind `plural`.
fn numbers(alloc: Global, words: &str) -> Option<Vec<u32>> {
    let (_, behind) = words.split_once("plural")?;
    let mut numbers = Vec::new(alloc);
    put_numbers(&mut numbers, behind)?;
    Some(numbers)
}

fn plural(alloc: Global, streams: &mut Streams<'_>, words: &str, text: &[u8]) -> Option<u8> {
    let rule = str::from_utf8(text).ok()?;
    let numbers = numbers(alloc, words)?;
    Some(plural_lines(
        alloc,
        rule,
        numbers.as_slice(),
        &mut streams.output,
        &mut streams.faults,
    ))
}
