//! What a row comes to.
use crate::request_rows::book::{keep, tell_class, tell_fault};
use crate::request_rows::escapes::put_text;
use crate::request_rows::limits::{
    tell_accept_at, tell_below, tell_comment, tell_made, tell_refusal, tell_revision,
};
use crate::request_rows::requests::{tell_act, tell_but, tell_copy, tell_cut, tell_read};
use crate::request_rows::stage::Stage;
use crate::request_rows::streams::{tell_sink, tell_source};
use crate::request_rows::voting::{tell_vote, tell_votes};
use crate::words::{word, words_and_texts};
use std::alloc::Global;
use units::{Lang, Name};

/// Tells what a deed comes to. None where it can't be read.
pub(crate) fn tell(alloc: Global, told: &mut String, stage: &mut Stage, deed: &str) -> Option<()> {
    let mut text = String::new(alloc);
    put_text(&mut text, deed)?;
    let (words, texts) = words_and_texts(text.as_str());
    match texts {
        Some(texts) => tell_of_texts(alloc, told, stage, words, texts),
        None => tell_of_words(alloc, told, stage, words),
    }
}

fn tell_of_words(alloc: Global, told: &mut String, stage: &mut Stage, words: &str) -> Option<()> {
    match word(words, 0) {
        "revision" => tell_revision(told, words),
        "accept-at" => tell_accept_at(told, words),
        "below" => tell_below(told, words),
        "comment" => tell_comment(alloc, told, None),
        "votes" => tell_votes(alloc, told, &stage.votes),
        "vote" => tell_vote(alloc, told, &mut stage.votes, words),
        "refusal" => tell_refusal(alloc, told, word(words, 1)),
        "fault" => tell_fault(told, word(words, 1)),
        "cut" => tell_cut(alloc, told, stage.request.as_str(), words),
        _ => None,
    }
}

fn tell_of_texts(
    alloc: Global,
    told: &mut String,
    stage: &mut Stage,
    words: &str,
    texts: &str,
) -> Option<()> {
    match word(words, 0) {
        "name" => tell_made(told, Name::try_new(texts)),
        "lang" => tell_made(told, Lang::try_new(texts)),
        "comment" => tell_comment(alloc, told, Some(texts)),
        "sink" => tell_sink(alloc, told, words, texts),
        "source" => tell_source(told, words, texts),
        "but" => tell_but(alloc, told, stage.request.as_str(), texts),
        "copy" => tell_copy(alloc, told, texts),
        "act" => tell_act(alloc, told, texts),
        "class" => tell_class(told, stage.records.last(), texts),
        "keep" => keep(alloc, told, stage, words, texts),
        "read" => {
            stage.request = String::from_str(alloc, texts).ok()?;
            tell_read(alloc, told, texts)
        }
        _ => None,
    }
}
