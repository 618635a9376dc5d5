//! The votes of a suggestion.
use crate::words::word;
use po_text::Duplicate;
use std::alloc::Global;
use units::{Name, VoteValue, Votes};

/// A vote, which has no value where it is taken back.
fn vote(word: &str) -> Option<Option<VoteValue>> {
    match word {
        "for" => Some(Some(VoteValue::For)),
        "against" => Some(Some(VoteValue::Against)),
        "none" => Some(None),
        _ => None,
    }
}

fn vote_word(vote: Option<VoteValue>) -> &'static str {
    match vote {
        Some(VoteValue::For) => "for",
        Some(VoteValue::Against) => "against",
        None => "none",
    }
}

/// Shows how many votes there are, their sum, and that of `bea`.
fn show(text: &mut String, votes: &Votes) -> Option<()> {
    let bea = vote_word(votes.get(&Name::try_new("bea")?));
    write!(
        text,
        "{} votes, sum {}, bea {bea}",
        votes.len(),
        votes.sum()
    )
    .ok()
}

fn show_copy(text: &mut String, votes: &Votes) -> Option<()> {
    match votes.duplicate() {
        Ok(copy) => show(text, &copy),
        Err(_) => None,
    }
}

/// Tells what the votes and their copy show.
pub(crate) fn tell_votes(alloc: Global, told: &mut String, votes: &Votes) -> Option<()> {
    let mut copied = String::new(alloc);
    show(told, votes)?;
    show_copy(&mut copied, votes)?;
    if told.as_str() == copied.as_str() {
        return Some(());
    }
    write!(told, ", as a copy {copied}").ok()
}

/// Tells the same with one more vote, or one that is taken back.
pub(crate) fn tell_vote(
    alloc: Global,
    told: &mut String,
    votes: &mut Votes,
    words: &str,
) -> Option<()> {
    let voter = Name::try_new(word(words, 1))?;
    match vote(word(words, 2))? {
        Some(value) => votes.insert(voter, value).ok()?,
        None => votes.remove(&voter),
    }
    tell_votes(alloc, told, votes)
}
