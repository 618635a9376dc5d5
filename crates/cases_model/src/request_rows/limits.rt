//! Names, languages, numbers, roles, comments and refusals.
use crate::words::{comment, word, yes_or_no};
use po_text::Duplicate;
use std::alloc::Global;
use std::fmt::Display;
use units::{AcceptAt, Refusal, Revision, Role};

const REFUSALS: [Refusal; 20] = [
    Refusal::NoLanguage,
    Refusal::NoUnit,
    Refusal::BelowRole,
    Refusal::IsReadOnly,
    Refusal::IsStale,
    Refusal::IsApproved,
    Refusal::PluralCount,
    Refusal::NoSuggestion,
    Refusal::VotingOff,
    Refusal::ReviewsOff,
    Refusal::IsFull,
    Refusal::IsSame,
    Refusal::IsUnfit,
    Refusal::LanguageExists,
    Refusal::PoText,
    Refusal::PluralFormsField,
    Refusal::PastLimit,
    Refusal::LastManager,
    Refusal::DomainExists,
    Refusal::NoDomain,
];

/// Tells the copy of what a text made, or that it was refused.
pub(crate) fn tell_made<T: Duplicate + PartialEq + Display>(
    told: &mut String,
    made: Option<T>,
) -> Option<()> {
    let Some(value) = made else {
        return told.push_str("refused").ok();
    };
    let copy = value.duplicate().ok()?;
    let how = if copy == value { "taken" } else { "changed" };
    write!(told, "{how} {copy}").ok()
}

fn tell_next(told: &mut String, revision: Revision) -> Option<()> {
    let number = revision.number();
    match revision.next() {
        Some(next) => write!(told, "{number}, then {}", next.number()).ok(),
        None => write!(told, "{number}, the last").ok(),
    }
}

pub(crate) fn tell_revision(told: &mut String, words: &str) -> Option<()> {
    match Revision::try_new(word(words, 1).parse::<u64>().ok()?) {
        Some(revision) => tell_next(told, revision),
        None => told.push_str("none").ok(),
    }
}

pub(crate) fn tell_accept_at(told: &mut String, words: &str) -> Option<()> {
    match AcceptAt::try_new(word(words, 1).parse::<u8>().ok()?) {
        Some(sum) => write!(told, "{}", sum.number()).ok(),
        None => told.push_str("none").ok(),
    }
}

pub(crate) fn tell_below(told: &mut String, words: &str) -> Option<()> {
    let is_below = Role::from_word(word(words, 1))?.is_below(Role::from_word(word(words, 2))?);
    told.push_str(yes_or_no(is_below)).ok()
}

pub(crate) fn tell_comment(alloc: Global, told: &mut String, texts: Option<&str>) -> Option<()> {
    match comment(alloc, texts)? {
        Some(lines) => write!(told, "{} lines", lines.as_items().as_slice().len()).ok(),
        None => told.push_str("refused").ok(),
    }
}

fn is_named(alloc: Global, refusal: Refusal, name: &str) -> Option<bool> {
    let told = format!(in alloc; "{refusal:?}").ok()?;
    Some(told.as_str() == name)
}

pub(crate) fn tell_refusal(alloc: Global, told: &mut String, name: &str) -> Option<()> {
    for refusal in REFUSALS {
        if is_named(alloc, refusal, name)? {
            return write!(told, "{}", refusal.number()).ok();
        }
    }
    None
}
