//! The words of a row.

/// A deed's words, and the text behind them, if there is one.
pub(crate) fn words_and_text(deed: &str) -> (&str, Option<&str>) {
    match deed.split_once("; ") {
        Some((words, text)) => (words, Some(text)),
        None => (deed, None),
    }
}

pub(crate) fn has(words: &str, wanted: &str) -> bool {
    for word in words.split(' ') {
        if word == wanted {
            return true;
        }
    }
    false
}

/// The word behind this one, if it is there.
pub(crate) fn word_behind<'a>(words: &'a str, wanted: &str) -> Option<&'a str> {
    let mut is_next = false;
    for word in words.split(' ') {
        if is_next {
            return Some(word);
        }
        is_next = word == wanted;
    }
    None
}

/// The number behind a word; as many as there may be where the word isn't there.
pub(crate) fn most(words: &str, wanted: &str) -> usize {
    match word_behind(words, wanted) {
        Some(word) => word.parse::<usize>().unwrap_or(0),
        None => usize::MAX,
    }
}
