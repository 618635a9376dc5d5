//! Languages of domains, by their names.
use units::{Lang, Name};

/// The names of a language and of its domain.
#[derive(Clone, Copy)]
pub(crate) struct Place<'a> {
    pub(crate) domain: &'a str,
    pub(crate) code: &'a str,
}

impl<'a> Place<'a> {
    /// What a word stands for: `DOMAIN/LANG`, or `LANG` for a language of `main`.
    pub(crate) fn of(word: &'a str) -> Place<'a> {
        let (domain, code) = word.split_once('/').unwrap_or(("main", word));
        Place { domain, code }
    }

    /// The domain and the language. None where a name isn't of its form.
    pub(crate) fn named(self) -> Option<(Name, Lang)> {
        let domain = Name::try_new(self.domain)?;
        let lang = Lang::try_new(self.code)?;
        Some((domain, lang))
    }

    /// Whether this place is among these.
    pub(crate) fn is_among(self, places: &[Place<'_>]) -> bool {
        for place in places {
            if place.domain == self.domain && place.code == self.code {
                return true;
            }
        }
        false
    }
}
