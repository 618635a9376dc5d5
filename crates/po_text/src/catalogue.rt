//! Catalogues, which are valid.

ghost use Rattle.std.specs.Prelude.{◌≡◌, List, [], IfOk, MatchOption};
ghost use Rattle.po_text.specs.declared.entry.Entry.{Entry};
ghost use Rattle.po_text.specs.Valid.{IsValid};

use crate::duplicate::Duplicate;
use crate::entry::Entry;
use crate::items::Items;
use crate::valid::is_valid;
use std::alloc::{AllocError, Global};
use std::marker::Model;

/// A valid catalogue: no key twice, only the first entry may have an empty msgid and no context and is then a header, and each
/// entry has 1 to 8 forms, one without a msgid_plural.
#[derive(Drop)]
pub struct Catalogue {
    entries: Items<Entry>,
}

impl Model for Catalogue {
    ghost Value = { List Entry };

    ghost view = { λ c. c.entries };

    ghost invariant = { λ c. IsValid c.entries };
}

impl Duplicate for Catalogue {
    fn duplicate(&self) -> Result<Catalogue, AllocError> {
        Ok(Catalogue {
            entries: self.entries.duplicate()?,
        })
    }
}

impl Catalogue {
    /// The catalogue without entries.
    pub fn empty(alloc: Global) -> Catalogue
        ensures { result ≡ [] }
    {
        Catalogue::new(Vec::new(alloc))
    }

    /// These entries as a catalogue, where they are a valid one.
    pub fn try_new(alloc: Global, entries: Vec<Entry>) -> Result<Option<Catalogue>, AllocError>
        // The catalogue of these entries, where they are valid; nothing only where they aren't.
        ensures { IfOk result (λ made. MatchOption made (IsValid entries.items → ⊥) (λ catalogue. (catalogue ≡ entries.items) × IsValid entries.items)) }
    {
        if is_valid(alloc, entries.as_slice())? {
            Ok(Some(Catalogue::new(entries)))
        } else {
            Ok(None)
        }
    }

    /// These entries as a catalogue.
    pub fn new(entries: Vec<Entry>) -> Catalogue
        requires { IsValid entries.items }
        ensures { result ≡ entries.items }
    {
        Catalogue {
            entries: Items::from_vec(entries),
        }
    }

    /// The entries in order.
    pub fn entries(&self) -> &[Entry]
        ensures value { result.now ≡ self.now }
        ensures valid { IsValid self.now }
    {
        self.entries.as_slice()
    }
}
