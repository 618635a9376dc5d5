//! Entries of a catalogue.

ghost use Rattle.std.specs.Prelude.{◌≡◌, None, IfOk};

use crate::duplicate::{Duplicate, both};
use crate::items::Items;
use crate::string::{Forms, PoString};
use crate::text::Text;
use std::alloc::AllocError;

/// What the msgctxt, the msgid and the msgid_plural were before, where the entry says so.
#[derive(Drop, PartialEq, Eq)]
pub struct Previous {
    pub ctx: Option<PoString>,
    pub id: Option<PoString>,
    pub plural: Option<PoString>,
}

/// One entry of a catalogue, as "The Format of PO Files" of the GNU gettext manual has it. The first four are its translator
/// comments, extracted comments, references and flags. A context that is absent and one that is empty are different.
#[derive(Drop)]
pub struct Entry {
    pub translator: Items<Text>,
    pub extracted: Items<Text>,
    pub references: Items<Text>,
    pub flags: Items<Text>,
    pub previous: Previous,
    pub ctx: Option<PoString>,
    pub id: PoString,
    pub plural: Option<PoString>,
    pub forms: Forms,
    pub obsolete: bool,
}

/// The strings of an entry's message lines.
#[derive(Drop)]
pub struct Strings {
    pub ctx: Option<PoString>,
    pub id: PoString,
    pub plural: Option<PoString>,
    pub forms: Forms,
}

impl Previous {
    /// No previous strings.
    pub fn none() -> Previous
        ensures { result ≡ record { ctx = None; id = None; plural = None } }
    {
        Previous {
            ctx: None,
            id: None,
            plural: None,
        }
    }
}

impl Duplicate for Previous {
    fn duplicate(&self) -> Result<Previous, AllocError> {
        let (ctx, (id, plural)) = both(
            self.ctx.duplicate(),
            both(self.id.duplicate(), self.plural.duplicate()),
        )?;
        Ok(Previous { ctx, id, plural })
    }
}

/// The comments and flags of an entry.
#[derive(Drop)]
struct Comments {
    translator: Items<Text>,
    extracted: Items<Text>,
    references: Items<Text>,
    flags: Items<Text>,
}

impl Entry {
    fn duplicate_comments(&self) -> Result<Comments, AllocError>
        ensures translator { IfOk result (λ copy. copy.translator ≡ self.now.translator) }
        ensures extracted { IfOk result (λ copy. copy.extracted ≡ self.now.extracted) }
        ensures references { IfOk result (λ copy. copy.references ≡ self.now.references) }
        ensures flags { IfOk result (λ copy. copy.flags ≡ self.now.flags) }
    {
        let ((translator, extracted), (references, flags)) = both(
            both(self.translator.duplicate(), self.extracted.duplicate()),
            both(self.references.duplicate(), self.flags.duplicate()),
        )?;
        Ok(Comments {
            translator,
            extracted,
            references,
            flags,
        })
    }

    fn duplicate_strings(&self) -> Result<Strings, AllocError>
        ensures ctx { IfOk result (λ copy. copy.ctx ≡ self.now.ctx) }
        ensures id { IfOk result (λ copy. copy.id ≡ self.now.id) }
        ensures plural { IfOk result (λ copy. copy.plural ≡ self.now.plural) }
        ensures forms { IfOk result (λ copy. copy.forms ≡ self.now.forms) }
    {
        let ((ctx, id), (plural, forms)) = both(
            both(self.ctx.duplicate(), self.id.duplicate()),
            both(self.plural.duplicate(), self.forms.duplicate()),
        )?;
        Ok(Strings {
            ctx,
            id,
            plural,
            forms,
        })
    }
}

impl Duplicate for Entry {
    fn duplicate(&self) -> Result<Entry, AllocError> {
        let (comments, (previous, strings)) = both(
            self.duplicate_comments(),
            both(self.previous.duplicate(), self.duplicate_strings()),
        )?;
        Ok(Entry {
            translator: comments.translator,
            extracted: comments.extracted,
            references: comments.references,
            flags: comments.flags,
            previous,
            ctx: strings.ctx,
            id: strings.id,
            plural: strings.plural,
            forms: strings.forms,
            obsolete: self.obsolete,
        })
    }
}
