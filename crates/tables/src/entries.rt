//! The entries of a language's text.

ghost use Rattle.std.specs.Prelude.{◌≡◌, ◌++◌, IfOk, OnOk};
ghost use Rattle.office_specification.specs.ExportedEntries as spec;

use po_text::{Duplicate, Entry, Forms, Items, PoString, Previous, Text};
use std::alloc::{AllocError, Global};
use units::{Unit, UnitState};

/// The template's flags, with `fuzzy` first exactly where the stored state is needs editing.
fn flags_of(alloc: Global, unit: &Unit, flags: &[Text]) -> Result<Items<Text>, AllocError>
    ensures { IfOk result (λ all. all ≡ spec.flags_of unit.now flags.now) }
{
    let mut all = Vec::new(alloc);
    if unit.state == UnitState::NeedsEditing {
        all.push(Text::from_text(alloc, "fuzzy")?)?;
    }
    add_flags(&mut all, flags)?;
    Ok(Items::from_vec(all))
}

fn add_flags(all: &mut Vec<Text>, flags: &[Text]) -> Result<(), AllocError>
    ensures { OnOk result (all.new.items ≡ all.old.items ++ flags.now) }
{
    for flag in flags {
        all.push(flag.duplicate()?)?;
    }
    Ok(())
}

/// What a unit gives to its entry.
#[derive(Drop)]
struct OfUnit {
    translator: Items<Text>,
    flags: Items<Text>,
    previous: Previous,
    forms: Forms,
}

impl OfUnit {
    /// Copies, with the flags behind `fuzzy`.
    fn of(alloc: Global, unit: &Unit, flags: &[Text]) -> Result<OfUnit, AllocError>
        ensures translator { IfOk result (λ own. own.translator ≡ unit.now.comment) }
        ensures flags { IfOk result (λ own. own.flags ≡ spec.flags_of unit.now flags.now) }
        ensures previous { IfOk result (λ own. own.previous ≡ unit.now.previous) }
        ensures forms { IfOk result (λ own. own.forms ≡ unit.now.forms) }
    {
        Ok(OfUnit {
            translator: unit.comment.duplicate()?,
            flags: flags_of(alloc, unit, flags)?,
            previous: unit.previous.duplicate()?,
            forms: unit.forms.duplicate()?,
        })
    }
}

/// The strings that say which message an entry is.
#[derive(Drop)]
struct Message {
    ctx: Option<PoString>,
    id: PoString,
    plural: Option<PoString>,
}

impl Message {
    fn of(
        ctx: &Option<PoString>,
        id: &PoString,
        plural: &Option<PoString>,
    ) -> Result<Message, AllocError>
        ensures ctx { IfOk result (λ message. message.ctx ≡ ctx.now) }
        ensures id { IfOk result (λ message. message.id ≡ id.now) }
        ensures plural { IfOk result (λ message. message.plural ≡ plural.now) }
    {
        Ok(Message {
            ctx: ctx.duplicate()?,
            id: id.duplicate()?,
            plural: plural.duplicate()?,
        })
    }
}

/// What an entry has besides what its unit gives.
#[derive(Drop)]
struct OfSource {
    message: Message,
    extracted: Items<Text>,
    references: Items<Text>,
}

impl OfSource {
    /// Copies of what a template's entry has.
    fn of(entry: &Entry) -> Result<OfSource, AllocError>
        ensures ctx { IfOk result (λ source. source.message.ctx ≡ entry.now.ctx) }
        ensures id { IfOk result (λ source. source.message.id ≡ entry.now.id) }
        ensures plural { IfOk result (λ source. source.message.plural ≡ entry.now.plural) }
        ensures extracted { IfOk result (λ source. source.extracted ≡ entry.now.extracted) }
        ensures references { IfOk result (λ source. source.references ≡ entry.now.references) }
    {
        let extracted = entry.extracted.duplicate()?;
        let references = entry.references.duplicate()?;
        Ok(OfSource {
            message: Message::of(&entry.ctx, &entry.id, &entry.plural)?,
            extracted,
            references,
        })
    }

    /// The entry with what its unit gives. Nothing is copied.
    fn with(self, own: OfUnit, obsolete: bool) -> Entry
        ensures { result ≡ record {
          translator = own.translator;
          extracted = self.extracted;
          references = self.references;
          flags = own.flags;
          previous = own.previous;
          ctx = self.message.ctx;
          id = self.message.id;
          plural = self.message.plural;
          forms = own.forms;
          obsolete = obsolete;
        } }
    {
        Entry {
            translator: own.translator,
            extracted: self.extracted,
            references: self.references,
            flags: own.flags,
            previous: own.previous,
            ctx: self.message.ctx,
            id: self.message.id,
            plural: self.message.plural,
            forms: own.forms,
            obsolete,
        }
    }
}

/// A template's entry with its unit: the unit's forms, comment and previous strings, and the entry's flags, with `fuzzy` first exactly
/// where the unit's stored state is needs editing. (GNU gettext manual, "The Format of PO Files".)
///
/// `AllocError` where a growth was refused.
pub fn translated(alloc: Global, entry: &Entry, unit: &Unit) -> Result<Entry, AllocError>
    ensures { IfOk result (λ made. made ≡ spec.translated entry.now unit.now) }
{
    let source = OfSource::of(entry)?;
    match OfUnit::of(alloc, unit, entry.flags.as_slice()) {
        Ok(own) => Ok(source.with(own, entry.obsolete)),
        Err(refused) => {
            drop(source);
            Err(refused)
        }
    }
}

/// An obsolete unit's entry: its forms, comment and previous strings, and no flag but `fuzzy`, which is there exactly where its stored
/// state is needs editing. It has no extracted comments and no references.
///
/// `AllocError` where a growth was refused.
pub fn obsolete_entry(alloc: Global, unit: &Unit) -> Result<Entry, AllocError>
    ensures { IfOk result (λ made. made ≡ spec.obsolete_entry unit.now) }
{
    let message = Message::of(&unit.key.ctx, &unit.key.id, &unit.plural)?;
    match OfUnit::of(alloc, unit, &[]) {
        Ok(own) => Ok(OfSource {
            message,
            extracted: Items::new(alloc),
            references: Items::new(alloc),
        }
        .with(own, true)),
        Err(refused) => {
            drop(message);
            Err(refused)
        }
    }
}
