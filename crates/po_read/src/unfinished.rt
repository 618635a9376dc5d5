//! The entry that may go on.

ghost use Rattle.std.specs.Prelude.{◌≡◌, ◌≤◌, ◌+◌, [], not, true, None, nat_lt, IfOk, OnOk, length};
ghost use Rattle.std.specs.List.{list_all};
ghost use Rattle.po_lex.specs.Lines.{is_form, items_of, translator, extracted, reference, flags, previous, message};
ghost use Rattle.po_lex.specs.Escapes.{unescaped};
ghost use Rattle.po_lex.specs.PlainTokens.{plain_line, plain_part};
ghost use Rattle.po_lex.specs.declared.fault.FaultKind.TheVariants as kinds;
ghost use Rattle.po_text.specs.Strings.{string_limit, is_string_byte};
ghost use Rattle.po_read.specs.Faults.{when, part_fault};
ghost use Rattle.po_read.specs.Drafts.{draft_of, draft_last, draft_header, draft_end, nothing, previous_end, part_text, part_more, IsDigitPart, IsSoundLine};
ghost use Rattle.po_read.specs.ReaderAnswers.{told};

use crate::message::{Message, in_order};
use crate::previous::{add_previous, has_no_previous, previous_len, test_previous};
use po_lex::{FaultKind, Line, Part};
use po_text::{
    Entry, Flags, Items, Previous, STRING_LIMIT, Strings, Text, add_text, both, unescaped_len,
};
use std::alloc::{AllocError, Global};
use std::mem::replace;

/// What the lines of an entry so far say.
#[derive(Drop)]
pub(crate) struct Unfinished<'a> {
    translator: Items<Text>,
    extracted: Items<Text>,
    references: Items<Text>,
    flags: Flags<'a>,
    previous: Previous,
    pub(crate) message: Message,
    /// There is a line.
    begun: bool,
    /// There is a message line or a previous string without the mark of an obsolete entry.
    unmarked: bool,
    /// There is one with it.
    pub(crate) obsolete: bool,
}

impl<'a> Unfinished<'a> {
    ghost use Rattle.po_read.specs.SoFar.{so_far, marked, goes_on_here, length_fault, order_fault_here, end_fault, with_line, with_mark, IsSoFar, IsEntry};

    /// No lines yet.
    pub(crate) fn new(alloc: Global) -> Unfinished<'a>
        ensures { IsSoFar (so_far result) [] }
    {
        Unfinished {
            translator: Items::new(alloc),
            extracted: Items::new(alloc),
            references: Items::new(alloc),
            flags: Flags::new(alloc),
            previous: Previous::none(),
            message: Message::Nothing,
            begun: false,
            unmarked: false,
            obsolete: false,
        }
    }

    /// Whether some line has this mark.
    fn has_mark(&self, obsolete: bool) -> bool
        ensures { result ≡ marked (so_far self.now) obsolete }
    {
        if obsolete {
            self.obsolete
        } else {
            self.unmarked
        }
    }

    /// Whether the line goes on with the last string.
    pub(crate) fn goes_on(&self, line: &Line<'a>) -> bool
        ensures { result ≡ goes_on_here (so_far self.now) (plain_line line.now) }
    {
        match line {
            Line::Message {
                obsolete,
                part: Part::Continues(_),
            } => !self.has_mark(!*obsolete) && !self.message.is_nothing(),
            Line::Previous {
                obsolete,
                part: Part::Continues(_),
            } => {
                !self.has_mark(!*obsolete)
                    && self.message.is_nothing()
                    && !has_no_previous(&self.previous)
            }
            _ => false,
        }
    }

    /// `Limit` if the string that the line begins or goes on with is too long.
    pub(crate) fn test_length(&self, line: &Line<'a>) -> Result<(), FaultKind>
        ensures { told result ≡ length_fault (so_far self.now) (plain_line line.now) }
    {
        match line {
            Line::Message {
                part: Part::Begins(_, raw),
                ..
            }
            | Line::Previous {
                part: Part::Begins(_, raw),
                ..
            } => fits(0, raw),
            Line::Message {
                part: Part::Continues(raw),
                ..
            } if self.goes_on(line) => fits(self.message.last_len(), raw),
            Line::Previous {
                part: Part::Continues(raw),
                ..
            } if self.goes_on(line) => fits(previous_len(&self.previous), raw),
            _ => Ok(()),
        }
    }

    /// `Order` or `Forms` if the line can't follow here.
    pub(crate) fn test_order(&self, line: &Line<'a>) -> Result<(), FaultKind>
        ensures { told result ≡ order_fault_here (so_far self.now) (plain_line line.now) }
    {
        match line {
            Line::Message { obsolete, part } => {
                in_order(!self.has_mark(!*obsolete))?;
                self.message.test(part)
            }
            Line::Previous { obsolete, part } => {
                in_order(!self.has_mark(!*obsolete) && self.message.is_nothing())?;
                test_previous(&self.previous, part)
            }
            _ => in_order(self.message.is_nothing()),
        }
    }

    /// Adds one more line, which can follow.
    pub(crate) fn add(&mut self, alloc: Global, line: Line<'a>) -> Result<(), AllocError>
        requires sound { IsSoundLine (plain_line line) }
        requires short { length_fault (so_far self.old) (plain_line line) ≡ None }
        requires follows { order_fault_here (so_far self.old) (plain_line line) ≡ None }
        ensures { OnOk result (so_far self.new ≡ with_line (so_far self.old) (plain_line line.entry)) }
    {
        match line {
            Line::Blank => Ok(()),
            Line::Translator(text) => self.add_translator(alloc, text),
            Line::Extracted(text) => self.add_extracted(alloc, text),
            Line::Reference(text) => self.add_reference(alloc, text),
            Line::Flags(items) => self.add_flags(alloc, items),
            Line::Previous { obsolete, part } => self.add_previous(alloc, obsolete, part),
            Line::Message { obsolete, part } => self.add_message(alloc, obsolete, part),
        }
    }

    fn add_translator(&mut self, alloc: Global, text: &str) -> Result<(), AllocError>
        ensures { OnOk result (so_far self.new ≡ with_line (so_far self.old) (translator text.now)) }
    {
        self.begun = true;
        add_text(alloc, &mut self.translator, text)
    }

    fn add_extracted(&mut self, alloc: Global, text: &str) -> Result<(), AllocError>
        ensures { OnOk result (so_far self.new ≡ with_line (so_far self.old) (extracted text.now)) }
    {
        self.begun = true;
        add_text(alloc, &mut self.extracted, text)
    }

    fn add_reference(&mut self, alloc: Global, text: &str) -> Result<(), AllocError>
        ensures { OnOk result (so_far self.new ≡ with_line (so_far self.old) (reference text.now)) }
    {
        self.begun = true;
        add_text(alloc, &mut self.references, text)
    }

    fn add_flags(&mut self, alloc: Global, items: &'a str) -> Result<(), AllocError>
        ensures { OnOk result (so_far self.new ≡ with_line (so_far self.old) (flags (items_of items.now))) }
    {
        self.begun = true;
        let flags = replace(&mut self.flags, Flags::new(alloc)).with_all(items)?;
        replace(&mut self.flags, flags);
        Ok(())
    }

    fn add_previous(
        &mut self,
        alloc: Global,
        obsolete: bool,
        part: Part<'a>,
    ) -> Result<(), AllocError>
        requires short { length (part_text (previous_end self.old.previous) (plain_part part)) ≤ string_limit }
        requires bytes { list_all is_string_byte (part_more (plain_part part)) ≡ true }
        ensures { OnOk result (so_far self.new ≡ with_line (so_far self.old) (previous obsolete (plain_part part.entry))) }
    {
        self.mark(obsolete);
        add_previous(alloc, &mut self.previous, part)
    }

    fn add_message(
        &mut self,
        alloc: Global,
        obsolete: bool,
        part: Part<'a>,
    ) -> Result<(), AllocError>
        requires short { length (part_text (draft_end (draft_of self.old.message)) (plain_part part)) ≤ string_limit }
        requires bytes { list_all is_string_byte (part_more (plain_part part)) ≡ true }
        requires follows { part_fault (draft_last (draft_of self.old.message)) (draft_header (draft_of self.old.message)) (plain_part part) ≡ None }
        requires digit { IsDigitPart (plain_part part) }
        ensures { OnOk result (so_far self.new ≡ with_line (so_far self.old) (message obsolete (plain_part part.entry))) }
    {
        self.mark(obsolete);
        self.message.add(alloc, part)
    }

    /// Notes one more mark.
    fn mark(&mut self, obsolete: bool)
        ensures value { so_far self.new ≡ with_mark (so_far self.old) obsolete }
        ensures message { self.new.message ≡ self.old.message }
        ensures previous { self.new.previous ≡ self.old.previous }
    {
        self.begun = true;
        if obsolete {
            self.obsolete = true;
        } else {
            self.unmarked = true;
        }
    }

    /// `Order` if an entry was begun and has no form yet.
    pub(crate) fn test_end(&self) -> Result<(), FaultKind>
        ensures { told result ≡ end_fault (so_far self.now) }
    {
        if self.begun {
            in_order(self.message.has_form())
        } else {
            Ok(())
        }
    }

    /// Takes out the entry, which has a form: then there are no lines.
    pub(crate) fn take(&mut self, alloc: Global) -> Result<Entry, AllocError>
        requires { is_form (draft_last (draft_of self.old.message)) ≡ true }
        ensures was { IfOk result (λ entry. IsEntry (so_far self.old) entry) }
        ensures rest { OnOk result (IsSoFar (so_far self.new) []) }
    {
        let message = replace(&mut self.message, Message::Nothing);
        let (flags, strings) = both(self.flags.to_items(alloc), message.into_strings(alloc))?;
        Ok(self.take_rest(alloc, flags, strings))
    }

    /// Takes the entry out, with these flags and strings, where its own strings were taken.
    fn take_rest(&mut self, alloc: Global, flags: Items<Text>, strings: Strings) -> Entry
        requires { draft_of self.old.message ≡ nothing }
        ensures comments { (result.translator ≡ self.old.translator) × (result.extracted ≡ self.old.extracted) × (result.references ≡ self.old.references) }
        ensures previous { result.previous ≡ self.old.previous }
        ensures obsolete { result.obsolete ≡ self.old.obsolete }
        ensures flags { result.flags ≡ flags }
        ensures strings { (result.ctx ≡ strings.ctx) × (result.id ≡ strings.id) × (result.plural ≡ strings.plural) × (result.forms ≡ strings.forms) }
        ensures rest { IsSoFar (so_far self.new) [] }
    {
        self.begun = false;
        self.unmarked = false;
        drop(replace(&mut self.flags, Flags::new(alloc)));
        Entry {
            translator: replace(&mut self.translator, Items::new(alloc)),
            extracted: replace(&mut self.extracted, Items::new(alloc)),
            references: replace(&mut self.references, Items::new(alloc)),
            flags,
            previous: replace(&mut self.previous, Previous::none()),
            ctx: strings.ctx,
            id: strings.id,
            plural: strings.plural,
            forms: strings.forms,
            obsolete: replace(&mut self.obsolete, false),
        }
    }
}

/// The fault `Limit`, unless a string of this length with that of a piece behind it is within the limit.
#[tactic(auto, using(crate::proofs::PieceLengths::unescaped_shorter))]
fn fits(len: usize, raw: &str) -> Result<(), FaultKind>
    requires { len ≤ string_limit }
    ensures { told result ≡ when (nat_lt string_limit (len + length (unescaped raw.now))) kinds.Limit }
{
    // A piece is no shorter than its string.
    if len + raw.len() <= STRING_LIMIT || len + unescaped_len(raw) <= STRING_LIMIT {
        Ok(())
    } else {
        Err(FaultKind::Limit)
    }
}
