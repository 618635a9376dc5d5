//! The message lines of an entry that may go on.

ghost use Rattle.std.specs.Prelude.{◌≡◌, ◌+◌, ◌≤◌, ◌==◌, ◌||◌, [], not, true, Option, None, length, is_some, IfOk, OnOk};
ghost use Rattle.std.specs.List.{list_all};
ghost use Rattle.po_lex.specs.Lines.{is_form, begins};
ghost use Rattle.po_lex.specs.Escapes.{unescaped};
ghost use Rattle.po_lex.specs.PlainTokens.{plain_part};
ghost use Rattle.po_text.specs.Strings.{string_limit, is_string_byte};
ghost use Rattle.po_text.specs.Entries.{is_header_key};
ghost use Rattle.po_read.specs.Faults.{part_fault, form_fault, numbered_fault, when, is_id};
ghost use Rattle.po_read.specs.Drafts.{draft_of, draft_last, draft_header, draft_end, draft_with, counted, with_keyword, with_more, whole_of, part_text, part_more, IsDigitKey, IsDigitPart};
ghost use Rattle.po_read.specs.ReaderAnswers.{told};
ghost use Rattle.po_lex.specs.declared.fault.FaultKind.TheVariants as kinds;
ghost use Rattle.po_lex.specs.declared.line.Keyword.TheVariants.{Msgid, MsgidPlural, Msgstr, MsgstrAt};
ghost use Rattle.po_text.specs.Texts.{Text};

use po_lex::{FaultKind, Keyword, Part};
use po_text::{Forms, PoString, Strings, is_header_key};
use std::alloc::{AllocError, Global};
use std::mem::replace;

/// What the message lines so far say.
#[derive(Drop)]
pub(crate) enum Message {
    Nothing,
    Context(PoString),
    Named {
        ctx: Option<PoString>,
        id: PoString,
    },
    /// With a msgid_plural, and no form yet.
    Plural {
        ctx: Option<PoString>,
        id: PoString,
        plural: PoString,
    },
    /// With a msgid_plural and forms.
    Counted {
        ctx: Option<PoString>,
        id: PoString,
        plural: PoString,
        forms: Forms,
    },
    /// With one form, and no msgid_plural.
    Single {
        ctx: Option<PoString>,
        id: PoString,
        form: PoString,
    },
}

impl Message {
    pub(crate) fn is_nothing(&self) -> bool
        ensures { result ≡ not (is_some (draft_last (draft_of self.now))) }
    {
        matches!(self, Message::Nothing)
    }

    pub(crate) fn has_form(&self) -> bool
        ensures { result ≡ is_form (draft_last (draft_of self.now)) }
    {
        match self {
            Message::Counted { forms, .. } => !forms.as_slice().is_empty(),
            Message::Single { .. } => true,
            _ => false,
        }
    }

    /// How many bytes the last string has.
    pub(crate) fn last_len(&self) -> usize
        ensures value { result ≡ length (draft_end (draft_of self.now)) }
        ensures fits { result ≤ string_limit }
    {
        match self {
            Message::Nothing => 0,
            Message::Context(ctx) => ctx.as_str().len(),
            Message::Named { id, .. } => id.as_str().len(),
            Message::Plural { plural, .. } => plural.as_str().len(),
            Message::Counted { forms, .. } => forms.last().as_str().len(),
            Message::Single { form, .. } => form.as_str().len(),
        }
    }

    /// `Order` or `Forms` if this part can't follow.
    pub(crate) fn test(&self, part: &Part<'_>) -> Result<(), FaultKind>
        ensures { told result ≡ part_fault (draft_last (draft_of self.now)) (draft_header (draft_of self.now)) (plain_part part.now) }
    {
        match part {
            Part::Begins(keyword, _) => match keyword {
                Keyword::Msgctxt => in_order(self.is_nothing()),
                Keyword::Msgid => in_order(matches!(self, Message::Nothing | Message::Context(_))),
                Keyword::MsgidPlural => self.test_plural(),
                Keyword::Msgstr => self.test_form(),
                Keyword::MsgstrAt(digit) => self.test_numbered(*digit),
            },
            Part::Continues(_) => in_order(!self.is_nothing()),
        }
    }

    /// `Order` if a `msgid_plural` can't follow: only behind a msgid that isn't the header's.
    fn test_plural(&self) -> Result<(), FaultKind>
        ensures { told result ≡ when (not (is_id (draft_last (draft_of self.now))) || draft_header (draft_of self.now)) kinds.Order }
    {
        match self {
            Message::Named { ctx, id } => {
                if is_header_key(ctx, id) {
                    Err(FaultKind::Order)
                } else {
                    Ok(())
                }
            }
            _ => Err(FaultKind::Order),
        }
    }

    /// `Order` or `Forms` if a `msgstr` can't follow.
    fn test_form(&self) -> Result<(), FaultKind>
        ensures { told result ≡ form_fault (draft_last (draft_of self.now)) }
    {
        match self {
            Message::Named { .. } => Ok(()),
            Message::Plural { .. } | Message::Counted { .. } => Err(FaultKind::Forms),
            _ => Err(FaultKind::Order),
        }
    }

    /// `Order` or `Forms` if a `msgstr[D]` with this digit can't follow.
    fn test_numbered(&self, digit: u8) -> Result<(), FaultKind>
        ensures { told result ≡ numbered_fault (draft_last (draft_of self.now)) digit }
    {
        match self {
            Message::Nothing | Message::Context(_) => Err(FaultKind::Order),
            Message::Named { .. } | Message::Single { .. } => Err(FaultKind::Forms),
            Message::Plural { .. } => due(0, digit),
            Message::Counted { forms, .. } => due(forms.as_slice().len(), digit),
        }
    }

    /// Adds one more part, which can follow.
    pub(crate) fn add(&mut self, alloc: Global, part: Part<'_>) -> Result<(), AllocError>
        requires short { length (part_text (draft_end (draft_of self.old)) (plain_part part)) ≤ string_limit }
        requires bytes { list_all is_string_byte (part_more (plain_part part)) ≡ true }
        requires follows { part_fault (draft_last (draft_of self.old)) (draft_header (draft_of self.old)) (plain_part part) ≡ None }
        requires digit { IsDigitPart (plain_part part) }
        ensures { OnOk result (draft_of self.new ≡ draft_with (draft_of self.old) (plain_part part.entry)) }
    {
        match part {
            Part::Begins(keyword, raw) => {
                let text = PoString::from_piece(alloc, raw)?;
                self.add_keyword(alloc, keyword, text)
            }
            Part::Continues(raw) => self.add_more(alloc, raw),
        }
    }

    /// Adds one more string, which can follow.
    fn add_keyword(
        &mut self,
        alloc: Global,
        keyword: Keyword,
        text: PoString,
    ) -> Result<(), AllocError>
        requires follows { part_fault (draft_last (draft_of self.old)) (draft_header (draft_of self.old)) (begins keyword text) ≡ None }
        requires digit { IsDigitKey keyword }
        ensures { OnOk result (draft_of self.new ≡ with_keyword (draft_of self.old) keyword text) }
    {
        match keyword {
            Keyword::Msgctxt => {
                self.set(Message::Context(text));
                Ok(())
            }
            Keyword::Msgid => {
                self.add_id(text);
                Ok(())
            }
            Keyword::MsgidPlural => {
                self.add_plural(text);
                Ok(())
            }
            Keyword::Msgstr => {
                self.add_form(text);
                Ok(())
            }
            Keyword::MsgstrAt(digit) => self.add_numbered(alloc, digit, text),
        }
    }

    fn set(&mut self, message: Message)
        ensures { self.new ≡ message }
    {
        drop(replace(self, message));
    }

    fn add_id(&mut self, text: PoString)
        requires { part_fault (draft_last (draft_of self.old)) (draft_header (draft_of self.old)) (begins Msgid text) ≡ None }
        ensures { draft_of self.new ≡ with_keyword (draft_of self.old) Msgid text }
    {
        let new = match replace(self, Message::Nothing) {
            Message::Nothing => Message::Named {
                ctx: None,
                id: text,
            },
            Message::Context(ctx) => Message::Named {
                ctx: Some(ctx),
                id: text,
            },
            _ => unreachable!(),
        };
        self.set(new);
    }

    fn add_plural(&mut self, text: PoString)
        requires { part_fault (draft_last (draft_of self.old)) (draft_header (draft_of self.old)) (begins MsgidPlural text) ≡ None }
        ensures { draft_of self.new ≡ with_keyword (draft_of self.old) MsgidPlural text }
    {
        let new = match replace(self, Message::Nothing) {
            Message::Named { ctx, id } => Message::Plural {
                ctx,
                id,
                plural: text,
            },
            _ => unreachable!(),
        };
        self.set(new);
    }

    fn add_form(&mut self, text: PoString)
        requires { form_fault (draft_last (draft_of self.old)) ≡ None }
        ensures { draft_of self.new ≡ with_keyword (draft_of self.old) Msgstr text }
    {
        let new = match replace(self, Message::Nothing) {
            Message::Named { ctx, id } => Message::Single {
                ctx,
                id,
                form: text,
            },
            _ => unreachable!(),
        };
        self.set(new);
    }

    fn add_numbered(&mut self, alloc: Global, digit: u8, text: PoString) -> Result<(), AllocError>
        requires follows { numbered_fault (draft_last (draft_of self.old)) digit ≡ None }
        requires digit { digit ≤ 7 }
        ensures { OnOk result (draft_of self.new ≡ with_keyword (draft_of self.old) (MsgstrAt digit) text) }
    {
        match self {
            Message::Counted { forms, .. } => forms.add(text),
            Message::Plural { .. } => {
                let forms = Forms::one(alloc, text)?;
                self.add_forms(forms);
                Ok(())
            }
            _ => unreachable!(),
        }
    }

    /// Adds the first forms.
    fn add_forms(&mut self, forms: Forms)
        ensures { (ctx : Option Text) (id plural : Text) → draft_of self.old ≡ counted ctx id plural [] → draft_of self.new ≡ counted ctx id plural forms }
    {
        let new = match replace(self, Message::Nothing) {
            Message::Plural { ctx, id, plural } => Message::Counted {
                ctx,
                id,
                plural,
                forms,
            },
            other => other,
        };
        self.set(new);
    }

    /// Adds the string of this piece at the last one's end.
    fn add_more(&mut self, alloc: Global, raw: &str) -> Result<(), AllocError>
        requires short { length (draft_end (draft_of self.old)) + length (unescaped raw.now) ≤ string_limit }
        requires bytes { list_all is_string_byte (unescaped raw.now) ≡ true }
        ensures { OnOk result (draft_of self.new ≡ with_more (draft_of self.old) (unescaped raw.now)) }
    {
        match self {
            Message::Nothing => Ok(()),
            Message::Context(ctx) => ctx.add_piece(alloc, raw),
            Message::Named { id, .. } => id.add_piece(alloc, raw),
            Message::Plural { plural, .. } => plural.add_piece(alloc, raw),
            Message::Counted { forms, .. } => forms.add_piece(alloc, raw),
            Message::Single { form, .. } => form.add_piece(alloc, raw),
        }
    }
}

/// The fault `Order`, unless this holds.
pub(crate) fn in_order(holds: bool) -> Result<(), FaultKind>
    ensures { told result ≡ when (not holds) kinds.Order }
{
    if holds { Ok(()) } else { Err(FaultKind::Order) }
}

/// The fault `Forms`, unless this digit is the number of forms so far.
fn due(count: usize, digit: u8) -> Result<(), FaultKind>
    ensures { told result ≡ when (not (digit == count)) kinds.Forms }
{
    if count == digit as usize {
        Ok(())
    } else {
        Err(FaultKind::Forms)
    }
}

impl Message {
    /// The strings, where there is a form.
    pub(crate) fn into_strings(self, alloc: Global) -> Result<Strings, AllocError>
        requires { is_form (draft_last (draft_of self)) ≡ true }
        ensures { IfOk result (λ strings. draft_of self ≡ whole_of strings.ctx strings.id strings.plural strings.forms) }
    {
        match self {
            Message::Counted {
                ctx,
                id,
                plural,
                forms,
            } => Ok(Strings {
                ctx,
                id,
                plural: Some(plural),
                forms,
            }),
            Message::Single { ctx, id, form } => Ok(Strings {
                ctx,
                id,
                plural: None,
                forms: Forms::one(alloc, form)?,
            }),
            _ => unreachable!(),
        }
    }
}
