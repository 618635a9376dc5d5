//! The previous strings of an entry that may go on.

ghost use Rattle.std.specs.Prelude.{◌≡◌, ◌≤◌, ◌+◌, not, true, length, is_some, OnOk};
ghost use Rattle.std.specs.List.{list_all};
ghost use Rattle.po_lex.specs.Escapes.{unescaped};
ghost use Rattle.po_lex.specs.PlainTokens.{plain_part};
ghost use Rattle.po_text.specs.Entries.{previous_strings};
ghost use Rattle.po_text.specs.Strings.{string_limit, is_string_byte};
ghost use Rattle.po_read.specs.Faults.{last_keyword, previous_fault};
ghost use Rattle.po_read.specs.Drafts.{previous_end, previous_more, previous_keyword, previous_with, part_text, part_more};
ghost use Rattle.po_read.specs.ReaderAnswers.{told};

use crate::message::in_order;
use po_lex::{FaultKind, Keyword, Part};
use po_text::{PoString, Previous};
use std::alloc::{AllocError, Global};

/// Whether there is none.
pub(crate) fn has_no_previous(previous: &Previous) -> bool
    ensures { result ≡ not (is_some (last_keyword (previous_strings previous.now))) }
{
    previous.ctx.is_none() && previous.id.is_none() && previous.plural.is_none()
}

/// How many bytes the last string has.
pub(crate) fn previous_len(previous: &Previous) -> usize
    ensures value { result ≡ length (previous_end previous.now) }
    ensures fits { result ≤ string_limit }
{
    if let Some(plural) = &previous.plural {
        plural.as_str().len()
    } else if let Some(id) = &previous.id {
        id.as_str().len()
    } else if let Some(ctx) = &previous.ctx {
        ctx.as_str().len()
    } else {
        0
    }
}

/// Whether this part can follow.
pub(crate) fn test_previous(previous: &Previous, part: &Part<'_>) -> Result<(), FaultKind>
    ensures { told result ≡ previous_fault (last_keyword (previous_strings previous.now)) (plain_part part.now) }
{
    match part {
        Part::Begins(keyword, _) => match keyword {
            Keyword::Msgctxt => in_order(has_no_previous(previous)),
            Keyword::Msgid => in_order(previous.id.is_none() && previous.plural.is_none()),
            Keyword::MsgidPlural => in_order(previous.plural.is_none()),
            Keyword::Msgstr | Keyword::MsgstrAt(_) => Ok(()),
        },
        Part::Continues(_) => in_order(!has_no_previous(previous)),
    }
}

/// Adds one more part, which can follow.
pub(crate) fn add_previous(
    alloc: Global,
    previous: &mut Previous,
    part: Part<'_>,
) -> Result<(), AllocError>
    requires short { length (part_text (previous_end previous.old) (plain_part part)) ≤ string_limit }
    requires bytes { list_all is_string_byte (part_more (plain_part part)) ≡ true }
    ensures { OnOk result (previous.new ≡ previous_with previous.old (plain_part part.entry)) }
{
    match part {
        Part::Begins(keyword, raw) => {
            add_keyword(previous, keyword, PoString::from_piece(alloc, raw)?);
            Ok(())
        }
        Part::Continues(raw) => add_more(alloc, previous, raw),
    }
}

/// Adds one more string.
fn add_keyword(previous: &mut Previous, keyword: Keyword, text: PoString)
    ensures { previous.new ≡ previous_keyword previous.old keyword text }
{
    match keyword {
        Keyword::Msgctxt => previous.ctx = Some(text),
        Keyword::Msgid => previous.id = Some(text),
        _ => previous.plural = Some(text),
    }
}

/// Adds the string of this piece at the last one's end.
fn add_more(alloc: Global, previous: &mut Previous, raw: &str) -> Result<(), AllocError>
    requires short { length (previous_end previous.old) + length (unescaped raw.now) ≤ string_limit }
    requires bytes { list_all is_string_byte (unescaped raw.now) ≡ true }
    ensures { OnOk result (previous.new ≡ previous_more previous.old (unescaped raw.now)) }
{
    if let Some(plural) = &mut previous.plural {
        plural.add_piece(alloc, raw)
    } else if let Some(id) = &mut previous.id {
        id.add_piece(alloc, raw)
    } else if let Some(ctx) = &mut previous.ctx {
        ctx.add_piece(alloc, raw)
    } else {
        Ok(())
    }
}
