//! What is checked, and what is found.
ghost use Rattle.std.specs.Option.{option_copied};
ghost use Rattle.checks.specs.Source.{Source as SourceValue};

use po_text::{Items, PoString, Text};
use std::marker::Model;

/// What a translation is checked against: a msgid, its msgid_plural if it has one, and the flags of its template entry (GNU
/// gettext manual, "The Format of PO Files").
#[derive(Debug, Drop)]
pub struct Source<'a> {
    pub id: &'a PoString,
    pub plural: Option<&'a PoString>,
    pub flags: &'a [Text],
}

impl<'a> Model for Source<'a> {
    ghost Value = { SourceValue };

    ghost view = { λ s. record { id = s.id.now; plural = option_copied s.plural; flags = s.flags.now } };
}

/// The numbers of the forms that each check finds, from 0 and rising.
#[derive(Debug, Drop)]
pub struct Findings {
    /// Forms whose placeholders don't agree with those of the source, under a flag that it has: directives under `c-format`,
    /// brace placeholders under `python-brace-format`.
    pub placeholders: Items<u32>,
    /// Forms that begin or end with LF where msgid doesn't, or don't where it does.
    pub line_ends: Items<u32>,
}
