//! The directives of a `c-format` text.

ghost use Rattle.po_text.specs.Texts.{Text};
ghost use Rattle.checks.specs.Directives.{directives};
ghost use Rattle.office_laws.specs.Cuts.{IsCut};

/// A text is made of its directives and of what is skipped, from left to right, and nothing of it is left out or counted twice.
pub fn directives_cut_the_text()
    ensures { (text : Text) → IsCut text (directives text) }
{}
