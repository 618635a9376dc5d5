//! What the types of an entry's texts keep, for proofs: comment lines are Unicode text, strings are strings of a catalogue.
//! Nothing here does anything when it runs.

ghost use Rattle.std.specs.Prelude.{IsUtf8};
ghost use Rattle.std.specs.List.{AllByRecursion};
ghost use Rattle.po_lex.specs.declared.line.Keyword.{Keyword};
ghost use Rattle.po_text.specs.Entries.{optional};
ghost use Rattle.po_text.specs.Valid.{IsString, AllStrings};
ghost use Rattle.office_specification.specs.EntryStrings.{HasEntryStrings};

use po_text::{Entry, Forms, PoString, Text};

fn is_string(string: &PoString)
    ensures { IsString string.now }
{
    let _ = string.as_str();
}

fn is_string_if_there(string: &Option<PoString>)
    ensures { (keyword : Keyword) → AllStrings IsString (optional keyword string.now) }
{
    if let Some(string) = string {
        is_string(string);
    }
}

fn are_strings(forms: &Forms)
    ensures { AllByRecursion IsString forms.now }
{
    for form in forms.as_slice() {
        is_string(form);
    }
}

fn are_texts(lines: &[Text])
    ensures { AllByRecursion (λ line. IsUtf8 line) lines.now }
{
    for line in lines {
        let _ = line.as_str();
    }
}

/// The types of the texts that a translator writes, and of those that say which message the entry is.
pub(crate) fn has_strings(entry: &Entry)
    ensures { HasEntryStrings entry.now }
{
    are_texts(entry.translator.as_slice());
    is_string_if_there(&entry.ctx);
    is_string(&entry.id);
    is_string_if_there(&entry.plural);
    are_strings(&entry.forms);
    is_string_if_there(&entry.previous.ctx);
    is_string_if_there(&entry.previous.id);
    is_string_if_there(&entry.previous.plural);
}
