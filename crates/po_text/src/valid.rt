//! Whether entries are a valid catalogue.

ghost use Rattle.std.specs.Prelude.{◌≡◌, ◌↔◌, ◌==◌, ◌&&◌, not, true, IfOk};
ghost use Rattle.std.specs.List.{list_all, AllByRecursion};
ghost use Rattle.std.specs.Str.{byte};
ghost use Rattle.std.specs.Option.{IfSome};
ghost use Rattle.po_text.specs.Header.{has_charset};
ghost use Rattle.po_text.specs.Valid.{IsString, IsCommentLine, IsFlag, AreDistinct, AreFlags, IsValidEntry, HasUniqueKeys, IsValid};
ghost use Rattle.po_text.specs.Checked.{is_flag, none_is_fuzzy, lacks_fuzzy, is_single, is_header_like, lacks_header_key, has_header_first, AreCommentLines, AreStrings};

use crate::entry::{Entry, Previous};
use crate::flags::Flags;
use crate::header::has_charset;
use crate::key::{EntryKey, is_header_key};
use crate::string::PoString;
use crate::text::Text;
use po_lex::{is_comment_text, trim};
use std::alloc::{AllocError, Global};
use std::collections::BTreeSet;

/// Whether all three hold.
fn hold_all(first: bool, second: bool, third: bool) -> bool
    ensures { result ≡ (first && (second && third)) }
{
    first && second && third
}

fn is_comment_line(line: &Text) -> bool
    ensures { (result ≡ true) ↔ IsCommentLine line.now }
{
    is_comment_text(line.as_str())
}

fn are_comment_lines(lines: &[Text]) -> bool
    ensures { (result ≡ true) ↔ AllByRecursion IsCommentLine lines.now }
{
    for line in lines {
        if !is_comment_line(line) {
            return false;
        }
    }
    true
}

fn lacks_comma(bytes: &[u8]) -> bool
    ensures { result ≡ list_all (λ b. not (b == byte ",")) bytes.now }
{
    bytes.iter().all(|b| *b != b',')
}

/// Whether the text isn't empty, and has no comma, no character of a comment's fault and no white at its ends.
fn is_flag_text(text: &str) -> bool
    ensures { result ≡ is_flag text.now }
{
    !text.is_empty() && is_comment_text(text) && lacks_comma(text.as_bytes()) && trim(text) == text
}

fn is_flag(flag: &Text) -> bool
    ensures { (result ≡ true) ↔ IsFlag flag.now }
{
    is_flag_text(flag.as_str())
}

fn each_is_flag(flags: &[Text]) -> bool
    ensures { (result ≡ true) ↔ AllByRecursion IsFlag flags.now }
{
    for flag in flags {
        if !is_flag(flag) {
            return false;
        }
    }
    true
}

/// Whether no text stands there twice.
fn are_distinct(alloc: Global, flags: &[Text]) -> Result<bool, AllocError>
    ensures { IfOk result (λ distinct. (distinct ≡ true) ↔ AreDistinct flags.now) }
{
    let mut before = Flags::new(alloc);
    for flag in flags {
        let text = flag.as_str();
        if before.has(text) {
            return Ok(false);
        }
        before = before.with(text)?;
    }
    Ok(true)
}

fn none_is_fuzzy(flags: &[Text]) -> bool
    ensures { result ≡ none_is_fuzzy flags.now }
{
    flags.iter().all(|flag| flag.as_str() != "fuzzy")
}

/// Whether `fuzzy` is no flag but the first.
fn lacks_fuzzy_behind(flags: &[Text]) -> bool
    ensures { result ≡ lacks_fuzzy flags.now }
{
    match flags {
        [] => true,
        [_, others @ ..] => none_is_fuzzy(others),
    }
}

fn are_flags(alloc: Global, flags: &[Text]) -> Result<bool, AllocError>
    ensures { IfOk result (λ are. (are ≡ true) ↔ AreFlags flags.now) }
{
    let distinct = are_distinct(alloc, flags)?;
    Ok(hold_all(distinct, each_is_flag(flags), lacks_fuzzy_behind(flags)))
}

/// A string is Unicode text of a string's characters, by its type.
fn hold_string(string: &PoString)
    ensures { IsString string.now }
{
    let _ = string.as_str();
}

fn hold_maybe(string: &Option<PoString>)
    ensures { IfSome string.now IsString }
{
    if let Some(string) = string {
        hold_string(string);
    }
}

fn hold_strings(strings: &[PoString])
    ensures { AllByRecursion IsString strings.now }
{
    for string in strings {
        hold_string(string);
    }
}

fn hold_previous(previous: &Previous)
    ensures ctx { IfSome previous.now.ctx IsString }
    ensures id { IfSome previous.now.id IsString }
    ensures plural { IfSome previous.now.plural IsString }
{
    hold_maybe(&previous.ctx);
    hold_maybe(&previous.id);
    hold_maybe(&previous.plural);
}

/// The strings of an entry are strings and its forms are 1 to 8, by their types.
fn hold_entry(entry: &Entry)
    ensures { AreStrings entry.now }
{
    hold_maybe(&entry.ctx);
    hold_string(&entry.id);
    hold_maybe(&entry.plural);
    hold_strings(entry.forms.as_slice());
    hold_previous(&entry.previous);
}

/// Whether there is one form where there is no msgid_plural.
fn is_single(entry: &Entry) -> bool
    ensures { result ≡ is_single entry.now }
{
    entry.plural.is_some() || entry.forms.as_slice().len() == 1
}

fn has_comment_lines(entry: &Entry) -> bool
    ensures { (result ≡ true) ↔ AreCommentLines entry.now }
{
    are_comment_lines(entry.translator.as_slice())
        && are_comment_lines(entry.extracted.as_slice())
        && are_comment_lines(entry.references.as_slice())
}

fn is_valid_entry(alloc: Global, entry: &Entry) -> Result<bool, AllocError>
    ensures { IfOk result (λ valid. (valid ≡ true) ↔ IsValidEntry entry.now) }
{
    hold_entry(entry);
    let flagged = are_flags(alloc, entry.flags.as_slice())?;
    Ok(hold_all(flagged, has_comment_lines(entry), is_single(entry)))
}

fn each_is_valid(alloc: Global, entries: &[Entry]) -> Result<bool, AllocError>
    ensures { IfOk result (λ valid. (valid ≡ true) ↔ AllByRecursion IsValidEntry entries.now) }
{
    for entry in entries {
        if !is_valid_entry(alloc, entry)? {
            return Ok(false);
        }
    }
    Ok(true)
}

/// Whether no key stands there twice.
fn has_unique_keys(alloc: Global, entries: &[Entry]) -> Result<bool, AllocError>
    ensures { IfOk result (λ unique. (unique ≡ true) ↔ HasUniqueKeys entries.now) }
{
    let mut keys = BTreeSet::new(alloc);
    for entry in entries {
        let key = EntryKey::of(alloc, &entry.ctx, &entry.id)?;
        if !keys.insert(key)? {
            return Ok(false);
        }
    }
    Ok(true)
}

fn has_charset_in_each(forms: &[PoString]) -> bool
    ensures { result ≡ list_all has_charset forms.now }
{
    forms.iter().all(|form| has_charset(form.as_str()))
}

/// Whether the entry is a header, if it has the header's key.
fn is_header_like(entry: &Entry) -> bool
    ensures { result ≡ is_header_like entry.now }
{
    !is_header_key(&entry.ctx, &entry.id)
        || (entry.plural.is_none()
            && !entry.obsolete
            && has_charset_in_each(entry.forms.as_slice()))
}

/// Whether no entry has the header's key.
fn lacks_header_key(entries: &[Entry]) -> bool
    ensures { result ≡ lacks_header_key entries.now }
{
    entries
        .iter()
        .all(|entry| !is_header_key(&entry.ctx, &entry.id))
}

fn has_header_first(entries: &[Entry]) -> bool
    ensures { result ≡ has_header_first entries.now }
{
    match entries {
        [] => true,
        [first, others @ ..] => is_header_like(first) && lacks_header_key(others),
    }
}

/// Whether the entries are a valid catalogue.
pub(crate) fn is_valid(alloc: Global, entries: &[Entry]) -> Result<bool, AllocError>
    ensures { IfOk result (λ valid. (valid ≡ true) ↔ IsValid entries.now) }
{
    let unique = has_unique_keys(alloc, entries)?;
    let each = each_is_valid(alloc, entries)?;
    Ok(hold_all(unique, each, has_header_first(entries)))
}
