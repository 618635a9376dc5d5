//! What a row comes to.
use crate::catalogue_rows::checked::{tell_braces, tell_directives, tell_findings, tell_state};
use crate::catalogue_rows::entries::{put_entries, put_entry, tell_made};
use crate::catalogue_rows::lexed::{first_fault, tell_fault, tell_lines, tell_read};
use crate::catalogue_rows::rules;
use crate::catalogue_rows::stage::Stage;
use crate::catalogue_rows::texts::{around, po_bytes};
use crate::catalogue_rows::written::{
    tell_canonical, tell_full, tell_one, tell_pushed, tell_write_fault,
};
use po_read::read;
use std::alloc::Global;

/// Tells what a deed comes to, which is nothing where it only sets something. None where it can't be read.
pub(crate) fn tell(alloc: Global, told: &mut String, stage: &mut Stage, deed: &str) -> Option<()> {
    let (name, text) = around(deed, " ");
    match name {
        "text" => put_kept(alloc, stage, text),
        "write-fault" => tell_write_fault(told, text),
        "directives" => tell_directives(alloc, told, text),
        "braces" => tell_braces(alloc, told, text),
        "rule" => rules::put(alloc, told, stage, text),
        "say-rule" => rules::tell_fault(alloc, told, text),
        "index" => rules::tell_index(told, stage, text),
        "serves" => rules::tell_serves(told, stage, text),
        "copy" => rules::put_copy(alloc, told, stage),
        _ => tell_of_entries(alloc, told, stage, name, text),
    }
}

/// Keeps a text.
fn put_kept(alloc: Global, stage: &mut Stage, text: &str) -> Option<()> {
    stage.kept = po_bytes(alloc, stage, text)?;
    Some(())
}

/// Tells what comes of the entries, or of a PO text.
fn tell_of_entries(
    alloc: Global,
    told: &mut String,
    stage: &mut Stage,
    name: &str,
    text: &str,
) -> Option<()> {
    match name {
        "entry" => put_entry(alloc, stage, text),
        "made" => tell_made(alloc, told, stage),
        "one" => tell_one(alloc, told, stage),
        "pushed" => tell_pushed(alloc, told, stage),
        "full" => tell_full(alloc, told, stage, text),
        "findings" => tell_findings(alloc, told, stage),
        "state" => tell_state(alloc, told, stage, text),
        _ => tell_of_text(alloc, told, stage, name, text),
    }
}

/// Tells what comes of a PO text.
fn tell_of_text(
    alloc: Global,
    told: &mut String,
    stage: &mut Stage,
    name: &str,
    text: &str,
) -> Option<()> {
    let bytes = po_bytes(alloc, stage, text)?;
    let done = tell_of_bytes(alloc, told, stage, name, bytes.as_slice());
    drop(bytes);
    done
}

/// Tells what comes of the bytes of a PO text.
fn tell_of_bytes(
    alloc: Global,
    told: &mut String,
    stage: &mut Stage,
    name: &str,
    bytes: &[u8],
) -> Option<()> {
    match name {
        "lex" => tell_fault(told, first_fault(str::from_utf8(bytes).ok()?)),
        "fault" => tell_fault(told, read(alloc, bytes).err()),
        "say" => write!(told, "{}", first_fault(str::from_utf8(bytes).ok()?)?).ok(),
        "lines" => tell_lines(told, str::from_utf8(bytes).ok()?),
        "read" => tell_read(alloc, told, bytes),
        "canon" => tell_canonical(alloc, told, bytes),
        "entries" => put_entries(alloc, stage, bytes),
        _ => None,
    }
}
