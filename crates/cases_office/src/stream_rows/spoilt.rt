//! Files that are no office's.
use crate::stream_rows::file_told::come;
use crate::stream_rows::files::{all_rows, written};
use std::alloc::Global;

/// What both told, where it is the same, and else each.
fn both_told(alloc: Global, delivered: String, exported: String) -> Option<String> {
    if delivered.as_str() == exported.as_str() {
        return Some(delivered);
    }
    format!(in alloc; "{delivered}, and of an export {exported}").ok()
}

/// What was told, where the rows are what they were.
fn told_of_rows(alloc: Global, told: String, before: &str, after: &str) -> Option<String> {
    if before == after {
        return Some(told);
    }
    format!(in alloc; "{told}, and the rows are {after}").ok()
}

/// What a delivery and then an export come to on a copy of the file that statements have spoilt.
pub(crate) fn spoilt(alloc: Global, file: &[u8], statements: &str, lines: &[u8]) -> Option<String> {
    let copy = written(alloc, file, statements)?;
    let delivered = come(alloc, copy.as_slice(), "deliver", lines)?;
    let exported = come(alloc, delivered.file.as_slice(), "export de", b"")?;
    let before = all_rows(alloc, copy.as_slice())?;
    let after = all_rows(alloc, exported.file.as_slice())?;
    let told = both_told(alloc, delivered.told, exported.told)?;
    told_of_rows(alloc, told, before.as_str(), after.as_str())
}
