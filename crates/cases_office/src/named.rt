//! Lines of rows under names.
use crate::words::{behind, word};
use request_book::Request;
use std::alloc::Global;

/// A request's line under a name.
#[derive(Drop)]
pub(crate) struct Named {
    pub(crate) name: String,
    pub(crate) line: String,
}

/// Keeps the line of a deed `NAME is LINE`.
pub(crate) fn keep_named(alloc: Global, kept: &mut Vec<Named>, deed: &str) -> Option<String> {
    let name = String::from_str(alloc, word(deed, 0)).ok()?;
    let line = String::from_str(alloc, behind(behind(deed))).ok()?;
    kept.push(Named { name, line }).ok()?;
    Some(String::new(alloc))
}

/// Adds the request of a line.
pub(crate) fn put_request(alloc: Global, requests: &mut Vec<Request>, line: &str) -> Option<()> {
    match Request::from_json(alloc, line) {
        Ok(request) => requests.push(request).ok(),
        Err(_) => None,
    }
}
